//! What follows from the contract of [`serve`](crate::serve). Each function does nothing: its contract is the law.
ghost use Rattle.arr_run.specs.Laws.{ChecksCertify, FaultsAreCounted, MovesLittle, PrintsEagerly, RanInArrays, RanInHead, RanWhole, RefusalKeepsStore, RunIsKnown, RunsCheck, RunsGoOn};

/// What the statuses of `run` say, taken from the relation `Serves` alone (docs/LANGUAGE.md, "The program"): at 0 the script is
/// accepted, and the text of a whole run of it was written: plan lines, where they are listed, and its eager arrays, and where no plans are
/// listed these arrays alone; at 1 the store is as it was; 2 and 6 never come.
pub fn statuses_say()
    ensures done { PrintsEagerly }
    ensures refused { RefusalKeepsStore }
    ensures known { RunIsKnown }
{}

/// What status 0 and 6 of `check` say, taken from the relation `Serves` alone: the script is accepted, the lines of the verdict on the proof
/// were written, and for each flush that they name there is a legal plan of its list that costs what is said, and no legal plan costs less
/// than the bound (docs/CERTIFICATES.md, "What a yes means").
pub fn checks_certify()
    ensures { ChecksCertify }
{}

/// What `run --cert` wrote with the planner best is a proof that `check` accepts for the same script, flush by flush with the cost and the bound
/// of the plan that was listed, as long as it has at most 67,108,864 bytes: taken from the relation `Serves` of both calls alone
/// (docs/CERTIFICATES.md, "The words").
pub fn runs_check()
    ensures { RunsCheck }
{}

/// A run with the planner linear or greedy of which some parts alone were begun is a front of a whole run of the script: so what was written
/// where a write failed or memory was wanting is a front of a text that status 0 allows.
pub fn runs_go_on()
    ensures { RunsGoOn }
{}

/// What the plan of a flush loads, and what it stores, is each no more than it costs, and with best no more than what greedy's plan costs: so
/// much is known of the counters of a store after a run that listed no plan (docs/PLANS.md, "Cost").
pub fn moves_little()
    ensures { MovesLittle }
{}

/// Over sources and a sink whose counts of faults don't change, as those that never fail, `serve` answers neither 3 nor 4.
pub fn faults_are_counted()
    ensures { FaultsAreCounted }
{}

/// How many parts count as run when the text of a run was written so far: those before the one in whose head the first missing
/// byte stands; with the one in whose array lines it stands; all of them where none is missing.
pub fn parts_are_counted()
    ensures head { RanInHead }
    ensures arrays { RanInArrays }
    ensures whole { RanWhole }
{}
