ghost use Rattle.arr_strips.specs.Laws.{BlocksOfPlans, StripsBegin, StripsGoOn, StripsKeepBases, StripsKeepSlots};
ghost use Rattle.arr_strips.specs.Laws.{Gathers, LinesGoOn, PartsOfRows, ReadsWeigh, SumsBegin, SumsEnd, SumsGoOn, WritesWeigh};

/// The operations of a block of a legal plan, none of them serial, are what the laws below ask (docs/PLANS.md, "Legal plans").
pub fn blocks_of_plans()
    ensures { BlocksOfPlans }
{}

/// A walk begins from what opening leaves: the bases as they are, and zeros for the bases that the block creates and keeps.
pub fn strips_begin()
    ensures { StripsBegin }
{}

/// One strip more: loads at its positions, computes its columns, and stores the views that are written, one after another.
pub fn strips_go_on()
    ensures { StripsGoOn }
{}

/// One strip more, by registers: loads, lines over the registers at each place of the strip, stores.
pub fn lines_go_on()
    ensures { LinesGoOn }
{}

/// Positions of a view that lie in one row stand in a run of places, as far apart as the stride of its last dimension.
pub fn parts_of_rows()
    ensures { PartsOfRows }
{}

/// A block that is walked to its end leaves the bases that its operations leave, once the results of its reductions are written
/// and the bases that it frees are dropped.
pub fn strips_keep_bases()
    ensures { StripsKeepBases }
{}

/// It shows the slots that its operations show.
pub fn strips_keep_slots()
    ensures { StripsKeepSlots }
{}

/// What a reduction has gathered when the walk ends is its results.
pub fn strips_gather()
    ensures { Gathers }
{}

/// Accumulators begin with the start of their fold.
pub fn sums_begin()
    ensures { SumsBegin }
{}

/// What was gathered before a strip is what the columns of that strip ask.
pub fn sums_go_on()
    ensures { SumsGoOn }
{}

/// A block that is walked to its end leaves the bases that its operations leave, once its accumulators are written and the bases
/// that it frees are dropped.
pub fn sums_end()
    ensures { SumsEnd }
{}

/// The bytes that a block loads: at each position one number for each view that is read (docs/PLANS.md, "Cost").
pub fn reads_weigh()
    ensures { ReadsWeigh }
{}

/// The bytes that a block stores: at each position one number for each view that a walk stores, and after it the results of the
/// reductions that are kept (docs/PLANS.md, "Cost").
pub fn writes_weigh()
    ensures { WritesWeigh }
{}
