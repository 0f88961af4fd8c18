//! Laws of the planners. Each function does nothing: its contract is the law.
ghost use Rattle.arr_heur.specs.HeurLaws.{GreedyIsLegal, GreedySaves, LinearIsLegal};

/// The plan of `linear` is legal, for every list (docs/PLANS.md, "Planners").
pub fn linear_is_legal()
    ensures { LinearIsLegal }
{}

/// The blocks of `greedy` have an order, and in it they are a legal plan, for every list (docs/PLANS.md, "Planners").
pub fn greedy_is_legal()
    ensures { GreedyIsLegal }
{}

/// The plan of `greedy` costs at most what one block an operation costs, for every list (docs/PLANS.md, "Planners").
pub fn greedy_saves()
    ensures { GreedySaves }
{}
