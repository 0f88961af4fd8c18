//! Laws of a search. Each function does nothing: its contract is the law.
ghost use Rattle.arr_search.specs.Laws.{Branches, Dies, FindsClosure, Finishes, Improves, Leaves, PlansPay, Starts, StepsAreFew, TreesAreAccepted};

/// What a legal plan of a formed list costs is no less than any floor under facts that follow (docs/CERTIFICATES.md, "Floors").
pub fn plans_pay()
    ensures { PlansPay }
{}

/// A search of a formed list begins with the node of the facts that the list gives (docs/CERTIFICATES.md, "Searching").
pub fn starts()
    ensures { Starts }
{}

/// A legal plan that costs less may take the place of the best so far at any time (docs/CERTIFICATES.md, "Searching").
pub fn improves()
    ensures { Improves }
{}

/// A node may become steps and a branch on an open pair, where its floor is below the cost (docs/CERTIFICATES.md, "Searching").
pub fn branches()
    ensures { Branches }
{}

/// A node may become steps and a leaf that no plan reaches (docs/CERTIFICATES.md, "Searching").
pub fn dies()
    ensures { Dies }
{}

/// A node may become steps and a leaf by its worth (docs/CERTIFICATES.md, "Searching").
pub fn leaves()
    ensures { Leaves }
{}

/// Once no node is left, the tree is accepted, and its bound and its units are as a search answers them
/// (docs/CERTIFICATES.md, "Searching").
pub fn finishes()
    ensures { Finishes }
{}

/// Steps from the facts of a formed list to where no rule gives a new fact find its closure (docs/CERTIFICATES.md, "Floors").
pub fn finds_closure()
    ensures { FindsClosure }
{}

/// No more steps than three for each two operations can be taken (docs/CERTIFICATES.md, "Rules").
pub fn steps_are_few()
    ensures { StepsAreFew }
{}

/// A certificate with a legal plan at its cost, and with a tree that is read as whole under the bound, is accepted
/// (docs/CERTIFICATES.md, "Searching").
pub fn trees_are_accepted()
    ensures { TreesAreAccepted }
{}
