//! Laws of formed lists. Each function does nothing: its contract is the law.
ghost use Rattle.arr_law.specs.Laws.{FloorsAreLow, PlansAgree, PlansSettle, YesCertifies};

/// A certificate of a formed list that is answered yes certifies: its places are those of a legal plan, the plan costs what is
/// answered, in bytes, and no legal plan costs less than the bound (docs/CERTIFICATES.md, "What a yes means").
pub fn yes_certifies()
    ensures { YesCertifies }
{}

/// Every legal plan of a formed list is legal, and costs the same, as a place for each operation
/// (docs/CERTIFICATES.md, "What a planner sees").
pub fn plans_agree()
    ensures { PlansAgree }
{}

/// Moving each FREE of a formed list to the last user of its base keeps a plan legal and never raises its cost
/// (docs/CERTIFICATES.md, "Settled plans").
pub fn plans_settle()
    ensures { PlansSettle }
{}

/// No legal plan of a formed list costs less than the floor under facts that the list gives by the rules
/// (docs/CERTIFICATES.md, "Floors").
pub fn floors_are_low()
    ensures { FloorsAreLow }
{}
