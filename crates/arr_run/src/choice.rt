//! What the words of `run` choose.

/// The budget of a search where the words name none, in units (docs/PLANS.md, "Planners").
pub(crate) const BUDGET: u64 = 200_000;

/// The greatest budget that words may name.
pub(crate) const MOST_BUDGET: u64 = 4_000_000;

/// The planner of a run (docs/PLANS.md, "Planners").
#[derive(Clone, Copy, Debug, PartialEq, Eq)]
pub enum Fuse {
    Linear,
    Greedy,
    Best,
}

/// What is written of each flush before its arrays (docs/PLANS.md, "The listing").
#[derive(Clone, Copy, Debug, PartialEq, Eq)]
pub enum Listing {
    /// Nothing.
    Quiet,
    /// The rewritten list, its plan, and for best the bound.
    Plan,
    /// The same, and for best the certificate (docs/CERTIFICATES.md, "The text").
    Cert,
}

/// How lists are planned and what is listed.
#[derive(Clone, Copy, Debug, PartialEq, Eq)]
pub struct Choice {
    pub fuse: Fuse,
    /// How many steps and branches the search for a best plan may take for a list; no other planner looks at it.
    pub budget: u64,
    pub listing: Listing,
}
