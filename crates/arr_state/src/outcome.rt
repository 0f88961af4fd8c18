/// How a saturation ended (docs/CERTIFICATES.md, "Derivation").
#[derive(Clone, Copy, Debug, PartialEq, Eq)]
pub enum Outcome {
    /// No rule gives a new fact.
    Closed,
    /// Of these two operations, the lesser first, both Same and Apart are known.
    Contradiction(u32, u32),
    /// The budget is spent, and a further rule applies.
    Spent,
}

/// Whether steps go on.
#[derive(Clone, Copy)]
pub(crate) enum Going {
    /// They do, with so many left.
    On(u64),
    /// Of these two operations both Same and Apart are known.
    Clash(u32, u32),
    /// None is left, and a further rule applies.
    NoneLeft,
}
