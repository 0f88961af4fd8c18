/// What is wrong with the first wrong record of a certificate (docs/CERTIFICATES.md, "Rejections").
#[derive(Clone, Copy, Debug, PartialEq, Eq)]
pub enum Reject {
    /// The text is longer than may be read.
    TooLong,
    /// The line is no spelling of a record.
    Malformed,
    /// The records end too early.
    Unfinished,
    /// A record follows what was whole.
    Trailing,
    /// The record can't stand there.
    Misplaced,
    /// The number of the flush or of its operations is another.
    BadHead,
    /// The places are not one for each operation, from 1 on, each used.
    BadPlan,
    /// Two operations of a block are not fusible.
    NotFusible,
    /// An operation stands before one that it depends on.
    Backward,
    /// The plan costs something else.
    WrongCost,
    /// The rule doesn't apply, or what it gives was known.
    BadStep,
    /// The two operations can't be told apart here.
    BadBranch,
    /// The leaf is not lawful.
    BadLeaf,
    /// The leaf is worth less than the bound.
    WeakLeaf,
}
