//! What is to be tried for a fact.

/// A rule with the operations of a fact in place, and at most one place open.
#[derive(Clone, Copy)]
pub(crate) enum Job {
    /// A rule at two operations, and no place open.
    Two(u8, u32, u32),
    /// A rule at two operations and each third.
    Behind(u8, u32, u32),
    /// A rule at each first operation and two more.
    Front(u8, u32, u32),
    /// Rule 9 at the second operation and each FREE of a base of which both have a view.
    Frees(u32, u32),
}
