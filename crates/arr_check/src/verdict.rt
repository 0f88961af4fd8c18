use arr_law::Reject;

/// What a certificate is answered (docs/CERTIFICATES.md, "Rejections").
#[derive(Clone, Copy, Debug, PartialEq, Eq)]
pub enum Verdict {
    /// The plan is legal and costs so much, and no legal plan costs less than the bound, in bytes.
    Yes { cost: u64, bound: u64 },
    /// The record in a line, counted from 1, is the first wrong one.
    No { line: u64, kind: Reject },
}
