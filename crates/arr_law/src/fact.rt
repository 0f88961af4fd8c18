/// What may be known of the blocks of two operations (docs/CERTIFICATES.md, "Facts"). Operations are numbered from 1.
#[derive(Clone, Copy, Debug, PartialEq, Eq)]
pub enum Fact {
    /// Both stand in one block.
    Same(u32, u32),
    /// They stand in two blocks.
    Apart(u32, u32),
    /// The block of the first does not stand after the block of the second.
    Before(u32, u32),
}
