//! Laws of blocks. Each function does nothing: its contract is the law.
ghost use Rattle.arr_loop.specs.Laws.{BuffersMade, SerialBlocks};

/// A block with a serial operation has no other operation but FREEs; it creates no base, shows nothing, and leaves what that operation
/// leaves, without the bases that it frees (docs/PLANS.md, "Running a block").
pub fn serial_blocks()
    ensures { SerialBlocks }
{}

/// Over the blocks of a legal plan of a formed list, opening makes as many buffers as the list creates bases that no block contracts
/// (docs/PLANS.md, "Running a block").
pub fn buffers_made()
    ensures { BuffersMade }
{}
