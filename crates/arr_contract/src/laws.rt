//! Laws of the blocks of a list. Each function does nothing: its contract is the law.
ghost use Rattle.arr_contract.specs.Laws.{BlocksWeigh};

/// What a block of a formed list reads and writes weighs, in bytes, what it weighs by the types that its own operations give to bases
/// (docs/PLANS.md, "Cost").
pub fn blocks_weigh()
    ensures { BlocksWeigh }
{}
