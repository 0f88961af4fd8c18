//! The law of fused blocks: what a walk in strips has to do so that it leaves what the block's operations leave.
//!
//! A block of a legal plan is walked once. At some positions after another, in row-major order, the views that it reads are
//! loaded, each operation runs over all of these positions, and the views that it writes are stored; reductions gather into
//! accumulators, which are written when the walk has ended. The laws here say that this leaves the bases and the slots of the
//! operations run one after another, however the positions are cut into strips, and how many bytes it moves. Each function does
//! nothing: its contract is the law.
//!
//! The promise: `blocks_of_plans` gives what the other laws ask, for each block of a legal plan none of whose operations is
//! serial. `strips_begin` and `strips_go_on` carry the walk on, strip by strip; `lines_go_on` does so by registers, and
//! `parts_of_rows` says where a part of a strip stands. `sums_begin` and `sums_go_on` carry its accumulators. `sums_end` and
//! `strips_keep_slots` say what the whole walk leaves; `reads_weigh` and `writes_weigh` count bytes.
//!
//! The definitions: `specs/Columns.antt` has a block as columns, a number for each view at each position (`next`, `ends`);
//! `specs/Strips.antt` what a walk has left after some positions (`Walked`); `specs/Sums.antt` accumulators; `specs/Blocks.antt`
//! what a block is (`is_block`) and what its walk stores; `specs/Registers.antt` a block as lines over numbered registers (`ran`);
//! `specs/Laws.antt` the laws as statements.
#![tactic(auto)]

mod laws;

pub use laws::{
    blocks_of_plans, lines_go_on, parts_of_rows, reads_weigh, strips_begin, strips_gather,
    strips_go_on, strips_keep_bases, strips_keep_slots, sums_begin, sums_end, sums_go_on,
    writes_weigh,
};
