//! Element types, opcodes and their values.
//!
//! This is the ground that every other crate stands on: the four types of array elements, the
//! thirty-one opcodes, and what each opcode makes of its inputs, on whole numbers.
//!
//! The promise: `width`, `least`, `greatest`, `holds` and `wrap` of `Elem` are the table of types, exact
//! for every `i128`; `binary` and `unary` give the value of an opcode, and `fold_start` what a fold along
//! an axis begins with. No call takes memory and none can fail.
//!
//! The definitions: `specs/Numbers.antt` has the types, the table of values (`whole`), what wrapping
//! means (`wrap`), the value of an opcode (`value`) and the starts of folds (`fold_start`);
//! `specs/Kinds.antt` sorts the opcodes, `specs/Types.antt` says which types each has, and
//! `specs/Laws.antt` states what holds of wrapping and of folds. `docs/LANGUAGE.md` states the same rules in words.
#![tactic(auto)]

mod code;
mod elem;
mod laws;
mod value;

pub use code::Code;
pub use elem::Elem;
pub use laws::{fold_laws, wrapping_law};
pub use value::{binary, fold_start, unary};
