//! The memory that operations run on: buffers by base, print slots, and counters.
//!
//! A [`Store`] holds the numbers of each base, in the bytes of their type, and counts the bytes that are loaded and stored and the
//! buffers that are made. [`Slots`] holds what the SYNCs of one list show.
//!
//! The promise: a store is a finite map from base to type and list of numbers. `load` gives the number that is kept, `store`
//! changes that one number, `make` adds a base of zeros and `drop_base` takes one away; each raises its own counter and no other,
//! and none falls. Every number is of its base's type. A refused `make` or `pick` changes nothing, and only what makes a store, a base or
//! slots takes memory. `load` and `store` take constant time: an index leads from the base to its buffer. `load_run` and
//! `store_run` move numbers that lie a stride apart ([`Run`]) between a base and any place of a [`Buffer`] of its type, and count each
//! of them; `store_numbers` does so from a list of numbers, and `put_run` puts such numbers into a slot. `pick` reads by an index: it makes a base of the numbers that the index names, and counts what
//! it loaded and stored. Each of these calls counts the numbers of a base that it reaches, and no other call changes a counter but
//! `count_loads`: `buffer` shows the numbers of a base where they stand and counts none, and who reads them there counts them by it.
//!
//! The definitions: `specs/Stored.antt` has what a contract sees of a store, its bases as a function from numbers to cells (`cells`),
//! as `Memory` of arr_ops has them, the memory that is made of them (`memory_of`), and the cell that reading by an index makes
//! (`picked_cell`); `specs/Slots.antt` has the slots as such a function (`slots_of`) and the slots of a list (`blank_slots`);
//! `specs/Cells.antt` what calls read of one cell, and `assigned`, a function changed at one number; `specs/Runs.antt` the places of a
//! run. `cell_of` (`specs/Buffers.antt`) is the type and the numbers of a buffer. How fields show these (`Tables`, `Pages`) no clause
//! names.
#![tactic(auto)]

mod buffer;
mod picks;
mod runs;
mod slots;
mod store;

pub use buffer::Buffer;
pub use runs::Run;
pub use slots::Slots;
pub use store::Store;
