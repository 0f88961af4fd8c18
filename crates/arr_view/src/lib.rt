//! Strided views of flat bases.
//!
//! A view picks elements of a base: from a start, in one to four dimensions, each with a length and a stride. This crate says which
//! views there are, what they stand for and when two of them meet, and counts their elements without listing them.
//!
//! The promise: every `View` obeys the rules of views (`is_view`), since `View::new` and `View::whole` refuse exactly the parts that
//! break one; each call on a view says so again (clause `lawful`). `element` is the element at a position, `ends` are the least and the
//! greatest element, `is_gapless` tells consecutive elements, and a `Walk` yields the elements in row-major order, by additions alone.
//! No call takes memory and none overflows, whatever it is given; only a walk takes time in the elements.
//!
//! The definitions: `specs/Strided.antt` has what a contract sees of a view; `specs/Views.antt` its elements (`elements`), when two
//! views share one (`overlap`), are one (`identical`), one repeats (`repeats`) or is without a gap (`is_consecutive`), and the rules of
//! views (`is_view`); `specs/Walks.antt` what is left of a walk. `docs/LANGUAGE.md` states the same rules in words.
#![tactic(auto)]

mod shape;
mod view;
mod walk;

pub use shape::Shape;
pub use view::{MOST_ELEMENTS, View, offset};
pub use walk::Walk;
