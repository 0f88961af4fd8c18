//! When views meet: whether two views overlap, are identical, or one repeats an element.
//!
//! The promise: `identical`, `overlaps` and `repeats` are the words of docs/PLANS.md, "Views", on the lists of elements, exactly.
//! `identical` compares the parts of the views and takes no memory. `overlaps` asks the bases, ranges, steps and columns of the views,
//! and then whether steps along both lead to a common element, which tells both ways and mostly; only where that may take too many
//! tries, the elements of one view are marked in a row of bits and the other is walked once. `repeats` asks the strides first: a dimension that stays at one element repeats it, and nothing repeats where
//! no steps along the dimensions, fewer than each one's length, up or down, lead back to where they began; what is left is walked
//! once, over such marks. Both answer want of memory where the row can't be had. A view with a stride of 1 is marked by runs, words at
//! a time.
//!
//! `Classes` numbers the classes of identical views by first sight and knows of each two of them whether they overlap; only making it
//! takes memory. Each pair is decided once, and a view is marked only where a pair of which it is one is decided by marks.
//!
//! The definitions are those of arr_view, specs/Views.antt; specs/Classes.antt says which views come first of their class,
//! specs/Alike.antt says by parts which views are identical, specs/Marks.antt what a row of bits marks, specs/Filters.antt what the
//! tests without a walk ask, and specs/Legs.antt where steps of given sizes lead.
#![tactic(auto)]

mod alike;
mod classes;
mod filters;
mod fronts;
mod legs;
mod meeting;
mod pairs;
mod strides;
mod turns;

pub use alike::identical;
pub use classes::{Classes, MOST_VIEWS};
pub use meeting::{overlaps, repeats};

/// Want of memory.
pub use std::alloc::AllocError as NoMemory;
