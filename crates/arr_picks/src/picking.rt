//! Picking by an index.
ghost use Rattle.std.specs.Prelude.{◌≡◌, ◌<◌, IfOk, length, map};
ghost use Rattle.arr_view.specs.Views.{elements, is_consecutive, positions};
ghost use Rattle.arr_ops.specs.Gathers.{picked};
ghost use Rattle.arr_picks.specs.Picks.{AllBelow, number_named, numbers_of};

use crate::elements::element_at;
use crate::position::Index;
use arr_native::Native;
use arr_view::{View, Walk};
use std::alloc::{AllocError as NoMemory, Global};

/// The number of a view that a number of an index names. The numbers of the view's base are given, and it is told how many positions the
/// view has and whether it has no gap.
#[inline(always)]
fn number_named<T: Native, I: Index>(
    numbers: &[T],
    view: &View,
    gapless: bool,
    count: u32,
    index: I,
) -> T
    requires told { gapless ≡ is_consecutive view.now }
    requires count { count ≡ positions view.now.lengths }
    requires some { 0 < count }
    requires inside { AllBelow (length numbers.now) (elements view.now) }
    ensures { T.number result ≡ number_named (numbers_of (map T.number numbers.now) (elements view.now))
        (I.number index) }
{
    let position = index.position(count);
    numbers[element_at(view, gapless, position) as usize].itself()
}

/// The numbers of a view that the numbers of a list name, one after another.
fn picked_by_row<T: Native, I: Index>(
    alloc: Global,
    numbers: &[T],
    view: &View,
    index: &[I],
) -> Result<Vec<T>, NoMemory>
    requires { AllBelow (length numbers.now) (elements view.now) }
    ensures { IfOk result (λ v. map T.number v.items
        ≡ picked (numbers_of (map T.number numbers.now) (elements view.now)) (map I.number index.now)) }
{
    let gapless = view.is_gapless();
    let count = view.positions();
    let mut picked = Vec::with_capacity(alloc, index.len())?;
    for number in index {
        picked.push_reserved(number_named(numbers, view, gapless, count, *number));
    }
    Ok(picked)
}

/// The numbers of a view that the numbers at places of a list name, one after another.
fn picked_by_walk<T: Native, I: Index>(
    alloc: Global,
    numbers: &[T],
    view: &View,
    index: &[I],
    places: &View,
) -> Result<Vec<T>, NoMemory>
    requires inside { AllBelow (length numbers.now) (elements view.now) }
    requires there { AllBelow (length index.now) (elements places.now) }
    ensures { IfOk result (λ v. map T.number v.items
        ≡ picked (numbers_of (map T.number numbers.now) (elements view.now)) (numbers_of (map I.number index.now) (elements places.now))) }
{
    let gapless = view.is_gapless();
    let count = view.positions();
    let mut picked = Vec::with_capacity(alloc, places.positions() as usize)?;
    for place in Walk::new(places) {
        let number = index[place as usize];
        picked.push_reserved(number_named(numbers, view, gapless, count, number));
    }
    Ok(picked)
}

/// The numbers of a view that the numbers of another view name, where the numbers of the bases of both are given.
fn picked_by<T: Native, I: Index>(
    alloc: Global,
    numbers: &[T],
    view: &View,
    index: &[I],
    places: &View,
) -> Result<Vec<T>, NoMemory>
    requires inside { AllBelow (length numbers.now) (elements view.now) }
    requires there { AllBelow (length index.now) (elements places.now) }
    ensures { IfOk result (λ v. map T.number v.items
        ≡ picked (numbers_of (map T.number numbers.now) (elements view.now)) (numbers_of (map I.number index.now) (elements places.now))) }
{
    if !places.is_gapless() {
        return picked_by_walk(alloc, numbers, view, index, places);
    }
    let start = places.start() as usize;
    let end = start + places.positions() as usize;
    picked_by_row(alloc, numbers, view, &index[start..end])
}

/// The numbers of a view one after another, where the numbers of its base are given.
fn in_order<T: Native>(alloc: Global, numbers: &[T], view: &View) -> Result<Vec<T>, NoMemory>
    requires { AllBelow (length numbers.now) (elements view.now) }
    ensures { IfOk result (λ v. map T.number v.items ≡ numbers_of (map T.number numbers.now) (elements view.now)) }
{
    let mut ordered = Vec::with_capacity(alloc, view.positions() as usize)?;
    for place in Walk::new(view) {
        ordered.push_reserved(numbers[place as usize].itself());
    }
    Ok(ordered)
}

/// For each number of an index, the number of a view at the position that it names (docs/LANGUAGE.md, "Gather and scatter"). Given are
/// the numbers of the bases of both: those of the view stand at its elements, and those of the index at the elements of `places`. An Err
/// is want of memory.
///
/// The numbers of a view with gaps are put in order first, unless the index has fewer positions than the view.
pub fn picked<T: Native, I: Index>(
    alloc: Global,
    numbers: &[T],
    view: &View,
    index: &[I],
    places: &View,
) -> Result<Vec<T>, NoMemory>
    requires inside { AllBelow (length numbers.now) (elements view.now) }
    requires there { AllBelow (length index.now) (elements places.now) }
    ensures { IfOk result (λ v. map T.number v.items
        ≡ picked (numbers_of (map T.number numbers.now) (elements view.now)) (numbers_of (map I.number index.now) (elements places.now))) }
{
    let count = view.positions();
    if view.is_gapless() || places.positions() < count {
        return picked_by(alloc, numbers, view, index, places);
    }
    let ordered = in_order(alloc, numbers, view)?;
    match View::whole(view.base(), &[count]) {
        Some(row) => picked_by(alloc, &ordered, &row, index, places),
        None => picked_by(alloc, numbers, view, index, places),
    }
}
