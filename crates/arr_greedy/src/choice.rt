//! Which two blocks are merged next.
ghost use Rattle.std.specs.Prelude.{◌≡◌, ◌<◌, ◌≤◌, ◌*◌, length, IsTrue, None, drop, nat_lt};
ghost use Rattle.std.specs.List.{All};
ghost use Rattle.std.specs.Option.{option_map};
ghost use Rattle.arr_ops.specs.Formed.{all_pairs};
ghost use Rattle.arr_ops.specs.Order.{In};
ghost use Rattle.arr_greedy.specs.Bits.{AreBetween, bit, some_stands, words};
ghost use Rattle.arr_greedy.specs.Fast.{amount, better, flag, found_below, may_beat, next_pair, saves_more};
ghost use Rattle.arr_greedy.specs.Tables.{Bounded, IsBetter, SaysMerges, TellsWays, best_at, best_in_row};

use crate::grid::{has, words};

/// The flag of a row and a column.
pub(crate) fn at(rows: &[bool], width: usize, row: usize, column: usize) -> bool
    requires row_in { row < width }
    requires column_in { column < width }
    requires size { length rows.now ≡ width * width }
    ensures { result ≡ flag rows.now width row column }
{
    rows[row * width + column]
}

/// The number of a row and a column.
fn amount_at(rows: &[u64], width: usize, row: usize, column: usize) -> u64
    requires row_in { row < width }
    requires column_in { column < width }
    requires size { length rows.now ≡ width * width }
    ensures { result ≡ amount rows.now width row column }
{
    rows[row * width + column]
}

/// Of a word of blocks those that stand on a way from one to another, told what each block reaches and what reaches it.
fn between(
    reaches: &[u64],
    reached: &[u64],
    width: usize,
    from: usize,
    to: usize,
    index: usize,
) -> u64
    requires from_in { from < width }
    requires to_in { to < width }
    requires index_in { index < words width }
    requires reaches_size { length reaches.now ≡ width * words width }
    requires reached_size { length reached.now ≡ width * words width }
    ensures { AreBetween reaches.now reached.now width from to index result }
{
    reaches[from * words(width) + index] & reached[to * words(width) + index] & reached[index]
}

/// Whether some block stands on a way from one to another.
fn some_stands(reaches: &[u64], reached: &[u64], width: usize, from: usize, to: usize) -> bool
    requires from_in { from < width }
    requires to_in { to < width }
    requires reaches_size { length reaches.now ≡ width * words width }
    requires reached_size { length reached.now ≡ width * words width }
    ensures { result ≡ some_stands reaches.now reached.now width from to }
{
    for index in 0..words(width) {
        if between(reaches, reached, width, from, to, index) != 0 {
            return true;
        }
    }
    false
}

/// Whether two blocks may be merged: not where one reaches the other by a third. Where neither reaches the other no third stands between.
pub(crate) fn may_merge(
    fuses: &[bool],
    reaches: &[u64],
    reached: &[u64],
    width: usize,
    left: usize,
    right: usize,
) -> bool
    requires left_in { left < width }
    requires right_in { right < width }
    requires fuses_size { length fuses.now ≡ width * width }
    requires reaches_size { length reaches.now ≡ width * words width }
    requires reached_size { length reached.now ≡ width * words width }
    ensures { SaysMerges fuses.now reaches.now reached.now width left right result }
{
    if !at(fuses, width, left, right) {
        return false;
    }
    if has(reaches, width, left, right) {
        return !some_stands(reaches, reached, width, left, right);
    }
    if has(reaches, width, right, left) {
        return !some_stands(reaches, reached, width, right, left);
    }
    true
}

/// Whether a pair saves more than the one found so far.
fn saves_more(
    saved: &[u64],
    width: usize,
    found: Option<(usize, usize)>,
    left: usize,
    right: usize,
) -> bool
    requires left_in { left < width }
    requires right_in { right < width }
    requires found_in { IsTrue (found_below width found) }
    requires size { length saved.now ≡ width * width }
    ensures { result ≡ saves_more (amount saved.now width) found left right }
{
    match found {
        None => true,
        Some((a, b)) => amount_at(saved, width, a, b) < amount_at(saved, width, left, right),
    }
}

/// The pair, if the two may be merged and save more than those found so far; else what was found.
fn better_pair(
    fuses: &[bool],
    reaches: &[u64],
    reached: &[u64],
    saved: &[u64],
    width: usize,
    found: Option<(usize, usize)>,
    left: usize,
    right: usize,
) -> Option<(usize, usize)>
    requires left_in { left < width }
    requires right_in { right < width }
    requires found_in { IsTrue (found_below width found) }
    requires fuses_size { length fuses.now ≡ width * width }
    requires reaches_size { length reaches.now ≡ width * words width }
    requires reached_size { length reached.now ≡ width * words width }
    requires saved_size { length saved.now ≡ width * width }
    ensures best { IsBetter fuses.now reaches.now reached.now saved.now width found left right result }
    ensures below { IsTrue (found_below width result) }
{
    if saves_more(saved, width, found, left, right)
        && may_merge(fuses, reaches, reached, width, left, right)
    {
        Some((left, right))
    } else {
        found
    }
}

/// The best of the pairs of one block with those from a place on.
fn best_in_row(
    keys: &[usize],
    fuses: &[bool],
    reaches: &[u64],
    reached: &[u64],
    saved: &[u64],
    width: usize,
    left: usize,
    from: usize,
) -> Option<(usize, usize)>
    requires left_in { In left keys.now }
    requires from_in { from ≤ length keys.now }
    requires keys_in { All (λ k. k < width) keys.now }
    requires fuses_size { length fuses.now ≡ width * width }
    requires reaches_size { length reaches.now ≡ width * words width }
    requires reached_size { length reached.now ≡ width * words width }
    requires ways { TellsWays keys.now reaches.now reached.now width }
    requires saved_size { length saved.now ≡ width * width }
    ensures best { result ≡ best_in_row fuses.now reaches.now saved.now width keys.now None left (drop from keys.now) }
    ensures below { IsTrue (found_below width result) }
{
    let mut found = None;
    for place in from..keys.len() {
        found = better_pair(
            fuses,
            reaches,
            reached,
            saved,
            width,
            found,
            left,
            keys[place],
        );
    }
    found
}

/// Whether a pair of a row may save more than the one found so far, told the row's bound.
fn may_beat(saved: &[u64], width: usize, found: Option<(usize, usize)>, bound: Option<u64>) -> bool
    requires found_in { IsTrue (found_below width found) }
    requires size { length saved.now ≡ width * width }
    ensures { result ≡ may_beat (amount saved.now width) found bound }
{
    match (bound, found) {
        (None, _) => false,
        (Some(_), None) => true,
        (Some(most), Some((a, b))) => amount_at(saved, width, a, b) < most,
    }
}

/// What a pair saves, if there is one.
fn saving_of(saved: &[u64], width: usize, found: Option<(usize, usize)>) -> Option<u64>
    requires found_in { IsTrue (found_below width found) }
    requires size { length saved.now ≡ width * width }
    ensures { result ≡ option_map (λ p. amount saved.now width p.0 p.1) found }
{
    match found {
        None => None,
        Some((a, b)) => Some(amount_at(saved, width, a, b)),
    }
}

/// Of two pairs the one that saves more, the first where both save the same.
fn better(
    saved: &[u64],
    width: usize,
    before: Option<(usize, usize)>,
    found: Option<(usize, usize)>,
) -> Option<(usize, usize)>
    requires before_in { IsTrue (found_below width before) }
    requires found_in { IsTrue (found_below width found) }
    requires size { length saved.now ≡ width * width }
    ensures best { result ≡ better (λ p. amount saved.now width p.0 p.1) before found }
    ensures below { IsTrue (found_below width result) }
{
    match found {
        None => before,
        Some((left, right)) => {
            if saves_more(saved, width, before, left, right) {
                return found;
            }
            before
        }
    }
}

/// The best of the pairs of one block with those behind it, after what was found before. They are looked at where the row's bound says that
/// one may be better, and the bound is then what the best of them saves.
fn better_in_row(
    keys: &[usize],
    fuses: &[bool],
    reaches: &[u64],
    reached: &[u64],
    saved: &[u64],
    bounds: &mut [Option<u64>],
    width: usize,
    before: Option<(usize, usize)>,
    place: usize,
) -> Option<(usize, usize)>
    requires place_in { place < length keys.now }
    requires keys_in { All (λ k. k < width) keys.now }
    requires rising { IsTrue (all_pairs nat_lt keys.now) }
    requires before_in { IsTrue (found_below width before) }
    requires fuses_size { length fuses.now ≡ width * width }
    requires reaches_size { length reaches.now ≡ width * words width }
    requires reached_size { length reached.now ≡ width * words width }
    requires ways { TellsWays keys.now reaches.now reached.now width }
    requires saved_size { length saved.now ≡ width * width }
    requires bounds_size { length bounds.old ≡ width }
    requires bounded { Bounded fuses.now reaches.now saved.now width bounds.old keys.now }
    ensures best { result ≡ best_at fuses.now reaches.now saved.now width keys.now before place }
    ensures below { IsTrue (found_below width result) }
    ensures bounds_size { length bounds.new ≡ width }
    ensures bounded { Bounded fuses.now reaches.now saved.now width bounds.new keys.now }
{
    let left = keys[place];
    if !may_beat(saved, width, before, bounds[left]) {
        return before;
    }
    let best = best_in_row(keys, fuses, reaches, reached, saved, width, left, place + 1);
    bounds[left] = saving_of(saved, width, best);
    better(saved, width, before, best)
}

/// The pair that is merged next.
pub(crate) fn next_pair(
    keys: &[usize],
    fuses: &[bool],
    reaches: &[u64],
    reached: &[u64],
    saved: &[u64],
    bounds: &mut [Option<u64>],
    width: usize,
) -> Option<(usize, usize)>
    requires keys_in { All (λ k. k < width) keys.now }
    requires rising { IsTrue (all_pairs nat_lt keys.now) }
    requires fuses_size { length fuses.now ≡ width * width }
    requires reaches_size { length reaches.now ≡ width * words width }
    requires reached_size { length reached.now ≡ width * words width }
    requires ways { TellsWays keys.now reaches.now reached.now width }
    requires saved_size { length saved.now ≡ width * width }
    requires bounds_size { length bounds.old ≡ width }
    requires bounded { Bounded fuses.now reaches.now saved.now width bounds.old keys.now }
    ensures best { result ≡ next_pair (flag fuses.now width) (bit reaches.now width) (amount saved.now width) keys.now }
    ensures below { IsTrue (found_below width result) }
    ensures bounds_size { length bounds.new ≡ width }
    ensures bounded { Bounded fuses.now reaches.now saved.now width bounds.new keys.now }
{
    let mut found = None;
    for place in 0..keys.len() {
        found = better_in_row(
            keys, fuses, reaches, reached, saved, bounds, width, found, place,
        );
    }
    found
}
