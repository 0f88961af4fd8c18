//! The applications, one after another, until none is left.
ghost use Rattle.std.specs.Prelude.{◌≡◌, ◌<◌, ◌≤◌, IfOk, None, true, false, length};
ghost use Rattle.arr_ops.specs.Memory.{Memory, eager};
ghost use Rattle.arr_ops.specs.Formed.{is_formed};
ghost use Rattle.arr_ops.specs.Fits.{fits};
ghost use Rattle.arr_rewrite.specs.NextRewrite.{next_rewrite, rewrite_behind, with_replacement, without_copy, without_unused};
ghost use Rattle.arr_rewrite.specs.NormalForm.{normal_form};
ghost use Rattle.arr_rewrite.specs.Settled.{AppliesAt, Searched, SettledTo};

use crate::meetings::Meetings;
use crate::replaced::replacement;
use crate::rules::copies_itself;
use crate::unused::{remove_frees, unused_base};
use arr_ops::{Op, copied_ops};
use std::alloc::{AllocError as NoMemory, Global};

/// Lets the operation at the place become another, where a rule says so. The places before it stay settled: the output is the same.
fn replace(meetings: &mut Meetings, list: &mut Vec<Op>, place: usize) -> Result<bool, NoMemory>
    requires place { place < length list.now.items }
    requires formed { is_formed list.now.items ≡ true }
    ensures becomes { IfOk result (AppliesAt with_replacement place list.old.items list.new.items) }
    ensures long { IfOk result (λ done. length list.new.items ≡ length list.old.items) }
    ensures settled { IfOk result (λ done. SettledTo place list.old.items → SettledTo place list.new.items) }
    ensures kept { IfOk result (λ done. done ≡ false → list.new.items ≡ list.old.items) }
{
    let ops = list.as_slice();
    let next = replacement(meetings, &ops[..place], &ops[place], &ops[place + 1..])?;
    match next {
        Some(next) => {
            list[place] = next;
            Ok(true)
        }
        None => Ok(false),
    }
}

/// Removes the operation at the place, where it copies a view to itself.
fn remove_copy(list: &mut Vec<Op>, place: usize) -> bool
    requires { place < length list.now.items }
    ensures left { AppliesAt without_copy place list.old.items list.new.items result }
    ensures kept { result ≡ false → list.new.items ≡ list.old.items }
{
    if copies_itself(&list[place]) {
        list.remove(place);
        return true;
    }
    false
}

/// Removes the operation at the place, where it makes a base that nothing uses, and what frees the base. The places before it stay
/// settled: none names the base.
fn remove_unused(list: &mut Vec<Op>, place: usize) -> bool
    requires place { place < length list.now.items }
    requires formed { is_formed list.now.items ≡ true }
    ensures left { AppliesAt without_unused place list.old.items list.new.items result }
    ensures long { place ≤ length list.new.items }
    ensures settled { SettledTo place list.old.items → SettledTo place list.new.items }
    ensures kept { result ≡ false → list.new.items ≡ list.old.items }
{
    let ops = list.as_slice();
    match unused_base(&ops[..place], &ops[place], &ops[place + 1..]) {
        Some(base) => {
            list.remove(place);
            remove_frees(list, base);
            true
        }
        None => false,
    }
}

/// Makes the application of least place among the settled ones, which can but remove an unused base, and tells how many places are
/// settled then; `None` where there is no application.
fn rewrite_settled(list: &mut Vec<Op>, settled: usize) -> Option<usize>
    requires formed { is_formed list.now.items ≡ true }
    requires few { settled ≤ length list.now.items }
    requires settled { SettledTo settled list.now.items }
    ensures next { Searched (next_rewrite list.old.items) (rewrite_behind settled list.old.items)
        list.new.items result }
    ensures kept { result ≡ None → list.new.items ≡ list.old.items }
{
    for place in 0..settled {
        if remove_unused(list, place) {
            return Some(place);
        }
    }
    None
}

/// Makes the application of least place behind the settled ones, and tells how many places are settled then; `None` where there is
/// no application.
fn rewrite_rest(
    meetings: &mut Meetings,
    list: &mut Vec<Op>,
    settled: usize,
) -> Result<Option<usize>, NoMemory>
    requires formed { is_formed list.now.items ≡ true }
    requires few { settled ≤ length list.now.items }
    requires settled { SettledTo settled list.now.items }
    ensures next { IfOk result (Searched (rewrite_behind settled list.old.items) None list.new.items) }
    ensures kept { IfOk result (λ place. place ≡ None → list.new.items ≡ list.old.items) }
{
    for place in settled..list.len() {
        if replace(meetings, list, place)? {
            return Ok(Some(place));
        }
        if remove_copy(list, place) {
            return Ok(Some(0));
        }
        if remove_unused(list, place) {
            return Ok(Some(place));
        }
    }
    Ok(None)
}

/// Makes the next application, and tells how many places are settled then; `None` where there is no application.
fn rewrite_once(
    meetings: &mut Meetings,
    list: &mut Vec<Op>,
    settled: usize,
) -> Result<Option<usize>, NoMemory>
    requires formed { is_formed list.now.items ≡ true }
    requires few { settled ≤ length list.now.items }
    requires settled { SettledTo settled list.now.items }
    ensures next { IfOk result (Searched (next_rewrite list.old.items) None list.new.items) }
    ensures kept { IfOk result (λ place. place ≡ None → list.new.items ≡ list.old.items) }
{
    match rewrite_settled(list, settled) {
        Some(place) => Ok(Some(place)),
        None => rewrite_rest(meetings, list, settled),
    }
}

/// The normal form of a formed list: the application of least place, then of the earliest rule, then of the earlier operand is made
/// until none applies. From every memory that fits the list it fits the normal form too, which leaves the same memory. Want of memory
/// is its one refusal (docs/PLANS.md, "Rewriting").
pub fn rewrite(alloc: Global, ops: &[Op]) -> Result<Vec<Op>, NoMemory>
    requires formed { is_formed ops.now ≡ true }
    ensures normal { IfOk result (λ list. list.items ≡ normal_form ops.now) }
    ensures ended { IfOk result (λ list. next_rewrite list.items ≡ None) }
    ensures formed { IfOk result (λ list. is_formed list.items ≡ true) }
    ensures fitting { (m : Memory) → fits m ops.now ≡ true → IfOk result (λ list. fits m list.items ≡ true) }
    ensures memory { (m : Memory) → fits m ops.now ≡ true
        → IfOk result (λ list. eager m list.items ≡ eager m ops.now) }
{
    let mut list = copied_ops(alloc, ops)?;
    let mut meetings = Meetings::new(alloc, ops)?;
    let mut settled = 0;
    'applications: while let Some(place) = rewrite_once(&mut meetings, &mut list, settled)? {
        settled = place;
    }
    Ok(list)
}
