//! Blocks with a serial operation that copies a view some places on.
ghost use Rattle.std.specs.Prelude.{◌≡◌, ◌≤◌, ◌&&◌, IfOk, length};
ghost use Rattle.std.specs.List.{list_any};
ghost use Rattle.std.specs.Option.{option_map, option_to_list};
ghost use Rattle.arr_ops.specs.Ops.{serial};
ghost use Rattle.arr_contract.specs.Prepared.{is_moved, kept_numbers, shifts, writer};

use crate::NoMemory;
use crate::contracted::frees;
use crate::scratch::scratch;
use arr_num::Code;
use arr_ops::Op;
use arr_shift::is_shift;
use arr_view::View;
use std::alloc::Global;

/// The first operation of a block that writes (docs/PLANS.md, "Running a block"); `None` where none does. It takes no memory.
pub fn writer(ops: &[Op]) -> Option<Op>
    ensures { result ≡ writer ops.now }
{
    for op in ops {
        if op.out.is_some() {
            return Some(op.copied());
        }
    }
    None
}

/// Whether an output is an input some places on, in a base that the block keeps.
fn is_moved(ops: &[Op], out: Option<&View>, input: Option<&View>) -> bool
    ensures { result ≡ is_moved ops.now (option_map (λ v. v.now) out.entry) (option_map (λ v. v.now) input.entry) }
{
    let Some(out) = out else {
        return false;
    };
    let Some(input) = input else {
        return false;
    };
    is_shift(out, input) && !frees(ops, out.base())
}

/// Whether an operation copies a view of one type some places on.
fn shifts(ops: &[Op], op: &Op) -> bool
    ensures { result ≡ shifts ops.now op.now }
{
    match op.code {
        Code::Identity => op.to == op.from && is_moved(ops, op.out_view(), op.first_view()),
        _ => false,
    }
}

/// Whether a block, if it has a serial operation, copies a view by it some places on.
pub(crate) fn slides(ops: &[Op], is_serial: bool) -> bool
    ensures { result ≡ (is_serial && list_any (shifts ops.now) (option_to_list (writer ops.now))) }
{
    if !is_serial {
        return false;
    }
    match writer(ops) {
        Some(op) => shifts(ops, &op),
        None => false,
    }
}

/// How many numbers a block keeps.
pub(crate) fn kept_numbers(alloc: Global, ops: &[Op], is_serial: bool) -> Result<usize, NoMemory>
    requires few { length ops.now ≤ 256 }
    requires serial { is_serial ≡ list_any serial ops.now }
    ensures { IfOk result (λ count. count ≡ kept_numbers ops.now) }
{
    if slides(ops, is_serial) {
        return Ok(0);
    }
    scratch(alloc, ops)
}
