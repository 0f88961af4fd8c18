//! Who writes what an operation reads, and what is written in between.
ghost use Rattle.std.specs.Prelude.{◌≡◌, ◌∷◌, ◌&&◌, IfOk};
ghost use Rattle.std.specs.List.{list_any};
ghost use Rattle.arr_view.specs.Views.{identical};
ghost use Rattle.arr_ops.specs.Ops.{outputs};
ghost use Rattle.arr_rewrite.specs.Writers.{only_writer, only_writer_in, spoils, unspoiled, unwritten_base};

use crate::meetings::Meetings;
use arr_ops::Op;
use arr_overlap::identical;
use arr_view::View;
use std::alloc::AllocError as NoMemory;
use std::marker::Model;

/// An operation, and those that stand after it, before the place that is spoken of.
#[derive(Drop)]
pub(crate) struct OnlyWriter<'a> {
    pub(crate) op: &'a Op,
    pub(crate) between: &'a [Op],
}

impl<'a> Model for OnlyWriter<'a> {
    ghost use Rattle.arr_rewrite.specs.Writers.{Writer};

    ghost Value = { Writer };

    ghost view = { λ w. record { op = w.op.now; between = w.between.now } };
}

fn unwritten_base(ops: &[Op], base: u32) -> bool
    ensures { result ≡ unwritten_base ops.now base }
{
    ops.iter().all(|op| !op.writes(base))
}

/// The first that writes the base, if it makes it and none after it writes it.
fn only_writer_in(ops: &[Op], base: u32) -> Option<OnlyWriter<'_>>
    ensures { result ≡ only_writer_in ops.now base }
{
    for (place, op) in ops.iter().enumerate() {
        if op.writes(base) {
            let between = &ops[place + 1..];
            if op.makes && unwritten_base(between, base) {
                return Some(OnlyWriter { op, between });
            }
            return None;
        }
    }
    None
}

/// The only writer of the base in the list of `front`, the operation and `back`, where it stands in `front`.
pub(crate) fn only_writer<'a>(
    front: &'a [Op],
    op: &Op,
    back: &[Op],
    base: u32,
) -> Option<OnlyWriter<'a>>
    ensures { result ≡ only_writer front.now (op.now ∷ back.now) base }
{
    if op.writes(base) {
        return None;
    }
    if !unwritten_base(back, base) {
        return None;
    }
    only_writer_in(front, base)
}

/// Whether the operation writes what the view reads, or frees its base.
fn spoils(meetings: &mut Meetings, view: &View, op: &Op) -> Result<bool, NoMemory>
    ensures { IfOk result (λ b. b ≡ spoils view.now op.now) }
{
    if op.frees == Some(view.base()) {
        return Ok(true);
    }
    match &op.out {
        Some(out) => meetings.overlap(out, view),
        None => Ok(false),
    }
}

/// Whether the view is unwritten by these.
pub(crate) fn unspoiled(meetings: &mut Meetings, ops: &[Op], view: &View) -> Result<bool, NoMemory>
    ensures { IfOk result (λ b. b ≡ unspoiled ops.now view.now) }
{
    for op in ops {
        if spoils(meetings, view, op)? {
            return Ok(false);
        }
    }
    Ok(true)
}

/// Whether the view is the operation's output.
pub(crate) fn is_output(view: &View, op: &Op) -> bool
    ensures { result ≡ list_any (identical view.now) (outputs op.now) }
{
    match &op.out {
        Some(out) => identical(view, out),
        None => false,
    }
}
