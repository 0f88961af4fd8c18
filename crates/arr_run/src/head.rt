//! What is listed of a flush before its arrays (docs/PLANS.md, "The listing").
ghost use Rattle.std.specs.Prelude.{◌≡◌, ◌≤◌, Some, length, true};
ghost use Rattle.arr_cert.specs.Texts.{is_spellable};
ghost use Rattle.arr_io.specs.Buffered.{Puts, Writes, outgoing};
ghost use Rattle.arr_law.specs.declared.certificate.Certificate.{Certificate};
ghost use Rattle.arr_ops.specs.Formed.{is_formed};
ghost use Rattle.arr_run.specs.Flushes.{Prepares};
ghost use Rattle.arr_run.specs.Pieces.{bound_line, certificate_lines, flush_head, planned_lines};

use crate::choice::{Choice, Listing};
use crate::planning::{Planned, Prepared};
use arr_cert::write;
use arr_io::{Sink, SinkBuffer, WriteFault};
use arr_listing::{put_bound, put_plan};
use arr_ops::Op;

/// Puts the bound line, if there is a bound.
fn put_bound_line<K: Sink>(cost: u64, planned: &Planned, out: &mut SinkBuffer, sink: &mut K)
    ensures { Puts (outgoing K.Sink out.old sink.old) (outgoing K.Sink out.new sink.new)
        (bound_line cost planned.now.bound planned.now.units) }
{
    let Some(bound) = planned.bound else {
        return;
    };
    put_bound(cost, bound, planned.units, out, sink);
}

/// Writes the plan of a flush and its bound line.
fn write_planned<K: Sink>(
    choice: Choice,
    number: u32,
    ops: &[Op],
    prepared: &Prepared,
    sink: &mut K,
) -> Result<(), WriteFault>
    requires prepared { Prepares choice number ops.now prepared.now }
    requires formed { is_formed ops.now ≡ true }
    requires few { length ops.now ≤ 256 }
    ensures { Writes K.Sink sink.old sink.new result (planned_lines number ops.now prepared.now.planned) }
{
    let mut out = SinkBuffer::new();
    put_plan(
        ops.len() as u32,
        number,
        &prepared.list,
        &prepared.planned.plan,
        &prepared.costs,
        &mut out,
        sink,
    );
    put_bound_line(prepared.cost, &prepared.planned, &mut out, sink);
    out.finish(sink)
}

/// Writes the certificate, if there is one.
fn write_certificate<K: Sink>(planned: &Planned, sink: &mut K) -> Result<(), WriteFault>
    requires { (c : Certificate) → planned.now.certificate ≡ Some c → is_spellable c ≡ true }
    ensures { Writes K.Sink sink.old sink.new result (certificate_lines planned.now.certificate) }
{
    match &planned.certificate {
        Some(certificate) => write(certificate, sink),
        None => Ok(()),
    }
}

/// Writes the plan of a flush, its bound line and its certificate.
fn write_certified<K: Sink>(
    choice: Choice,
    number: u32,
    ops: &[Op],
    prepared: &Prepared,
    sink: &mut K,
) -> Result<(), WriteFault>
    requires prepared { Prepares choice number ops.now prepared.now }
    requires formed { is_formed ops.now ≡ true }
    requires few { length ops.now ≤ 256 }
    ensures { Writes K.Sink sink.old sink.new result (flush_head Listing.Cert number ops.now prepared.now.planned) }
{
    let Ok(()) = write_planned(choice, number, ops, prepared, sink) else {
        return Err(WriteFault);
    };
    write_certificate(&prepared.planned, sink)
}

/// Writes what is listed of a flush before its arrays.
pub(crate) fn write_head<K: Sink>(
    choice: Choice,
    number: u32,
    ops: &[Op],
    prepared: &Prepared,
    sink: &mut K,
) -> Result<(), WriteFault>
    requires prepared { Prepares choice number ops.now prepared.now }
    requires formed { is_formed ops.now ≡ true }
    requires few { length ops.now ≤ 256 }
    ensures { Writes K.Sink sink.old sink.new result (flush_head choice.listing number ops.now prepared.now.planned) }
{
    match choice.listing {
        Listing::Quiet => Ok(()),
        Listing::Plan => write_planned(choice, number, ops, prepared, sink),
        Listing::Cert => write_certified(choice, number, ops, prepared, sink),
    }
}
