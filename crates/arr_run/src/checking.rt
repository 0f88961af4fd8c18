//! A proof that is checked against the parts of a script, list by list (docs/CERTIFICATES.md, "Rejections").
ghost use Rattle.std.specs.Prelude.{◌≡◌, ◌⊎◌, ◌≤◌, ◌<◌, ◌+◌, ◌-◌, ◌^◌, [], true, false, Err, IfOk, IfErr, OnOk, IsErrOf, length};
ghost use Rattle.std.specs.List.{list_all};
ghost use Rattle.std.specs.Io.KnownBytes.{Appends, IsAtEnd};
ghost use Rattle.arr_io.specs.Causes.{Rose};
ghost use Rattle.arr_io.specs.Taken.{AppendsPart};
ghost use Rattle.arr_ops.specs.Formed.{is_formed};
ghost use Rattle.arr_record.specs.Runs.{is_part};
ghost use Rattle.arr_rewrite.specs.NormalForm.{normal_form};
ghost use Rattle.arr_run.specs.Checked.{flush_line};
ghost use Rattle.arr_cert.specs.Proofs.{HasMetEnd, is_over, unread};
ghost use Rattle.arr_run.specs.Checking.{Checks, ChecksPart, ChecksProof, Judged, Traces};

use crate::texts::flush_line;
use arr_cert::{CheckFault, Reader};
use arr_check::{Verdict, check, finish};
use arr_io::{Sink, Source, WriteFault, write_all};
use arr_law::Reject;
use arr_ops::Op;
use arr_record::Part;
use arr_rewrite::rewrite;
use std::alloc::Global;

/// Why a proof is not accepted.
#[derive(Clone, Copy, Debug, PartialEq, Eq)]
pub(crate) enum Stop {
    /// Its first wrong record: of which flush, counted from 1, in which line, and what is wrong.
    Rejected { flush: u32, line: u64, kind: Reject },
    /// A read of the proof failed.
    ReadFault,
    /// A write failed.
    WriteFault,
    /// No memory is left.
    NoMemory,
}

/// Writes the line of a flush whose certificate was accepted.
fn write_flush<K: Sink>(
    alloc: Global,
    number: u32,
    cost: u64,
    bound: u64,
    sink: &mut K,
) -> Result<(), Stop>
    ensures wrote { OnOk result (Appends (K.written sink.old) (K.written sink.new) (flush_line number (cost, bound))) }
    ensures cut { result ≡ Err Stop.WriteFault
        → AppendsPart (K.written sink.old) (K.written sink.new) (flush_line number (cost, bound)) }
    ensures silent { result ≡ Err Stop.NoMemory → Appends (K.written sink.old) (K.written sink.new) [] }
    ensures other { IfErr result (λ stop. (stop ≡ Stop.WriteFault) ⊎ (stop ≡ Stop.NoMemory)) }
    ensures later { K.faults sink.old ≤ K.faults sink.new }
    ensures cause { IsErrOf result Stop.WriteFault → Rose (K.faults sink.old) (K.faults sink.new) }
{
    let Ok(text) = flush_line(alloc, number, cost, bound) else {
        return Err(Stop::NoMemory);
    };
    match write_all(sink, &text) {
        Ok(()) => Ok(()),
        Err(WriteFault) => Err(Stop::WriteFault),
    }
}

/// Checks the certificate of a list that was recorded, and writes the line of its flush.
fn check_list<C: Source, K: Sink>(
    alloc: Global,
    number: u32,
    ops: &[Op],
    reader: &mut Reader,
    proof: &mut C,
    sink: &mut K,
) -> Result<(), Stop>
    requires formed { is_formed ops.now ≡ true }
    requires few { length ops.now ≤ 256 }
    requires going { is_over reader.old ≡ false }
    requires met { HasMetEnd C.Source reader.old proof.old }
    ensures judged { Judged (normal_form ops.now) number (unread C.Source reader.old proof.old)
        (unread C.Source reader.new proof.new) (K.written sink.old) (K.written sink.new) result }
    ensures going { OnOk result (is_over reader.new ≡ false) }
    ensures met { HasMetEnd C.Source reader.new proof.new }
    ensures traced { Traces C.Source K.Sink proof.old proof.new sink.old sink.new result }
{
    let Ok(list) = rewrite(alloc, ops) else {
        return Err(Stop::NoMemory);
    };
    match check(alloc, &list, number, reader, proof) {
        Ok(Verdict::Yes { cost, bound }) => write_flush(alloc, number, cost, bound, sink),
        Ok(Verdict::No { line, kind }) => Err(Stop::Rejected {
            flush: number,
            line,
            kind,
        }),
        Err(CheckFault::ReadFault) => Err(Stop::ReadFault),
        Err(CheckFault::NoMemory) => Err(Stop::NoMemory),
    }
}

/// Checks the certificate of a part that is a flush of this number, and answers the number of the next flush.
fn check_part<C: Source, K: Sink>(
    alloc: Global,
    number: u32,
    part: &Part,
    reader: &mut Reader,
    proof: &mut C,
    sink: &mut K,
) -> Result<u32, Stop>
    requires part { is_part part.now ≡ true }
    requires few { number < 2 ^ 32 - 1 }
    requires going { is_over reader.old ≡ false }
    requires met { HasMetEnd C.Source reader.old proof.old }
    ensures checks { ChecksPart part.now number (unread C.Source reader.old proof.old)
        (unread C.Source reader.new proof.new) (K.written sink.old) (K.written sink.new) result }
    ensures next { IfOk result (λ next. next ≤ number + 1) }
    ensures going { OnOk result (is_over reader.new ≡ false) }
    ensures met { HasMetEnd C.Source reader.new proof.new }
    ensures traced { Traces C.Source K.Sink proof.old proof.new sink.old sink.new result }
{
    match part {
        Part::Flush(ops) => {
            check_list(alloc, number, ops.list(), reader, proof, sink)?;
            Ok(number + 1)
        }
        Part::Gather(_) => Ok(number),
        Part::Scatter(_) => Ok(number),
    }
}

/// Checks the certificates of all flushes among the parts, and answers the number of the flush that would be next.
fn check_flushes<C: Source, K: Sink>(
    alloc: Global,
    parts: &[Part],
    reader: &mut Reader,
    proof: &mut C,
    sink: &mut K,
) -> Result<u32, Stop>
    requires each { list_all is_part parts.now ≡ true }
    requires few { length parts.now ≤ 4_194_304 }
    requires going { is_over reader.old ≡ false }
    requires met { HasMetEnd C.Source reader.old proof.old }
    ensures checks { Checks parts.now [] (unread C.Source reader.old proof.old) (unread C.Source reader.new proof.new)
        (K.written sink.old) (K.written sink.new) result }
    ensures next { IfOk result (λ next. next ≤ length parts.now + 1) }
    ensures going { OnOk result (is_over reader.new ≡ false) }
    ensures met { HasMetEnd C.Source reader.new proof.new }
    ensures traced { Traces C.Source K.Sink proof.old proof.new sink.old sink.new result }
{
    let mut number = 1;
    for part in parts {
        number = check_part(alloc, number, part, reader, proof, sink)?;
    }
    Ok(number)
}

/// Checks a proof against the parts of a script, and writes a line for each flush whose certificate is accepted. It answers how many
/// there are, where all are accepted and nothing follows them.
pub(crate) fn check_parts<C: Source, K: Sink>(
    alloc: Global,
    parts: &[Part],
    proof: &mut C,
    sink: &mut K,
) -> Result<u32, Stop>
    requires each { list_all is_part parts.now ≡ true }
    requires few { length parts.now ≤ 4_194_304 }
    ensures checks { ChecksProof parts.now (C.left proof.old) (K.written sink.old) (K.written sink.new) result }
    ensures ended { OnOk result (IsAtEnd (C.left proof.new)) }
    ensures traced { Traces C.Source K.Sink proof.old proof.new sink.old sink.new result }
{
    let Ok(mut reader) = Reader::new(alloc) else {
        return Err(Stop::NoMemory);
    };
    let next = check_flushes(alloc, parts, &mut reader, proof, sink)?;
    match finish(alloc, &mut reader, proof) {
        Ok(None) => Ok(next - 1),
        Ok(Some((line, kind))) => Err(Stop::Rejected {
            flush: next,
            line,
            kind,
        }),
        Err(CheckFault::ReadFault) => Err(Stop::ReadFault),
        Err(CheckFault::NoMemory) => Err(Stop::NoMemory),
    }
}
