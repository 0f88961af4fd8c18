//! Certificates as text. Each private call goes on behind a text that is written so far, and does nothing once a write has failed.
ghost use Rattle.std.specs.Prelude.{◌≡◌, ◌++◌, [], ◌∷◌, OnErr, OnOk, true, decimal, drop};
ghost use Rattle.std.specs.List.{flat_map};
ghost use Rattle.std.specs.Io.KnownBytes.{Appends};
ghost use Rattle.arr_io.specs.Causes.{HasCause};
ghost use Rattle.arr_io.specs.Taken.{AppendsPart};
ghost use Rattle.arr_law.specs.declared.record.Record.{Record};
ghost use Rattle.arr_cert.specs.Texts.{behind, certificate_text, first_text, group_text, is_spellable, line_text, spaced, takes_two};
ghost use Rattle.arr_cert.specs.Wrote.{WritesOn};

use arr_io::{Sink, WriteFault, write_all};
use arr_law::{Certificate, Charge, Charges, OpList, Places, Record, Records};
use itoa::Buffer;

/// What is known of a text that is being written: whether a write has failed.
type Going = Result<(), WriteFault>;

/// Writes bytes.
fn put<K: Sink>(sink: &mut K, so_far: Going, bytes: &[u8]) -> Going
    ensures { WritesOn K.Sink sink.old sink.new so_far result bytes.now }
{
    match so_far {
        Ok(()) => write_all(sink, bytes),
        Err(fault) => Err(fault),
    }
}

/// Writes a number in decimal behind a sign.
fn put_number<K: Sink>(sink: &mut K, so_far: Going, sign: u8, number: u64) -> Going
    ensures { WritesOn K.Sink sink.old sink.new so_far result (sign ∷ decimal number) }
{
    let mut buffer = Buffer::new();
    let signed = put(sink, so_far, &[sign]);
    put(sink, signed, buffer.format(number).as_bytes())
}

/// Writes a word and numbers as a line.
fn put_line<K: Sink>(sink: &mut K, so_far: Going, word: &[u8], numbers: &[u64]) -> Going
    ensures { WritesOn K.Sink sink.old sink.new so_far result ((word.now ++ spaced numbers.now) ++ 10 ∷ []) }
{
    let mut going = put(sink, so_far, word);
    for number in numbers {
        going = put_number(sink, going, b' ', *number);
    }
    put(sink, going, b"\n")
}

/// Writes the places of a plan as a line.
fn put_plan<K: Sink>(sink: &mut K, so_far: Going, places: &Places) -> Going
    ensures { WritesOn K.Sink sink.old sink.new so_far result (line_text (Record.Plan places.now)) }
{
    let mut going = put(sink, so_far, b"!plan");
    for index in 0..places.len() {
        going = put_number(sink, going, b' ', u64::from(*places.at(index)));
    }
    put(sink, going, b"\n")
}

/// Writes the operations of a group behind the first, each behind a comma.
fn put_others<K: Sink>(sink: &mut K, so_far: Going, ops: &OpList) -> Going
    ensures { WritesOn K.Sink sink.old sink.new so_far result (behind 44 (drop 1 ops.now)) }
{
    let mut going = so_far;
    for index in 1..ops.len() {
        going = put_number(sink, going, b',', u64::from(*ops.at(index)));
    }
    going
}

/// Writes the first operation of a group behind a blank.
fn put_first<K: Sink>(sink: &mut K, so_far: Going, ops: &OpList) -> Going
    ensures { WritesOn K.Sink sink.old sink.new so_far result (first_text ops.now) }
{
    if ops.len() == 0 {
        return put(sink, so_far, b" ");
    }
    put_number(sink, so_far, b' ', u64::from(*ops.at(0)))
}

/// Writes a group of a leaf.
fn put_group<K: Sink>(sink: &mut K, so_far: Going, charge: &Charge) -> Going
    ensures { WritesOn K.Sink sink.old sink.new so_far result (group_text charge.now) }
{
    let first = put_first(sink, so_far, &charge.ops);
    let named = put_number(sink, first, b'.', u64::from(charge.operand));
    put_others(sink, named, &charge.ops)
}

/// Writes the groups of a leaf as a line.
fn put_worth<K: Sink>(sink: &mut K, so_far: Going, charges: &Charges) -> Going
    ensures { WritesOn K.Sink sink.old sink.new so_far result (line_text (Record.Worth charges.now)) }
{
    let mut going = put(sink, so_far, b"!worth");
    for index in 0..charges.len() {
        going = put_group(sink, going, charges.at(index));
    }
    put(sink, going, b"\n")
}

/// Writes the head of a certificate.
fn put_head<K: Sink>(sink: &mut K, so_far: Going, number: u32, count: u32, version: u8) -> Going
    ensures { WritesOn K.Sink sink.old sink.new so_far result (line_text (Record.Flush number count version)) }
{
    let (number, count) = (u64::from(number), u64::from(count));
    if version == 1 {
        return put_line(sink, so_far, b"!flush", &[number, count]);
    }
    put_line(
        sink,
        so_far,
        b"!flush",
        &[number, count, u64::from(version)],
    )
}

/// Whether a rule is about two operations; else it is about three.
pub(crate) fn takes_two(rule: u8) -> bool
    ensures { result ≡ takes_two rule }
{
    rule == 3 || rule == 5 || rule == 9
}

/// Writes a step.
fn put_step<K: Sink>(sink: &mut K, so_far: Going, rule: u8, f: u32, g: u32, h: u32) -> Going
    ensures { WritesOn K.Sink sink.old sink.new so_far result (line_text (Record.Step rule f g h)) }
{
    let (number, first, second) = (u64::from(rule), u64::from(f), u64::from(g));
    let two = takes_two(rule);
    if two {
        return put_line(sink, so_far, b"!step", &[number, first, second]);
    }
    put_line(
        sink,
        so_far,
        b"!step",
        &[number, first, second, u64::from(h)],
    )
}

/// Writes a word and two operations as a line.
fn put_pair<K: Sink>(sink: &mut K, so_far: Going, word: &[u8], f: u32, g: u32) -> Going
    ensures { WritesOn K.Sink sink.old sink.new so_far result ((word.now ++ spaced (f ∷ g ∷ [])) ++ 10 ∷ []) }
{
    let (first, second) = (u64::from(f), u64::from(g));
    put_line(sink, so_far, word, &[first, second])
}

/// Writes a record of a tree as a line.
fn put_record<K: Sink>(sink: &mut K, so_far: Going, entry: &Record) -> Going
    ensures { WritesOn K.Sink sink.old sink.new so_far result (line_text entry.now) }
{
    match entry {
        Record::Flush {
            number,
            count,
            version,
        } => put_head(sink, so_far, *number, *count, *version),
        Record::Plan(places) => put_plan(sink, so_far, places),
        Record::Cost(cost) => put_line(sink, so_far, b"!cost", &[*cost]),
        Record::Bound(bound) => put_line(sink, so_far, b"!bound", &[*bound]),
        Record::Step { rule, f, g, h } => put_step(sink, so_far, *rule, *f, *g, *h),
        Record::Branch { f, g } => put_pair(sink, so_far, b"!branch", *f, *g),
        Record::Dead { f, g } => put_pair(sink, so_far, b"!dead", *f, *g),
        Record::Worth(charges) => put_worth(sink, so_far, charges),
        Record::End => put_line(sink, so_far, b"!end", &[]),
    }
}

/// Writes the records of a tree, a line for each.
fn put_tree<K: Sink>(sink: &mut K, so_far: Going, tree: &Records) -> Going
    ensures { WritesOn K.Sink sink.old sink.new so_far result (flat_map line_text tree.now) }
{
    let mut going = so_far;
    for index in 0..tree.len() {
        going = put_record(sink, going, tree.at(index));
    }
    going
}

/// Writes a certificate: a line for each of its records (docs/CERTIFICATES.md, "The text"). It takes no memory.
///
/// `WriteFault` comes only where the sink's count of faults rose in this call; then a proper prefix of the text was appended.
pub fn write<K: Sink>(certificate: &Certificate, sink: &mut K) -> Result<(), WriteFault>
    requires spellable { is_spellable certificate.now ≡ true }
    ensures all { OnOk result (Appends (K.written sink.old) (K.written sink.new) (certificate_text certificate.now)) }
    ensures part { OnErr result (AppendsPart (K.written sink.old) (K.written sink.new)
        (certificate_text certificate.now)) }
    ensures cause { HasCause (K.faults sink.old) (K.faults sink.new) result }
{
    let headed = put_head(
        sink,
        Ok(()),
        certificate.number,
        certificate.count,
        certificate.version,
    );
    let planned = put_plan(sink, headed, &certificate.places);
    let priced = put_line(sink, planned, b"!cost", &[certificate.cost]);
    let bounded = put_line(sink, priced, b"!bound", &[certificate.bound]);
    let grown = put_tree(sink, bounded, &certificate.tree);
    put_line(sink, grown, b"!end", &[])
}
