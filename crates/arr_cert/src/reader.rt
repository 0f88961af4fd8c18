//! A reader of proofs: one line after another.
ghost use Rattle.std.specs.Prelude.{◌≡◌, ◌≤◌, ◌<◌, ◌+◌, ◌-◌, ◌++◌, ◌||◌, Ok, Some, suc, true, false, length, take, vec_len, IfOk, IfSome, IsErrOf, OnOk};
ghost use Rattle.std.specs.List.{before_first};
ghost use Rattle.std.specs.Io.KnownBytes.{IsAtEnd};
ghost use Rattle.arr_io.specs.Causes.{Rose};
ghost use Rattle.arr_cert.specs.Reading.{is_feed, is_marked};

use crate::item::{CheckFault, Item};
use crate::pieces::Pieces;
use crate::spelling::record;
use arr_io::{NoMemory, Source};
use std::alloc::Global;

/// How many bytes a proof may have.
const MOST: u64 = 67_108_864;

/// How many bytes a line of a record may have, without its line feed.
const LINE: usize = 65_536;

/// What was found where a line was looked for.
#[derive(Clone, Copy, Debug)]
pub(crate) enum Found {
    /// No byte is left.
    Nothing,
    /// More bytes than the proof may still have.
    Beyond,
    /// A line.
    Line,
}

/// Reads a proof (docs/CERTIFICATES.md, "Reading"). The source is passed to each call, and is the same for all calls of one reader.
///
/// It keeps one line of at most 65,537 bytes, and at most 65,536 bytes that were read and not used.
#[derive(Debug, Drop)]
pub struct Reader {
    pieces: Pieces,
    text: Vec<u8>,
    room: u64,
    next_line: u64,
    line: u64,
    over: bool,
    ghost counted: { next_line + room ≤ 67_108_865 },
}

/// How many bytes stand before the next line feed, or in all where there is none.
fn before_feed(bytes: &[u8]) -> usize
    ensures { result ≡ length (before_first is_feed bytes.now) }
{
    bytes.iter().take_while(|b| **b != b'\n').count()
}

/// Joins bytes to a text, as many as fit into `LINE` and one more.
fn keep(text: &mut Vec<u8>, bytes: &[u8]) -> Result<(), NoMemory>
    requires { vec_len text.old ≤ 65537 }
    ensures { OnOk result (text.new.items ≡ take 65537 (text.old.items ++ bytes.now)) }
{
    let count = bytes.len().min(LINE + 1 - text.len());
    text.extend_from_slice(&bytes[..count])?;
    Ok(())
}

/// Whether the text is that of a record.
fn is_record(text: &[u8]) -> bool
    ensures { result ≡ is_marked text.now }
{
    if text.is_empty() {
        return false;
    }
    text[0] == b'!'
}

impl Reader {
    ghost use Rattle.arr_cert.specs.Reading.{IsBehind};
    ghost use Rattle.arr_cert.specs.Proofs.{FindsLine, Gives, HasMetEnd, IsFresh, IsSame, IsSpelled, TakesPart, TurnsTo, ahead, is_over, last_line, next_line, stops, unread};

    /// A reader at the beginning of a proof. Want of memory is its one refusal.
    pub fn new(alloc: Global) -> Result<Reader, NoMemory>
        ensures { IfOk result IsFresh }
    {
        Ok(Reader {
            pieces: Pieces::new(alloc)?,
            text: Vec::new(alloc),
            room: MOST,
            next_line: 1,
            line: 1,
            over: false,
        })
    }

    /// The number of the line of the last item, counted from 1. Of an `End` at the end of input it is the number of all lines plus 1.
    pub fn line(&self) -> u64
        ensures { result ≡ last_line self.now }
    {
        self.line
    }

    /// Takes of the bytes that wait those of the line: how many, and whether the line feed is among them.
    fn take_part(&mut self) -> Result<(usize, bool), NoMemory>
        requires { vec_len self.old.text ≤ 65537 }
        ensures part { IfOk result (λ part. TakesPart self.old self.new part.0 part.1) }
        ensures small { IfOk result (λ p. p.0 ≤ 65536) }
        ensures same { IsSame self.old self.new }
        ensures ended { self.new.pieces.ended ≡ self.old.pieces.ended }
    {
        let waiting = self.pieces.waiting();
        let front = before_feed(waiting);
        let ends = front < waiting.len();
        keep(&mut self.text, &waiting[..front])?;
        if ends {
            self.pieces.take(front + 1);
            return Ok((front + 1, true));
        }
        self.pieces.take(front);
        Ok((front, false))
    }

    /// Counts a line of so many bytes.
    fn count(&mut self, size: u64)
        requires some { 0 < size }
        requires within { size ≤ self.old.room }
        ensures room { self.new.room ≡ self.old.room - size }
        ensures next { self.new.next_line ≡ suc self.old.next_line }
        ensures pieces { self.new.pieces ≡ self.old.pieces }
        ensures text { self.new.text.items ≡ self.old.text.items }
        ensures line { self.new.line ≡ self.old.line }
        ensures over { self.new.over ≡ self.old.over }
    {
        self.room -= size;
        self.next_line += 1;
    }

    /// Looks for the next line: its text, or as much of it as shows that it is too long.
    fn find_line<S: Source>(&mut self, source: &mut S) -> Result<Found, CheckFault>
        requires met { HasMetEnd S.Source self.old source.old }
        ensures found { IfOk result (λ found. FindsLine S.Source self.old self.new source.old source.new found) }
        ensures out { result ≡ Ok Found.Nothing → IsAtEnd (unread S.Source self.new source.new).bytes }
        ensures line { self.new.line ≡ self.old.line }
        ensures next { self.old.next_line ≤ self.new.next_line }
        ensures over { self.new.over ≡ self.old.over }
        ensures met { HasMetEnd S.Source self.new source.new }
        ensures later { S.faults source.old ≤ S.faults source.new }
        ensures cause { IsErrOf result CheckFault.ReadFault → Rose (S.faults source.old) (S.faults source.new) }
    {
        self.text.clear();
        let mut size = 0;
        loop {
            let Ok(more) = self.pieces.fill(source) else {
                return Err(CheckFault::ReadFault);
            };
            if !more {
                if size == 0 {
                    return Ok(Found::Nothing);
                }
                self.count(size);
                return Ok(Found::Line);
            }
            let Ok((count, ends)) = self.take_part() else {
                return Err(CheckFault::NoMemory);
            };
            size += count as u64;
            if size > self.room {
                return Ok(Found::Beyond);
            }
            if ends {
                self.count(size);
                return Ok(Found::Line);
            }
        }
    }

    /// The record of the line that was found.
    fn spelled(&self, alloc: Global) -> Result<Item, CheckFault>
        ensures item { IfOk result (λ item. IsSpelled item self.now.text.items) }
        ensures cause { IsErrOf result CheckFault.ReadFault → ⊥ }
    {
        if self.text.len() > LINE {
            return Ok(Item::Malformed);
        }
        match record(alloc, &self.text) {
            Ok(Some(found)) => Ok(Item::Record(found)),
            Ok(None) => Ok(Item::Malformed),
            Err(_) => Err(CheckFault::NoMemory),
        }
    }

    /// Takes the next line. It is the next item, unless it is passed over.
    fn turn<S: Source>(&mut self, alloc: Global, source: &mut S) -> Result<Option<Item>, CheckFault>
        requires met { HasMetEnd S.Source self.old source.old }
        ensures item { IfOk result (λ item. TurnsTo S.Source self.old self.new source.old source.new item) }
        ensures out { result ≡ Ok (Some Item.End) → IsAtEnd (unread S.Source self.new source.new).bytes }
        ensures behind { IfOk result (λ found. IfSome found (λ item. IsBehind item self.new.line self.new.next_line)) }
        ensures line { self.new.line ≡ self.old.next_line }
        ensures next { self.old.next_line ≤ self.new.next_line }
        ensures over { self.new.over ≡ self.old.over }
        ensures met { HasMetEnd S.Source self.new source.new }
        ensures later { S.faults source.old ≤ S.faults source.new }
        ensures cause { IsErrOf result CheckFault.ReadFault → Rose (S.faults source.old) (S.faults source.new) }
    {
        self.line = self.next_line;
        let found = match self.find_line(source) {
            Ok(found) => found,
            Err(fault) => return Err(fault),
        };
        match found {
            Found::Nothing => Ok(Some(Item::End)),
            Found::Beyond => Ok(Some(Item::TooLong)),
            Found::Line => {
                let marked = is_record(&self.text);
                if !marked {
                    return Ok(None);
                }
                match self.spelled(alloc) {
                    Ok(item) => Ok(Some(item)),
                    Err(fault) => Err(fault),
                }
            }
        }
    }

    /// What comes next in the proof (docs/CERTIFICATES.md, "Reading"): what the next line is that begins with `!`.
    ///
    /// `ReadFault` comes only where the source's count of faults rose in this call, and `NoMemory` where memory ran out. After either,
    /// and after `Malformed` or `TooLong`, every later call answers `End`. At any other `End` nothing is left of the proof. Where an earlier call met the end of input, the source must
    /// have nothing left.
    pub fn next<S: Source>(&mut self, alloc: Global, source: &mut S) -> Result<Item, CheckFault>
        requires met { HasMetEnd S.Source self.old source.old }
        ensures item { is_over self.old ≡ false → IfOk result (Gives S.Source self.old self.new source.old source.new) }
        ensures out { is_over self.old ≡ false → result ≡ Ok Item.End
            → IsAtEnd (unread S.Source self.new source.new).bytes }
        ensures behind { is_over self.old ≡ false
            → IfOk result (λ item. IsBehind item (last_line self.new) (next_line self.new)) }
        ensures on { is_over self.old ≡ false → IfOk result (λ item. next_line self.old ≤ last_line self.new) }
        ensures few { next_line self.new ≤ 67108865 }
        ensures ahead { ahead self.new ≤ 65536 }
        ensures ended { is_over self.old ≡ true → result ≡ Ok Item.End }
        ensures over { is_over self.new ≡ (is_over self.old || stops result) }
        ensures met { HasMetEnd S.Source self.new source.new }
        ensures later { S.faults source.old ≤ S.faults source.new }
        ensures cause { IsErrOf result CheckFault.ReadFault → Rose (S.faults source.old) (S.faults source.new) }
    {
        if self.over {
            return Ok(Item::End);
        }
        loop {
            match self.turn(alloc, source) {
                Ok(None) => {}
                Ok(Some(item)) => {
                    self.over = matches!(item, Item::Malformed | Item::TooLong);
                    return Ok(item);
                }
                Err(fault) => {
                    self.over = true;
                    return Err(fault);
                }
            }
        }
    }
}
