//! The checker of certificates.
ghost use Rattle.std.specs.Prelude.{◌≡◌, ◌≤◌, ◌<◌, IfOk, IsErrOf, IsTrue, MatchOption, None, Ok, false, length, true};
ghost use Rattle.std.specs.Io.KnownBytes.{IsAtEnd};
ghost use Rattle.arr_io.specs.Causes.{Rose};
ghost use Rattle.arr_ops.specs.Formed.{is_formed};
ghost use Rattle.arr_law.specs.ProblemOf.{problem_of};
ghost use Rattle.arr_cert.specs.Proofs.{HasMetEnd, is_over, next_line, unread};
ghost use Rattle.arr_check.specs.Judged.{Finds, IsSure, Judges, Left, is_yes, left_kind};
ghost use Rattle.arr_check.specs.Stages.{is_ready};
ghost use Rattle.arr_check.specs.Steps.{IsFresh, IsTree};
ghost use Rattle.arr_check.specs.declared.stages.Stage.TheVariants as at_stage;

use crate::stages::{Stage, read};
use crate::tables::Tables;
use crate::tree::Tree;
use crate::verdict::Verdict;
use arr_cert::{CheckFault, Item, Reader};
use arr_io::Source;
use arr_law::{Record, Reject};
use arr_ops::Op;
use std::alloc::Global;

/// The next record, or what is wrong where none can be read.
fn next_record<S: Source>(
    alloc: Global,
    reader: &mut Reader,
    source: &mut S,
) -> Result<Result<Record, Reject>, CheckFault>
    requires open { is_over reader.old ≡ false }
    requires met { HasMetEnd S.Source reader.old source.old }
    ensures found { IfOk result (Finds S.Source reader.old reader.new source.old source.new) }
    ensures open { IfOk result (λ found. IfOk found (λ entry. is_over reader.new ≡ false)) }
    ensures on { IfOk result (λ found. IfOk found (λ entry. next_line reader.old < next_line reader.new)) }
    ensures few { next_line reader.new ≤ 67108865 }
    ensures met { HasMetEnd S.Source reader.new source.new }
    ensures later { S.faults source.old ≤ S.faults source.new }
    ensures cause { IsErrOf result CheckFault.ReadFault → Rose (S.faults source.old) (S.faults source.new) }
{
    match reader.next(alloc, source) {
        Ok(Item::Record(entry)) => Ok(Ok(entry)),
        Ok(Item::End) => Ok(Err(Reject::Unfinished)),
        Ok(Item::Malformed) => Ok(Err(Reject::Malformed)),
        Ok(Item::TooLong) => Ok(Err(Reject::TooLong)),
        Err(fault) => Err(fault),
    }
}

/// The cost and the bound, where all was read.
fn done(stage: Stage) -> Option<(u64, u64)>
    ensures { MatchOption result (is_ready stage ≡ true) (λ p. stage ≡ at_stage.Done p.0 p.1) }
{
    match stage {
        Stage::Done { cost, bound } => Some((cost, bound)),
        _ => None,
    }
}

/// Reads the records of a list one after another.
fn judge<S: Source>(
    alloc: Global,
    tables: &Tables,
    number: u32,
    tree: &mut Tree,
    reader: &mut Reader,
    source: &mut S,
) -> Result<Verdict, CheckFault>
    requires tree { IsTree (problem_of tables.now) tree.old }
    requires fresh { IsFresh (problem_of tables.now) tree.old }
    requires open { is_over reader.old ≡ false }
    requires met { HasMetEnd S.Source reader.old source.old }
    ensures judged { IfOk result (Judges S.Source tables.now number reader.old reader.new source.old source.new) }
    ensures open { IfOk result (λ verdict. is_yes verdict ≡ true → is_over reader.new ≡ false) }
    ensures met { HasMetEnd S.Source reader.new source.new }
    ensures later { S.faults source.old ≤ S.faults source.new }
    ensures cause { IsErrOf result CheckFault.ReadFault → Rose (S.faults source.old) (S.faults source.new) }
{
    let mut stage = Stage::Head;
    loop {
        if let Some((cost, bound)) = done(stage) {
            return Ok(Verdict::Yes { cost, bound });
        }
        let found = match next_record(alloc, reader, source) {
            Ok(found) => found,
            Err(fault) => return Err(fault),
        };
        let entry = match found {
            Ok(entry) => entry,
            Err(kind) => {
                return Ok(Verdict::No {
                    line: reader.line(),
                    kind,
                });
            }
        };
        let Ok(next) = read(tables, number, stage, tree, &entry) else {
            return Err(CheckFault::NoMemory);
        };
        match next {
            Ok(next) => stage = next,
            Err(kind) => {
                return Ok(Verdict::No {
                    line: reader.line(),
                    kind,
                });
            }
        }
    }
}

/// Judges the certificate of a list of at most 256 operations, the list of this number, from the records that come next: yes where the
/// plan is legal, costs what is read and no legal plan costs less than the bound, as far as the certificate shows it, and else no, with
/// the line and the kind of the first wrong record (docs/CERTIFICATES.md, "Rejections").
///
/// It reads no further than the record that decides, and keeps what is known at one place of the tree, never the records. `ReadFault`
/// comes only where the source's count of faults rose in this call, and `NoMemory` where memory ran out; after either the reader is not
/// to be used again. No earlier call of the reader may have failed or answered that a line is malformed or too long, and where one met
/// the end of input, the source must have nothing left.
pub fn check<S: Source>(
    alloc: Global,
    ops: &[Op],
    number: u32,
    reader: &mut Reader,
    source: &mut S,
) -> Result<Verdict, CheckFault>
    requires few { length ops.now ≤ 256 }
    requires open { is_over reader.old ≡ false }
    requires met { HasMetEnd S.Source reader.old source.old }
    ensures judged { IfOk result (Judges S.Source ops.now number reader.old reader.new source.old source.new) }
    ensures sure { IsTrue (is_formed ops.now) → IfOk result (IsSure ops.now) }
    ensures open { IfOk result (λ verdict. is_yes verdict ≡ true → is_over reader.new ≡ false) }
    ensures met { HasMetEnd S.Source reader.new source.new }
    ensures later { S.faults source.old ≤ S.faults source.new }
    ensures cause { IsErrOf result CheckFault.ReadFault → Rose (S.faults source.old) (S.faults source.new) }
{
    let Ok(tables) = Tables::of(alloc, ops) else {
        return Err(CheckFault::NoMemory);
    };
    let Ok(mut tree) = Tree::new(alloc, &tables) else {
        return Err(CheckFault::NoMemory);
    };
    judge(alloc, &tables, number, &mut tree, reader, source)
}

/// What is wrong with what comes behind the last certificate.
fn left_fault(item: &Item) -> Option<Reject>
    ensures { result ≡ left_kind item.now }
{
    match item {
        Item::Record(_) => Some(Reject::Trailing),
        Item::End => None,
        Item::Malformed => Some(Reject::Malformed),
        Item::TooLong => Some(Reject::TooLong),
    }
}

/// Ends a proof behind its last certificate: `None` where no further line begins with `!`, and else the line of the first that does, and
/// `Trailing`, or `Malformed` or `TooLong` where it is no record (docs/CERTIFICATES.md, "Rejections"). `ReadFault`, `NoMemory` and what is
/// asked of reader and source are as with `check`.
pub fn finish<S: Source>(
    alloc: Global,
    reader: &mut Reader,
    source: &mut S,
) -> Result<Option<(u64, Reject)>, CheckFault>
    requires open { is_over reader.old ≡ false }
    requires met { HasMetEnd S.Source reader.old source.old }
    ensures left { IfOk result (Left (unread S.Source reader.old source.old)) }
    ensures ended { result ≡ Ok None → IsAtEnd (S.left source.new) }
    ensures met { HasMetEnd S.Source reader.new source.new }
    ensures later { S.faults source.old ≤ S.faults source.new }
    ensures cause { IsErrOf result CheckFault.ReadFault → Rose (S.faults source.old) (S.faults source.new) }
{
    let item = match reader.next(alloc, source) {
        Ok(item) => item,
        Err(fault) => return Err(fault),
    };
    match left_fault(&item) {
        Some(kind) => Ok(Some((reader.line(), kind))),
        None => Ok(None),
    }
}
