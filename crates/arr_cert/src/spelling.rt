//! The record that a line spells. What a call says of its text is what the text is, and that nothing else has this text.
ghost use Rattle.std.specs.Prelude.{◌≡◌, ◌≤◌, ◌^◌, ◌-◌, ◌++◌, ◌&&◌, ◌∷◌, codes, length, nat_le, IfOk, IsTrue, SomeIff};
ghost use Rattle.std.specs.Char.{digit_value};
ghost use Rattle.std.specs.List.{before_first};
ghost use Rattle.std.specs.Option.{option_map};
ghost use Rattle.arr_cert.specs.Texts.{spaced};
ghost use Rattle.arr_cert.specs.Spelling.{IsText};
ghost use Rattle.arr_cert.specs.Spelled.{DecimalOf, GroupOf, GroupsOf, Is, NumberOf, NumbersOf, is_sign};

use crate::writing::takes_two;
use arr_io::NoMemory;
use arr_law::{Charge, Charges, OpList, Places, Record};
use std::alloc::Global;

/// How many bytes stand before the first sign, or in all where there is none.
fn before(sign: u8, text: &[u8]) -> usize
    ensures { result ≡ length (before_first (is_sign sign) text.now) }
{
    text.iter().take_while(|b| **b != sign).count()
}

/// The number whose decimal the text is, if it is at most `most`.
fn number(most: u64, text: &[u8]) -> Option<u64>
    ensures { Is (DecimalOf most text.now) result }
{
    let (first, others) = text.split_first()?;
    if !first.is_ascii_digit() {
        return None;
    }
    let mut value = u64::from(*first - b'0');
    if value == 0 && !others.is_empty() {
        return None;
    }
    for b in others {
        if !b.is_ascii_digit() {
            return None;
        }
        value = value.checked_mul(10)?.checked_add(u64::from(*b - b'0'))?;
    }
    if value > most { None } else { Some(value) }
}

/// The number whose decimal the text is, if it fits.
fn narrow(text: &[u8]) -> Option<u32>
    ensures { Is (DecimalOf (2 ^ 32 - 1) text.now) result }
{
    let value = number(u64::from(u32::MAX), text)?;
    Some(value as u32)
}

/// The number whose decimal the text is behind a blank, if it fits.
fn wide(text: &[u8]) -> Option<u64>
    ensures { Is (NumberOf text.now) result }
{
    let (first, digits) = text.split_first()?;
    if *first == b' ' {
        number(u64::MAX, digits)
    } else {
        None
    }
}

/// The numbers that the text spells, each behind a sign.
fn numbers(alloc: Global, sign: u8, text: &[u8]) -> Result<Option<Vec<u32>>, NoMemory>
    requires apart { 10 ≤ digit_value sign }
    ensures { IfOk result (λ found. Is (NumbersOf sign text.now) (option_map (λ v. v.items) found)) }
{
    let mut found = Vec::new(alloc);
    let mut at = 0;
    while at < text.len() {
        if text[at] != sign {
            return Ok(None);
        }
        let start = at + 1;
        let end = start + before(sign, &text[start..]);
        let Some(value) = narrow(&text[start..end]) else {
            return Ok(None);
        };
        found.push(value)?;
        at = end;
    }
    Ok(Some(found))
}

/// The number of a view of an operation whose decimal the text is: 0 the output, 1 and 2 the operands.
fn view_number(text: &[u8]) -> Option<u8>
    ensures { Is (DecimalOf 2 text.now) result }
{
    let value = number(2, text)?;
    Some(value as u8)
}

/// The group that the text spells behind a blank.
fn group(alloc: Global, text: &[u8]) -> Result<Option<Charge>, NoMemory>
    ensures { IfOk result (λ found. Is (GroupOf text.now) found) }
{
    let point = before(b'.', text);
    if point == text.len() {
        return Ok(None);
    }
    let Some(first) = narrow(&text[..point]) else {
        return Ok(None);
    };
    let tail = &text[point + 1..];
    let comma = before(b',', tail);
    let Some(operand) = view_number(&tail[..comma]) else {
        return Ok(None);
    };
    let Some(others) = numbers(alloc, b',', &tail[comma..])? else {
        return Ok(None);
    };
    let ops = op_list(alloc, first, &others)?;
    Ok(Some(Charge { operand, ops }))
}

/// An operation and others as a list.
fn op_list(alloc: Global, first: u32, others: &[u32]) -> Result<OpList, NoMemory>
    ensures { IfOk result (λ ops. ops ≡ first ∷ others.now) }
{
    let mut ops = OpList::new(alloc);
    ops.push(first)?;
    for op in others {
        ops.push(*op)?;
    }
    Ok(ops)
}

/// The groups that the text spells, each behind a blank.
fn groups(alloc: Global, text: &[u8]) -> Result<Option<Charges>, NoMemory>
    ensures { IfOk result (λ found. Is (GroupsOf text.now) found) }
{
    let mut found = Charges::new(alloc);
    let mut at = 0;
    while at < text.len() {
        if text[at] != b' ' {
            return Ok(None);
        }
        let start = at + 1;
        let end = start + before(b' ', &text[start..]);
        let Some(charge) = group(alloc, &text[start..end])? else {
            return Ok(None);
        };
        found.push(charge)?;
        at = end;
    }
    Ok(Some(found))
}

/// The places of a plan.
fn places(alloc: Global, numbers: &[u32]) -> Result<Places, NoMemory>
    ensures { IfOk result (λ places. places ≡ numbers.now) }
{
    let mut places = Places::new(alloc);
    for place in numbers {
        places.push(*place)?;
    }
    Ok(places)
}

/// The head of a certificate with these numbers.
fn head(numbers: &[u32]) -> Option<Record>
    ensures { Is (IsText (codes "!flush" ++ spaced numbers.now)) result }
{
    if numbers.len() == 2 {
        return Some(Record::Flush {
            number: numbers[0],
            count: numbers[1],
            version: 1,
        });
    }
    if numbers.len() != 3 {
        return None;
    }
    if numbers[2] != 2 {
        return None;
    }
    Some(Record::Flush {
        number: numbers[0],
        count: numbers[1],
        version: 2,
    })
}

/// The step with these numbers.
fn step(numbers: &[u32]) -> Option<Record>
    ensures { Is (IsText (codes "!step" ++ spaced numbers.now)) result }
{
    if numbers.len() < 3 {
        return None;
    }
    let rule = rule_of(numbers[0])?;
    let (f, g) = (numbers[1], numbers[2]);
    let two = takes_two(rule);
    if two {
        if numbers.len() != 3 {
            return None;
        }
        return Some(Record::Step { rule, f, g, h: 0 });
    }
    if numbers.len() != 4 {
        return None;
    }
    let h = numbers[3];
    Some(Record::Step { rule, f, g, h })
}

/// The rule of this number.
fn rule_of(number: u32) -> Option<u8>
    ensures { SomeIff result (IsTrue (nat_le 3 number && nat_le number 9)) number }
{
    if 3 <= number && number <= 9 {
        Some(number as u8)
    } else {
        None
    }
}

/// The branch on these operations.
fn branch(numbers: &[u32]) -> Option<Record>
    ensures { Is (IsText (codes "!branch" ++ spaced numbers.now)) result }
{
    if numbers.len() != 2 {
        return None;
    }
    Some(Record::Branch {
        f: numbers[0],
        g: numbers[1],
    })
}

/// The dead leaf at these operations.
fn dead(numbers: &[u32]) -> Option<Record>
    ensures { Is (IsText (codes "!dead" ++ spaced numbers.now)) result }
{
    if numbers.len() != 2 {
        return None;
    }
    Some(Record::Dead {
        f: numbers[0],
        g: numbers[1],
    })
}

/// The record of a line that begins with `!flush`.
fn flush_line(alloc: Global, rest: &[u8]) -> Result<Option<Record>, NoMemory>
    ensures { IfOk result (λ found. Is (IsText (codes "!flush" ++ rest.now)) found) }
{
    let Some(listed) = numbers(alloc, b' ', rest)? else {
        return Ok(None);
    };
    Ok(head(&listed))
}

/// The record of a line that begins with `!plan`.
fn plan_line(alloc: Global, rest: &[u8]) -> Result<Option<Record>, NoMemory>
    ensures { IfOk result (λ found. Is (IsText (codes "!plan" ++ rest.now)) found) }
{
    let Some(listed) = numbers(alloc, b' ', rest)? else {
        return Ok(None);
    };
    Ok(Some(Record::Plan(places(alloc, &listed)?)))
}

/// The record of a line that begins with `!step`.
fn step_line(alloc: Global, rest: &[u8]) -> Result<Option<Record>, NoMemory>
    ensures { IfOk result (λ found. Is (IsText (codes "!step" ++ rest.now)) found) }
{
    let Some(listed) = numbers(alloc, b' ', rest)? else {
        return Ok(None);
    };
    Ok(step(&listed))
}

/// The record of a line that begins with `!branch`.
fn branch_line(alloc: Global, rest: &[u8]) -> Result<Option<Record>, NoMemory>
    ensures { IfOk result (λ found. Is (IsText (codes "!branch" ++ rest.now)) found) }
{
    let Some(listed) = numbers(alloc, b' ', rest)? else {
        return Ok(None);
    };
    Ok(branch(&listed))
}

/// The record of a line that begins with `!dead`.
fn dead_line(alloc: Global, rest: &[u8]) -> Result<Option<Record>, NoMemory>
    ensures { IfOk result (λ found. Is (IsText (codes "!dead" ++ rest.now)) found) }
{
    let Some(listed) = numbers(alloc, b' ', rest)? else {
        return Ok(None);
    };
    Ok(dead(&listed))
}

/// The record of a line that begins with `!worth`.
fn worth_line(alloc: Global, rest: &[u8]) -> Result<Option<Record>, NoMemory>
    ensures { IfOk result (λ found. Is (IsText (codes "!worth" ++ rest.now)) found) }
{
    let Some(charges) = groups(alloc, rest)? else {
        return Ok(None);
    };
    Ok(Some(Record::Worth(charges)))
}

/// The record of a line that begins with `!cost`.
fn cost_line(rest: &[u8]) -> Option<Record>
    ensures { Is (IsText (codes "!cost" ++ rest.now)) result }
{
    let cost = wide(rest)?;
    Some(Record::Cost(cost))
}

/// The record of a line that begins with `!bound`.
fn bound_line(rest: &[u8]) -> Option<Record>
    ensures { Is (IsText (codes "!bound" ++ rest.now)) result }
{
    let bound = wide(rest)?;
    Some(Record::Bound(bound))
}

/// The record that the text of a line spells, if it spells one.
pub(crate) fn record(alloc: Global, text: &[u8]) -> Result<Option<Record>, NoMemory>
    ensures { IfOk result (λ found. Is (IsText text.now) found) }
{
    if let Some(rest) = text.strip_prefix(b"!step".as_slice()) {
        return step_line(alloc, rest);
    }
    if let Some(rest) = text.strip_prefix(b"!worth".as_slice()) {
        return worth_line(alloc, rest);
    }
    if let Some(rest) = text.strip_prefix(b"!branch".as_slice()) {
        return branch_line(alloc, rest);
    }
    if let Some(rest) = text.strip_prefix(b"!dead".as_slice()) {
        return dead_line(alloc, rest);
    }
    if let Some(rest) = text.strip_prefix(b"!flush".as_slice()) {
        return flush_line(alloc, rest);
    }
    if let Some(rest) = text.strip_prefix(b"!plan".as_slice()) {
        return plan_line(alloc, rest);
    }
    if let Some(rest) = text.strip_prefix(b"!cost".as_slice()) {
        return Ok(cost_line(rest));
    }
    if let Some(rest) = text.strip_prefix(b"!bound".as_slice()) {
        return Ok(bound_line(rest));
    }
    if text == b"!end".as_slice() {
        return Ok(Some(Record::End));
    }
    Ok(None)
}
