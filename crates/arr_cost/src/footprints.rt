//! What blocks touch, class by class, as rows of bits, and what two of them save as one.
ghost use Rattle.std.specs.Prelude.{◌≡◌, ◌≤◌, ◌<◌, ◌+◌, ◌*◌, ◌/◌, ◌==◌, ◌&&◌, ◌||◌, ℕ, List, IfOk, cond, get_or, length};
ghost use Rattle.std.specs.List.{All};
ghost use Rattle.arr_cost.specs.Touches.{frees_number, makes_number};
ghost use Rattle.arr_cost.specs.Footprints.{FreesAre, HasBases, HasClasses, IsIdle, IsJoint, MakesAre, ReadsAre, WritesAre, base_bit, blank, has_bit, is_blank, is_class, join, keeps, loses, reads_class, saved_by, span, writes_class};

use crate::NoMemory;
use crate::touches::{Touch, Touches};
use std::alloc::Global;
use std::marker::Model;

/// Of 64 classes of views, a bit for each, the first class lowest: those that a block reads, those that it writes, and those whose base it
/// makes or frees.
#[derive(Clone, Copy, Debug)]
pub(crate) struct Row {
    pub(crate) reads: u64,
    pub(crate) writes: u64,
    pub(crate) makes: u64,
    pub(crate) frees: u64,
}

/// What a block touches, class by class of identical views (docs/PLANS.md, "Cost"). A contract sees its rows, of 64 classes each. Only
/// those from one on up to another touch anything.
#[derive(Debug, Drop)]
pub struct Footprint {
    rows: Vec<Row>,
    from: usize,
    upto: usize,
}

impl Model for Footprint {
    ghost use Rattle.std.specs.Prelude.{List};
    ghost use Rattle.arr_cost.specs.Footprints.{LiesWithin};
    ghost use Rattle.arr_cost.specs.declared.footprints.Row.{Row};

    ghost Value = { List Row };

    ghost view = { λ f. f.rows.items };

    ghost invariant = { λ f. LiesWithin f.rows.items f.from f.upto };
}

/// The bit of a touch's class, if it is one of the 64 from the first on.
fn class_bit(touch: &Option<Touch>, first: usize) -> u64
    requires { first ≤ 4096 }
    ensures { (i : ℕ) → i < 64 → has_bit result i ≡ is_class (first + i) touch.now }
{
    let Some(touch) = touch else {
        return 0;
    };
    if touch.class < first || touch.class >= first + 64 {
        return 0;
    }
    1 << (touch.class - first)
}

/// The word with a bit more, if it is to be set.
fn with_bit(word: u64, digit: usize, set: bool) -> u64
    requires { digit < 64 }
    ensures { (i : ℕ) → i < 64 → has_bit result i ≡ (has_bit word i || (set && digit == i)) }
{
    if set {
        return word | 1 << digit;
    }
    word
}

fn has_bit(word: u64, digit: usize) -> bool
    requires { digit < 64 }
    ensures { result ≡ has_bit word digit }
{
    word >> digit & 1 == 1
}

/// Whether a class is one of a base.
fn is_based(bases: &[usize], class: usize, base: usize) -> bool
    ensures { result ≡ base_bit bases.now base class }
{
    class < bases.len() && base == bases[class]
}

/// The bits of those of the 64 classes from the first on that are views of a base.
fn base_bits(bases: &[usize], first: usize, base: usize) -> u64
    requires { first ≤ 4096 }
    ensures { (i : ℕ) → i < 64 → has_bit result i ≡ base_bit bases.now base (first + i) }
{
    let mut word = 0;
    for digit in 0..64 {
        word = with_bit(word, digit, is_based(bases, first + digit, base));
    }
    word
}

/// The bits of the views of the base that an operation makes.
fn made_bits(touches: &Touches, bases: &[usize], first: usize) -> u64
    requires { first ≤ 4096 }
    ensures { HasBases bases.now first result (λ b. makes_number b touches.now) }
{
    if !touches.makes {
        return 0;
    }
    match &touches.out {
        Some(touch) => base_bits(bases, first, touch.base),
        None => 0,
    }
}

/// The bits of the views of the base that an operation frees.
fn freed_bits(touches: &Touches, bases: &[usize], first: usize) -> u64
    requires { first ≤ 4096 }
    ensures { HasBases bases.now first result (λ b. frees_number b touches.now) }
{
    match touches.frees {
        Some(base) => base_bits(bases, first, base),
        None => 0,
    }
}

/// What an operation does with the 64 classes from the first on.
fn row_of(touches: &Touches, bases: &[usize], first: usize) -> Row
    requires { first ≤ 4096 }
    ensures reads { HasClasses first result.reads (λ c. reads_class c touches.now) }
    ensures writes { HasClasses first result.writes (λ c. writes_class c touches.now) }
    ensures makes { HasBases bases.now first result.makes (λ b. makes_number b touches.now) }
    ensures frees { HasBases bases.now first result.frees (λ b. frees_number b touches.now) }
{
    Row {
        reads: class_bit(&touches.first, first) | class_bit(&touches.second, first),
        writes: class_bit(&touches.out, first),
        makes: made_bits(touches, bases, first),
        frees: freed_bits(touches, bases, first),
    }
}

/// How many rows in front touch nothing.
fn blank_front(rows: &[Row]) -> usize
    ensures { (i : ℕ) → i < result → get_or rows.now i blank ≡ blank }
{
    let mut at = 0;
    while at < rows.len() && rows[at].is_blank() {
        at += 1;
    }
    at
}

/// Where the rows begin behind which none touches anything.
fn blank_rest(rows: &[Row]) -> usize
    ensures inside { result ≤ length rows.now }
    ensures behind { (i : ℕ) → result ≤ i → get_or rows.now i blank ≡ blank }
{
    let mut end = rows.len();
    while end > 0 && rows[end - 1].is_blank() {
        end -= 1;
    }
    end
}

/// Rows as a footprint.
fn framed(rows: Vec<Row>) -> Footprint
    requires { length rows.items ≤ 64 }
    ensures { result ≡ rows.items }
{
    let from = blank_front(rows.as_slice());
    let upto = blank_rest(rows.as_slice());
    Footprint { rows, from, upto }
}

/// What the block of one operation touches, told the base of each class.
pub(crate) fn footprint_of(
    alloc: Global,
    touches: &Touches,
    bases: &[usize],
) -> Result<Footprint, NoMemory>
    requires { length bases.now ≤ 768 }
    ensures long { IfOk result (λ rows. length rows ≡ length bases.now / 64 + 1) }
    ensures reads { IfOk result (λ rows. ReadsAre bases.now rows (λ c. reads_class c touches.now)) }
    ensures writes { IfOk result (λ rows. WritesAre bases.now rows (λ c. writes_class c touches.now)) }
    ensures makes { IfOk result (λ rows. MakesAre bases.now rows (λ b. makes_number b touches.now)) }
    ensures frees { IfOk result (λ rows. FreesAre bases.now rows (λ b. frees_number b touches.now)) }
{
    let mut rows = Vec::new(alloc);
    for index in 0..bases.len() / 64 + 1 {
        rows.push(row_of(touches, bases, 64 * index))?;
    }
    Ok(framed(rows))
}

impl Row {
    /// Whether none of its classes is touched.
    fn is_blank(&self) -> bool
        ensures { result ≡ is_blank self.now }
    {
        self.reads == 0 && self.writes == 0 && self.makes == 0 && self.frees == 0
    }

    /// What two blocks do as one.
    fn joined(&self, other: &Row) -> Row
        ensures { result ≡ join self.now other.now }
    {
        Row {
            reads: self.reads | other.reads,
            writes: self.writes | other.writes,
            makes: self.makes | other.makes,
            frees: self.frees | other.frees,
        }
    }

    /// The classes that the block touches outside itself.
    fn kept(&self) -> u64
        ensures { (i : ℕ) → i < 64 → has_bit result i ≡ keeps self.now i }
    {
        self.reads & !self.makes | self.writes & !self.frees
    }

    /// The classes that both blocks touch outside themselves.
    fn shared(&self, other: &Row) -> u64
        ensures { (i : ℕ) → i < 64 → has_bit result i ≡ (keeps self.now i && keeps other.now i) }
    {
        self.kept() & other.kept()
    }

    /// The classes that one of the blocks touches outside itself, but not the two as one.
    fn lost(&self, other: &Row) -> u64
        ensures { (i : ℕ) → i < 64 → has_bit result i ≡ loses self.now other.now i }
    {
        (self.kept() | other.kept()) & !self.joined(other).kept()
    }
}

/// What a class weighs; nothing, where there is no such class.
fn weight_of(weights: &[u64], class: usize) -> u64
    requires { All (λ w. w ≤ 8388608) weights.now }
    ensures value { result ≡ get_or weights.now class 0 }
    ensures small { result ≤ 8388608 }
{
    if class < weights.len() {
        weights[class]
    } else {
        0
    }
}

/// The sum with the weights of those of the 64 classes from the first on that have a bit.
fn add_weights(weights: &[u64], first: usize, word: u64, sum: u64) -> u64
    requires low { first ≤ 4096 }
    requires each { All (λ w. w ≤ 8388608) weights.now }
    requires small { sum ≤ 1099511627776 }
    ensures value { result ≡ sum + span weights.now first 64 (has_bit word) }
    ensures small { result ≤ sum + 536870912 }
{
    let mut total = sum;
    let mut digit = 0;
    let mut left = word;
    while left != 0 {
        let next = left.trailing_zeros() as usize;
        total += weight_of(weights, first + digit + next);
        left = left >> next >> 1;
        digit += next + 1;
    }
    total
}

/// What the classes weigh that both blocks touch outside themselves, and those that the two as one don't. Before one row, and from
/// another on, one of the two touches nothing.
fn saved_weight(weights: &[u64], a: &[Row], b: &[Row], from: usize, upto: usize) -> u64
    requires each { All (λ w. w ≤ 8388608) weights.now }
    requires few { length a.now ≤ 64 }
    requires first { upto ≤ length a.now }
    requires second { upto ≤ length b.now }
    requires rising { from ≤ upto }
    requires front { (i : ℕ) → i < from → IsIdle a.now b.now i }
    requires behind { (i : ℕ) → upto ≤ i → IsIdle a.now b.now i }
    ensures { result ≡ saved_by weights.now a.now b.now }
{
    let mut sum = 0;
    for index in from..upto {
        let shared = a[index].shared(&b[index]);
        let lost = a[index].lost(&b[index]);
        let some = add_weights(weights, 64 * index, shared, sum);
        sum = add_weights(weights, 64 * index, lost, some);
    }
    sum
}

impl Footprint {
    /// What two blocks of a list touch as one (docs/PLANS.md, "Cost"). Want of memory is its one refusal.
    pub fn joined(&self, alloc: Global, other: &Footprint) -> Result<Footprint, NoMemory>
        ensures { IfOk result (λ rows. IsJoint self.now other.now rows) }
    {
        let mut rows = Vec::new(alloc);
        for index in 0..self.rows.len().min(other.rows.len()) {
            rows.push(self.rows[index].joined(&other.rows[index]))?;
        }
        Ok(framed(rows))
    }

    /// What the two blocks save as one, told what each class weighs.
    pub(crate) fn saving(&self, weights: &[u64], other: &Footprint) -> u64
        requires { All (λ w. w ≤ 8388608) weights.now }
        ensures { result ≡ saved_by weights.now self.now other.now }
    {
        let upto = self.upto.min(other.upto);
        let from = self.from.max(other.from).min(upto);
        saved_weight(
            weights,
            self.rows.as_slice(),
            other.rows.as_slice(),
            from,
            upto,
        )
    }
}
