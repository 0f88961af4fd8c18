//! Numbers that lie a stride apart, copied to a place of a lane and back.
ghost use Rattle.std.specs.Prelude.{ℕ, ◌≡◌, ◌+◌, ◌*◌, ◌<◌, ◌≤◌, ◌++◌, drop, get_or, length, map, pos, take, true};
ghost use Rattle.std.specs.List.{list_all};
ghost use Rattle.arr_num.specs.Numbers.{in_type, width};
ghost use Rattle.arr_ops.specs.Memory.{write};
ghost use Rattle.arr_store.specs.Buffers.{cell_of};
ghost use Rattle.arr_store.specs.Runs.{LiesIn, run_place, run_places, with_places};

use crate::buffer::Buffer;
use arr_native::Native;
use arr_view::MOST_ELEMENTS;

/// Numbers of a base that lie a stride apart: where the first stands, how far it is from each to the next, and how many there
/// are. A stride may be 0 or negative; places and strides are counted in numbers, from 0.
#[derive(Debug, Clone, Copy)]
pub struct Run {
    pub start: u32,
    pub stride: i32,
    pub count: usize,
}

impl Buffer {
    /// Copies the numbers of a run to a lane of its type, from its number `at` on.
    #[inline]
    pub(crate) fn load_run(&self, run: Run, lane: &mut Buffer, at: usize)
        requires elem { (cell_of lane.old).elem ≡ (cell_of self.now).elem }
        requires lane { at + run.count ≤ length (cell_of lane.old).numbers }
        requires there { LiesIn (length (cell_of self.now).numbers) run.start run.stride run.count }
        ensures elem { (cell_of lane.new).elem ≡ (cell_of lane.old).elem }
        ensures length { length (cell_of lane.new).numbers ≡ length (cell_of lane.old).numbers }
        ensures each { (i : ℕ) → i < run.count → get_or (cell_of lane.new).numbers (at + i) (pos 0)
            ≡ get_or (cell_of self.now).numbers (run_place run.start run.stride i) (pos 0) }
        ensures before { (k : ℕ) → k < at
            → get_or (cell_of lane.new).numbers k (pos 0) ≡ get_or (cell_of lane.old).numbers k (pos 0) }
        ensures behind { (k : ℕ) → at + run.count ≤ k
            → get_or (cell_of lane.new).numbers k (pos 0) ≡ get_or (cell_of lane.old).numbers k (pos 0) }
    {
        match self {
            Buffer::Bytes(numbers) => match lane {
                Buffer::Bytes(out) => gather(out.as_mut_slice(), at, numbers.as_slice(), run),
                _ => unreachable!(),
            },
            Buffer::Words(numbers) => match lane {
                Buffer::Words(out) => gather(out.as_mut_slice(), at, numbers.as_slice(), run),
                _ => unreachable!(),
            },
            Buffer::Longs(numbers) => match lane {
                Buffer::Longs(out) => gather(out.as_mut_slice(), at, numbers.as_slice(), run),
                _ => unreachable!(),
            },
            Buffer::Naturals(numbers) => match lane {
                Buffer::Naturals(out) => gather(out.as_mut_slice(), at, numbers.as_slice(), run),
                _ => unreachable!(),
            },
        }
    }

    /// Copies numbers of a lane of its type, from its number `at` on, to the places of a run.
    #[inline]
    pub(crate) fn store_run(&mut self, run: Run, lane: &Buffer, at: usize)
        requires elem { (cell_of lane.now).elem ≡ (cell_of self.old).elem }
        requires lane { at + run.count ≤ length (cell_of lane.now).numbers }
        requires there { LiesIn (length (cell_of self.old).numbers) run.start run.stride run.count }
        ensures cell { cell_of self.new ≡ with_places (cell_of self.old) (run_places run.start run.stride run.count)
            (take run.count (drop at (cell_of lane.now).numbers)) }
        ensures typed { list_all (in_type (cell_of self.old).elem)
            (take run.count (drop at (cell_of lane.now).numbers)) ≡ true }
    {
        match self {
            Buffer::Bytes(out) => match lane {
                Buffer::Bytes(numbers) => scatter(out.as_mut_slice(), numbers.as_slice(), at, run),
                _ => unreachable!(),
            },
            Buffer::Words(out) => match lane {
                Buffer::Words(numbers) => scatter(out.as_mut_slice(), numbers.as_slice(), at, run),
                _ => unreachable!(),
            },
            Buffer::Longs(out) => match lane {
                Buffer::Longs(numbers) => scatter(out.as_mut_slice(), numbers.as_slice(), at, run),
                _ => unreachable!(),
            },
            Buffer::Naturals(out) => match lane {
                Buffer::Naturals(numbers) => scatter(
                    out.as_mut_slice(),
                    numbers.as_slice(),
                    at,
                    run,
                ),
                _ => unreachable!(),
            },
        }
    }

    /// Changes the numbers at the places of a run to numbers of its type, those of a list from its number `at` on.
    pub(crate) fn put_numbers(&mut self, run: Run, numbers: &[i128], at: usize)
        requires numbers { at + run.count ≤ length numbers.now }
        requires there { LiesIn (length (cell_of self.old).numbers) run.start run.stride run.count }
        requires typed { list_all (in_type (cell_of self.old).elem) (take run.count (drop at numbers.now)) ≡ true }
        ensures { cell_of self.new ≡ with_places (cell_of self.old) (run_places run.start run.stride run.count)
            (take run.count (drop at numbers.now)) }
    {
        let mut place = run.start as i64;
        for i in 0..run.count {
            self.put(place as u32, numbers[at + i]);
            place += run.stride as i64;
        }
    }

    /// How many bytes so many numbers of it take.
    #[inline]
    pub(crate) fn bytes(&self, count: usize) -> u64
        requires { count ≤ MOST_ELEMENTS }
        ensures value { result ≡ count * width (cell_of self.now).elem }
        ensures few { result ≤ 8388608 }
    {
        match self {
            Buffer::Bytes(_) => count as u64,
            Buffer::Words(_) => 4 * count as u64,
            Buffer::Longs(_) | Buffer::Naturals(_) => 8 * count as u64,
        }
    }
}

/// Copies so many numbers of a list, from a place on, to another list, from its place `at` on.
#[inline(always)]
fn copy_numbers<T: Copy>(out: &mut [T], at: usize, source: &[T], from: usize, count: usize)
    requires out { at + count ≤ length out.old }
    requires source { from + count ≤ length source.now }
    ensures { out.new ≡ take at out.old ++ (take count (drop from source.now) ++ drop (at + count) out.old) }
{
    out[at..at + count].copy_from_slice(&source[from..from + count]);
}

/// Copies the numbers of a run to a list, from its place `at` on. Numbers that lie side by side are copied as a slice.
#[inline(always)]
fn gather<T: Copy>(out: &mut [T], at: usize, source: &[T], run: Run)
    requires out { at + run.count ≤ length out.old }
    requires there { LiesIn (length source.now) run.start run.stride run.count }
    ensures length { length out.new ≡ length out.old }
    ensures each { (i : ℕ) (d : T) → i < run.count
        → get_or out.new (at + i) d ≡ get_or source.now (run_place run.start run.stride i) d }
    ensures before { (k : ℕ) (d : T) → k < at → get_or out.new k d ≡ get_or out.old k d }
    ensures behind { (k : ℕ) (d : T) → at + run.count ≤ k → get_or out.new k d ≡ get_or out.old k d }
{
    if run.stride == 1 && run.count > 0 {
        copy_numbers(out, at, source, run.start as usize, run.count);
        return;
    }
    gather_each(out, at, source, run);
}

/// The same, one number after another.
#[inline(always)]
fn gather_each<T: Copy>(out: &mut [T], at: usize, source: &[T], run: Run)
    requires out { at + run.count ≤ length out.old }
    requires there { LiesIn (length source.now) run.start run.stride run.count }
    ensures length { length out.new ≡ length out.old }
    ensures each { (i : ℕ) (d : T) → i < run.count
        → get_or out.new (at + i) d ≡ get_or source.now (run_place run.start run.stride i) d }
    ensures before { (k : ℕ) (d : T) → k < at → get_or out.new k d ≡ get_or out.old k d }
    ensures behind { (k : ℕ) (d : T) → at + run.count ≤ k → get_or out.new k d ≡ get_or out.old k d }
{
    let mut place = run.start as i64;
    for i in 0..run.count {
        out[at + i] = source[place as usize];
        place += run.stride as i64;
    }
}

/// Copies numbers of a list, from its place `at` on, to the places of a run. Numbers that lie side by side are copied as a slice.
#[inline(always)]
fn scatter<T: Native>(out: &mut [T], source: &[T], at: usize, run: Run)
    requires source { at + run.count ≤ length source.now }
    requires there { LiesIn (length out.old) run.start run.stride run.count }
    ensures length { length out.new ≡ length out.old }
    ensures written { map T.number out.new ≡ write (run_places run.start run.stride run.count)
        (take run.count (drop at (map T.number source.now))) (map T.number out.old) }
    ensures typed { list_all (in_type T.elem) (take run.count (drop at (map T.number source.now))) ≡ true }
{
    if run.stride == 1 && run.count > 0 {
        are_typed(source);
        copy_numbers(out, run.start as usize, source, at, run.count);
        return;
    }
    scatter_each(out, source, at, run);
}

/// Numbers of a native type are of its type. Nothing is left of the loop where it is compiled.
#[inline(always)]
fn are_typed<T: Native>(numbers: &[T])
    ensures { list_all (in_type T.elem) (map T.number numbers.now) ≡ true }
{
    for i in 0..numbers.len() {
        let _same = numbers[i].itself();
    }
}

/// The same, one number after another.
#[inline(always)]
fn scatter_each<T: Native>(out: &mut [T], source: &[T], at: usize, run: Run)
    requires source { at + run.count ≤ length source.now }
    requires there { LiesIn (length out.old) run.start run.stride run.count }
    ensures length { length out.new ≡ length out.old }
    ensures written { map T.number out.new ≡ write (run_places run.start run.stride run.count)
        (take run.count (drop at (map T.number source.now))) (map T.number out.old) }
    ensures typed { list_all (in_type T.elem) (take run.count (drop at (map T.number source.now))) ≡ true }
{
    let mut place = run.start as i64;
    for i in 0..run.count {
        out[place as usize] = source[at + i].itself();
        place += run.stride as i64;
    }
}
