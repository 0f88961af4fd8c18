//! Views: the elements of a base that a start, a shape and strides pick out.
ghost use Rattle.std.specs.Prelude.{◌≡◌, ◌≤◌, ◌<◌, ◌-◌, ◌*ℤ◌, ◌&&◌, unsigned_abs, IsTrue, Some, None, IfSome, true, cond, length, get_or, pos, nat_le};
ghost use Rattle.std.specs.List.{list_all, range_with_len};
ghost use Rattle.arr_view.specs.Views.{is_view, is_place, is_consecutive, has, lies, most_elements, places, positions, elements, view_from, whole_view, whole_strides, checked, kept_strides};

use crate::shape::copied_list;
use arrayvec::ArrayVec;
use std::marker::Model;

/// A strided view of a base (docs/LANGUAGE.md, "Views").
#[derive(Debug, Drop, PartialEq, Eq, Hash)]
pub struct View {
    base: u32,
    start: u32,
    shape: ArrayVec<u32, 4>,
    strides: ArrayVec<i32, 4>,
}

impl Model for View {
    ghost use Rattle.std.specs.Prelude.{IsTrue};
    ghost use Rattle.arr_view.specs.Strided.{Strided};

    ghost Value = { Strided };

    ghost use Rattle.arr_view.specs.Views.{is_view};

    ghost view = { λ v. record { base = v.base; start = v.start; lengths = v.shape.items; strides = v.strides.items } };

    ghost invariant = { λ v. IsTrue (is_view (record { base = v.base; start = v.start; lengths = v.shape.items; strides = v.strides.items })) };

    ghost inverse = { λ d. record { base = d.base; start = d.start; shape = record { items = d.lengths }; strides = record { items = d.strides } } };
}

/// A base has at most this many elements: a view has at most this many positions, and its elements, counted from 0, lie below this
/// number (docs/LANGUAGE.md, "Views").
pub const MOST_ELEMENTS: u32 = 1_048_576;

/// The number of positions of a shape; `None` where a length is 0 or there are too many positions.
fn counted(lengths: &[u32]) -> Option<u32>
    ensures { result ≡ cond (list_all (nat_le 1) lengths.now && nat_le (positions lengths.now) most_elements)
        (Some (positions lengths.now)) None }
{
    let mut count: u64 = 1;
    for length in lengths {
        count *= u64::from(*length);
        if count == 0 || count > u64::from(MOST_ELEMENTS) {
            return None;
        }
    }
    Some(count as u32)
}

/// How far some steps of a stride lead, in elements; below 0 where the stride is (docs/LANGUAGE.md, "Views").
pub fn offset(steps: u32, stride: i32) -> i64
    ensures value { result ≡ pos steps *ℤ stride }
    ensures size { unsigned_abs result ≤ 9223372034707292160 }
{
    i64::from(steps) * i64::from(stride)
}

/// Whether every element lies from 0 to 1,048,575: the least and the greatest of them decide.
fn stays_inside(start: u32, lengths: &[u32], strides: &[i32]) -> bool
    requires same_rank { length strides.now ≡ length lengths.now }
    requires lengths { list_all (nat_le 1) lengths.now ≡ true }
    ensures { result ≡ list_all is_place (places lengths.now strides.now (pos start)) }
{
    if start >= MOST_ELEMENTS {
        return false;
    }
    let mut least = i64::from(start);
    let mut greatest = least;
    for (axis, length) in lengths.iter().enumerate() {
        let stride = strides[axis];
        let reach = offset(*length - 1, stride);
        if stride < 0 {
            least += reach;
        } else {
            greatest += reach;
        }
        if least < 0 || greatest >= i64::from(MOST_ELEMENTS) {
            return false;
        }
    }
    true
}

/// The strides with which a view is kept: 0 for each dimension of length 1.
fn kept(lengths: &[u32], strides: &[i32]) -> ArrayVec<i32, 4>
    requires same_rank { length strides.now ≡ length lengths.now }
    requires rank { length lengths.now ≤ 4 }
    ensures { result.items ≡ kept_strides lengths.now strides.now }
{
    let mut kept = ArrayVec::new();
    for (axis, length) in lengths.iter().enumerate() {
        kept.push(if *length == 1 { 0 } else { strides[axis] });
    }
    kept
}

/// The strides with which a shape of `count` positions fills a stretch of its base without a gap.
fn gapless_strides(lengths: &[u32], count: u32) -> ArrayVec<i32, 4>
    requires rank { length lengths.now ≤ 4 }
    requires lengths { list_all (nat_le 1) lengths.now ≡ true }
    requires count { count ≡ positions lengths.now }
    requires few { count ≤ most_elements }
    ensures { result.items ≡ whole_strides lengths.now }
{
    let mut strides = ArrayVec::new();
    let mut rest = count;
    for length in lengths {
        rest /= *length;
        strides.push(if *length == 1 { 0 } else { rest as i32 });
    }
    strides
}

impl View {
    /// The view of a base that starts at an element and has these lengths and strides, those of the first dimension first.
    /// `None` exactly where it is no view: it has not one to four dimensions, not as many strides as lengths, a length of 0, more
    /// than 1,048,576 positions, or an element that does not lie from 0 to 1,048,575. A stride of a dimension of length 1 is kept as 0
    /// (docs/LANGUAGE.md, "Views").
    pub fn new(base: u32, start: u32, shape: &[u32], strides: &[i32]) -> Option<View>
        ensures { result ≡ view_from base start shape.now strides.now }
    {
        if shape.is_empty() || strides.len() != shape.len() {
            return None;
        }
        let lengths = ArrayVec::try_from(shape).ok()?;
        counted(shape)?;
        let strides = kept(shape, strides);
        if !stays_inside(start, shape, strides.as_slice()) {
            return None;
        }
        Some(View {
            base,
            start,
            shape: lengths,
            strides,
        })
    }

    /// The view of a whole base of this shape, in order; `None` exactly where the shape has not one to four lengths, a length of 0 or
    /// more than 1,048,576 positions (docs/LANGUAGE.md, "Views").
    pub fn whole(base: u32, shape: &[u32]) -> Option<View>
        ensures value { result ≡ checked (whole_view base shape.now) }
        ensures in_order { IfSome result (λ view. elements view ≡ range_with_len 0 (positions shape.now)) }
    {
        if shape.len() > 4 {
            return None;
        }
        let strides = gapless_strides(shape, counted(shape)?);
        View::new(base, 0, shape, strides.as_slice())
    }

    /// An equal view (docs/MAP.md, "Copies").
    pub fn copied(&self) -> View
        ensures value { result ≡ self.now }
        ensures lawful { IsTrue (is_view result) }
    {
        View {
            base: self.base,
            start: self.start,
            shape: copied_list(&self.shape),
            strides: copied_list(&self.strides),
        }
    }

    /// The number of positions (docs/LANGUAGE.md, "Views").
    pub fn positions(&self) -> u32
        ensures value { result ≡ positions self.now.lengths }
        ensures lawful { IsTrue (is_view self.now) }
    {
        counted(self.shape.as_slice()).unwrap()
    }

    /// The element, counted from 0, at a position, counted from 0 in row-major order (docs/LANGUAGE.md, "Views").
    pub fn element(&self, position: u32) -> u32
        requires { position < positions self.now.lengths }
        ensures value { result ≡ get_or (elements self.now) position 0 }
        ensures lawful { IsTrue (is_view self.now) }
    {
        let mut place = i64::from(self.start);
        let mut rest = self.positions();
        let mut left = position;
        for (axis, length) in self.shape.iter().enumerate() {
            rest /= *length;
            place += offset(left / rest, self.strides[axis]);
            left %= rest;
        }
        place as u32
    }

    /// The number of the base, from 0 (docs/LANGUAGE.md, "Views").
    pub fn base(&self) -> u32
        ensures value { result ≡ self.now.base }
        ensures lawful { IsTrue (is_view self.now) }
    {
        self.base
    }

    /// The element, counted from 0, at index 0 in every dimension (docs/LANGUAGE.md, "Views").
    pub fn start(&self) -> u32
        ensures value { result ≡ self.now.start }
        ensures lawful { IsTrue (is_view self.now) }
    {
        self.start
    }

    /// The lengths, the first dimension's first (docs/LANGUAGE.md, "Views").
    pub fn shape(&self) -> &[u32]
        ensures value { result.now ≡ self.now.lengths }
        ensures lawful { IsTrue (is_view self.now) }
    {
        self.shape.as_slice()
    }

    /// The strides in elements, the first dimension's first (docs/LANGUAGE.md, "Views").
    pub fn strides(&self) -> &[i32]
        ensures value { result.now ≡ self.now.strides }
        ensures lawful { IsTrue (is_view self.now) }
    {
        self.strides.as_slice()
    }

    /// The least and the greatest element, counted from 0 (docs/LANGUAGE.md, "Views").
    pub fn ends(&self) -> (u32, u32)
        ensures all { IsTrue (list_all (lies result.0 result.1) (elements self.now)) }
        ensures least { IsTrue (has (elements self.now) result.0) }
        ensures greatest { IsTrue (has (elements self.now) result.1) }
        ensures lawful { IsTrue (is_view self.now) }
    {
        let mut least = i64::from(self.start());
        let mut greatest = least;
        let strides = self.strides();
        for (axis, length) in self.shape().iter().enumerate() {
            let stride = strides[axis];
            let reach = offset(*length - 1, stride);
            if stride < 0 {
                least += reach;
            } else {
                greatest += reach;
            }
        }
        (least as u32, greatest as u32)
    }

    /// Whether the elements are consecutive and rising in row-major order: the start, the start plus 1 and so on
    /// (docs/LANGUAGE.md, "Views").
    pub fn is_gapless(&self) -> bool
        ensures value { result ≡ is_consecutive self.now }
        ensures lawful { IsTrue (is_view self.now) }
    {
        let strides = gapless_strides(self.shape(), self.positions());
        self.strides() == strides.as_slice()
    }
}
