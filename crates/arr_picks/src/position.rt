//! Which position a number of an index names.
ghost use Rattle.std.specs.Prelude.{◌≡◌, ◌<◌, ◌≤◌};
ghost use Rattle.arr_ops.specs.Gathers.{position_named};

use arr_native::Native;

/// A number of an index, in its own width.
pub trait Index: Native {
    /// The position that it names, of `count` positions: its remainder (docs/LANGUAGE.md, "Gather and scatter").
    fn position(self, count: u32) -> u32
        requires { 0 < count }
        ensures value { result ≡ position_named count (Self.number self) }
        ensures below { result < count };
}

impl Index for u8 {
    #[inline(always)]
    fn position(self, count: u32) -> u32 {
        let number = u32::from(self);
        if number < count {
            return number;
        }
        number % count
    }
}

impl Index for i32 {
    #[inline(always)]
    fn position(self, count: u32) -> u32 {
        i64::from(self).position(count)
    }
}

impl Index for i64 {
    #[inline(always)]
    fn position(self, count: u32) -> u32 {
        let count = i64::from(count);
        if self >= 0 && self < count {
            return self as u32;
        }
        self.rem_euclid(count) as u32
    }
}

impl Index for u64 {
    #[inline(always)]
    fn position(self, count: u32) -> u32 {
        let count = u64::from(count);
        if self < count {
            return self as u32;
        }
        (self % count) as u32
    }
}

/// The position that a number of an index names, of `count` positions: its remainder (docs/LANGUAGE.md, "Gather and scatter").
#[inline]
pub fn position_named(number: i128, count: u32) -> u32
    requires { 0 < count }
    ensures value { result ≡ position_named count number }
    ensures below { result < count }
{
    let count = i128::from(count);
    if number >= 0 && number < count {
        return number as u32;
    }
    number.rem_euclid(count) as u32
}
