ghost use Rattle.std.specs.Prelude.{◌≡◌, map, true};
ghost use Rattle.arr_num.specs.Numbers.{in_type};
ghost use Rattle.arr_store.specs.Buffers.{cell_of};

use arr_native::Native;
use arr_store::Buffer;

/// A native type, as the type of a lane.
pub trait Lane: Native {
    /// The numbers of a lane of this type.
    fn numbers(lane: &Buffer) -> &[Self]
        requires { (cell_of lane.now).elem ≡ Self.elem }
        ensures { map Self.number result.now ≡ (cell_of lane.now).numbers };

    /// Lets a list and the numbers of a lane of this type change places.
    fn exchange(lane: &mut Buffer, list: &mut Vec<Self>)
        requires { (cell_of lane.old).elem ≡ Self.elem }
        ensures elem { (cell_of lane.new).elem ≡ Self.elem }
        ensures lane { (cell_of lane.new).numbers ≡ map Self.number list.old.items }
        ensures list { map Self.number list.new.items ≡ (cell_of lane.old).numbers };

    /// A number of the type, in the bytes of the type.
    fn narrow(number: i128) -> Self
        requires { in_type Self.elem number ≡ true }
        ensures { Self.number result ≡ number };

    /// The number that it is.
    fn widen(self) -> i128
        ensures number { result ≡ Self.number self }
        ensures typed { in_type Self.elem result ≡ true };
}

impl Lane for u8 {
    #[inline(always)]
    fn numbers(lane: &Buffer) -> &[u8] {
        match lane {
            Buffer::Bytes(numbers) => numbers.as_slice(),
            _ => unreachable!(),
        }
    }

    #[inline(always)]
    fn exchange(lane: &mut Buffer, list: &mut Vec<u8>) {
        match lane {
            Buffer::Bytes(numbers) => std::mem::swap(numbers, list),
            _ => unreachable!(),
        }
    }

    #[inline(always)]
    fn narrow(number: i128) -> u8 {
        number as u8
    }

    #[inline(always)]
    fn widen(self) -> i128 {
        self as i128
    }
}

impl Lane for i32 {
    #[inline(always)]
    fn numbers(lane: &Buffer) -> &[i32] {
        match lane {
            Buffer::Words(numbers) => numbers.as_slice(),
            _ => unreachable!(),
        }
    }

    #[inline(always)]
    fn exchange(lane: &mut Buffer, list: &mut Vec<i32>) {
        match lane {
            Buffer::Words(numbers) => std::mem::swap(numbers, list),
            _ => unreachable!(),
        }
    }

    #[inline(always)]
    fn narrow(number: i128) -> i32 {
        number as i32
    }

    #[inline(always)]
    fn widen(self) -> i128 {
        self as i128
    }
}

impl Lane for i64 {
    #[inline(always)]
    fn numbers(lane: &Buffer) -> &[i64] {
        match lane {
            Buffer::Longs(numbers) => numbers.as_slice(),
            _ => unreachable!(),
        }
    }

    #[inline(always)]
    fn exchange(lane: &mut Buffer, list: &mut Vec<i64>) {
        match lane {
            Buffer::Longs(numbers) => std::mem::swap(numbers, list),
            _ => unreachable!(),
        }
    }

    #[inline(always)]
    fn narrow(number: i128) -> i64 {
        number as i64
    }

    #[inline(always)]
    fn widen(self) -> i128 {
        self as i128
    }
}

impl Lane for u64 {
    #[inline(always)]
    fn numbers(lane: &Buffer) -> &[u64] {
        match lane {
            Buffer::Naturals(numbers) => numbers.as_slice(),
            _ => unreachable!(),
        }
    }

    #[inline(always)]
    fn exchange(lane: &mut Buffer, list: &mut Vec<u64>) {
        match lane {
            Buffer::Naturals(numbers) => std::mem::swap(numbers, list),
            _ => unreachable!(),
        }
    }

    #[inline(always)]
    fn narrow(number: i128) -> u64 {
        number as u64
    }

    #[inline(always)]
    fn widen(self) -> i128 {
        self as i128
    }
}
