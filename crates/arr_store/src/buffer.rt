//! Numbers in their native width.
ghost use Rattle.std.specs.Prelude.{◌≡◌, ◌<◌, IsTrue, IfOk, length, get_or, pos, set};
ghost use Rattle.arr_num.specs.Numbers.{in_type, width};
ghost use Rattle.arr_store.specs.Cells.{blank};
ghost use Rattle.arr_store.specs.Buffers.{cell_of};

use arr_num::Elem;
use std::alloc::{AllocError as NoMemory, Global};

/// A list of numbers of one type, each in the bytes of that type.
#[derive(Debug, Drop)]
pub enum Buffer {
    Bytes(Vec<u8>),
    Words(Vec<i32>),
    Longs(Vec<i64>),
    Naturals(Vec<u64>),
}

impl Buffer {
    /// So many zeros of the type.
    pub(crate) fn blank(alloc: Global, ty: Elem, length: u32) -> Result<Buffer, NoMemory>
        ensures { IfOk result (λ b. cell_of b ≡ blank ty length) }
    {
        let length = length as usize;
        match ty {
            Elem::U8 => Ok(Buffer::Bytes(vec![in alloc; 0; length]?)),
            Elem::I32 => Ok(Buffer::Words(vec![in alloc; 0; length]?)),
            Elem::I64 => Ok(Buffer::Longs(vec![in alloc; 0; length]?)),
            Elem::U64 => Ok(Buffer::Naturals(vec![in alloc; 0; length]?)),
        }
    }

    /// How many numbers it has.
    #[inline]
    pub fn len(&self) -> usize
        ensures { result ≡ length (cell_of self.now).numbers }
    {
        match self {
            Buffer::Bytes(numbers) => numbers.len(),
            Buffer::Words(numbers) => numbers.len(),
            Buffer::Longs(numbers) => numbers.len(),
            Buffer::Naturals(numbers) => numbers.len(),
        }
    }

    /// How many bytes a number of it takes.
    #[inline]
    pub(crate) fn width(&self) -> u64
        ensures { result ≡ width (cell_of self.now).elem }
    {
        match self {
            Buffer::Bytes(_) => 1,
            Buffer::Words(_) => 4,
            Buffer::Longs(_) | Buffer::Naturals(_) => 8,
        }
    }

    /// The number at a place.
    #[inline]
    pub(crate) fn get(&self, place: u32) -> i128
        requires { place < length (cell_of self.now).numbers }
        ensures value { result ≡ get_or (cell_of self.now).numbers place (pos 0) }
        ensures typed { IsTrue (in_type (cell_of self.now).elem result) }
    {
        match self {
            Buffer::Bytes(numbers) => numbers[place as usize] as i128,
            Buffer::Words(numbers) => numbers[place as usize] as i128,
            Buffer::Longs(numbers) => numbers[place as usize] as i128,
            Buffer::Naturals(numbers) => numbers[place as usize] as i128,
        }
    }

    /// Changes the number at a place.
    #[inline]
    pub(crate) fn put(&mut self, place: u32, value: i128)
        requires place { place < length (cell_of self.old).numbers }
        requires typed { IsTrue (in_type (cell_of self.old).elem value) }
        ensures { cell_of self.new ≡ record {
          elem = (cell_of self.old).elem;
          numbers = set
              (cell_of self.old).numbers place value;
        } }
    {
        match self {
            Buffer::Bytes(numbers) => numbers[place as usize] = value as u8,
            Buffer::Words(numbers) => numbers[place as usize] = value as i32,
            Buffer::Longs(numbers) => numbers[place as usize] = value as i64,
            Buffer::Naturals(numbers) => numbers[place as usize] = value as u64,
        }
    }
}
