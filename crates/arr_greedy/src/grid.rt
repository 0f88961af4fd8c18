//! Tables of flags as bits, some words a row.
ghost use Rattle.std.specs.Prelude.{◌≡◌, ◌<◌, ◌*◌, ◌==◌, ℕ, cond, length};
ghost use Rattle.arr_cost.specs.Footprints.{has_bit};
ghost use Rattle.arr_greedy.specs.Bits.{AreBits, bit, words};
ghost use Rattle.arr_greedy.specs.Tables.{with_cell, with_joined};

/// How many words a row takes that has the columns below a width.
pub(crate) fn words(width: usize) -> usize
    ensures { result ≡ words width }
{
    width / 64 + 1
}

/// The flag of a row and a column.
pub(crate) fn has(rows: &[u64], width: usize, row: usize, column: usize) -> bool
    requires row_in { row < width }
    requires column_in { column < width }
    requires size { length rows.now ≡ width * words width }
    ensures { result ≡ bit rows.now width row column }
{
    rows[row * words(width) + column / 64] >> (column % 64) & 1 == 1
}

/// A word with one bit as told.
fn with_bit(word: u64, digit: usize, value: bool) -> u64
    requires { digit < 64 }
    ensures { (i : ℕ) → i < 64 → has_bit result i ≡ cond (i == digit) value (has_bit word i) }
{
    if value {
        return word | 1 << digit;
    }
    word & !(1 << digit)
}

/// Sets one flag.
pub(crate) fn put_bit(rows: &mut [u64], width: usize, row: usize, column: usize, value: bool)
    requires row_in { row < width }
    requires column_in { column < width }
    requires size { length rows.old ≡ width * words width }
    ensures size { length rows.new ≡ width * words width }
    ensures put { AreBits rows.new width (with_cell (bit rows.old width) row column value) }
{
    let place = row * words(width) + column / 64;
    rows[place] = with_bit(rows[place], column % 64, value);
}

/// Makes a row of two: what either has.
pub(crate) fn join_rows(rows: &mut [u64], width: usize, into: usize, first: usize, second: usize)
    requires into_in { into < width }
    requires first_in { first < width }
    requires second_in { second < width }
    requires size { length rows.old ≡ width * words width }
    ensures size { length rows.new ≡ width * words width }
    ensures joined { AreBits rows.new width (with_joined (bit rows.old width) into first second) }
{
    let count = words(width);
    for index in 0..count {
        rows[into * count + index] = rows[first * count + index] | rows[second * count + index];
    }
}
