//! Dimensions of a view, several of which may lie behind one another as one.
ghost use Rattle.std.specs.Prelude.{◌≡◌, ℕ, ◌+◌, ◌*◌, ◌/◌, ◌≤◌, ◌+ℤ◌, IfSome, length, true, nat_le};
ghost use Rattle.std.specs.List.{list_all};
ghost use Rattle.arr_rows.specs.Rows.{AreOne, far, step};

use arr_view::offset;

/// How long a dimension is, and how far it is from each of its places to the next.
#[derive(Debug, Clone, Copy)]
pub(crate) struct Dimension {
    pub length: u32,
    pub stride: i32,
}

/// Two dimensions as one, where they are: where one of them has length 1, or each step of the outer one leads as far as all of the
/// inner one.
fn joined(inner: Dimension, outer: Dimension) -> Option<Dimension>
    requires inner { 1 ≤ inner.length }
    requires outer { 1 ≤ outer.length }
    ensures { IfSome result (AreOne inner outer) }
{
    if outer.length == 1 {
        return Some(inner);
    }
    if inner.length == 1 {
        return Some(outer);
    }
    if offset(inner.length, inner.stride) != i64::from(outer.stride) {
        return None;
    }
    let length = inner.length.checked_mul(outer.length)?;
    Some(Dimension {
        length,
        stride: inner.stride,
    })
}

/// The last of the first `end` dimensions as one, as many as lie behind one another, and how many are left before them.
pub(crate) fn last_as_one(shape: &[u32], strides: &[i32], end: usize) -> (Dimension, usize)
    requires lengths { list_all (nat_le 1) shape.now ≡ true }
    requires same_rank { length strides.now ≡ length shape.now }
    requires end { end ≤ length shape.now }
    ensures some { 1 ≤ result.0.length }
    ensures left { result.1 ≤ end }
    ensures far { (p : ℕ) → far shape.now strides.now end p
        ≡ step result.0 p +ℤ far shape.now strides.now result.1 (p / result.0.length) }
{
    let mut last = Dimension {
        length: 1,
        stride: 0,
    };
    let mut left = end;
    while left > 0 {
        let outer = Dimension {
            length: shape[left - 1],
            stride: strides[left - 1],
        };
        match joined(last, outer) {
            Some(both) => last = both,
            None => break,
        }
        left -= 1;
    }
    (last, left)
}
