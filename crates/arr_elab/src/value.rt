//! What expressions stand for.

ghost use Rattle.std.specs.Prelude.{◌≡◌};

use crate::shape::ArrayShape;
use arr_num::Elem;
use arr_ops::Op;
use arr_tree::Place;
use arr_view::View;

/// A view, and the type of its base.
#[derive(Debug, Drop)]
pub(crate) struct Array {
    pub(crate) view: View,
    pub(crate) elem: Elem,
}

/// What an expression stands for, once its operations are recorded.
#[derive(Debug, Drop)]
pub(crate) enum Value {
    /// A literal, and the place of its first token.
    Literal { at: Place, number: i128 },
    Array(Array),
}

/// An operation that is not recorded yet, since it is open what it writes: its output is none.
#[derive(Debug, Drop)]
pub(crate) struct Pending {
    /// The sign or word that it stands for.
    pub(crate) at: Place,
    /// The shape of its results.
    pub(crate) shape: ArrayShape,
    pub(crate) op: Op,
}

/// What an expression stands for before its outermost operation is recorded.
#[derive(Debug, Drop)]
pub(crate) enum Prepared {
    Ready(Value),
    Open(Pending),
}

impl Array {
    /// An equal array.
    pub(crate) fn copied(&self) -> Array
        ensures { result ≡ self.now }
    {
        Array {
            view: self.view.copied(),
            elem: self.elem,
        }
    }
}
