//! Reading and writing at the places that an index names.
ghost use Rattle.std.specs.Prelude.{◌≡◌};

use arr_num::Elem;
use arr_view::View;

/// Reading by an index (docs/LANGUAGE.md, "Gather and scatter"): a new base of the index's shape takes, for each number of the index,
/// the source's number at that position. A number of the index counts by its remainder, from 0 to one less than the source's positions.
#[derive(Debug, Drop)]
pub struct Gather {
    /// The whole of the base that it creates.
    pub out: View,
    /// What it reads from.
    pub source: View,
    /// Which positions of the source it reads.
    pub index: View,
    /// The type of the source and of the new base.
    pub to: Elem,
    /// The type of the index.
    pub of: Elem,
}

/// Writing by an index (docs/LANGUAGE.md, "Gather and scatter"): for each number of the index the value at the same place goes to that
/// position of the target, the last one where several meet. Index and values are read before anything is written.
#[derive(Debug, Drop)]
pub struct Scatter {
    /// Where it writes.
    pub target: View,
    /// Which positions of the target it writes.
    pub index: View,
    /// What it writes.
    pub values: View,
    /// The type of the target and of the values.
    pub to: Elem,
    /// The type of the index.
    pub of: Elem,
}

impl Gather {
    /// An equal gather (docs/MAP.md, "Copies").
    pub fn copied(&self) -> Gather
        ensures { result ≡ self.now }
    {
        Gather {
            out: self.out.copied(),
            source: self.source.copied(),
            index: self.index.copied(),
            to: self.to,
            of: self.of,
        }
    }
}

impl Scatter {
    /// An equal scatter (docs/MAP.md, "Copies").
    pub fn copied(&self) -> Scatter
        ensures { result ≡ self.now }
    {
        Scatter {
            target: self.target.copied(),
            index: self.index.copied(),
            values: self.values.copied(),
            to: self.to,
            of: self.of,
        }
    }
}
