//! A part of the grid, as a script spells it.
ghost use Rattle.arr_demo.specs.Script as spec;

use std::fmt;
use std::ops::Range;

/// The part of the grid `g` in these rows and columns, both counted from 0: `g[1:7, 1:9]`.
#[derive(Debug, Drop)]
pub(crate) struct Part {
    pub(crate) rows: Range<u32>,
    pub(crate) columns: Range<u32>,
}

impl Part {
    ghost use Rattle.std.specs.Prelude.{◌≡◌};

    pub(crate) fn new(rows: Range<u32>, columns: Range<u32>) -> Part
        ensures { result ≡ record { rows = rows; columns = columns } }
    {
        Part { rows, columns }
    }
}

impl fmt::Display for Part {
    ghost use Rattle.std.specs.Prelude.{Some};

    ghost output = { λ p. Some (spec.part p.rows.start p.rows.end p.columns.start p.columns.end) };

    fn fmt<W: fmt::Write>(&self, f: &mut fmt::Formatter<W>) -> fmt::Result {
        let Part { rows, columns } = self;
        write!(
            f,
            "g[{}:{}, {}:{}]",
            rows.start, rows.end, columns.start, columns.end
        )
    }
}
