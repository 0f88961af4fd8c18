/// Where a byte stands: its line, and the column of bytes in that line, both counted from 1.
#[derive(Clone, Copy, PartialEq, Eq, Debug)]
pub struct Place {
    pub line: u32,
    pub column: u32,
}

/// Why a script is refused.
///
/// `parse` answers the kinds from `BadByte` to `Unexpected`. Of two that fit one token it is the one that stands
/// first here. The other kinds are those of the layers above.
#[derive(Clone, Copy, PartialEq, Eq, Debug)]
pub enum Kind {
    TooLong,
    BadByte,
    NumberTooWide,
    NameTooLong,
    StatementTooLong,
    TooDeep,
    Unexpected,
    UnknownName,
    TypeMismatch,
    LiteralRange,
    RankRange,
    EmptyArray,
    TooManyElements,
    TooMuchLive,
    ZeroStep,
    SliceRange,
    ShapeMismatch,
    AxisRange,
    CountMismatch,
    NotContiguous,
    OutsideBase,
    OutputRepeats,
    TooManyNames,
}

/// The place of the refused token, and why it is refused.
#[derive(Clone, Copy, PartialEq, Eq, Debug)]
pub struct Refusal {
    pub at: Place,
    pub kind: Kind,
}

/// Why `parse` gives no script: the text is refused, or memory ran out.
#[derive(Debug, Drop)]
pub enum ParseFault {
    Refused(Refusal),
    NoMemory,
}
