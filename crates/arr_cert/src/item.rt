use arr_io::NoMemory;
use arr_law::Record;
use thiserror::Error;

/// What comes next in a proof (docs/CERTIFICATES.md, "Reading").
#[derive(Debug, Drop)]
pub enum Item {
    /// The next line that begins with `!` spells this record.
    Record(Record),
    /// No such line is left.
    End,
    /// The next such line spells no record.
    Malformed,
    /// The proof has too many bytes; the first of them stands in this line.
    TooLong,
}

/// Why a proof was not read on.
#[derive(Clone, Copy, Debug, PartialEq, Eq, Error)]
pub enum CheckFault {
    #[error("a read failed")]
    ReadFault,
    #[error("no memory is left")]
    NoMemory,
}
