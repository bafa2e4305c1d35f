//! Why a statement is refused.
ghost use Rattle.std.specs.Prelude.{◌≡◌};

/// What is wrong with a statement.
#[derive(Clone, Copy, PartialEq, Eq, Debug, Drop)]
pub enum Wrong {
    /// No label and no value has this name.
    UnknownName,
    /// What the name stands for is known only behind this line.
    NotYetKnown,
    /// An earlier statement has the name.
    NameTwice,
    /// A value of more than 32 bits.
    Overflow,
    DivisionByZero,
    /// A negative number, of which there are no single bits.
    Negative,
    /// A shift by more than 31 bits.
    ShiftTooFar,
    /// No byte: not from -128 to 255.
    NoByte,
    /// No word: not from -32768 to 65535.
    NoWord,
    /// No address: not from 0 to `$FFFF`.
    NoAddress,
    /// No address in the zero page: not from 0 to `$FF`.
    NoZeroPage,
    /// A count that is not from 0 to 65536.
    NoCount,
    /// A multiple that is not from 1 to 65536.
    NoMultiple,
    /// An address before the one that is reached.
    Backward,
    /// The instruction has no such operand.
    NoSuchMode,
    /// A branch that does not reach.
    TooFar,
    /// An indirect jump by a pointer at the end of a page.
    PageEnd,
    /// It ends past `$FFFF`.
    PastEnd,
    /// A file is named here, and was not read.
    NotRead,
}

/// What is wrong with a statement, and at which column of its line, from 1.
#[derive(Clone, Copy, PartialEq, Eq, Debug, Drop)]
pub struct MeaningFault {
    pub column: usize,
    pub wrong: Wrong,
}

/// Why a statement has no meaning.
#[derive(Clone, Copy, PartialEq, Eq, Debug, Drop)]
pub enum MeaningError {
    Bad(MeaningFault),
    /// Memory ran out.
    NoMemory,
}

/// A statement that is refused at a column.
pub fn bad(column: usize, wrong: Wrong) -> MeaningError
    ensures { result ≡ MeaningError.Bad (record { column = column; wrong = wrong }) }
{
    MeaningError::Bad(MeaningFault { column, wrong })
}
