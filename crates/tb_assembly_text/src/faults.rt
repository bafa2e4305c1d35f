//! Why a line or a statement is refused.
ghost use Rattle.std.specs.Prelude.{◌≡◌};

/// What is wrong.
#[derive(Clone, Copy, PartialEq, Eq, Debug, Drop)]
pub enum FaultKind {
    /// A byte with which nothing begins.
    Stray,
    /// A text without its closing quotation mark.
    OpenText,
    /// A character that is not written `'A'`.
    Character,
    /// `$` or `%` without digits.
    NoDigits,
    /// A number of more than 31 bits.
    NumberTooLarge,
    /// A name of more than 255 letters.
    NameTooLong,
    /// The accumulator's name as that of a label.
    Reserved,
    /// A value is wanted.
    WantsValue,
    /// A parenthesis is not closed.
    WantsRight,
    /// `X` or `Y` is wanted.
    WantsRegister,
    /// `=` is wanted.
    WantsEquals,
    /// A text in quotation marks is wanted.
    WantsText,
    /// A label, an instruction or a directive is wanted.
    WantsItem,
    /// No such directive.
    UnknownDirective,
    /// No such instruction.
    UnknownMnemonic,
    /// Nothing may follow here.
    Extra,
}

/// What is wrong, and at which column of the line, from 1.
#[derive(Clone, Copy, PartialEq, Eq, Debug, Drop)]
pub struct Fault {
    pub column: usize,
    pub kind: FaultKind,
}

/// Why a line was not read.
#[derive(Clone, Copy, PartialEq, Eq, Debug, Drop)]
pub enum LineError {
    Bad(Fault),
    /// Memory ran out.
    NoMemory,
}

/// A line that is refused at a column.
pub fn bad(column: usize, kind: FaultKind) -> LineError
    ensures { result ≡ LineError.Bad (record { column = column; kind = kind }) }
{
    LineError::Bad(Fault { column, kind })
}
