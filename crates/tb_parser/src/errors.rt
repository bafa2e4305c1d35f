//! Why a source text is refused.
ghost use Rattle.std.specs.Prelude.{◌≡◌};
ghost use Rattle.tb_parser.specs.Refusals.{out_of_memory, fault_of_memory, at_line};

use std::alloc::{AllocError, AllocFailed};

/// What is wrong, in the order in which a line's faults are looked for.
#[derive(Clone, Copy, Debug, PartialEq, Eq)]
pub enum SourceErrorKind {
    /// More than 255 bytes; the column is 256. Or a line whose signs make it stand for more; the column is that of the
    /// sign or byte with the first byte too many.
    LineTooLong,
    /// Before the remark, a byte that is neither from 32 to 90 nor a lower-case letter; with signs, in a text, one that
    /// is no sign either. The column is that byte's.
    BadByte,
    /// The first byte that is no space is no digit. The column is that byte's.
    Unnumbered,
    /// The line number is 0 or above 32,767. The column is that of its first digit.
    BadLineNumber,
    /// There is no reading, and USR, RUN, LIST or CLEAR occurs outside texts and remarks, with or without spaces
    /// inside. The column is that of the first letter of the first one.
    NotCompiled,
    /// There is no reading. The column is that of the first token that no line of the language can have there, or one
    /// after the line's end.
    Syntax,
    /// There is a reading, but with a literal above 65,535. The column is that of the first one's first digit.
    NumberTooLarge,
    /// No line is left at the end. Line and column are 0.
    Empty,
    /// Memory ran out. Line and column are 0.
    NoMemory,
}

/// Why a source text is refused, and where.
#[derive(Clone, Copy, Debug, PartialEq, Eq)]
pub struct SourceError {
    /// What is wrong.
    pub kind: SourceErrorKind,
    /// The line of the file, from 1.
    pub line: usize,
    /// The byte of the line, from 1.
    pub column: usize,
}

impl<T: Drop> From<AllocFailed<T>> for SourceError {
    ghost from_gives = { λ _ e. e ≡ out_of_memory };

    fn from(_e: AllocFailed<T>) -> SourceError {
        SourceError {
            kind: SourceErrorKind::NoMemory,
            line: 0,
            column: 0,
        }
    }
}

/// What is wrong in a line, and at which byte of it, from 1.
#[derive(Clone, Copy, Debug, PartialEq, Eq)]
pub struct LineFault {
    /// What is wrong.
    pub kind: SourceErrorKind,
    /// The byte of the line, from 1.
    pub column: usize,
}

/// Memory ran out.
pub(crate) const OUT_OF_MEMORY: LineFault = LineFault {
    kind: SourceErrorKind::NoMemory,
    column: 0,
};

impl LineFault {
    /// The error of this fault at a line of its file, from 1.
    pub fn at_line(self, line: usize) -> SourceError
        ensures { result ≡ at_line line self }
    {
        match self.kind {
            SourceErrorKind::NoMemory => SourceError {
                kind: self.kind,
                line: 0,
                column: 0,
            },
            _ => SourceError {
                kind: self.kind,
                line,
                column: self.column,
            },
        }
    }
}

impl From<AllocError> for LineFault {
    ghost from_gives = { λ _ e. e ≡ fault_of_memory };

    fn from(_e: AllocError) -> LineFault {
        OUT_OF_MEMORY
    }
}
