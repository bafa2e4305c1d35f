//! What is wrong with the lines of texts.
use tb_assembly_text::FaultKind;

/// How deep includes may be.
pub const DEEPEST: usize = 16;

/// How many lines are read at least before no more file is included.
pub const MOST_LINES: usize = 1_048_576;

/// A line of a file: the file's number in its library, and the line's number, from 1.
#[derive(Clone, Copy, PartialEq, Eq, Debug, Drop)]
pub struct Place {
    pub file: usize,
    pub line: usize,
}

/// Why a file is not included.
#[derive(Clone, Copy, PartialEq, Eq, Debug, Drop)]
pub enum IncludeFault {
    /// It is being read: it includes itself.
    Circle,
    /// Includes are more than `DEEPEST` deep.
    TooDeep,
    /// `MOST_LINES` lines were read before.
    TooMany,
    /// It could not be read.
    Unread,
}

/// What is wrong with a line.
#[derive(Clone, Copy, PartialEq, Eq, Debug, Drop)]
pub enum Problem {
    Line(FaultKind),
    Include(IncludeFault),
}

/// What is wrong with a line, and at which of its columns, from 1.
#[derive(Clone, Copy, PartialEq, Eq, Debug, Drop)]
pub struct BadLine {
    pub place: Place,
    pub column: usize,
    pub problem: Problem,
}
