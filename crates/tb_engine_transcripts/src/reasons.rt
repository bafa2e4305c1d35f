//! Why a transcript is not read.
ghost use Rattle.std.specs.Prelude.{◌≡◌, Some};
ghost use Rattle.tb_engine_transcripts.specs.Reasons.{bad_line_text, reason_text};

use std::alloc::AllocError;
use std::fmt;

// What is said, text by text.
const UNKNOWN_OPTION: &str = "unknown option";

const TWICE: &str = "an option or an end is given twice";

const NO_SEED: &str = "not a number from 0 to 65535";

const NO_LIMIT: &str = "not a number from 1 to 1000000000";

const NO_RUDE: &str = "not a number from 0 to 65535";

const NO_FAULT: &str = "not a code from 0 to 255 at a line from 0 to 65535";

const BELOW_OUTPUT: &str = "an option below the output";

/// Why a line is refused.
#[derive(Clone, Copy, PartialEq, Eq, Debug, Drop)]
pub enum Reason {
    UnknownOption,
    /// An option or an end is given twice.
    Twice,
    NoSeed,
    NoLimit,
    NoRude,
    NoFault,
    /// A line as those of the header, below it.
    BelowOutput,
}

/// The first line that is refused, counted from 1, and why.
#[derive(Clone, Copy, PartialEq, Eq, Debug, Drop)]
pub struct BadLine {
    pub line: usize,
    pub why: Reason,
}

/// Why a transcript is not read.
#[derive(Clone, Copy, PartialEq, Eq, Debug, Drop)]
pub enum Unread {
    Bad(BadLine),
    /// Memory ran out.
    NoMemory,
}

impl From<AllocError> for Unread {
    ghost use Rattle.tb_engine_transcripts.specs.declared.reasons.Unread.TheVariants.{NoMemory};

    ghost from_gives = { λ _ unread. unread ≡ NoMemory };

    fn from(_error: AllocError) -> Unread {
        Unread::NoMemory
    }
}

impl Reason {
    /// Its text.
    pub fn text(self) -> &'static str
        ensures { result.now ≡ reason_text self }
    {
        match self {
            Reason::UnknownOption => UNKNOWN_OPTION,
            Reason::Twice => TWICE,
            Reason::NoSeed => NO_SEED,
            Reason::NoLimit => NO_LIMIT,
            Reason::NoRude => NO_RUDE,
            Reason::NoFault => NO_FAULT,
            Reason::BelowOutput => BELOW_OUTPUT,
        }
    }
}

impl fmt::Display for BadLine {
    ghost output = { λ bad. Some (bad_line_text bad) };

    fn fmt<W: fmt::Write>(&self, f: &mut fmt::Formatter<W>) -> fmt::Result {
        write!(f, "line {}: {}", self.line, self.why.text())
    }
}
