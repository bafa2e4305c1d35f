//! Why a text was not assembled and written.
ghost use Rattle.std.specs.Prelude.{◌≡◌};
ghost use Rattle.tb_assembly_engine.specs.Outcomes.{unwritten};

use crate::gathering::MOST_FILES;
use std::fmt;
use tb_asm::AsmError;
use tb_engine_files::{Kind, Trouble};
use tb_engine_streams::{Done, ExitStatus, Failure, Outcome, status};
use tb_engines::Refusal;

/// Why a text is not assembled.
#[derive(Debug, Drop)]
pub enum TextRefusal {
    /// All that is wrong with the text, as a text.
    Said(Vec<u8>),
    /// The assembler refused an item.
    Item(AsmError),
    /// It is in more than `MOST_FILES` files.
    TooManyFiles,
    /// A file that was read would be written.
    SameFile,
    /// A source that is there would be written, at this path.
    IsSource(String),
    /// What is there, at this path, doesn't look like what would be written.
    Unlike(String, Kind),
}

/// How the assembling of a text ended.
pub type TextOutcome = Outcome<Done, TextRefusal>;

/// Why a text was not assembled and written. Only at `WriteFault` and `NoMemory` a part may be written.
pub type TextFailure = Failure<TextRefusal>;

impl ExitStatus for TextRefusal {
    ghost use Rattle.tb_assembly_engine.specs.Outcomes.{status_of};

    ghost exit_status = { status_of };

    fn status(&self) -> u8 {
        match self {
            TextRefusal::Said(_) | TextRefusal::Item(_) | TextRefusal::TooManyFiles => {
                status::REFUSED
            }
            TextRefusal::SameFile | TextRefusal::IsSource(_) | TextRefusal::Unlike(_, _) => {
                status::BAD_WORDS
            }
        }
    }
}

/// What is said elsewhere is not said again: all that is wrong, and which file would be written.
impl fmt::Display for TextRefusal {
    fn fmt<W: fmt::Write>(&self, f: &mut fmt::Formatter<W>) -> fmt::Result {
        match self {
            TextRefusal::Said(_)
            | TextRefusal::SameFile
            | TextRefusal::IsSource(_)
            | TextRefusal::Unlike(_, _) => Ok(()),
            TextRefusal::Item(error) => Refusal::Item(*error).fmt(f),
            TextRefusal::TooManyFiles => write!(f, "more than {MOST_FILES} files"),
        }
    }
}

/// How it ends if a file can't be written.
pub fn unwritten(trouble: Trouble) -> TextFailure
    ensures { result ≡ unwritten trouble }
{
    match trouble {
        Trouble::Fault => TextFailure::WriteFault,
        Trouble::NoMemory => TextFailure::NoMemory,
    }
}
