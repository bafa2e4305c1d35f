//! Whether a word goes on to a good line.
ghost use Rattle.std.specs.Prelude.{◌≡◌, ◌++◌, IfOk};
ghost use Rattle.tb_lsp_edits.specs.Offered as spec;

use crate::candidates::{Candidate, Word};
use std::alloc::{AllocError, Global};
use tb_basic_text::Notation;
use tb_parser::{SourceErrorKind, read_line_in};

impl Word {
    /// The shortest that may follow it, where nothing else is open.
    fn at_least(self) -> &'static str
        ensures { result.now ≡ spec.at_least self }
    {
        match self {
            Word::Let => "A=1",
            Word::Input => "A",
            Word::If => "1=1END",
            Word::Then => "END",
            Word::Goto | Word::Gosub => "1",
            Word::Random => "(1)",
            Word::Print | Word::Return | Word::End | Word::Rem => "",
        }
    }
}

// Whether a line is good.
fn is_good(alloc: Global, notation: Notation, line: &[u8]) -> Result<bool, AllocError>
    ensures { IfOk result (spec.IsGood notation line.now) }
{
    match read_line_in(alloc, notation, line) {
        Ok(_) => Ok(true),
        Err(fault) => match fault.kind {
            SourceErrorKind::NoMemory => Err(AllocError),
            _ => Ok(false),
        },
    }
}

// Whether a line with a word at its end is good with the shortest that may follow.
fn word_goes_on(
    alloc: Global,
    notation: Notation,
    line: &[u8],
    word: Word,
) -> Result<bool, AllocError>
    ensures { IfOk result (spec.IsGood notation (line.now ++ spec.at_least word)) }
{
    let mut whole = Vec::from_slice(alloc, line)?;
    whole.extend_from_slice(word.at_least().as_bytes())?;
    is_good(alloc, notation, whole.as_slice())
}

/// Whether a line with a candidate at its end is that of a word, and is good with the shortest that may follow.
pub(crate) fn goes_on(
    alloc: Global,
    notation: Notation,
    line: &[u8],
    candidate: Candidate,
) -> Result<bool, AllocError>
    ensures { IfOk result (spec.GoesOn notation line.now candidate) }
{
    match candidate {
        Candidate::Word(word) => word_goes_on(alloc, notation, line, word),
        Candidate::Number(_) => Ok(false),
    }
}
