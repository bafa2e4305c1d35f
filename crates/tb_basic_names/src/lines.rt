//! A line of a source, and what it does to the program.
ghost use Rattle.std.specs.Prelude.{◌≡◌, IfOk, option_map};
ghost use Rattle.tb_parser.specs.Tokens.{AreTokens};
ghost use Rattle.tb_basic_syntax.specs.PlainData.{statement_of};
ghost use Rattle.tb_basic_names.specs.Lines.{Does, does, number_in, statement_in};

use std::alloc::{AllocError, Global};
use tb_basic_syntax::Statement;
use tb_basic_text::Notation;
use tb_parser::{LineEdit, SourceErrorKind, Token, read_line_in, tokens};

/// A line of a source.
#[derive(Drop)]
pub struct Line<'a> {
    /// How its texts are read.
    pub notation: Notation,
    /// As it was written.
    pub text: &'a [u8],
    /// What it does to the program; `None` where it is bad.
    pub edit: Option<LineEdit>,
    pub tokens: Vec<Token<'a>>,
    ghost edit_is: { ∥ Does notation text.now edit ∥₁ },
    ghost tokens_are: { ∥ AreTokens text.now tokens.items ∥₁ },
}

// What a line does to the program; `None` where it is bad.
#[tactic(auto, using(crate::proofs::Reading::good_if, crate::proofs::Reading::bad_if))]
fn edit_of_line(
    alloc: Global,
    notation: Notation,
    text: &[u8],
) -> Result<Option<LineEdit>, AllocError>
    ensures { IfOk result (Does notation text.now) }
{
    match read_line_in(alloc, notation, text) {
        Ok(edit) => Ok(Some(edit)),
        Err(fault) => match fault.kind {
            SourceErrorKind::NoMemory => Err(AllocError),
            _ => Ok(None),
        },
    }
}

/// Reads a line in a notation. Fails only if memory runs out.
pub fn read_line(alloc: Global, notation: Notation, text: &[u8]) -> Result<Line<'_>, AllocError>
    ensures written { IfOk result (λ line. line.text.now ≡ text.now) }
    ensures notation { IfOk result (λ line. line.notation ≡ notation) }
{
    let edit = edit_of_line(alloc, notation, text)?;
    let tokens = tokens(alloc, text)?;
    Ok(Line {
        notation,
        text,
        edit,
        tokens,
    })
}

impl Line<'_> {
    /// The number of a good line.
    pub fn number(&self) -> Option<u16>
        ensures { result ≡ number_in (does self.now.edit) }
    {
        match &self.edit {
            Some(LineEdit::Set(number, _)) | Some(LineEdit::Delete(number)) => Some(*number),
            Some(LineEdit::Nothing) | None => None,
        }
    }

    /// The statement of a good line.
    pub fn statement(&self) -> Option<&Statement>
        ensures { option_map (λ s. statement_of s.now) result ≡ statement_in (does self.now.edit) }
    {
        match &self.edit {
            Some(LineEdit::Set(_, statement)) => Some(statement),
            Some(LineEdit::Delete(_)) | Some(LineEdit::Nothing) | None => None,
        }
    }
}
