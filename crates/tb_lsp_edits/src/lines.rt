//! The new lines of a text in which a variable is renamed, and whether they read so.
ghost use Rattle.std.specs.Prelude.{◌≡◌, ◌↔◌, false, IfOk, IsTrue, Ok, is_none};
ghost use Rattle.tb_parser.specs.Readings.{LineIn};
ghost use Rattle.tb_basic_names.specs.Lines.{does};
ghost use Rattle.tb_lsp_edits.specs.Rename.{AreRenamed, IsRenamed, has_bad_line};
ghost use Rattle.tb_lsp_edits.specs.Renamed as spec;

use crate::comparing::is_renamed_edit;
use crate::letters::Letters;
use std::alloc::{AllocError, Global};
use tb_basic_names::{Line, Source, Variable, variables_of};
use tb_basic_text::Notation;
use tb_parser::{SourceErrorKind, read_line_in};

// Writes the new letter in place of a variable, if it is the one that is renamed.
fn put_letter(letters: Letters, text: &mut [u8], variable: Variable)
    ensures { text.new ≡ spec.lettered letters text.old variable }
{
    if variable.name == letters.old && variable.place < text.len() {
        text[variable.place] = letters.new;
    }
}

// A text with the new letter in these places.
fn lettered(
    alloc: Global,
    letters: Letters,
    text: &[u8],
    variables: &[Variable],
) -> Result<Vec<u8>, AllocError>
    ensures { IfOk result (λ new. new.items ≡ spec.lettered_at letters text.now variables.now) }
{
    let mut new = Vec::from_slice(alloc, text)?;
    for variable in variables {
        put_letter(letters, &mut new, *variable);
    }
    Ok(new)
}

// What becomes of the text of a line.
fn text_after(alloc: Global, letters: Letters, line: &Line<'_>) -> Result<Vec<u8>, AllocError>
    ensures { IfOk result (λ new. new.items ≡ spec.text_after letters line.now) }
{
    if letters.old == letters.new {
        return Vec::from_slice(alloc, line.text);
    }
    let variables = variables_of(alloc, &line.tokens)?;
    lettered(alloc, letters, line.text, &variables)
}

// Whether a text reads as a good line, renamed.
#[tactic(auto, using(crate::proofs::Otherwise::refused_if))]
fn reads_renamed(
    alloc: Global,
    notation: Notation,
    letters: Letters,
    line: &Line<'_>,
    text: &[u8],
) -> Result<bool, AllocError>
    requires { is_none line.now.edit ≡ false }
    ensures { IfOk result (λ is. IsTrue is ↔ LineIn notation text.now (Ok (spec.renamed_edit (spec.renamed_letter letters) (does line.now.edit)))) }
{
    let Some(old) = &line.edit else {
        unreachable!()
    };
    match read_line_in(alloc, notation, text) {
        Ok(new) => Ok(is_renamed_edit(letters, old, &new)),
        Err(fault) => match fault.kind {
            SourceErrorKind::NoMemory => Err(AllocError),
            _ => Ok(false),
        },
    }
}

// Whether what becomes of a good line reads as the line, renamed.
fn is_renamed(
    alloc: Global,
    notation: Notation,
    letters: Letters,
    line: &Line<'_>,
) -> Result<bool, AllocError>
    requires { is_none line.now.edit ≡ false }
    ensures { IfOk result (λ is. IsTrue is ↔ IsRenamed notation letters line.now) }
{
    let text = text_after(alloc, letters, line)?;
    reads_renamed(alloc, notation, letters, line, text.as_slice())
}

/// Whether what becomes of each line, all of them good, reads as the line, renamed, in the source's notation. Fails only
/// if memory runs out.
pub fn are_renamed(alloc: Global, letters: Letters, source: &Source<'_>) -> Result<bool, AllocError>
    requires { has_bad_line source.now.lines.items ≡ false }
    ensures { IfOk result (λ are. IsTrue are ↔ AreRenamed source.now.notation letters source.now.lines.items) }
{
    for line in &source.lines {
        if !is_renamed(alloc, source.notation, letters, line)? {
            return Ok(false);
        }
    }
    Ok(true)
}
