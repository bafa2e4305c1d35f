//! Renaming a variable.
ghost use Rattle.std.specs.Prelude.{◌≡◌, ◌∷◌, ◌++◌, [], false, IfOk, OnOk, map};
ghost use Rattle.serde_json.specs.View.{view};
ghost use Rattle.tb_editor_values.specs.Edits.{edit_value};
ghost use Rattle.tb_lsp_edits.specs.Rename as spec;

use crate::letters::Letters;
use crate::lines::are_renamed;
use serde_json::Value;
use std::alloc::{AllocError, Global};
use tb_basic_names::{Name, Occurrence, Source, name_at, occurrences};
use tb_basic_places::Span;
use tb_editor_messages::Refusal;
use tb_editor_values::{changes_value, edit_value};

/// A letter as a text.
pub fn spelled(letter: &[u8]) -> &str
    ensures { result.now ≡ spec.spelled letter.now }
{
    match str::from_utf8(letter) {
        Ok(letter) => letter,
        Err(_) => "",
    }
}

// Whether a line of a source is bad.
fn has_bad_line(source: &Source<'_>) -> bool
    ensures { result ≡ spec.has_bad_line source.now.lines.items }
{
    for line in &source.lines {
        if line.edit.is_none() {
            return true;
        }
    }
    false
}

// Whether good lines have a variable.
fn is_used(alloc: Global, source: &Source<'_>, letter: u8) -> Result<bool, AllocError>
    ensures { IfOk result (λ is. is ≡ spec.is_used letter source.now.lines.items) }
{
    let found = occurrences(alloc, source, Name::Variable(letter), false)?;
    Ok(!found.is_empty())
}

// Why a text is not renamed, before the new text is looked at.
fn refusal_of(
    alloc: Global,
    source: &Source<'_>,
    letters: Letters,
) -> Result<Option<Refusal>, AllocError>
    ensures { IfOk result (λ refusal. refusal ≡ spec.refusal_of letters source.now.lines.items) }
{
    if has_bad_line(source) {
        return Ok(Some(Refusal::BadLine));
    }
    if letters.old != letters.new && is_used(alloc, source, letters.new)? {
        return Ok(Some(Refusal::LetterInUse));
    }
    Ok(None)
}

// The letters of a variable, and of its new name.
fn letters_of(named: Option<Name>, letter: Option<u8>) -> Result<Letters, Refusal>
    ensures { result ≡ spec.letters_of named letter }
{
    let Some(Name::Variable(old)) = named else {
        return Err(Refusal::NoVariable);
    };
    match letter {
        Some(new) => Ok(Letters { old, new }),
        None => Err(Refusal::NotALetter),
    }
}

fn push_edit(
    alloc: Global,
    span: Span,
    text: &str,
    edits: &mut Vec<Value>,
) -> Result<(), AllocError>
    ensures { OnOk result (map view edits.new.items ≡ map view edits.old.items ++ edit_value span text.now ∷ []) }
{
    edits.push(edit_value(alloc, span, text)?)?;
    Ok(())
}

// The edits that write a text in these places.
fn edits_at(alloc: Global, found: &[Occurrence], text: &str) -> Result<Vec<Value>, AllocError>
    ensures { IfOk result (λ edits. map view edits.items ≡ spec.edits_at text.now found.now) }
{
    let mut edits = Vec::new(alloc);
    for occurrence in found {
        push_edit(alloc, occurrence.span, text, &mut edits)?;
    }
    Ok(edits)
}

// The edits that rename a variable: none where the letter stays.
fn edits_of(alloc: Global, source: &Source<'_>, letters: Letters) -> Result<Vec<Value>, AllocError>
    ensures { IfOk result (λ edits. map view edits.items ≡ spec.edits_of letters source.now.lines.items) }
{
    if letters.old == letters.new {
        return Ok(Vec::new(alloc));
    }
    let found = occurrences(alloc, source, Name::Variable(letters.old), false)?;
    let letter = [letters.new];
    edits_at(alloc, &found, spelled(&letter))
}

// The changes that rename a variable, if the new text reads so. No line is bad.
fn changes(
    alloc: Global,
    uri: &str,
    source: &Source<'_>,
    letters: Letters,
) -> Result<Result<Value, Refusal>, AllocError>
    requires { spec.has_bad_line source.now.lines.items ≡ false }
    ensures { IfOk result (spec.Changes source.now.notation uri.now letters source.now.lines.items) }
{
    if !are_renamed(alloc, letters, source)? {
        return Ok(Err(Refusal::ReadsOtherwise));
    }
    let edits = edits_of(alloc, source, letters)?;
    Ok(Ok(changes_value(alloc, uri, edits)?))
}

// The changes that rename a variable, or why it isn't renamed.
#[tactic(auto, using(crate::proofs::Otherwise::none_bad))]
fn rename_letters(
    alloc: Global,
    uri: &str,
    source: &Source<'_>,
    letters: Letters,
) -> Result<Result<Value, Refusal>, AllocError>
    ensures { IfOk result (spec.RenamesLetters source.now.notation uri.now letters source.now.lines.items) }
{
    match refusal_of(alloc, source, letters)? {
        Some(refusal) => Ok(Err(refusal)),
        None => changes(alloc, uri, source, letters),
    }
}

/// The changes of a text that give the variable at a place a new letter, in all good lines. Refused, in this order: no
/// variable, no letter, a bad line, a letter that another variable has, a line that would read otherwise; or memory runs
/// out.
pub fn rename(
    alloc: Global,
    uri: &str,
    source: &Source<'_>,
    line: usize,
    character: usize,
    letter: Option<u8>,
) -> Result<Result<Value, Refusal>, AllocError>
    ensures { IfOk result (spec.Renames source.now.notation uri.now line character letter source.now.lines.items) }
{
    match letters_of(name_at(source, line, character), letter) {
        Ok(letters) => rename_letters(alloc, uri, source, letters),
        Err(refusal) => Ok(Err(refusal)),
    }
}
