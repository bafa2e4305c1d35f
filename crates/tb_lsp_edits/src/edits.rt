//! The edits that make a text tidy: one for each line that changes.
ghost use Rattle.std.specs.Prelude.{◌≡◌, ◌++◌, ◌∷◌, [], IfOk, OnOk, map, option_map};
ghost use Rattle.serde_json.specs.View.{view};
ghost use Rattle.tb_lsp_edits.specs.Edits as spec;

use serde_json::Value;
use std::alloc::{AllocError, Global};
use tb_basic_format::tidy_text;
use tb_basic_places::between;
use tb_basic_text::{Notation, next_line};
use tb_editor_values::edit_value;

// A text in place of a line, which is counted from 1.
fn value_of(alloc: Global, number: usize, line: &[u8], text: &str) -> Result<Value, AllocError>
    ensures { IfOk result (λ v. view v ≡ spec.edit_of number line.now text.now) }
{
    edit_value(alloc, between(number, line, 0, line.len()), text)
}

// A text that is UTF-8, as each line of a text is.
fn readable(text: &[u8]) -> Option<&str>
    ensures { option_map (λ t. t.now) result ≡ spec.readable text.now }
{
    match str::from_utf8(text) {
        Ok(text) => Some(text),
        Err(_) => None,
    }
}

// What is written in place of a line, if that is another one.
fn written<'a>(line: &[u8], new: &'a [u8]) -> Option<&'a str>
    ensures { option_map (λ t. t.now) result ≡ spec.written line.now new.now }
{
    if line == new { None } else { readable(new) }
}

fn push_edit(
    alloc: Global,
    number: usize,
    line: &[u8],
    text: &str,
    edits: &mut Vec<Value>,
) -> Result<(), AllocError>
    ensures { OnOk result (map view edits.new.items ≡ map view edits.old.items ++ spec.edit_of number line.now text.now ∷ []) }
{
    edits.push(value_of(alloc, number, line, text)?)?;
    Ok(())
}

// Appends the edit that writes a text in place of a line, if there is one.
fn push_written(
    alloc: Global,
    number: usize,
    line: &[u8],
    text: Option<&str>,
    edits: &mut Vec<Value>,
) -> Result<(), AllocError>
    ensures { OnOk result (map view edits.new.items ≡ map view edits.old.items ++ spec.edit_by number line.now (option_map (λ t. t.now) text.entry)) }
{
    match text {
        Some(text) => push_edit(alloc, number, line, text, edits),
        None => Ok(()),
    }
}

// Appends the edit of a line, which is counted from 1, if another one takes its place.
fn push_line(
    alloc: Global,
    number: usize,
    line: &[u8],
    new: &[u8],
    edits: &mut Vec<Value>,
) -> Result<(), AllocError>
    ensures { OnOk result (map view edits.new.items ≡ map view edits.old.items ++ spec.line_edit number line.now new.now) }
{
    push_written(alloc, number, line, written(line, new), edits)
}

// The edits that make the lines of a text those of another.
fn edits_between(alloc: Global, source: &[u8], tidy: &[u8]) -> Result<Vec<Value>, AllocError>
    ensures { IfOk result (λ edits. map view edits.items ≡ spec.text_edits source.now tidy.now) }
{
    let mut edits = Vec::new(alloc);
    let (mut rest, mut rest_of_tidy) = (source, tidy);
    let mut number = 1;
    while let Some((line, behind)) = next_line(rest) {
        let Some((new, behind_new)) = next_line(rest_of_tidy) else {
            return Ok(edits);
        };
        push_line(alloc, number, line, new, &mut edits)?;
        (rest, rest_of_tidy) = (behind, behind_new);
        number += 1;
    }
    Ok(edits)
}

/// The edits that make a source tidy in a notation, as `format` does it.
pub fn formatting(alloc: Global, notation: Notation, source: &[u8]) -> Result<Value, AllocError>
    ensures { IfOk result (λ v. spec.Tidies notation source.now (view v)) }
{
    let tidy = tidy_text(alloc, notation, source)?;
    let edits = edits_between(alloc, source, tidy.as_slice())?;
    Ok(Value::Array(edits))
}
