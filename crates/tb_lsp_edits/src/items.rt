//! The items of a completion.
ghost use Rattle.std.specs.Prelude.{◌≡◌, ◌∷◌, ◌++◌, [], IfOk, OnOk, map, string_bytes};
ghost use Rattle.serde_json.specs.View.{view};
ghost use Rattle.tb_lsp_edits.specs.Items as spec;

use crate::candidates::{Candidate, Word, candidates};
use crate::offered::{offered, spelled};
use crate::typed::{Typed, typed_part};
use serde_json::{Value, json};
use std::alloc::{AllocError, Global};
use tb_basic_names::Source;
use tb_basic_places::{Span, column, place_at};
use tb_basic_text::LONGEST_LINE;
use tb_editor_values::edit_value;

// A word that is offered in place of a span.
fn word_value(alloc: Global, word: Word, span: Span) -> Result<Value, AllocError>
    ensures { IfOk result (λ v. view v ≡ spec.word_value span word) }
{
    let label = word.spelling();
    let edit = edit_value(alloc, span, word.written())?;
    json!(in alloc; {"kind": 14, "label": label, "textEdit": edit})
}

// The digits by which numbers are sorted.
fn sort_text(alloc: Global, number: u16) -> Result<String, AllocError>
    ensures { IfOk result (λ text. string_bytes text ≡ spec.sort_text number) }
{
    format!(in alloc; "{number:05}")
}

// The number of a line that is offered in place of a span.
fn number_value(alloc: Global, number: u16, span: Span) -> Result<Value, AllocError>
    ensures { IfOk result (λ v. view v ≡ spec.number_value span number) }
{
    let text = format!(in alloc; "{number}")?;
    let label = text.as_str();
    let edit = edit_value(alloc, span, label)?;
    let sort_text = sort_text(alloc, number)?;
    let sorted = sort_text.as_str();
    json!(in alloc; {"kind": 18, "label": label, "sortText": sorted, "textEdit": edit})
}

fn item_value(alloc: Global, candidate: Candidate, span: Span) -> Result<Value, AllocError>
    ensures { IfOk result (λ v. view v ≡ spec.item_value span candidate) }
{
    match candidate {
        Candidate::Word(word) => word_value(alloc, word, span),
        Candidate::Number(number) => number_value(alloc, number, span),
    }
}

fn push_item(
    alloc: Global,
    candidate: Candidate,
    span: Span,
    items: &mut Vec<Value>,
) -> Result<(), AllocError>
    ensures { OnOk result (map view items.new.items ≡ map view items.old.items ++ spec.item_value span candidate ∷ []) }
{
    items.push(item_value(alloc, candidate, span)?)?;
    Ok(())
}

fn items_of(alloc: Global, found: &[Candidate], span: Span) -> Result<Vec<Value>, AllocError>
    ensures { IfOk result (λ items. map view items.items ≡ spec.items_in span found.now) }
{
    let mut items = Vec::new(alloc);
    for candidate in found {
        push_item(alloc, *candidate, span, &mut items)?;
    }
    Ok(items)
}

// What is typed of a line, from the beginning of the word or the number.
fn span_of(line: usize, before: &[u8], typed: Typed<'_>) -> Span
    ensures { result ≡ spec.span_of line before.now typed.entry }
{
    Span {
        line,
        start: column(typed.base),
        end: column(before),
    }
}

// A line of a source, from 0; behind its last one a line is empty.
fn line_at<'a>(source: &Source<'a>, line: usize) -> &'a [u8]
    ensures { result.now ≡ spec.line_at line source.now.lines.items }
{
    match source.lines.get(line) {
        Some(line) => line.text,
        None => b"",
    }
}

// What is offered behind the beginning of a line.
fn offered_items(
    alloc: Global,
    source: &Source<'_>,
    line: usize,
    before: &[u8],
) -> Result<Vec<Value>, AllocError>
    ensures { IfOk result (λ items. spec.AreOffered source.now.notation source.now.lines.items line before.now (map view items.items)) }
{
    let typed = typed_part(alloc, before)?;
    let candidates = candidates(alloc, source)?;
    let found = offered(alloc, source.notation, typed, &candidates)?;
    let items = items_of(alloc, &found, span_of(line, before, typed))?;
    Ok(items)
}

// What is offered behind the beginning of a line, but nothing behind the end of the longest line.
fn items(
    alloc: Global,
    source: &Source<'_>,
    line: usize,
    before: &[u8],
) -> Result<Vec<Value>, AllocError>
    ensures { IfOk result (λ items. spec.AreItems source.now.notation source.now.lines.items line before.now (map view items.items)) }
{
    if before.len() > LONGEST_LINE {
        return Ok(Vec::new(alloc));
    }
    let items = offered_items(alloc, source, line, before)?;
    Ok(items)
}

/// What may be written at a place of a source: words and numbers of lines with which the line up to there begins one of
/// the grammar.
pub fn completion(
    alloc: Global,
    source: &Source<'_>,
    line: usize,
    character: usize,
) -> Result<Value, AllocError>
    ensures { IfOk result (λ v. spec.Completes source.now.notation source.now.lines.items line character (view v)) }
{
    let text = line_at(source, line);
    let before = &text[..place_at(text, character)];
    let items = Value::Array(items(alloc, source, line, before)?);
    json!(in alloc; {"isIncomplete": false, "items": items})
}
