//! What mends a finding.
ghost use Rattle.std.specs.Prelude.{◌≡◌, ◌∷◌, [], IfOk, None, map, option_map, string_bytes};
ghost use Rattle.serde_json.specs.View.{view};
ghost use Rattle.tb_lsp_diagnostics.specs.Diagnostics.{texts_of};
ghost use Rattle.tb_basic_source.specs.Lines.{pair_of};
ghost use Rattle.tb_lsp_fixes.specs.Fixes as spec;
ghost use Rattle.tb_lsp_fixes.specs.Writing as writing;

use crate::bounds::better_bound;
use crate::signs::writes_near;
use serde_json::Value;
use std::alloc::{AllocError, Global};
use tb_basic_names::Source;
use tb_basic_places::{Span, piece, word_span};
use tb_basic_source::{Numbered, numbered_lines};
use tb_basic_syntax::HIGHEST_LINE;
use tb_editor_values::{edit_value, lines_edit};
use tb_engine_findings::{BadLine, LineWarning, Note, Warning};
use tb_lsp_diagnostics::Lines;

// What is said, text by text.
const WRITE_THEN_GOTO: &str = "Write THEN GOTO";

const WRITE_PRINT: &str = "Write PRINT";

const CLOSE_THE_TEXT: &str = "Close the text";

const WRITE_A_SPACE: &str = "Write a space";

const REMOVE_THE_BYTE_ORDER_MARK: &str = "Remove the byte order mark";

const ADD_A_LINE_WITH_END: &str = "Add a line with END";

const REMOVE_THE_LINE: &str = "Remove the line";

/// What mends a finding.
#[derive(Drop)]
pub struct Fix {
    pub title: String,
    /// Edits of the text.
    pub edits: Vec<Value>,
}

// A fix with one edit.
fn fix_by(alloc: Global, title: &str, edit: Value) -> Result<Option<Fix>, AllocError>
    ensures { IfOk result (λ fix. option_map writing.seen fix ≡ writing.fix_by title.now (view edit)) }
{
    let mut edits = Vec::new(alloc);
    edits.push(edit)?;
    let title = String::from_str(alloc, title)?;
    Ok(Some(Fix { title, edits }))
}

/// A fix that writes a text in place of a span.
pub fn writes(alloc: Global, title: &str, span: Span, text: &str) -> Result<Option<Fix>, AllocError>
    ensures { IfOk result (λ fix. option_map writing.seen fix ≡ writing.writes title.now span text.now) }
{
    let edit = edit_value(alloc, span, text)?;
    fix_by(alloc, title, edit)
}

// PRINT in place of a question mark, by what follows that: with a space where none stands and something follows.
fn print_before(behind: &[u8]) -> &'static str
    ensures { result.now ≡ spec.print_before behind.now }
{
    match behind {
        [] | [b' ', ..] => "PRINT",
        _ => "PRINT ",
    }
}

// A word in place of that round a column.
fn writes_word(
    alloc: Global,
    line: usize,
    text: &[u8],
    column: usize,
    word: &str,
) -> Result<Option<Fix>, AllocError>
    ensures { IfOk result (λ fix. option_map writing.seen fix ≡ spec.writes_word line text.now column word.now) }
{
    let title = format!(in alloc; "Write {word}")?;
    writes(alloc, title.as_str(), word_span(line, text, column), word)
}

/// What follows the byte at a place.
pub fn behind(text: &[u8], place: usize) -> &[u8]
    ensures { result.now ≡ writing.behind place text.now }
{
    let from_there = &text[place.min(text.len())..];
    match from_there {
        [] => from_there,
        [_, rest @ ..] => rest,
    }
}

// What mends a line by a note, at a column that is counted from 1 as the line is.
fn fix_by_note(
    alloc: Global,
    line: usize,
    text: &[u8],
    column: usize,
    note: Note,
) -> Result<Option<Fix>, AllocError>
    ensures { IfOk result (λ fix. option_map writing.seen fix ≡ spec.fix_by_note line text.now column note) }
{
    let place = column.saturating_sub(1);
    match note {
        Note::ThenNumber => {
            let span = piece(line, text, place, 0);
            writes(alloc, WRITE_THEN_GOTO, span, "GOTO ")
        }
        Note::QuestionMark => {
            let print = print_before(behind(text, place));
            writes(alloc, WRITE_PRINT, piece(line, text, place, 1), print)
        }
        Note::Near(word) => writes_word(alloc, line, text, column, word.spelling()),
        Note::NearSign(byte) => writes_near(alloc, line, text, place, byte),
        Note::OpenText => {
            let span = piece(line, text, text.len(), 0);
            writes(alloc, CLOSE_THE_TEXT, span, "\"")
        }
        Note::Tab => writes(alloc, WRITE_A_SPACE, piece(line, text, place, 1), " "),
        Note::ByteOrderMark => {
            let span = piece(line, text, place, 3);
            writes(alloc, REMOVE_THE_BYTE_ORDER_MARK, span, "")
        }
        _ => Ok(None),
    }
}

/// What mends a bad line, if anything is known to.
pub fn fix_of_bad_line(
    alloc: Global,
    text: &Lines<'_>,
    bad: &BadLine,
) -> Result<Option<Fix>, AllocError>
    ensures { IfOk result (λ fix. option_map writing.seen fix ≡ spec.fix_of_bad_line (texts_of text.now) bad.now) }
{
    let (line, column) = (bad.error.line, bad.error.column);
    match bad.note {
        Some(note) => fix_by_note(alloc, line, text.line(line), column, note),
        None => Ok(None),
    }
}

// The number of the first of these lines.
fn first_number(lines: &[Numbered<'_>]) -> u32
    ensures { result ≡ spec.first_number (map pair_of lines.now) }
{
    match lines {
        [] => 0,
        [first, ..] => first.number,
    }
}

// The number that begins a line.
fn number_of(alloc: Global, text: &[u8]) -> Result<u32, AllocError>
    ensures { IfOk result (λ n. n ≡ spec.number_of text.now) }
{
    let lines = numbered_lines(alloc, text)?;
    Ok(first_number(&lines))
}

// A line with END and this number behind a text of so many lines: where the text ends its last line it has an end of its
// own, or else it begins with one.
fn end_edit(
    alloc: Global,
    count: usize,
    last: &[u8],
    is_ended: bool,
    number: u32,
) -> Result<Value, AllocError>
    ensures { IfOk result (λ v. view v ≡ spec.end_edit count last.now is_ended number) }
{
    if is_ended {
        let text = format!(in alloc; "{number} END\n")?;
        lines_edit(alloc, count, count, text.as_str())
    } else {
        let text = format!(in alloc; "\n{number} END")?;
        edit_value(alloc, piece(count, last, last.len(), 0), text.as_str())
    }
}

// A line with END behind all others, of which this is the highest number, if a number is left.
fn ends(
    alloc: Global,
    count: usize,
    last: &[u8],
    is_ended: bool,
    highest: u32,
) -> Result<Option<Fix>, AllocError>
    ensures { IfOk result (λ fix. option_map writing.seen fix ≡ spec.ends count last.now is_ended highest) }
{
    if highest >= u32::from(HIGHEST_LINE) {
        return Ok(None);
    }
    let number = (highest + 10).min(u32::from(HIGHEST_LINE));
    let edit = end_edit(alloc, count, last, is_ended, number)?;
    fix_by(alloc, ADD_A_LINE_WITH_END, edit)
}

// The line with its end is removed; another one follows it.
fn removes(alloc: Global, line: usize) -> Result<Option<Fix>, AllocError>
    ensures { IfOk result (λ fix. option_map writing.seen fix ≡ spec.removes line) }
{
    let edit = lines_edit(alloc, line.saturating_sub(1), line, "")?;
    fix_by(alloc, REMOVE_THE_LINE, edit)
}

/// What mends what a warning tells of a text, by whether that ends its last line, if anything is known to.
pub fn fix_of_warning(
    alloc: Global,
    text: &Lines<'_>,
    source: &Source<'_>,
    is_ended: bool,
    warning: &LineWarning,
) -> Result<Option<Fix>, AllocError>
    ensures { IfOk result (λ fix. option_map writing.seen fix
        ≡ spec.fix_of_warning (texts_of text.now) source.now.lines.items is_ended warning.now) }
{
    match warning.warning {
        Warning::Replaced { .. } | Warning::TakenOut { .. } => removes(alloc, warning.line),
        Warning::RunsPast => {
            let highest = number_of(alloc, text.line(warning.line))?;
            let count = text.lines.len();
            ends(alloc, count, text.line(count), is_ended, highest)
        }
        Warning::EvenBound(bound) => {
            let line = source.lines.get(warning.line.saturating_sub(1));
            better_bound(alloc, warning.line, line, bound)
        }
        _ => Ok(None),
    }
}
