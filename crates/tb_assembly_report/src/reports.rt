//! What there is to say of a text.
ghost use Rattle.std.specs.Prelude.{◌≡◌, ◌-◌, ◌++◌, [], IfOk, map, option_map, unwrap_or};
ghost use Rattle.std.specs.List.{slice_get};
ghost use Rattle.std.specs.Fmt.{decimal};
ghost use Rattle.tb_words.specs.Texts.{AppendsBytes};
ghost use Rattle.tb_basic_text.specs.Lines.{lines_of_file};
ghost use Rattle.tb_engine_check.specs.Rows.{caret_row, line_row};
ghost use Rattle.tb_assembly_files.specs.Libraries.{path_at, source_of};
ghost use Rattle.tb_assembly_report.specs.Reports.{all_lines, line_at, lines_in, lines_of, note_row, report, row_at, rows};

use crate::causes::{Finding, cause_text};
use crate::notes::{NOTED, note};
use std::alloc::{AllocError, Global};
use tb_assembly_files::{Place, SourceFile, path_at};
use tb_basic_text::next_line;
use tb_engine_check::{push_caret, push_line};

// The lines of a file, as they were written.
#[derive(Drop)]
struct FileLines<'a> {
    lines: Vec<&'a [u8]>,
}

fn lines_of_text(alloc: Global, text: &[u8]) -> Result<Vec<&[u8]>, AllocError>
    ensures { IfOk result (λ lines. map (λ l. l.now) lines.items ≡ lines_of_file text.now) }
{
    let mut lines = Vec::new(alloc);
    let mut rest = text;
    while let Some((line, behind)) = next_line(rest) {
        lines.push(line)?;
        rest = behind;
    }
    Ok(lines)
}

fn lines_in<'a>(alloc: Global, text: &'a Option<Vec<u8>>) -> Result<FileLines<'a>, AllocError>
    ensures { IfOk result (λ f. lines_of f ≡ lines_in (option_map (λ t. t.items) text.now)) }
{
    let lines = match text {
        Some(text) => lines_of_text(alloc, text)?,
        None => Vec::new(alloc),
    };
    Ok(FileLines { lines })
}

fn all_lines<'a>(alloc: Global, library: &'a [SourceFile]) -> Result<Vec<FileLines<'a>>, AllocError>
    ensures { IfOk result (λ all. map lines_of all.items ≡ all_lines (map source_of library.now)) }
{
    let mut all = Vec::new(alloc);
    for file in library {
        all.push(lines_in(alloc, &file.text)?)?;
    }
    Ok(all)
}

// A line by its place; an empty one if there is none.
fn line_at<'a>(all: &[FileLines<'a>], place: Place) -> &'a [u8]
    ensures { result.now ≡ line_at (map lines_of all.now) place }
{
    match all.get(place.file) {
        Some(file) => line_in(&file.lines, place.line),
        None => &[],
    }
}

fn line_in<'a>(lines: &[&'a [u8]], number: usize) -> &'a [u8]
    ensures { result.now ≡ unwrap_or (slice_get (map (λ l. l.now) lines.now) (number - 1)) [] }
{
    match lines.get(number.saturating_sub(1)) {
        Some(line) => line,
        None => &[],
    }
}

// `FILE:LINE:COLUMN`, what it is, and what is said.
fn push_row(
    alloc: Global,
    text: &mut Vec<u8>,
    path: &[u8],
    finding: &Finding,
    is: &[u8],
    said: &[u8],
) -> Result<(), AllocError>
    ensures { AppendsBytes result text.old text.new (row_at path.now finding.now.place finding.now.column is.now said.now) }
{
    let (line, column) = (finding.place.line, finding.column);
    text.extend_from_slice(path)?;
    text.extend_from_slice(format!(in alloc; ":{line}:{column}")?.as_bytes())?;
    text.extend_from_slice(is)?;
    text.extend_from_slice(said)?;
    text.extend_from_slice(b"\n")
}

// A line, and a caret under its place.
fn push_place(
    alloc: Global,
    text: &mut Vec<u8>,
    line: &[u8],
    number: usize,
    column: usize,
) -> Result<(), AllocError>
    ensures { AppendsBytes result text.old text.new (line_row (decimal number) line.now ++ caret_row (decimal number) column) }
{
    let number = format!(in alloc; "{number}")?;
    push_line(text, number.as_bytes(), line)?;
    push_caret(text, number.as_bytes(), column)
}

fn push_note(
    alloc: Global,
    text: &mut Vec<u8>,
    path: &[u8],
    finding: &Finding,
    note: &Option<Vec<u8>>,
) -> Result<(), AllocError>
    ensures { AppendsBytes result text.old text.new (note_row path.now finding.now.place finding.now.column (option_map (λ t. t.items) note.now)) }
{
    match note {
        Some(note) => push_row(alloc, text, path, finding, b": note: ", note),
        None => Ok(()),
    }
}

// The line in which something is wrong, and the path of its file.
#[derive(Clone, Copy, Drop)]
struct LineOfFile<'a> {
    path: &'a [u8],
    line: &'a [u8],
}

// What is wrong, the line with its place, and a note.
fn push_finding(
    alloc: Global,
    text: &mut Vec<u8>,
    at: LineOfFile<'_>,
    names: &[&[u8]],
    is_noted: bool,
    finding: &Finding,
) -> Result<(), AllocError>
    ensures { AppendsBytes result text.old text.new (rows at.entry.path.now at.entry.line.now (map (λ n. n.now) names.now) is_noted finding.now) }
{
    let LineOfFile { path, line } = at;
    let said = cause_text(finding.cause);
    let note = note(alloc, is_noted, names, line, finding.column, finding.cause)?;
    push_row(alloc, text, path, finding, b": error: ", said.as_bytes())?;
    push_place(alloc, text, line, finding.place.line, finding.column)?;
    push_note(alloc, text, path, finding, &note)
}

/// What there is to say of a text, by the files of its library, the names that it has in upper case, and all that is wrong.
pub fn report(
    alloc: Global,
    library: &[SourceFile],
    names: &[&[u8]],
    findings: &[Finding],
) -> Result<Vec<u8>, AllocError>
    ensures { IfOk result (λ r. r.items ≡ report (map source_of library.now) (map (λ n. n.now) names.now) findings.now) }
{
    let all = all_lines(alloc, library)?;
    let mut text = Vec::new(alloc);
    for (i, finding) in findings.iter().enumerate() {
        let at = LineOfFile {
            path: path_at(library, finding.place.file),
            line: line_at(&all, finding.place),
        };
        push_finding(alloc, &mut text, at, names, i < NOTED, finding)?;
    }
    Ok(text)
}
