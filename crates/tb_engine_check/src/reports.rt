//! What there is to say of a file, as a text.
ghost use Rattle.std.specs.Prelude.{◌≡◌, flat_map, IfOk};
ghost use Rattle.std.specs.Fmt.{decimal};
ghost use Rattle.tb_words.specs.Texts.{AppendsBytes};
ghost use Rattle.tb_engines.specs.Texts.{too_deep_text};
ghost use Rattle.tb_engine_check.specs.Reports.{bad_line_rows, bad_word_rows, deep_rows, error_row, file_row, line_at, lines_in};
ghost use Rattle.tb_engine_check.specs.Reports.{fits_row, note_row, place_rows, report, told_in, too_large_row, warning_rows};
ghost use Rattle.tb_engine_check.specs.Rows.{line_row};

use crate::rows::{push_caret, push_line};
use crate::texts::{NO_OPTION, NoteText, WarningText};
use std::alloc::{AllocError, Global};
use tb_basic_options::BadWord;
use tb_engine_findings::{BadLine, Findings, LineWarning, Note, SourceError, SourceErrorKind};
use tb_engines::{TOO_DEEP, TooLarge, source_text};

/// A file of which something is said.
#[derive(Clone, Copy, Drop)]
pub struct Source<'a> {
    pub name: &'a str,
    /// Its lines, as they were written.
    pub lines: &'a [&'a [u8]],
}

impl Source<'_> {
    // A line, counted from 1.
    fn line(&self, number: usize) -> &[u8]
        ensures { result.now ≡ line_at (lines_in self.now) number }
    {
        match self.lines.get(number.saturating_sub(1)) {
            Some(line) => line,
            None => b"",
        }
    }
}

/// All that there is to say of a file.
pub fn report_of(
    alloc: Global,
    source: &Source<'_>,
    bad: Option<BadWord>,
    findings: &Findings,
    fits: bool,
) -> Result<Vec<u8>, AllocError>
    ensures { IfOk result (λ text. text.items ≡ told_in source.now.name.now (lines_in source.now) bad findings.now fits) }
{
    let mut text = Vec::new(alloc);
    push_bad_word(alloc, &mut text, source, bad)?;
    push_report(alloc, &mut text, source, findings)?;
    push_fits(&mut text, source.name, fits)?;
    Ok(text)
}

// Appends what was found in a file.
fn push_report(
    alloc: Global,
    text: &mut Vec<u8>,
    source: &Source<'_>,
    findings: &Findings,
) -> Result<(), AllocError>
    ensures { AppendsBytes result text.old text.new (report source.now.name.now (lines_in source.now) findings.now) }
{
    match findings {
        Findings::BadLines(lines) => push_bad_lines(alloc, text, source, lines),
        Findings::Empty => push_about_file(
            alloc,
            text,
            source,
            source_text(SourceErrorKind::Empty),
        ),
        Findings::Refused { deep, too_large } => {
            push_deep_lines(alloc, text, source, deep)?;
            push_too_large(alloc, text, source, *too_large)
        }
        Findings::Accepted(warnings) => push_warnings(alloc, text, source, warnings),
    }
}

// Appends the place of a word that is no option, if there is one.
fn push_bad_word(
    alloc: Global,
    text: &mut Vec<u8>,
    source: &Source<'_>,
    bad: Option<BadWord>,
) -> Result<(), AllocError>
    ensures { AppendsBytes result text.old text.new (bad_word_rows source.now.name.now (lines_in source.now) bad) }
{
    let Some(BadWord { line, column }) = bad else {
        return Ok(());
    };
    let name = source.name;
    let fault = NO_OPTION;
    push_row(
        text,
        &format!(in alloc; "{name}:{line}:{column}: error: {fault}\n")?,
    )?;
    let number = format!(in alloc; "{line}")?;
    push_line(text, number.as_bytes(), source.line(line))?;
    push_caret(text, number.as_bytes(), column)
}

// Appends that the memory holds a program which costs too much, if that is so.
fn push_fits(text: &mut Vec<u8>, name: &str, fits: bool) -> Result<(), AllocError>
    ensures { AppendsBytes result text.old text.new (fits_row name.now fits) }
{
    if fits {
        text.extend_from_slice(name.as_bytes())?;
        push_row(text, ": note: --fit compiles it\n")
    } else {
        Ok(())
    }
}

fn push_row(text: &mut Vec<u8>, row: &str) -> Result<(), AllocError>
    ensures { AppendsBytes result text.old text.new row.now }
{
    text.extend_from_slice(row.as_bytes())
}

// Appends what is said of the whole file.
fn push_about_file(
    alloc: Global,
    text: &mut Vec<u8>,
    source: &Source<'_>,
    fault: &str,
) -> Result<(), AllocError>
    ensures { AppendsBytes result text.old text.new (file_row source.now.name.now fault.now) }
{
    let name = source.name;
    push_row(text, &format!(in alloc; "{name}: error: {fault}\n")?)
}

fn push_bad_lines(
    alloc: Global,
    text: &mut Vec<u8>,
    source: &Source<'_>,
    lines: &[BadLine],
) -> Result<(), AllocError>
    ensures { AppendsBytes result text.old text.new (flat_map (bad_line_rows source.now.name.now (lines_in source.now)) lines.now) }
{
    for line in lines {
        push_bad_line(alloc, text, source, line)?;
    }
    Ok(())
}

pub fn push_bad_line(
    alloc: Global,
    text: &mut Vec<u8>,
    source: &Source<'_>,
    bad: &BadLine,
) -> Result<(), AllocError>
    ensures { AppendsBytes result text.old text.new (bad_line_rows source.now.name.now (lines_in source.now) bad.now) }
{
    push_error(alloc, text, source, bad.error)?;
    push_place(alloc, text, source, bad.error)?;
    push_note(alloc, text, source, bad.error, bad.note)
}

fn push_error(
    alloc: Global,
    text: &mut Vec<u8>,
    source: &Source<'_>,
    error: SourceError,
) -> Result<(), AllocError>
    ensures { AppendsBytes result text.old text.new (error_row source.now.name.now error) }
{
    let (name, line, column) = (source.name, error.line, error.column);
    let fault = source_text(error.kind);
    push_row(
        text,
        &format!(in alloc; "{name}:{line}:{column}: error: {fault}\n")?,
    )
}

// Appends the line of an error, and a caret below its column.
fn push_place(
    alloc: Global,
    text: &mut Vec<u8>,
    source: &Source<'_>,
    error: SourceError,
) -> Result<(), AllocError>
    ensures { AppendsBytes result text.old text.new (place_rows (lines_in source.now) error) }
{
    let line = error.line;
    let number = format!(in alloc; "{line}")?;
    push_line(text, number.as_bytes(), source.line(line))?;
    push_caret(text, number.as_bytes(), error.column)
}

fn push_note(
    alloc: Global,
    text: &mut Vec<u8>,
    source: &Source<'_>,
    error: SourceError,
    note: Option<Note>,
) -> Result<(), AllocError>
    ensures { AppendsBytes result text.old text.new (note_row source.now.name.now error note) }
{
    let Some(note) = note else {
        return Ok(());
    };
    let (name, line, column) = (source.name, error.line, error.column);
    let note = NoteText(note);
    push_row(
        text,
        &format!(in alloc; "{name}:{line}:{column}: note: {note}\n")?,
    )
}

// Appends a line of the file.
fn push_source_line(
    alloc: Global,
    text: &mut Vec<u8>,
    source: &Source<'_>,
    line: usize,
) -> Result<(), AllocError>
    ensures { AppendsBytes result text.old text.new (line_row (decimal line) (line_at (lines_in source.now) line)) }
{
    let number = format!(in alloc; "{line}")?;
    push_line(text, number.as_bytes(), source.line(line))
}

fn push_deep_lines(
    alloc: Global,
    text: &mut Vec<u8>,
    source: &Source<'_>,
    lines: &[usize],
) -> Result<(), AllocError>
    ensures { AppendsBytes result text.old text.new (flat_map (deep_rows source.now.name.now (lines_in source.now)) lines.now) }
{
    for line in lines {
        push_deep_line(alloc, text, source, *line)?;
    }
    Ok(())
}

// What is said of a line that is too deep.
fn too_deep() -> &'static str
    ensures { result.now ≡ too_deep_text }
{
    TOO_DEEP
}

pub fn push_deep_line(
    alloc: Global,
    text: &mut Vec<u8>,
    source: &Source<'_>,
    line: usize,
) -> Result<(), AllocError>
    ensures { AppendsBytes result text.old text.new (deep_rows source.now.name.now (lines_in source.now) line) }
{
    let name = source.name;
    let fault = too_deep();
    push_row(text, &format!(in alloc; "{name}:{line}: error: {fault}\n")?)?;
    push_source_line(alloc, text, source, line)
}

fn push_too_large(
    alloc: Global,
    text: &mut Vec<u8>,
    source: &Source<'_>,
    cost: Option<u32>,
) -> Result<(), AllocError>
    ensures { AppendsBytes result text.old text.new (too_large_row source.now.name.now cost) }
{
    match cost {
        Some(cost) => {
            let fault = TooLarge(cost);
            push_about_file(alloc, text, source, &format!(in alloc; "{fault}")?)
        }
        None => Ok(()),
    }
}

fn push_warnings(
    alloc: Global,
    text: &mut Vec<u8>,
    source: &Source<'_>,
    warnings: &[LineWarning],
) -> Result<(), AllocError>
    ensures { AppendsBytes result text.old text.new (flat_map (warning_rows source.now.name.now (lines_in source.now)) warnings.now) }
{
    for warning in warnings {
        push_warning(alloc, text, source, *warning)?;
    }
    Ok(())
}

fn push_warning(
    alloc: Global,
    text: &mut Vec<u8>,
    source: &Source<'_>,
    warning: LineWarning,
) -> Result<(), AllocError>
    ensures { AppendsBytes result text.old text.new (warning_rows source.now.name.now (lines_in source.now) warning) }
{
    let (name, line) = (source.name, warning.line);
    let said = WarningText(warning.warning);
    push_row(
        text,
        &format!(in alloc; "{name}:{line}: warning: {said}\n")?,
    )?;
    push_source_line(alloc, text, source, line)
}
