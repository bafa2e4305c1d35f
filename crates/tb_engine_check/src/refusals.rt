//! What `check` says of the line for which a source is refused.
ghost use Rattle.std.specs.Prelude.{◌≡◌, flat_map, map, IfOk};
ghost use Rattle.tb_words.specs.Texts.{AppendsBytes};
ghost use Rattle.tb_basic_source.specs.Lines.{pair_of};
ghost use Rattle.tb_engine_check.specs.Refusals.{TellsRefusal, deep_rows_of, first_rows, is_numbered, program_rows, refusal_rows, source_rows};
ghost use Rattle.tb_engine_check.specs.Reports.{lines_in};

use crate::reports::{Source, push_bad_line, push_deep_line};
use std::alloc::{AllocError, Global};
use tb_basic_meaning::LowerError;
use tb_basic_source::{Numbered, numbered_lines};
use tb_compiled::{Compile, CompileError, Notation, SizeLimit};
use tb_engine_findings::{BadLine, CheckSettings, Findings, SourceError, examine};

/// What `check` says of the line for which a source under a name is refused: what is wrong, the line, its place, and what
/// helps. Nothing if it is refused for no single line, or isn't refused for that.
pub fn refusal_text<K: Compile>(
    compiler: &K,
    alloc: Global,
    name: &str,
    source: &[u8],
    notation: Notation,
    error: CompileError,
) -> Result<Vec<u8>, AllocError>
    ensures { IfOk result (λ text. TellsRefusal K.own notation name.now source.now error text.items) }
{
    // Neither bad lines nor lines that are too deep depend on the limit of the size.
    let settings = CheckSettings {
        size: SizeLimit::Cost,
        notation,
    };
    let seen = examine(compiler, alloc, source, settings)?;
    let numbered = numbered_lines(alloc, source)?;
    let shown = Source {
        name,
        lines: seen.lines.as_slice(),
    };
    let mut text = Vec::new(alloc);
    push_refusal(
        alloc,
        &mut text,
        &shown,
        numbered.as_slice(),
        error,
        &seen.findings,
    )?;
    Ok(text)
}

fn push_refusal(
    alloc: Global,
    text: &mut Vec<u8>,
    source: &Source<'_>,
    numbered: &[Numbered<'_>],
    error: CompileError,
    findings: &Findings,
) -> Result<(), AllocError>
    ensures { AppendsBytes result text.old text.new
        (refusal_rows source.now.name.now (lines_in source.now) (map pair_of numbered.now) error findings.now) }
{
    match error {
        CompileError::Source(error) => push_source_error(alloc, text, source, error, findings),
        CompileError::Lower(LowerError::TooDeep(number)) => {
            push_too_deep(alloc, text, source, numbered, number, findings)
        }
        CompileError::Lower(LowerError::NoMemory)
        | CompileError::TooLarge(_)
        | CompileError::NoMemory => Ok(()),
    }
}

fn push_source_error(
    alloc: Global,
    text: &mut Vec<u8>,
    source: &Source<'_>,
    error: SourceError,
    findings: &Findings,
) -> Result<(), AllocError>
    ensures { AppendsBytes result text.old text.new (source_rows source.now.name.now (lines_in source.now) error findings.now) }
{
    match findings {
        Findings::BadLines(lines) => push_first(alloc, text, source, error, lines),
        Findings::Empty | Findings::Refused { .. } | Findings::Accepted(_) => Ok(()),
    }
}

// Appends what is said of the first bad line, if the source is refused for it.
fn push_first(
    alloc: Global,
    text: &mut Vec<u8>,
    source: &Source<'_>,
    error: SourceError,
    lines: &[BadLine],
) -> Result<(), AllocError>
    ensures { AppendsBytes result text.old text.new (first_rows source.now.name.now (lines_in source.now) error lines.now) }
{
    match lines {
        [first, ..] if first.error.line == error.line => push_bad_line(alloc, text, source, first),
        [] | [_, ..] => Ok(()),
    }
}

fn push_too_deep(
    alloc: Global,
    text: &mut Vec<u8>,
    source: &Source<'_>,
    numbered: &[Numbered<'_>],
    number: u16,
    findings: &Findings,
) -> Result<(), AllocError>
    ensures { AppendsBytes result text.old text.new
        (program_rows source.now.name.now (lines_in source.now) (map pair_of numbered.now) number findings.now) }
{
    match findings {
        Findings::Refused { deep, .. } => push_deep(alloc, text, source, numbered, number, deep),
        Findings::BadLines(_) | Findings::Empty | Findings::Accepted(_) => Ok(()),
    }
}

// Appends what is said of those of some lines of the file that begin with a number.
fn push_deep(
    alloc: Global,
    text: &mut Vec<u8>,
    source: &Source<'_>,
    numbered: &[Numbered<'_>],
    number: u16,
    lines: &[usize],
) -> Result<(), AllocError>
    ensures { AppendsBytes result text.old text.new
        (flat_map (deep_rows_of source.now.name.now (lines_in source.now) (map pair_of numbered.now) number) lines.now) }
{
    for line in lines {
        push_if_numbered(alloc, text, source, numbered, number, *line)?;
    }
    Ok(())
}

fn push_if_numbered(
    alloc: Global,
    text: &mut Vec<u8>,
    source: &Source<'_>,
    numbered: &[Numbered<'_>],
    number: u16,
    line: usize,
) -> Result<(), AllocError>
    ensures { AppendsBytes result text.old text.new
        (deep_rows_of source.now.name.now (lines_in source.now) (map pair_of numbered.now) number line) }
{
    if is_numbered(numbered, number, line) {
        push_deep_line(alloc, text, source, line)?;
    }
    Ok(())
}

// Whether a line of the file, counted from 1, begins with a number.
fn is_numbered(numbered: &[Numbered<'_>], number: u16, line: usize) -> bool
    ensures { result ≡ is_numbered (map pair_of numbered.now) number line }
{
    match numbered.get(line.saturating_sub(1)) {
        Some(line) => line.number == u32::from(number),
        None => false,
    }
}
