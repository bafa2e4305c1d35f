//! All that there is to say of a source.
ghost use Rattle.std.specs.Prelude.{◌≡◌, ◌∷◌, ◌++◌, [], IfOk, OnOk, map};
ghost use Rattle.tb_basic_text.specs.Lines.{lines_of_file};
ghost use Rattle.tb_engine_findings.specs.Findings.{AreFindings, Tells, noted};
ghost use Rattle.tb_engine_findings.specs.Remaining.{remaining};
ghost use Rattle.tb_engine_findings.specs.Warnings.{warnings_on};

use crate::judging::{Verdict, verdict_on};
use crate::lines::{NumberedLine, read_lines};
use crate::notes::{Note, note_of};
use crate::remaining::remaining_lines;
use crate::settings::CheckSettings;
use crate::warnings::{LineWarning, warnings};
use std::alloc::{AllocError, Global};
use tb_basic_text::Notation;
use tb_compiled::Compile;
use tb_parser::SourceError;

/// A bad line's first fault, with a note if there is one.
#[derive(Clone, Copy, Drop)]
pub struct BadLine {
    pub error: SourceError,
    pub note: Option<Note>,
}

/// All that there is to say of a source.
#[derive(Drop)]
pub enum Findings {
    /// These lines are bad, in the order of the file.
    BadLines(Vec<BadLine>),
    /// No line is left at the end.
    Empty,
    /// What is wrong with its program.
    Refused {
        /// The lines of the file, from 1, with an expression that is too deep, which no later line replaces or takes out.
        deep: Vec<usize>,
        /// What tells the program's size, if that is too much: its cost, or by the memory the bytes that it takes.
        too_large: Option<u32>,
    },
    /// It is compiled. The warnings are in the order of the file.
    Accepted(Vec<LineWarning>),
}

/// A source that was looked at.
#[derive(Drop)]
pub struct Examined<'a> {
    /// Its lines, as they were written.
    pub lines: Vec<&'a [u8]>,
    pub findings: Findings,
}

/// Looks at a source. Fails only if memory runs out.
pub fn examine<'a, K: Compile>(
    compiler: &K,
    alloc: Global,
    source: &'a [u8],
    settings: CheckSettings,
) -> Result<Examined<'a>, AllocError>
    ensures lines { IfOk result (λ seen. map (λ t. t.now) seen.lines.items ≡ lines_of_file source.now) }
    ensures findings { IfOk result (λ seen. AreFindings K.own settings source.now seen.findings) }
{
    let lines = read_lines(alloc, source, settings.notation)?;
    let verdict = verdict_on(compiler, alloc, source, lines.bad, lines.program, settings)?;
    let looked = Looked {
        notation: settings.notation,
        texts: &lines.texts,
    };
    let findings = findings_by(alloc, looked, &lines.numbered, &verdict)?;
    Ok(Examined {
        lines: lines.texts,
        findings,
    })
}

// The lines of a source, and how they were read.
#[derive(Clone, Copy, Drop)]
struct Looked<'a> {
    notation: Notation,
    texts: &'a [&'a [u8]],
}

// What there is to say of a source, by its lines and what becomes of it.
fn findings_by(
    alloc: Global,
    looked: Looked<'_>,
    numbered: &[NumberedLine],
    verdict: &Verdict,
) -> Result<Findings, AllocError>
    ensures { IfOk result (Tells looked.entry.notation (map (λ t. t.now) looked.entry.texts.now) (λ numbers deep. deep ≡ remaining numbers numbered.now)
        (λ program found. found ≡ warnings_on program numbered.now) verdict.now) }
{
    match verdict {
        Verdict::BadLines(errors) => Ok(Findings::BadLines(noted(alloc, looked, errors)?)),
        Verdict::Empty => Ok(Findings::Empty),
        Verdict::Refused(faults) => Ok(Findings::Refused {
            deep: remaining_lines(alloc, numbered, &faults.deep)?,
            too_large: faults.too_large,
        }),
        Verdict::Accepted(program) => {
            Ok(Findings::Accepted(warnings(alloc, program, numbered)?))
        }
    }
}

// Bad lines with their notes, by the lines of their file.
fn noted(
    alloc: Global,
    looked: Looked<'_>,
    errors: &[SourceError],
) -> Result<Vec<BadLine>, AllocError>
    ensures { IfOk result (λ bad. bad.items ≡ map (noted looked.entry.notation (map (λ t. t.now) looked.entry.texts.now)) errors.now) }
{
    let mut found = Vec::new(alloc);
    for error in errors {
        push_noted(alloc, looked, *error, &mut found)?;
    }
    Ok(found)
}

fn push_noted(
    alloc: Global,
    looked: Looked<'_>,
    error: SourceError,
    found: &mut Vec<BadLine>,
) -> Result<(), AllocError>
    ensures { OnOk result (found.new.items
        ≡ found.old.items ++ noted looked.entry.notation (map (λ t. t.now) looked.entry.texts.now) error ∷ []) }
{
    found.push(with_note(alloc, looked, error)?)?;
    Ok(())
}

fn with_note(alloc: Global, looked: Looked<'_>, error: SourceError) -> Result<BadLine, AllocError>
    ensures { IfOk result (λ bad. bad ≡ noted looked.entry.notation (map (λ t. t.now) looked.entry.texts.now) error) }
{
    let note = match looked.texts.get(error.line.saturating_sub(1)) {
        Some(text) => note_of(alloc, looked.notation, text, error)?,
        None => None,
    };
    Ok(BadLine { error, note })
}
