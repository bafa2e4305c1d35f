//! The diagnostics of findings.
ghost use Rattle.std.specs.Prelude.{◌≡◌, ◌++◌, ◌∷◌, [], IfOk, OnOk, map};
ghost use Rattle.serde_json.specs.View.{view};
ghost use Rattle.tb_lsp_diagnostics.specs.Diagnostics as spec;

use crate::codes::{error_code, warning_code};
use crate::values::{Said, Severity, plain, superseded};
use serde_json::Value;
use std::alloc::{AllocError, Global};
use tb_basic_options::BadWord;
use tb_basic_places::{Span, line_span, place_span, whole_span};
use tb_engine_check::{NO_OPTION, NoteText, WarningText};
use tb_engine_findings::{BadLine, Findings, Fitted, LineWarning, SourceErrorKind, Warning};
use tb_engines::{TOO_DEEP, TooLarge, source_text};

// What is said, text by text.
const TOO_LONG: &str = "more than 1048576 bytes";

/// A text of which something is said.
#[derive(Clone, Copy, Drop)]
pub struct Lines<'a> {
    pub uri: &'a str,
    /// Its lines, as they were written.
    pub lines: &'a [&'a [u8]],
}

impl Lines<'_> {
    /// A line, counted from 1.
    pub fn line(&self, number: usize) -> &[u8]
        ensures { result.now ≡ spec.line_at (spec.texts_of self.now) number }
    {
        match self.lines.get(number.saturating_sub(1)) {
            Some(line) => line,
            None => b"",
        }
    }

    // A line, counted from 1, without the spaces at its ends.
    fn span(&self, number: usize) -> Span
        ensures { result ≡ spec.span_at (spec.texts_of self.now) number }
    {
        line_span(number, self.line(number))
    }
}

// What is said of a bad line.
fn message(alloc: Global, bad: &BadLine) -> Result<String, AllocError>
    ensures { IfOk result (λ said. spec.message_of bad.now ≡ spec.bytes_of said) }
{
    let fault = source_text(bad.error.kind);
    match bad.note {
        Some(note) => {
            let note = NoteText(note);
            format!(in alloc; "{fault}: {note}")
        }
        None => String::from_str(alloc, fault),
    }
}

/// The diagnostic of a bad line.
pub fn on_bad_line(alloc: Global, text: &Lines<'_>, bad: &BadLine) -> Result<Value, AllocError>
    ensures { IfOk result (λ v. view v ≡ spec.on_bad_line (spec.texts_of text.now) bad.now) }
{
    let message = message(alloc, bad)?;
    let (line, column) = (bad.error.line, bad.error.column);
    plain(
        alloc,
        Said {
            span: place_span(line, text.line(line), column),
            severity: Severity::Error,
            code: error_code(bad.error.kind),
            message: message.as_str(),
        },
    )
}

fn too_deep() -> &'static str
    ensures { result.now ≡ spec.too_deep }
{
    TOO_DEEP
}

fn on_deep_line(alloc: Global, text: &Lines<'_>, line: usize) -> Result<Value, AllocError>
    ensures { IfOk result (λ v. view v ≡ spec.on_deep_line (spec.texts_of text.now) line) }
{
    plain(
        alloc,
        Said {
            span: text.span(line),
            severity: Severity::Error,
            code: "expression-too-deep",
            message: too_deep(),
        },
    )
}

fn on_whole(alloc: Global, code: &str, message: &str) -> Result<Value, AllocError>
    ensures { IfOk result (λ v. view v ≡ spec.on_whole code.now message.now) }
{
    plain(
        alloc,
        Said {
            span: whole_span(),
            severity: Severity::Error,
            code,
            message,
        },
    )
}

fn on_size(alloc: Global, size: u32) -> Result<Value, AllocError>
    ensures { IfOk result (λ v. view v ≡ spec.on_size size) }
{
    let fault = TooLarge(size);
    let message = format!(in alloc; "{fault}")?;
    on_whole(alloc, "program-too-large", message.as_str())
}

// The line of the file that does away with another.
fn superseding(warning: Warning) -> Option<usize>
    ensures { result ≡ spec.superseding warning }
{
    match warning {
        Warning::Replaced { by, .. } | Warning::TakenOut { by, .. } => Some(by),
        _ => None,
    }
}

/// The diagnostic of a warning.
pub fn on_warning(
    alloc: Global,
    text: &Lines<'_>,
    warning: &LineWarning,
) -> Result<Value, AllocError>
    ensures { IfOk result (λ v. view v ≡ spec.on_warning text.now.uri.now (spec.texts_of text.now) warning.now) }
{
    let warned = WarningText(warning.warning);
    let message = format!(in alloc; "{warned}")?;
    let said = Said {
        span: text.span(warning.line),
        severity: Severity::Warning,
        code: warning_code(warning.warning),
        message: message.as_str(),
    };
    match superseding(warning.warning) {
        Some(by) => superseded(alloc, text.uri, said, text.span(by)),
        None => plain(alloc, said),
    }
}

fn push_bad_line(
    alloc: Global,
    text: &Lines<'_>,
    line: &BadLine,
    found: &mut Vec<Value>,
) -> Result<(), AllocError>
    ensures { OnOk result (map view found.new.items ≡ map view found.old.items ++ spec.on_bad_line (spec.texts_of text.now) line.now ∷ []) }
{
    found.push(on_bad_line(alloc, text, line)?)?;
    Ok(())
}

fn on_bad_lines(
    alloc: Global,
    text: &Lines<'_>,
    lines: &[BadLine],
) -> Result<Vec<Value>, AllocError>
    ensures { IfOk result (λ found. map view found.items ≡ map (spec.on_bad_line (spec.texts_of text.now)) lines.now) }
{
    let mut found = Vec::new(alloc);
    for line in lines {
        push_bad_line(alloc, text, line, &mut found)?;
    }
    Ok(found)
}

fn push_deep_line(
    alloc: Global,
    text: &Lines<'_>,
    line: usize,
    found: &mut Vec<Value>,
) -> Result<(), AllocError>
    ensures { OnOk result (map view found.new.items ≡ map view found.old.items ++ spec.on_deep_line (spec.texts_of text.now) line ∷ []) }
{
    found.push(on_deep_line(alloc, text, line)?)?;
    Ok(())
}

fn on_deep_lines(alloc: Global, text: &Lines<'_>, lines: &[usize]) -> Result<Vec<Value>, AllocError>
    ensures { IfOk result (λ found. map view found.items ≡ map (spec.on_deep_line (spec.texts_of text.now)) lines.now) }
{
    let mut found = Vec::new(alloc);
    for line in lines {
        push_deep_line(alloc, text, *line, &mut found)?;
    }
    Ok(found)
}

fn push_warning(
    alloc: Global,
    text: &Lines<'_>,
    warning: &LineWarning,
    found: &mut Vec<Value>,
) -> Result<(), AllocError>
    ensures { OnOk result (map view found.new.items ≡ map view found.old.items ++ spec.on_warning text.now.uri.now (spec.texts_of text.now) warning.now ∷ []) }
{
    found.push(on_warning(alloc, text, warning)?)?;
    Ok(())
}

fn on_warnings(
    alloc: Global,
    text: &Lines<'_>,
    warnings: &[LineWarning],
) -> Result<Vec<Value>, AllocError>
    ensures { IfOk result (λ found. map view found.items
        ≡ map (spec.on_warning text.now.uri.now (spec.texts_of text.now)) warnings.now) }
{
    let mut found = Vec::new(alloc);
    for warning in warnings {
        push_warning(alloc, text, warning, &mut found)?;
    }
    Ok(found)
}

// Appends what is said of the size, if that is too much.
fn push_size(
    alloc: Global,
    too_large: Option<u32>,
    found: &mut Vec<Value>,
) -> Result<(), AllocError>
    ensures { OnOk result (map view found.new.items ≡ map view found.old.items ++ spec.on_sizes too_large) }
{
    match too_large {
        Some(size) => {
            found.push(on_size(alloc, size)?)?;
            Ok(())
        }
        None => Ok(()),
    }
}

// What is wrong with a program.
fn on_program(
    alloc: Global,
    text: &Lines<'_>,
    deep: &[usize],
    too_large: Option<u32>,
) -> Result<Vec<Value>, AllocError>
    ensures { IfOk result (λ found. map view found.items ≡ spec.on_program (spec.texts_of text.now) deep.now too_large) }
{
    let mut found = on_deep_lines(alloc, text, deep)?;
    push_size(alloc, too_large, &mut found)?;
    Ok(found)
}

// The one diagnostic of a whole source.
fn only(alloc: Global, diagnostic: Value) -> Result<Vec<Value>, AllocError>
    ensures { IfOk result (λ found. map view found.items ≡ view diagnostic ∷ []) }
{
    let mut found = Vec::new(alloc);
    found.push(diagnostic)?;
    Ok(found)
}

/// The diagnostic of a text that has too many bytes.
pub fn too_long(alloc: Global) -> Result<Vec<Value>, AllocError>
    ensures { IfOk result (λ found. map view found.items ≡ spec.too_long ∷ []) }
{
    let diagnostic = on_whole(alloc, "read-fault", TOO_LONG)?;
    only(alloc, diagnostic)
}

// That a program costs too much for a command without `--fit`.
fn on_cost(alloc: Global, cost: u32) -> Result<Value, AllocError>
    ensures { IfOk result (λ v. view v ≡ spec.on_cost cost) }
{
    let fault = TooLarge(cost);
    let message = format!(in alloc; "{fault} without --fit")?;
    plain(
        alloc,
        Said {
            span: whole_span(),
            severity: Severity::Information,
            code: "program-too-large",
            message: message.as_str(),
        },
    )
}

// Appends that a program costs too much, if it does, and the memory holds it.
fn push_cost(
    alloc: Global,
    cost: Option<u32>,
    findings: &Findings,
    found: &mut Vec<Value>,
) -> Result<(), AllocError>
    ensures { OnOk result (map view found.new.items ≡ map view found.old.items ++ spec.on_costs cost findings.now) }
{
    match (cost, findings) {
        (None, _)
        | (
            Some(_),
            Findings::Refused {
                too_large: Some(_),
                ..
            },
        ) => Ok(()),
        (Some(cost), _) => {
            found.push(on_cost(alloc, cost)?)?;
            Ok(())
        }
    }
}

// What is said of a word that is no option.
fn no_option() -> &'static str
    ensures { result.now ≡ spec.no_option }
{
    NO_OPTION
}

fn on_bad_word(alloc: Global, text: &Lines<'_>, bad: BadWord) -> Result<Value, AllocError>
    ensures { IfOk result (λ v. view v ≡ spec.on_bad_word (spec.texts_of text.now) bad) }
{
    plain(
        alloc,
        Said {
            span: place_span(bad.line, text.line(bad.line), bad.column),
            severity: Severity::Error,
            code: "no-option",
            message: no_option(),
        },
    )
}

/// Appends the place of a word that is no option, if there is one.
pub fn push_bad_word(
    alloc: Global,
    text: &Lines<'_>,
    bad: Option<BadWord>,
    found: &mut Vec<Value>,
) -> Result<(), AllocError>
    ensures { OnOk result (map view found.new.items ≡ map view found.old.items ++ spec.on_bad_words (spec.texts_of text.now) bad) }
{
    match bad {
        Some(bad) => {
            found.push(on_bad_word(alloc, text, bad)?)?;
            Ok(())
        }
        None => Ok(()),
    }
}

/// The diagnostics of a source that may take the memory: those of its findings, and what its cost asks for.
pub fn fitted(alloc: Global, text: &Lines<'_>, seen: &Fitted<'_>) -> Result<Vec<Value>, AllocError>
    ensures { IfOk result (λ found. map view found.items
        ≡ spec.fitted_of text.now.uri.now (spec.texts_of text.now) seen.now.cost seen.now.examined.findings) }
{
    let findings = &seen.examined.findings;
    let mut found = diagnostics(alloc, text, findings)?;
    push_cost(alloc, seen.cost, findings, &mut found)?;
    Ok(found)
}

// The diagnostics of findings, in their order.
fn diagnostics(
    alloc: Global,
    text: &Lines<'_>,
    findings: &Findings,
) -> Result<Vec<Value>, AllocError>
    ensures { IfOk result (λ found. map view found.items
        ≡ spec.diagnostics_of text.now.uri.now (spec.texts_of text.now) findings.now) }
{
    match findings {
        Findings::BadLines(lines) => on_bad_lines(alloc, text, lines),
        Findings::Empty => {
            let kind = SourceErrorKind::Empty;
            let diagnostic = on_whole(alloc, error_code(kind), source_text(kind))?;
            only(alloc, diagnostic)
        }
        Findings::Refused { deep, too_large } => on_program(alloc, text, deep, *too_large),
        Findings::Accepted(warnings) => on_warnings(alloc, text, warnings),
    }
}
