//! The fixes of the findings on lines.
ghost use Rattle.std.specs.Prelude.{◌≡◌, ◌++◌, IfOk, OnOk, map, option_map};
ghost use Rattle.serde_json.specs.View.{view};
ghost use Rattle.tb_lsp_diagnostics.specs.Diagnostics.{on_warning, texts_of};
ghost use Rattle.tb_lsp_fixes.specs.Fixes.{fix_of_warning};
ghost use Rattle.tb_lsp_fixes.specs.Writing.{seen};
ghost use Rattle.tb_lsp_fixes.specs.Actions as spec;

use crate::fixes::{Fix, fix_of_bad_line, fix_of_warning};
use serde_json::{Value, json};
use std::alloc::{AllocError, Global};
use tb_basic_names::Source;
use tb_compiled::Compile;
use tb_editor_values::changes_value;
use tb_engine_findings::{BadLine, Findings, LineWarning, examine_to_fit};
use tb_lsp_diagnostics::{Lines, on_bad_line, on_warning};

/// Lines of a text, from 0.
#[derive(Clone, Copy, Drop)]
pub struct LineRange {
    pub first: usize,
    pub last: usize,
}

impl LineRange {
    // Whether a line, which is counted from 1, is one of them.
    fn has(self, line: usize) -> bool
        ensures { result ≡ spec.has self line }
    {
        let line = line.saturating_sub(1);
        self.first <= line && line <= self.last
    }
}

// A fix with its finding.
fn action_value(
    alloc: Global,
    uri: &str,
    diagnostic: Value,
    title: &str,
    edits: Vec<Value>,
) -> Result<Value, AllocError>
    ensures { IfOk result (λ v. view v ≡ spec.action_value uri.now (view diagnostic) title.now (map view edits.items)) }
{
    let changes = changes_value(alloc, uri, edits)?;
    json!(in alloc; {
        "diagnostics": [diagnostic],
        "edit": changes,
        "isPreferred": true,
        "kind": "quickfix",
        "title": title
    })
}

// Appends a fix with its finding, if there is one.
fn push_fix(
    alloc: Global,
    uri: &str,
    diagnostic: Value,
    fix: Option<Fix>,
    found: &mut Vec<Value>,
) -> Result<(), AllocError>
    ensures { OnOk result (map view found.new.items ≡ map view found.old.items ++ spec.offered uri.now (view diagnostic) (option_map seen fix)) }
{
    match fix {
        Some(Fix { title, edits }) => {
            found.push(action_value(alloc, uri, diagnostic, title.as_str(), edits)?)?;
            Ok(())
        }
        None => Ok(()),
    }
}

fn push_of_bad_line(
    alloc: Global,
    text: &Lines<'_>,
    range: LineRange,
    bad: &BadLine,
    found: &mut Vec<Value>,
) -> Result<(), AllocError>
    ensures { OnOk result (map view found.new.items ≡ map view found.old.items ++ spec.of_bad_line text.now.uri.now (texts_of text.now) range bad.now) }
{
    if !range.has(bad.error.line) {
        return Ok(());
    }
    let fix = fix_of_bad_line(alloc, text, bad)?;
    push_fix(alloc, text.uri, on_bad_line(alloc, text, bad)?, fix, found)
}

fn of_bad_lines(
    alloc: Global,
    text: &Lines<'_>,
    range: LineRange,
    lines: &[BadLine],
) -> Result<Vec<Value>, AllocError>
    ensures { IfOk result (λ found. map view found.items ≡ spec.of_bad_lines text.now.uri.now (texts_of text.now) range lines.now) }
{
    let mut found = Vec::new(alloc);
    for line in lines {
        push_of_bad_line(alloc, text, range, line, &mut found)?;
    }
    Ok(found)
}

fn push_of_warning(
    alloc: Global,
    text: &Lines<'_>,
    source: &Source<'_>,
    is_ended: bool,
    warning: &LineWarning,
    found: &mut Vec<Value>,
) -> Result<(), AllocError>
    ensures { OnOk result (map view found.new.items ≡ map view found.old.items
        ++ spec.offered text.now.uri.now (on_warning text.now.uri.now (texts_of text.now) warning.now)
        (fix_of_warning (texts_of text.now) source.now.lines.items is_ended warning.now)) }
{
    let fix = fix_of_warning(alloc, text, source, is_ended, warning)?;
    push_fix(
        alloc,
        text.uri,
        on_warning(alloc, text, warning)?,
        fix,
        found,
    )
}

fn of_warnings(
    alloc: Global,
    text: &Lines<'_>,
    source: &Source<'_>,
    is_ended: bool,
    range: LineRange,
    warnings: &[LineWarning],
) -> Result<Vec<Value>, AllocError>
    ensures { IfOk result (λ found. map view found.items
        ≡ spec.of_warnings text.now.uri.now (texts_of text.now) source.now.lines.items is_ended range warnings.now) }
{
    let mut found = Vec::new(alloc);
    for warning in warnings {
        if range.has(warning.line) {
            push_of_warning(alloc, text, source, is_ended, warning, &mut found)?;
        }
    }
    Ok(found)
}

// The fixes of findings on lines.
fn of_findings(
    alloc: Global,
    text: &Lines<'_>,
    source: &Source<'_>,
    is_ended: bool,
    range: LineRange,
    findings: &Findings,
) -> Result<Vec<Value>, AllocError>
    ensures { IfOk result (λ found. map view found.items
        ≡ spec.of_findings text.now.uri.now (texts_of text.now) source.now.lines.items is_ended range findings.now) }
{
    match findings {
        Findings::BadLines(lines) => of_bad_lines(alloc, text, range, lines),
        Findings::Accepted(warnings) => of_warnings(alloc, text, source, is_ended, range, warnings),
        Findings::Empty | Findings::Refused { .. } => Ok(Vec::new(alloc)),
    }
}

// Whether a source ends its last line.
fn ends_its_line(source: &[u8]) -> bool
    ensures { result ≡ spec.ends_its_line source.now }
{
    match source.last() {
        Some(byte) => matches!(*byte, b'\n' | b'\r'),
        None => false,
    }
}

/// The fixes of what `check` finds on these lines of a text, in its order, by the lines that it is read as.
pub fn actions<K: Compile>(
    compiler: &K,
    alloc: Global,
    uri: &str,
    text: &[u8],
    source: &Source<'_>,
    range: LineRange,
) -> Result<Value, AllocError>
    ensures { IfOk result (λ v. spec.AreActions K.own source.now.notation uri.now text.now source.now.lines.items range (view v)) }
{
    let examined = examine_to_fit(compiler, alloc, text, source.notation)?.examined;
    let lines = Lines {
        uri,
        lines: examined.lines.as_slice(),
    };
    let is_ended = ends_its_line(text);
    let found = of_findings(alloc, &lines, source, is_ended, range, &examined.findings)?;
    Ok(Value::Array(found))
}
