//! Edits of a text as JSON values.
ghost use Rattle.std.specs.Prelude.{◌≡◌, IfOk, map};
ghost use Rattle.serde_json.specs.View.{view};
ghost use Rattle.tb_editor_values.specs.Edits as spec;

use crate::range_value;
use serde_json::{Value, json};
use std::alloc::{AllocError, Global};
use tb_basic_places::Span;

/// An edit that writes a text in place of a span.
pub fn edit_value(alloc: Global, span: Span, text: &str) -> Result<Value, AllocError>
    ensures { IfOk result (λ v. view v ≡ spec.edit_value span text.now) }
{
    let range = range_value(alloc, span)?;
    json!(in alloc; {"newText": text, "range": range})
}

fn line_start(alloc: Global, line: usize) -> Result<Value, AllocError>
    ensures { IfOk result (λ v. view v ≡ spec.line_start line) }
{
    json!(in alloc; {"character": 0, "line": line})
}

/// An edit that writes a text in place of whole lines: from the beginning of one to that of another, both from 0.
pub fn lines_edit(alloc: Global, from: usize, to: usize, text: &str) -> Result<Value, AllocError>
    ensures { IfOk result (λ v. view v ≡ spec.lines_edit from to text.now) }
{
    let end = line_start(alloc, to)?;
    let start = line_start(alloc, from)?;
    json!(in alloc; {"newText": text, "range": {"end": end, "start": start}})
}

/// The edits of a text, as changes of what is open.
pub fn changes_value(alloc: Global, uri: &str, edits: Vec<Value>) -> Result<Value, AllocError>
    ensures { IfOk result (λ v. view v ≡ spec.changes uri.now (map view edits.items)) }
{
    let edits = Value::Array(edits);
    json!(in alloc; {"changes": {(uri): edits}})
}
