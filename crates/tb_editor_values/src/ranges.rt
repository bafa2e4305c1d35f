//! Spans as ranges and locations.
ghost use Rattle.std.specs.Prelude.{◌≡◌, IfOk};
ghost use Rattle.serde_json.specs.View.{view};
ghost use Rattle.tb_editor_values.specs.Ranges.{location_of, place_of, range_of};

use serde_json::{Value, json};
use std::alloc::{AllocError, Global};
use tb_basic_places::Span;

fn place_value(alloc: Global, line: usize, character: usize) -> Result<Value, AllocError>
    ensures { IfOk result (λ v. view v ≡ place_of line character) }
{
    json!(in alloc; {"character": character, "line": line})
}

/// A span as a range.
pub fn range_value(alloc: Global, span: Span) -> Result<Value, AllocError>
    ensures { IfOk result (λ v. view v ≡ range_of span) }
{
    let end = place_value(alloc, span.line, span.end)?;
    let start = place_value(alloc, span.line, span.start)?;
    json!(in alloc; {"end": end, "start": start})
}

/// A span of a text as a location.
pub fn location_value(alloc: Global, uri: &str, span: Span) -> Result<Value, AllocError>
    ensures { IfOk result (λ v. view v ≡ location_of uri.now span) }
{
    let range = range_value(alloc, span)?;
    json!(in alloc; {"range": range, "uri": uri})
}
