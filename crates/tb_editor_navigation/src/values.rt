//! What is found, as JSON values.
ghost use Rattle.std.specs.Prelude.{◌≡◌, ◌∷◌, ◌++◌, [], IfOk, OnOk, map};
ghost use Rattle.serde_json.specs.View.{view};
ghost use Rattle.tb_editor_values.specs.Ranges.{location_of};
ghost use Rattle.tb_editor_navigation.specs.Values as spec;

use serde_json::{Value, json};
use std::alloc::{AllocError, Global};
use tb_basic_names::{Occurrence, Role};
use tb_basic_places::Span;
use tb_editor_values::{location_value, range_value};

/// A location, or null.
pub fn optional_location(alloc: Global, uri: &str, span: Option<Span>) -> Result<Value, AllocError>
    ensures { IfOk result (λ v. view v ≡ spec.optional_location uri.now span) }
{
    match span {
        Some(span) => location_value(alloc, uri, span),
        None => Ok(Value::Null),
    }
}

fn push_location(
    alloc: Global,
    uri: &str,
    span: Span,
    values: &mut Vec<Value>,
) -> Result<(), AllocError>
    ensures { OnOk result (map view values.new.items ≡ map view values.old.items ++ location_of uri.now span ∷ []) }
{
    values.push(location_value(alloc, uri, span)?)?;
    Ok(())
}

/// Where something is named, as locations.
pub fn location_values(alloc: Global, uri: &str, found: &[Occurrence]) -> Result<Value, AllocError>
    ensures { IfOk result (λ v. view v ≡ spec.location_values uri.now found.now) }
{
    let mut values = Vec::new(alloc);
    for occurrence in found {
        push_location(alloc, uri, occurrence.span, &mut values)?;
    }
    Ok(Value::Array(values))
}

// The number of the kind of a highlight.
fn kind_of(role: Role) -> u32
    ensures { result ≡ spec.kind_of role }
{
    match role {
        Role::Line => 1,
        Role::Read => 2,
        Role::Set => 3,
    }
}

fn highlight_value(alloc: Global, occurrence: Occurrence) -> Result<Value, AllocError>
    ensures { IfOk result (λ v. view v ≡ spec.highlight_value occurrence) }
{
    let kind = kind_of(occurrence.role);
    let range = range_value(alloc, occurrence.span)?;
    json!(in alloc; {"kind": kind, "range": range})
}

fn push_highlight(
    alloc: Global,
    occurrence: Occurrence,
    values: &mut Vec<Value>,
) -> Result<(), AllocError>
    ensures { OnOk result (map view values.new.items ≡ map view values.old.items ++ spec.highlight_value occurrence ∷ []) }
{
    values.push(highlight_value(alloc, occurrence)?)?;
    Ok(())
}

/// Where something is named, as highlights.
pub fn highlight_values(alloc: Global, found: &[Occurrence]) -> Result<Value, AllocError>
    ensures { IfOk result (λ v. view v ≡ spec.highlight_values found.now) }
{
    let mut values = Vec::new(alloc);
    for occurrence in found {
        push_highlight(alloc, *occurrence, &mut values)?;
    }
    Ok(Value::Array(values))
}
