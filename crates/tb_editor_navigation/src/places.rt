//! Where what a place names is named too.
ghost use Rattle.std.specs.Prelude.{◌≡◌, IfOk};
ghost use Rattle.serde_json.specs.View.{view};
ghost use Rattle.tb_basic_names.specs.Sources.{edits_of};
ghost use Rattle.tb_editor_navigation.specs.Places as spec;

use crate::values::{highlight_values, location_values, optional_location};
use serde_json::Value;
use std::alloc::{AllocError, Global};
use tb_basic_names::{Name, Occurrence, Source, name_at, number_span, occurrences};
use tb_basic_places::Span;

/// The number that begins the line which gives the program its line of a number.
pub fn standing_span(source: &Source<'_>, number: u16) -> Option<Span>
    ensures { result ≡ spec.standing_span number source.now.lines.items }
{
    let place = source.standing(number)?;
    let line = source.lines.get(place)?;
    number_span(place + 1, line)
}

// The number of the line that a place names, where that stands.
fn defined(source: &Source<'_>, line: usize, character: usize) -> Option<Span>
    ensures { result ≡ spec.defined line character source.now.lines.items }
{
    match name_at(source, line, character)? {
        Name::Line(number) => standing_span(source, number),
        Name::Variable(_) => None,
    }
}

/// Where the line is that a place names: the number that begins it.
pub fn definition(
    alloc: Global,
    uri: &str,
    source: &Source<'_>,
    line: usize,
    character: usize,
) -> Result<Value, AllocError>
    ensures { IfOk result (λ v. view v ≡ spec.definition uri.now line character source.now.lines.items) }
{
    optional_location(alloc, uri, defined(source, line, character))
}

// Where what a place names is named.
fn named(
    alloc: Global,
    source: &Source<'_>,
    line: usize,
    character: usize,
    with_declaration: bool,
) -> Result<Vec<Occurrence>, AllocError>
    ensures { IfOk result (λ found. found.items ≡ spec.named line character with_declaration source.now.lines.items) }
{
    match name_at(source, line, character) {
        Some(name) => occurrences(alloc, source, name, with_declaration),
        None => Ok(Vec::new(alloc)),
    }
}

/// Where what a place names is named.
pub fn references(
    alloc: Global,
    uri: &str,
    source: &Source<'_>,
    line: usize,
    character: usize,
    with_declaration: bool,
) -> Result<Value, AllocError>
    ensures { IfOk result (λ v. view v ≡ spec.references uri.now line character with_declaration source.now.lines.items) }
{
    let found = named(alloc, source, line, character, with_declaration)?;
    location_values(alloc, uri, &found)
}

/// Where what a place names is named, and how.
pub fn highlights(
    alloc: Global,
    source: &Source<'_>,
    line: usize,
    character: usize,
) -> Result<Value, AllocError>
    ensures { IfOk result (λ v. view v ≡ spec.highlights line character source.now.lines.items) }
{
    let found = named(alloc, source, line, character, true)?;
    highlight_values(alloc, &found)
}
