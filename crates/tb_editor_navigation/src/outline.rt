//! The symbols of a source: subroutines and remarks.
ghost use Rattle.std.specs.Prelude.{◌≡◌, ◌+◌, ◌<◌, ◌++◌, ℕ, IfOk, OnOk, map, is_some, string_bytes};
ghost use Rattle.std.specs.BTreeMap as tree;
ghost use Rattle.std.specs.Ordering.{nat_cmp};
ghost use Rattle.serde_json.specs.View.{view};
ghost use Rattle.tb_basic_names.specs.Lines.{does};
ghost use Rattle.tb_basic_names.specs.Sources.{edits_of};
ghost use Rattle.tb_editor_navigation.specs.Symbols as spec;

use crate::remarks::{remark_of, shown};
use serde_json::{Value, json};
use std::alloc::{AllocError, Global};
use std::collections::BTreeMap;
use tb_basic_names::{Line, Source, number_span};
use tb_basic_places::{Span, line_span};
use tb_editor_values::range_value;

/// The number of a line that gives the program its line.
pub fn standing_number(source: &Source<'_>, place: usize, line: &Line<'_>) -> Option<u16>
    ensures { result ≡ spec.standing_number (edits_of source.now.lines.items) place (does line.now.edit) }
{
    let number = line.number()?;
    if source.stands(place, number) {
        Some(number)
    } else {
        None
    }
}

// The number to which a line that stands goes by a constant GOSUB.
fn call(source: &Source<'_>, place: usize, line: &Line<'_>) -> Option<u16>
    ensures { result ≡ spec.call (edits_of source.now.lines.items) place (does line.now.edit) }
{
    let _ = standing_number(source, place, line)?;
    let jump = line.jump()?;
    if jump.returns {
        Some(jump.target)
    } else {
        None
    }
}

/// The numbers to which lines that stand go by a constant GOSUB.
pub fn calls(alloc: Global, source: &Source<'_>) -> Result<BTreeMap<u16, bool>, AllocError>
    ensures { IfOk result (λ found. (n : ℕ) → is_some (tree.get nat_cmp found n) ≡ spec.is_called n source.now.lines.items) }
{
    let mut found = BTreeMap::new(alloc);
    for (i, line) in source.lines.iter().enumerate() {
        if let Some(target) = call(source, i, line) {
            found.insert(target, true)?;
        }
    }
    Ok(found)
}

// What a symbol is called.
fn name_of(alloc: Global, is_called: bool, number: u16, remark: &str) -> Result<String, AllocError>
    ensures { IfOk result (λ name. string_bytes name ≡ spec.name_of is_called number remark.now) }
{
    if !is_called {
        return String::from_str(alloc, remark);
    }
    if remark.is_empty() {
        format!(in alloc; "GOSUB {number}")
    } else {
        format!(in alloc; "GOSUB {number}: {remark}")
    }
}

// The number of the kind of a symbol.
fn kind_of(is_called: bool) -> u32
    ensures { result ≡ spec.kind_of is_called }
{
    if is_called { 12 } else { 15 }
}

fn symbol_value(
    alloc: Global,
    kind: u32,
    name: &str,
    line: Span,
    place: Span,
) -> Result<Value, AllocError>
    ensures { IfOk result (λ v. view v ≡ spec.symbol_value kind name.now line place) }
{
    let range = range_value(alloc, line)?;
    let selection = range_value(alloc, place)?;
    json!(in alloc; {
        "kind": kind,
        "name": name,
        "range": range,
        "selectionRange": selection
    })
}

// Whether a line that stands has no symbol: no GOSUB goes there, and it has no remark.
fn is_hidden(is_called: bool, remark: &str) -> bool
    ensures { result ≡ spec.is_hidden is_called remark.now }
{
    match remark.as_bytes() {
        [] => !is_called,
        _ => false,
    }
}

// What the symbol of a line is made of: whether a GOSUB goes there, the line's number and its remark.
#[derive(Clone, Copy, Drop)]
struct About<'a> {
    is_called: bool,
    number: u16,
    remark: &'a str,
}

// Appends the symbol of a line, by where its number is.
fn push_placed(
    alloc: Global,
    about: About<'_>,
    line: Span,
    place: Option<Span>,
    found: &mut Vec<Value>,
) -> Result<(), AllocError>
    ensures { OnOk result (map view found.new.items ≡ map view found.old.items
        ++ spec.placed about.entry.is_called about.entry.number about.entry.remark.now line place) }
{
    let Some(place) = place else {
        return Ok(());
    };
    let name = name_of(alloc, about.is_called, about.number, about.remark)?;
    let kind = kind_of(about.is_called);
    found.push(symbol_value(alloc, kind, name.as_str(), line, place)?)?;
    Ok(())
}

// Appends the symbol of a line of the file, which is counted from 1, if it has one.
fn push_symbol(
    alloc: Global,
    is_called: bool,
    number: u16,
    file_line: usize,
    line: &Line<'_>,
    found: &mut Vec<Value>,
) -> Result<(), AllocError>
    ensures { OnOk result (map view found.new.items ≡ map view found.old.items ++ spec.symbol_on is_called number file_line line.now) }
{
    let remark = shown(remark_of(line));
    if is_hidden(is_called, remark) {
        return Ok(());
    }
    let about = About {
        is_called,
        number,
        remark,
    };
    let span = line_span(file_line, line.text);
    push_placed(alloc, about, span, number_span(file_line, line), found)
}

// Appends the symbol of the line at a place, if it stands and has one.
fn push_at(
    alloc: Global,
    source: &Source<'_>,
    called: &BTreeMap<u16, bool>,
    place: usize,
    line: &Line<'_>,
    found: &mut Vec<Value>,
) -> Result<(), AllocError>
    requires fits { place + 1 < 18446744073709551616 }
    requires called { (n : ℕ) → is_some (tree.get nat_cmp called.now n) ≡ spec.is_called n source.now.lines.items }
    ensures { OnOk result (map view found.new.items ≡ map view found.old.items ++ spec.symbol_at source.now.lines.items place (place + 1) line.now) }
{
    match standing_number(source, place, line) {
        Some(number) => {
            let is_called = called.get(&number).is_some();
            push_symbol(alloc, is_called, number, place + 1, line, found)
        }
        None => Ok(()),
    }
}

/// The symbols of a source, by place: lines that stand and to which a GOSUB goes, or that have a remark.
pub fn symbols(alloc: Global, source: &Source<'_>) -> Result<Value, AllocError>
    ensures { IfOk result (λ v. view v ≡ spec.symbols source.now.lines.items) }
{
    let called = calls(alloc, source)?;
    let mut found = Vec::new(alloc);
    for (i, line) in source.lines.iter().enumerate() {
        push_at(alloc, source, &called, i, line, &mut found)?;
    }
    Ok(Value::Array(found))
}
