//! Lines that can be folded: subroutines, and remarks one after the other.
ghost use Rattle.std.specs.Prelude.{◌≡◌, ◌≤◌, ◌++◌, ℕ, IfOk, OnOk, drop, is_some, length, map};
ghost use Rattle.std.specs.BTreeMap as tree;
ghost use Rattle.std.specs.Ordering.{nat_cmp};
ghost use Rattle.serde_json.specs.View.{view};
ghost use Rattle.tb_basic_names.specs.Lines.{does};
ghost use Rattle.tb_basic_names.specs.Sources.{edits_of};
ghost use Rattle.tb_editor_navigation.specs.Symbols.{is_called};
ghost use Rattle.tb_editor_navigation.specs.Folds as spec;

use crate::{calls, is_remark, standing_number};
use serde_json::{Value, json};
use std::alloc::{AllocError, Global};
use std::collections::BTreeMap;
use tb_basic_names::{Line, Source};
use tb_basic_syntax::Statement;

// Lines of the file, from 0, that fold.
fn fold_value(alloc: Global, kind: &str, first: usize, last: usize) -> Result<Value, AllocError>
    ensures { IfOk result (λ v. view v ≡ spec.fold_value kind.now first last) }
{
    json!(in alloc; {"endLine": last, "kind": kind, "startLine": first})
}

fn push_fold(
    alloc: Global,
    kind: &str,
    first: usize,
    last: usize,
    found: &mut Vec<Value>,
) -> Result<(), AllocError>
    ensures { OnOk result (map view found.new.items ≡ map view found.old.items ++ spec.fold kind.now first last) }
{
    found.push(fold_value(alloc, kind, first, last)?)?;
    Ok(())
}

// Whether a line's statement is RETURN.
fn is_return(line: &Line<'_>) -> bool
    ensures { result ≡ spec.is_return (does line.now.edit) }
{
    matches!(line.statement(), Some(Statement::Return))
}

// Whether the line at a place stands and is RETURN.
fn returns(source: &Source<'_>, place: usize, line: &Line<'_>) -> bool
    ensures { result ≡ spec.returns (edits_of source.now.lines.items) place (does line.now.edit) }
{
    match standing_number(source, place, line) {
        Some(_) => is_return(line),
        None => false,
    }
}

// The places of the lines that stand and are RETURN.
fn returns_of(alloc: Global, source: &Source<'_>) -> Result<Vec<usize>, AllocError>
    ensures { IfOk result (λ places. places.items ≡ spec.returns_of source.now.lines.items) }
{
    let mut places = Vec::new(alloc);
    for (i, line) in source.lines.iter().enumerate() {
        if returns(source, i, line) {
            places.push(i)?;
        }
    }
    Ok(places)
}

// The first of these places behind one.
fn first_behind(places: &[usize], place: usize) -> Option<usize>
    ensures { result ≡ spec.first_behind place places.now }
{
    for other in places {
        if place < *other {
            return Some(*other);
        }
    }
    None
}

// Appends the fold of a subroutine that begins at a place, by where the lines are that may end it.
fn push_subroutine(
    alloc: Global,
    returns: &[usize],
    place: usize,
    found: &mut Vec<Value>,
) -> Result<(), AllocError>
    ensures { OnOk result (map view found.new.items ≡ map view found.old.items ++ spec.subroutine place (spec.first_behind place returns.now)) }
{
    match first_behind(returns, place) {
        Some(last) => push_fold(alloc, "region", place, last, found),
        None => Ok(()),
    }
}

// Where subroutines are: the numbers to which a GOSUB goes, and the places that may end one.
#[derive(Drop)]
struct Subroutines {
    called: BTreeMap<u16, bool>,
    returns: Vec<usize>,
}

// Appends the fold that begins at the line at a place, if a GOSUB goes there.
fn push_called(
    alloc: Global,
    source: &Source<'_>,
    subroutines: &Subroutines,
    place: usize,
    line: &Line<'_>,
    found: &mut Vec<Value>,
) -> Result<(), AllocError>
    requires { (n : ℕ) → is_some (tree.get nat_cmp subroutines.now.called n) ≡ is_called n source.now.lines.items }
    ensures { OnOk result (map view found.new.items ≡ map view found.old.items
        ++ spec.called_at source.now.lines.items subroutines.now.returns.items place line.now) }
{
    match standing_number(source, place, line) {
        Some(number) if subroutines.called.get(&number).is_some() => {
            push_subroutine(alloc, &subroutines.returns, place, found)
        }
        _ => Ok(()),
    }
}

// How many lines at the front are remarks.
fn remarks(lines: &[Line<'_>]) -> usize
    ensures count { result ≡ spec.remarks lines.now }
    ensures within { result ≤ length lines.now }
{
    for (i, line) in lines.iter().enumerate() {
        if !is_remark(line) {
            return i;
        }
    }
    lines.len()
}

// Appends the fold of the remarks that begin at a place, where the line before is none.
fn push_remarks(
    alloc: Global,
    lines: &[Line<'_>],
    place: usize,
    is_behind: bool,
    found: &mut Vec<Value>,
) -> Result<(), AllocError>
    requires { place ≤ length lines.now }
    ensures { OnOk result (map view found.new.items ≡ map view found.old.items
        ++ spec.remarks_at is_behind place (spec.remarks (drop place lines.now))) }
{
    let count = remarks(&lines[place..]);
    if is_behind || count < 2 {
        return Ok(());
    }
    push_fold(alloc, "comment", place, place + (count - 1), found)
}

/// The lines of a source that can be folded, by where they begin: from a line to which a GOSUB goes to the first line
/// behind it that stands and is RETURN; two or more remarks, one directly after the other.
pub fn folds(alloc: Global, source: &Source<'_>) -> Result<Value, AllocError>
    ensures { IfOk result (λ v. view v ≡ spec.folds source.now.lines.items) }
{
    let subroutines = Subroutines {
        called: calls(alloc, source)?,
        returns: returns_of(alloc, source)?,
    };
    let mut found = Vec::new(alloc);
    let mut is_behind = false;
    for (i, line) in source.lines.iter().enumerate() {
        push_called(alloc, source, &subroutines, i, line, &mut found)?;
        push_remarks(alloc, &source.lines, i, is_behind, &mut found)?;
        is_behind = is_remark(line);
    }
    Ok(Value::Array(found))
}
