//! RND with an even bound on a line, and what is better in its place.
ghost use Rattle.std.specs.Prelude.{◌≡◌, ◌+◌, ◌<◌, ◌≤◌, ◌^◌, ◌∷◌, ◌++◌, [], IfOk, OnOk, map, option_map, string_bytes};
ghost use Rattle.serde_json.specs.View.{view};
ghost use Rattle.tb_basic_names.specs.Lines.{does};
ghost use Rattle.tb_basic_places.specs.Spans.{between};
ghost use Rattle.tb_editor_values.specs.Edits.{edit_value};
ghost use Rattle.tb_lsp_fixes.specs.Bounds as spec;
ghost use Rattle.tb_lsp_fixes.specs.Writing.{seen};

use crate::fixes::Fix;
use serde_json::Value;
use std::alloc::{AllocError, Global};
use tb_basic_meaning::statement_bounds;
use tb_basic_names::Line;
use tb_basic_places::between;
use tb_editor_values::edit_value;
use tb_engine_check::times_of;
use tb_parser::{Token, TokenKind};

// The bounds of RND in a line, in the order of the words.
fn bounds_of(alloc: Global, line: &Line<'_>) -> Result<Vec<Option<u16>>, AllocError>
    ensures { IfOk result (λ bounds. bounds.items ≡ spec.bounds_in (does line.now.edit)) }
{
    match line.statement() {
        Some(statement) => statement_bounds(alloc, statement),
        None => Ok(Vec::new(alloc)),
    }
}

// How many parentheses are open after a token.
fn depth_after(depth: usize, kind: TokenKind) -> usize
    requires { depth < 2 ^ 63 }
    ensures value { result ≡ spec.depth_after depth kind }
    ensures few { result ≤ depth + 1 }
{
    match kind {
        TokenKind::Open => depth + 1,
        TokenKind::Close => depth.saturating_sub(1),
        _ => depth,
    }
}

// The place in the line behind the parenthesis that closes the first one of these tokens.
fn closing(tokens: &[Token<'_>]) -> Option<usize>
    ensures { result ≡ spec.closing 0 tokens.now }
{
    let mut depth = 0;
    for token in tokens {
        if depth == 1 && is_close(token.kind) {
            return Some(token.column);
        }
        depth = depth_after(depth, token.kind);
    }
    None
}

fn is_close(kind: TokenKind) -> bool
    ensures { result ≡ spec.is_close kind }
{
    matches!(kind, TokenKind::Close)
}

fn is_random(kind: TokenKind) -> bool
    ensures { result ≡ spec.is_random kind }
{
    matches!(kind, TokenKind::Random)
}

// Whether a bound that was found is this one.
fn is_bound(found: Option<&Option<u16>>, bound: u16) -> bool
    ensures { result ≡ spec.is_bound (option_map (λ b. b.now) found.entry) bound }
{
    match found {
        Some(Some(found)) => *found == bound,
        _ => false,
    }
}

// Whether a token is RND with the bound that is sought, after so many others of the line.
fn is_sought(bounds: &[Option<u16>], count: usize, bound: u16, kind: TokenKind) -> bool
    ensures { result ≡ spec.is_sought bounds.now count bound kind }
{
    is_random(kind) && is_bound(bounds.get(count), bound)
}

// How many RND there are up to a token.
fn count_after(count: usize, kind: TokenKind) -> usize
    requires { count < 2 ^ 63 }
    ensures value { result ≡ spec.count_after count kind }
    ensures few { result ≤ count + 1 }
{
    if is_random(kind) { count + 1 } else { count }
}

// A line of the file, which is counted from 1, and what is written in it.
#[derive(Clone, Copy, Drop)]
struct Mending<'a> {
    file_line: usize,
    text: &'a [u8],
    better: &'a str,
}

fn push_edit(
    alloc: Global,
    mending: &Mending<'_>,
    start: usize,
    end: usize,
    edits: &mut Vec<Value>,
) -> Result<(), AllocError>
    ensures { OnOk result (map view edits.new.items ≡ map view edits.old.items
        ++ edit_value (between mending.now.file_line mending.now.text.now start end) mending.now.better.now ∷ []) }
{
    let span = between(mending.file_line, mending.text, start, end);
    edits.push(edit_value(alloc, span, mending.better)?)?;
    Ok(())
}

// Appends the edit from one place to another, if there is one.
fn push_to(
    alloc: Global,
    mending: &Mending<'_>,
    start: usize,
    end: Option<usize>,
    edits: &mut Vec<Value>,
) -> Result<(), AllocError>
    ensures { OnOk result (map view edits.new.items ≡ map view edits.old.items
        ++ spec.edit_to mending.now.file_line mending.now.text.now start end mending.now.better.now) }
{
    match end {
        Some(end) => push_edit(alloc, mending, start, end, edits),
        None => Ok(()),
    }
}

// Appends the edit in place of a token up to the parenthesis that closes the first one of those behind it, if the token
// is sought.
fn push_token(
    alloc: Global,
    mending: &Mending<'_>,
    is_sought: bool,
    token: &Token<'_>,
    behind: &[Token<'_>],
    edits: &mut Vec<Value>,
) -> Result<(), AllocError>
    ensures { OnOk result (map view edits.new.items ≡ map view edits.old.items
        ++ spec.edit_at is_sought mending.now.file_line mending.now.text.now token.now behind.now mending.now.better.now) }
{
    if !is_sought {
        return Ok(());
    }
    let start = token.column.saturating_sub(1);
    push_to(alloc, mending, start, closing(behind), edits)
}

// The edits that write a text in place of each RND with a bound, in a line with these bounds.
fn edits_of(
    alloc: Global,
    mending: &Mending<'_>,
    tokens: &[Token<'_>],
    bounds: &[Option<u16>],
    bound: u16,
) -> Result<Vec<Value>, AllocError>
    ensures { IfOk result (λ edits. map view edits.items
        ≡ spec.edits_from mending.now.file_line mending.now.text.now bounds.now bound 0 mending.now.better.now tokens.now) }
{
    let mut edits = Vec::new(alloc);
    let mut count = 0;
    for (i, token) in tokens.iter().enumerate() {
        let sought = is_sought(bounds, count, bound, token.kind);
        push_token(alloc, mending, sought, token, &tokens[i + 1..], &mut edits)?;
        count = count_after(count, token.kind);
    }
    Ok(edits)
}

// What is better than RND with an even bound.
fn better_than(alloc: Global, bound: u16) -> Result<String, AllocError>
    ensures { IfOk result (λ text. string_bytes text ≡ spec.better_than bound) }
{
    let times = times_of(bound);
    let larger = times * u32::from(bound);
    format!(in alloc; "(RND({larger})/{times})")
}

/// What is better than RND with a bound, in place of each RND with that bound on a line of the file that is counted
/// from 1.
pub fn better_bound(
    alloc: Global,
    file_line: usize,
    line: Option<&Line<'_>>,
    bound: u16,
) -> Result<Option<Fix>, AllocError>
    ensures { IfOk result (λ fix. option_map seen fix ≡ spec.better_bound file_line (option_map (λ l. l.now) line.entry) bound) }
{
    let Some(line) = line else {
        return Ok(None);
    };
    let better = better_than(alloc, bound)?;
    let better = better.as_str();
    let bounds = bounds_of(alloc, line)?;
    let mending = Mending {
        file_line,
        text: line.text,
        better,
    };
    let edits = edits_of(alloc, &mending, &line.tokens, &bounds, bound)?;
    let title = format!(in alloc; "Write {better}")?;
    Ok(Some(Fix { title, edits }))
}
