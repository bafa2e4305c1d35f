//! What is shown at a place.
ghost use Rattle.std.specs.Prelude.{◌≡◌, ◌+◌, ◌<◌, ◌++◌, IfOk, OnOk, string_bytes};
ghost use Rattle.serde_json.specs.View.{view};
ghost use Rattle.tb_basic_names.specs.Lines.{does};
ghost use Rattle.tb_lsp_hover.specs.About.{about};
ghost use Rattle.tb_lsp_hover.specs.Shown as spec;

use crate::numbers::line_numbers;
use crate::texts::{missing_text, number_text, own_text, variable_text};
use crate::tokens::{About, about_token};
use crate::words::help_of;
use serde_json::{Value, json};
use std::alloc::{AllocError, Global};
use tb_basic_names::{Line, Source, Variable, touched_at, variables_of};
use tb_basic_places::{Span, piece};
use tb_compiled::Compile;
use tb_editor_navigation::{shown, standing_number};
use tb_editor_values::range_value;

// Whether something is so, or not, as it is wanted.
fn is_so(is: bool, wanted: bool) -> bool
    ensures { result ≡ spec.is_so is wanted }
{
    if wanted { is } else { !is }
}

// The variable of a letter, where it gets a value, or where it is read.
#[derive(Clone, Copy, Drop)]
struct Use {
    name: u8,
    gets: bool,
}

// Whether one of these variables is used so.
fn has_variable(variables: &[Variable], so: Use) -> bool
    ensures { result ≡ spec.has_variable so.name so.gets variables.now }
{
    for variable in variables {
        if variable.name == so.name && is_so(variable.gets, so.gets) {
            return true;
        }
    }
    false
}

// Appends the number of a line that stands, where it uses a variable so.
fn push_using(
    alloc: Global,
    source: &Source<'_>,
    place: usize,
    line: &Line<'_>,
    so: Use,
    found: &mut Vec<u16>,
) -> Result<(), AllocError>
    ensures { OnOk result (found.new.items ≡ found.old.items ++ spec.using_at source.now.lines.items so.name so.gets place line.now) }
{
    let Some(number) = standing_number(source, place, line) else {
        return Ok(());
    };
    let variables = variables_of(alloc, &line.tokens)?;
    if has_variable(&variables, so) {
        found.push(number)?;
    }
    Ok(())
}

// The lines that stand and use a variable so, by place.
fn using(alloc: Global, source: &Source<'_>, so: Use) -> Result<Vec<u16>, AllocError>
    ensures { IfOk result (λ found. found.items ≡ spec.using so.name so.gets source.now.lines.items) }
{
    let mut found = Vec::new(alloc);
    for (i, line) in source.lines.iter().enumerate() {
        push_using(alloc, source, i, line, so, &mut found)?;
    }
    Ok(found)
}

// What is shown at the number that begins the line at a place.
fn own<K: Compile>(
    compiler: &K,
    alloc: Global,
    text: &[u8],
    source: &Source<'_>,
    place: usize,
    number: u16,
) -> Result<String, AllocError>
    ensures { IfOk result (λ shown. spec.ShowsOwn K.own source.now.notation text.now source.now.lines.items place number (string_bytes shown)) }
{
    if source.stands(place, number) {
        own_text(
            alloc,
            number,
            line_numbers(compiler, alloc, source.notation, text, number)?,
        )
    } else {
        own_text(alloc, number, None)
    }
}

// What is shown of the target of a jump: the line as it was written.
fn target_text(alloc: Global, source: &Source<'_>, target: u16) -> Result<String, AllocError>
    ensures { IfOk result (λ text. string_bytes text ≡ spec.target_text source.now.lines.items target) }
{
    let Some(place) = source.standing(target) else {
        return missing_text(alloc, target);
    };
    match source.lines.get(place) {
        Some(line) => String::from_str(alloc, shown(line.text)),
        None => missing_text(alloc, target),
    }
}

// What is shown at a variable.
fn variable(alloc: Global, source: &Source<'_>, name: u8) -> Result<String, AllocError>
    ensures { IfOk result (λ text. string_bytes text ≡ spec.variable source.now.lines.items name) }
{
    let set = using(alloc, source, Use { name, gets: true })?;
    let read = using(alloc, source, Use { name, gets: false })?;
    variable_text(alloc, name, &set, &read)
}

// What is shown of something in the line at a place.
fn text_of<K: Compile>(
    compiler: &K,
    alloc: Global,
    text: &[u8],
    source: &Source<'_>,
    place: usize,
    about: About,
) -> Result<String, AllocError>
    ensures { IfOk result (λ shown. spec.Shows K.own source.now.notation text.now source.now.lines.items place about (string_bytes shown)) }
{
    match about {
        About::Own(number) => own(compiler, alloc, text, source, place, number),
        About::Target(target) => target_text(alloc, source, target),
        About::Number(number) => number_text(alloc, number),
        About::Variable(name) => variable(alloc, source, name),
        About::Word(kind) => String::from_str(alloc, help_of(kind)),
    }
}

// Where a token of a line of the file is, which is counted from 1.
fn token_span(file_line: usize, line: &Line<'_>, index: usize) -> Option<Span>
    ensures { result ≡ spec.token_span file_line line.now index }
{
    let token = line.tokens.get(index)?;
    let start = token.column.saturating_sub(1);
    Some(piece(file_line, line.text, start, token.text.len()))
}

// A text that is shown at a span.
fn shown_value(alloc: Global, span: Option<Span>, text: &str) -> Result<Value, AllocError>
    ensures { IfOk result (λ v. view v ≡ spec.shown_value span text.now) }
{
    let Some(span) = span else {
        return Ok(Value::Null);
    };
    let range = range_value(alloc, span)?;
    json!(in alloc; {
        "contents": {"kind": "plaintext", "value": text},
        "range": range
    })
}

// A token of a line, by the line's place and its own.
#[derive(Clone, Copy, Drop)]
struct Touched<'a> {
    place: usize,
    line: &'a Line<'a>,
    index: usize,
}

// What is shown at a token.
fn at_token<K: Compile>(
    compiler: &K,
    alloc: Global,
    text: &[u8],
    source: &Source<'_>,
    token: Touched<'_>,
) -> Result<Value, AllocError>
    requires { token.place + 1 < 18446744073709551616 }
    ensures { IfOk result (λ v. spec.ShowsToken K.own source.now.notation text.now source.now.lines.items token.entry.place token.entry.line.now token.entry.index (about (does token.entry.line.now.edit) token.entry.line.now.tokens.items token.entry.index) (view v)) }
{
    let Touched { place, line, index } = token;
    match about_token(line, index) {
        Some(about) => {
            let shown = text_of(compiler, alloc, text, source, place, about)?;
            let span = token_span(place + 1, line, index);
            shown_value(alloc, span, shown.as_str())
        }
        None => Ok(Value::Null),
    }
}

/// What is shown at a place of a text, whose lines these are: line and column are counted from 0, the column in UTF-16.
pub fn hover<K: Compile>(
    compiler: &K,
    alloc: Global,
    text: &[u8],
    source: &Source<'_>,
    line: usize,
    character: usize,
) -> Result<Value, AllocError>
    ensures { IfOk result (λ v. spec.Hovers K.own source.now.notation text.now source.now.lines.items line character (view v)) }
{
    let Some(index) = touched_at(source, line, character) else {
        return Ok(Value::Null);
    };
    let place = line;
    match source.lines.get(place) {
        Some(line) => at_token(
            compiler,
            alloc,
            text,
            source,
            Touched { place, line, index },
        ),
        None => Ok(Value::Null),
    }
}
