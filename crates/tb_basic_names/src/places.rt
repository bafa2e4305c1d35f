//! Where a line or a variable is named.
ghost use Rattle.std.specs.Prelude.{◌≡◌, ◌∷◌, ◌++◌, [], IfOk, OnOk};
ghost use Rattle.tb_basic_names.specs.Lines.{does};
ghost use Rattle.tb_basic_names.specs.Sources.{edits_of};
ghost use Rattle.tb_basic_names.specs.Places as spec;

use crate::jumps::jump_word;
use crate::lines::Line;
use crate::names::Name;
use crate::sources::Source;
use crate::variables::{Variable, variables_of};
use std::alloc::{AllocError, Global};
use tb_basic_places::{Span, piece, tail};

/// How something is named.
#[derive(Clone, Copy, Drop)]
pub enum Role {
    /// A line, by its number.
    Line,
    /// A variable that is read.
    Read,
    /// A variable that gets a value.
    Set,
}

/// Where something is named.
#[derive(Clone, Copy, Drop)]
pub struct Occurrence {
    pub span: Span,
    pub role: Role,
}

/// The number that begins a line of the file, which is counted from 1.
pub fn number_span(number: usize, line: &Line<'_>) -> Option<Span>
    ensures { result ≡ spec.number_span number line.now }
{
    let token = line.tokens.first()?;
    let start = token.column.saturating_sub(1);
    Some(piece(number, line.text, start, token.text.len()))
}

/// The expression of a jump in a line of the file, which is counted from 1.
pub fn target_span(number: usize, line: &Line<'_>) -> Option<Span>
    ensures { result ≡ spec.target_span number line.now }
{
    let word = jump_word(&line.tokens)?;
    let token = line.tokens.get(word + 1)?;
    Some(tail(number, line.text, token.column.saturating_sub(1)))
}

// Appends a span of a line's number, if there is one.
fn push_line(span: Option<Span>, found: &mut Vec<Occurrence>) -> Result<(), AllocError>
    ensures { OnOk result (found.new.items ≡ found.old.items ++ spec.of_line span) }
{
    if let Some(span) = span {
        let role = Role::Line;
        found.push(Occurrence { span, role })?;
    }
    Ok(())
}

// Whether a line has a constant jump to a number.
fn jumps_to(line: &Line<'_>, target: u16) -> bool
    ensures { result ≡ spec.jumps_to target (does line.now.edit) }
{
    match line.jump() {
        Some(jump) => jump.target == target,
        None => false,
    }
}

// What is named by a variable of a line of the file.
fn of_variable(number: usize, text: &[u8], variable: Variable) -> Occurrence
    ensures { result ≡ spec.of_variable number text.now variable }
{
    Occurrence {
        span: piece(number, text, variable.place, 1),
        role: if variable.gets { Role::Set } else { Role::Read },
    }
}

// Appends where these variables of a line of the file are the one that is sought.
fn push_variables(
    number: usize,
    text: &[u8],
    name: u8,
    variables: &[Variable],
    found: &mut Vec<Occurrence>,
) -> Result<(), AllocError>
    ensures { OnOk result (found.new.items ≡ found.old.items ++ spec.of_variables number text.now name variables.now) }
{
    for variable in variables {
        if variable.name == name {
            found.push(of_variable(number, text, *variable))?;
        }
    }
    Ok(())
}

// Appends where a line of the file names a variable, if it is good.
fn push_of_variable(
    alloc: Global,
    number: usize,
    line: &Line<'_>,
    name: u8,
    found: &mut Vec<Occurrence>,
) -> Result<(), AllocError>
    ensures { OnOk result (found.new.items ≡ found.old.items ++ spec.variable_on name number line.now) }
{
    if line.number().is_none() {
        return Ok(());
    }
    let variables = variables_of(alloc, &line.tokens)?;
    push_variables(number, line.text, name, &variables, found)
}

// Appends where a line of the file names the line of a number: by its own number, where that is asked for, and by a jump.
fn push_of_line(
    number: usize,
    line: &Line<'_>,
    is_declared: bool,
    target: u16,
    found: &mut Vec<Occurrence>,
) -> Result<(), AllocError>
    ensures { OnOk result (found.new.items ≡ found.old.items ++ spec.line_on target is_declared number line.now) }
{
    if is_declared {
        push_line(number_span(number, line), found)?;
    }
    if jumps_to(line, target) {
        push_line(target_span(number, line), found)?;
    }
    Ok(())
}

fn push_named(
    alloc: Global,
    number: usize,
    line: &Line<'_>,
    is_declared: bool,
    name: Name,
    found: &mut Vec<Occurrence>,
) -> Result<(), AllocError>
    ensures { OnOk result (found.new.items ≡ found.old.items ++ spec.named_on name is_declared number line.now) }
{
    match name {
        Name::Line(target) => push_of_line(number, line, is_declared, target, found),
        Name::Variable(name) => push_of_variable(alloc, number, line, name, found),
    }
}

// The place of the line that gives the program the line that is named, where that is asked for.
fn declaration(source: &Source<'_>, name: Name, is_wanted: bool) -> Option<usize>
    ensures { result ≡ spec.declaration name is_wanted (edits_of source.now.lines.items) }
{
    match name {
        Name::Line(number) if is_wanted => source.standing(number),
        _ => None,
    }
}

/// Where good lines name a line or a variable, by place: with the number of the line that stands, where that is wanted.
pub fn occurrences(
    alloc: Global,
    source: &Source<'_>,
    name: Name,
    with_declaration: bool,
) -> Result<Vec<Occurrence>, AllocError>
    ensures { IfOk result (λ found. found.items ≡ spec.occurrences name with_declaration source.now.lines.items) }
{
    let declared = declaration(source, name, with_declaration);
    let mut found = Vec::new(alloc);
    for (i, line) in source.lines.iter().enumerate() {
        push_named(alloc, i + 1, line, declared == Some(i), name, &mut found)?;
    }
    Ok(found)
}
