//! Warnings on a source that is compiled.
ghost use Rattle.std.specs.Prelude.{◌≡◌, ◌∷◌, ◌++◌, [], Some, IfOk, OnOk, flat_map, map};
ghost use Rattle.tb_words.specs.Words.{word_of};
ghost use Rattle.tb_basic_syntax.specs.PlainData.{expression_of, item_of, lines_of, statement_of};
ghost use Rattle.tb_basic_syntax.specs.Source.{numbers};
ghost use Rattle.tb_basic_meaning.specs.Control.{content_at, highest as highest_of};
ghost use Rattle.tb_basic_meaning.specs.Missing.{missing_targets};
ghost use Rattle.tb_engine_findings.specs.Entries.{is_one_of};
ghost use Rattle.tb_engine_findings.specs.Warnings as spec;

use crate::lines::NumberedLine;
use crate::remaining::{last_lines, outdone_by};
use std::alloc::{AllocError, Global};
use tb_basic_meaning::{
    Warning as MissingJump, constant, statement_bounds, warnings as missing_jumps,
};
use tb_basic_syntax::{
    Expr, HIGHEST_LINE, Operator, PrintItem, Program, Statement, expressions_of, jump_of,
};

/// The largest bound of RND that is warned of: there is a better one for each up to it.
const LARGEST_BOUND: u16 = 15_000;

/// The largest number of a variable.
const HIGHEST_NUMBER: u16 = 32_767;

/// The number that is the lowest one behind a minus sign.
const LOWEST_NEGATED: u16 = 32_768;

/// The byte that `{F1}` stands for in a text, as which a source may mean the first function key.
const FIRST_KEY: u8 = 241;

/// The byte of `{F8}`.
const LAST_KEY: u8 = 248;

/// What there is to warn of.
#[derive(Clone, Copy, Drop)]
pub enum Warning {
    /// A GOTO or GOSUB goes to this line, which isn't there.
    NoLine(i16),
    /// A GOTO or GOSUB goes to this number, which no line can have.
    HighTarget(u16),
    /// A later line of the file has the same number, and a statement.
    Replaced { number: u16, by: usize },
    /// A later line of the file is the bare number.
    TakenOut { number: u16, by: usize },
    /// The highest line goes on.
    RunsPast,
    /// RND has this even bound.
    EvenBound(u16),
    /// RND has the bound 1.
    BoundOfOne,
    /// RND has this bound, which is below 1.
    BadBound(i16),
    /// A divisor is 0.
    ZeroDivisor,
    /// This number is read as a negative one.
    HighNumber(u16),
    /// A text has the character that `{F1}` stands for, or another one with the name of this function key, from 1 to 8.
    KeyCharacter(u8),
}

/// A warning at its line of the file, from 1.
#[derive(Clone, Copy, Drop)]
pub struct LineWarning {
    pub line: usize,
    pub warning: Warning,
}

// A program, and what is known of the whole of it.
#[derive(Drop)]
struct Facts<'a> {
    program: &'a Program,
    jumps: Vec<MissingJump>,
    highest: u16,
    ghost jumps_are: { map (λ w. (w.line, word_of w.target)) jumps.items ≡ missing_targets (lines_of program.now) },
    ghost highest_is: { highest ≡ highest_of (numbers (lines_of program.now)) },
}

/// The warnings on a program, which the numbered lines of a file make, in the order of these lines.
pub fn warnings(
    alloc: Global,
    program: &Program,
    lines: &[NumberedLine],
) -> Result<Vec<LineWarning>, AllocError>
    ensures { IfOk result (λ found. found.items ≡ spec.warnings_on (lines_of program.now) lines.now) }
{
    let facts = facts_of(alloc, program)?;
    let last = last_lines(alloc, lines)?;
    let mut found = Vec::new(alloc);
    for line in lines {
        let by = outdone_by(&last, line);
        warn_of_line(alloc, &facts, line, by, &mut found)?;
    }
    Ok(found)
}

fn facts_of(alloc: Global, program: &Program) -> Result<Facts<'_>, AllocError>
    ensures { IfOk result (λ facts. facts.program.now ≡ program.now) }
{
    Ok(Facts {
        program,
        jumps: missing_jumps(alloc, program)?,
        highest: highest_line(program),
    })
}

fn highest_line(program: &Program) -> u16
    ensures { result ≡ highest_of (numbers (lines_of program.now)) }
{
    let mut highest = 0;
    for (number, _) in program.lines() {
        highest = *number;
    }
    highest
}

fn push(found: &mut Vec<LineWarning>, line: usize, warning: Warning) -> Result<(), AllocError>
    ensures { OnOk result (found.new.items ≡ found.old.items ++ record { line = line; warning = warning } ∷ []) }
{
    found.push(LineWarning { line, warning })?;
    Ok(())
}

fn outdone(number: u16, last: NumberedLine) -> Warning
    ensures { result ≡ spec.outdone number last }
{
    let by = last.line;
    if last.is_bare {
        Warning::TakenOut { number, by }
    } else {
        Warning::Replaced { number, by }
    }
}

// Appends the warnings on a line of the file, which a later line may replace or take out.
fn warn_of_line(
    alloc: Global,
    facts: &Facts<'_>,
    line: &NumberedLine,
    by: Option<NumberedLine>,
    found: &mut Vec<LineWarning>,
) -> Result<(), AllocError>
    ensures { OnOk result (found.new.items ≡ found.old.items ++ spec.on_line (lines_of facts.now.program.now) line.now by) }
{
    match by {
        _ if line.is_bare => Ok(()),
        Some(by) => push(found, line.line, outdone(line.number, by)),
        None => warn_of_program(alloc, facts, line, found),
    }
}

// Appends the warnings on a line of the program.
fn warn_of_program(
    alloc: Global,
    facts: &Facts<'_>,
    line: &NumberedLine,
    found: &mut Vec<LineWarning>,
) -> Result<(), AllocError>
    ensures { OnOk result (found.new.items ≡ found.old.items ++ spec.at line.now.line
        (spec.on_statement (lines_of facts.now.program.now) line.now.number
        (content_at (lines_of facts.now.program.now) line.now.number))) }
{
    for (number, statement) in facts.program.lines() {
        if *number == line.number {
            return warn_of_statement(alloc, facts, line, statement, found);
        }
    }
    Ok(())
}

// Appends the warnings on a line with a statement of the program.
fn warn_of_statement(
    alloc: Global,
    facts: &Facts<'_>,
    line: &NumberedLine,
    statement: &Statement,
    found: &mut Vec<LineWarning>,
) -> Result<(), AllocError>
    ensures { OnOk result (found.new.items ≡ found.old.items ++ spec.at line.now.line
        (spec.on_statement (lines_of facts.now.program.now) line.now.number (Some (statement_of statement.now)))) }
{
    warn_of_jumps(&facts.jumps, line, found)?;
    warn_of_targets(line.line, statement, found)?;
    if line.number == facts.highest && goes_on(statement) {
        push(found, line.line, Warning::RunsPast)?;
    }
    let bounds = known_bounds(alloc, statement)?;
    warn_of_bounds(line.line, &bounds, found)?;
    if statement_divides_by_zero(alloc, statement)? {
        push(found, line.line, Warning::ZeroDivisor)?;
    }
    warn_of_numbers(line.line, statement, found)?;
    warn_of_keys(line.line, statement, found)
}

// Appends the warnings on the missing targets of a line.
fn warn_of_jumps(
    jumps: &[MissingJump],
    line: &NumberedLine,
    found: &mut Vec<LineWarning>,
) -> Result<(), AllocError>
    ensures { OnOk result (found.new.items ≡ found.old.items ++ spec.at line.now.line
        (spec.to_targets (spec.targets_at line.now.number (map (λ w. (w.line, word_of w.target)) jumps.now)))) }
{
    for jump in jumps {
        if jump.line == line.number {
            push(found, line.line, Warning::NoLine(jump.target))?;
        }
    }
    Ok(())
}

// Appends a warning if a statement jumps to a number that no line can have.
fn warn_of_targets(
    line: usize,
    statement: &Statement,
    found: &mut Vec<LineWarning>,
) -> Result<(), AllocError>
    ensures { OnOk result (found.new.items ≡ found.old.items ++ spec.at line (spec.high_targets (statement_of statement.now))) }
{
    match jump_of(statement) {
        Some((Expr::Number(target), _)) if HIGHEST_LINE < *target => {
            push(found, line, Warning::HighTarget(*target))
        }
        _ => Ok(()),
    }
}

// Appends what there is to warn of each bound, where it comes first.
fn warn_of_bounds(
    line: usize,
    bounds: &[u16],
    found: &mut Vec<LineWarning>,
) -> Result<(), AllocError>
    ensures { OnOk result (found.new.items ≡ found.old.items ++ spec.at line (spec.on_bounds bounds.now)) }
{
    for (i, bound) in bounds.iter().enumerate() {
        if !bounds[..i].contains(bound) {
            warn_of_bound(line, *bound, found)?;
        }
    }
    Ok(())
}

fn warn_of_bound(line: usize, bound: u16, found: &mut Vec<LineWarning>) -> Result<(), AllocError>
    ensures { OnOk result (found.new.items ≡ found.old.items ++ spec.at line (spec.on_bound bound)) }
{
    if bound == 1 {
        push(found, line, Warning::BoundOfOne)
    } else if bound == 0 || HIGHEST_NUMBER < bound {
        push(found, line, Warning::BadBound(bound.cast_signed()))
    } else if is_even_bound(bound) {
        push(found, line, Warning::EvenBound(bound))
    } else {
        Ok(())
    }
}

// Whether the next line may follow a statement.
fn goes_on(statement: &Statement) -> bool
    ensures { result ≡ spec.goes_on (statement_of statement.now) }
{
    !matches!(
        statement,
        Statement::Goto(_) | Statement::Return | Statement::End
    )
}

// The bounds of RND in a statement that have a value.
fn known_bounds(alloc: Global, statement: &Statement) -> Result<Vec<u16>, AllocError>
    ensures { IfOk result (λ known. known.items ≡ spec.known_bounds (statement_of statement.now)) }
{
    let bounds = statement_bounds(alloc, statement)?;
    let mut known = Vec::new(alloc);
    for bound in &bounds {
        if let Some(bound) = bound {
            known.push(*bound)?;
        }
    }
    Ok(known)
}

// Whether the values of RND with this bound are odd and even in turns, and there is a better bound.
fn is_even_bound(bound: u16) -> bool
    ensures { result ≡ spec.is_even_bound bound }
{
    bound % 2 == 0 && 2 <= bound && bound <= LARGEST_BOUND
}

// Whether a statement has a divisor that is 0 without variables and RND.
fn statement_divides_by_zero(alloc: Global, statement: &Statement) -> Result<bool, AllocError>
    ensures { IfOk result (λ is. is ≡ spec.statement_divides_by_zero (statement_of statement.now)) }
{
    let expressions = expressions_of(alloc, statement)?;
    for e in &expressions {
        if divides_by_zero(e) {
            return Ok(true);
        }
    }
    Ok(false)
}

fn divides_by_zero(e: &Expr) -> bool
    ensures { result ≡ spec.divides_by_zero (expression_of e.now) }
{
    match e {
        Expr::Number(_) | Expr::Variable(_) => false,
        Expr::Negate(e) | Expr::Random(e) => divides_by_zero(e),
        Expr::Binary(operator, left, right) => {
            divides_by_zero(left)
                || divides_by_zero(right)
                || is_zero_division(*operator, constant(right))
        }
    }
}

// Whether an operator divides by 0, by the value of its right operand, if it has one.
fn is_zero_division(operator: Operator, divisor: Option<u16>) -> bool
    ensures { result ≡ spec.is_zero_division operator divisor }
{
    matches!((operator, divisor), (Operator::Divide, Some(0)))
}

// Appends a warning of each number of a statement that is read as a negative one. Of a target that is a number alone, and
// of such a bound of RND, there is another warning.
fn warn_of_numbers(
    line: usize,
    statement: &Statement,
    found: &mut Vec<LineWarning>,
) -> Result<(), AllocError>
    ensures { OnOk result (found.new.items ≡ found.old.items ++ spec.at line (spec.statement_highs (statement_of statement.now))) }
{
    match statement {
        Statement::Let(_, e) => warn_of_highs(line, e, found),
        Statement::Goto(e) | Statement::Gosub(e) if is_number(e) => Ok(()),
        Statement::Goto(e) | Statement::Gosub(e) => warn_of_highs(line, e, found),
        Statement::Print(items, _) => warn_of_items(line, items, found),
        Statement::If(left, _, right, statement) => {
            warn_of_highs(line, left, found)?;
            warn_of_highs(line, right, found)?;
            warn_of_numbers(line, statement, found)
        }
        Statement::Input(_) | Statement::Return | Statement::End | Statement::Remark => Ok(()),
    }
}

fn warn_of_items(
    line: usize,
    items: &[PrintItem],
    found: &mut Vec<LineWarning>,
) -> Result<(), AllocError>
    ensures { OnOk result (found.new.items ≡ found.old.items ++ spec.at line (flat_map spec.item_highs (map item_of items.now))) }
{
    for item in items {
        if let PrintItem::Value(e) = item {
            warn_of_highs(line, e, found)?;
        }
    }
    Ok(())
}

fn warn_of_highs(line: usize, e: &Expr, found: &mut Vec<LineWarning>) -> Result<(), AllocError>
    ensures { OnOk result (found.new.items ≡ found.old.items ++ spec.at line (spec.expression_highs (expression_of e.now))) }
{
    match e {
        Expr::Number(number) => warn_of_high(line, *number, found),
        Expr::Variable(_) => Ok(()),
        Expr::Negate(e) if is_lowest(e) => Ok(()),
        Expr::Random(e) if is_number(e) => Ok(()),
        Expr::Negate(e) | Expr::Random(e) => warn_of_highs(line, e, found),
        Expr::Binary(_, left, right) => {
            warn_of_highs(line, left, found)?;
            warn_of_highs(line, right, found)
        }
    }
}

// Whether an expression is a number alone.
fn is_number(e: &Expr) -> bool
    ensures { result ≡ spec.is_number (expression_of e.now) }
{
    matches!(e, Expr::Number(_))
}

// Whether an expression is the number that is the lowest one behind a minus sign.
fn is_lowest(e: &Expr) -> bool
    ensures { result ≡ spec.is_lowest (expression_of e.now) }
{
    match e {
        Expr::Number(number) => *number == LOWEST_NEGATED,
        _ => false,
    }
}

fn warn_of_high(line: usize, number: u16, found: &mut Vec<LineWarning>) -> Result<(), AllocError>
    ensures { OnOk result (found.new.items ≡ found.old.items ++ spec.at line (spec.on_number number)) }
{
    if HIGHEST_NUMBER < number {
        push(found, line, Warning::HighNumber(number))
    } else {
        Ok(())
    }
}

// Appends a warning for each character of a statement's texts whose sign is the name of a function key.
fn warn_of_keys(
    line: usize,
    statement: &Statement,
    found: &mut Vec<LineWarning>,
) -> Result<(), AllocError>
    ensures { OnOk result (found.new.items ≡ found.old.items ++ spec.at line (spec.statement_keys (statement_of statement.now))) }
{
    match statement {
        Statement::Print(items, _) => warn_of_texts(line, items, found),
        Statement::If(_, _, _, statement) => warn_of_keys(line, statement, found),
        _ => Ok(()),
    }
}

fn warn_of_texts(
    line: usize,
    items: &[PrintItem],
    found: &mut Vec<LineWarning>,
) -> Result<(), AllocError>
    ensures { OnOk result (found.new.items ≡ found.old.items ++ spec.at line (flat_map spec.item_keys (map item_of items.now))) }
{
    for item in items {
        if let PrintItem::Text(text) = item {
            warn_of_text(line, text.as_slice(), found)?;
        }
    }
    Ok(())
}

fn warn_of_text(line: usize, text: &[u8], found: &mut Vec<LineWarning>) -> Result<(), AllocError>
    ensures { OnOk result (found.new.items ≡ found.old.items ++ spec.at line (flat_map spec.on_byte text.now)) }
{
    for byte in text {
        if FIRST_KEY <= *byte && *byte <= LAST_KEY {
            push(found, line, Warning::KeyCharacter(*byte - FIRST_KEY + 1))?;
        }
    }
    Ok(())
}
