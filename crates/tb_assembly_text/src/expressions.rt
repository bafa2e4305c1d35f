//! Expressions, by operators that wait for their right sides.
ghost use Rattle.std.specs.Prelude.{◌≡◌, ◌≤◌, ◌∷◌, drop, length, map};
ghost use Rattle.tb_assembly_text.specs.Tokens.{token_of};
ghost use Rattle.tb_assembly_text.specs.Reads.{Reads};
ghost use Rattle.tb_assembly_text.specs.Expressions.{at_column, binary_of, closing, column_at, expression, finished, having, is_due, level_of, mark_due, marks_of, mark_of};
ghost use Rattle.tb_assembly_text.specs.Expressions.{opening, operating, settled, state_of, sum_of, taken, unary_of, value_in, wanting, whole, with_rest};
ghost use Rattle.tb_assembly_text.specs.Expressions.{Adds, IsValue, Moves, Settles, TakesDue};

use crate::faults::{FaultKind, LineError, bad};
use crate::names::{Name, full_name};
use crate::tokens::{Lexeme, Sign, Token};
use std::alloc::Global;
use std::collections::LinkedList;

/// An operator before its operand.
#[derive(Clone, Copy, PartialEq, Eq, Debug, Drop)]
pub enum Unary {
    Negative,
    /// The low byte.
    Low,
    /// The second byte.
    High,
}

/// An operator between its operands.
#[derive(Clone, Copy, PartialEq, Eq, Debug, Drop)]
pub enum Binary {
    Add,
    Subtract,
    Multiply,
    Divide,
    And,
    Or,
    Xor,
    ShiftLeft,
    ShiftRight,
}

/// What a step does: it puts a value on the stack, or it replaces one or two of them.
#[derive(Drop, Debug)]
pub enum Action {
    Number(u32),
    Name(Name),
    /// The address of the statement.
    Here,
    Unary(Unary),
    Binary(Binary),
}

/// A step, and the column of what it stands for.
#[derive(Drop, Debug)]
pub struct Step {
    pub column: usize,
    pub action: Action,
}

/// An expression: its column, and its steps, each after those that make its operands.
#[derive(Drop, Debug)]
pub struct Expression {
    pub column: usize,
    pub steps: Vec<Step>,
}

// What waits for its right side or its end.
#[derive(Clone, Copy, Debug, Drop)]
pub enum Waiting {
    Open,
    Unary(Unary),
    Binary(Binary),
}

#[derive(Clone, Copy, Debug, Drop)]
pub struct Pending {
    pub column: usize,
    pub waiting: Waiting,
}

// What was read of an expression: what waits, the last first, and the steps.
#[derive(Drop)]
struct Reading {
    pending: LinkedList<Pending>,
    steps: Vec<Step>,
}

// How tightly an operator binds.
fn level_of(operator: Binary) -> u8
    ensures { result ≡ level_of operator }
{
    match operator {
        Binary::Multiply | Binary::Divide => 6,
        Binary::Add | Binary::Subtract => 5,
        Binary::ShiftLeft | Binary::ShiftRight => 4,
        Binary::And => 3,
        Binary::Xor => 2,
        Binary::Or => 1,
    }
}

fn unary_of(sign: Sign) -> Option<Unary>
    ensures { result ≡ unary_of sign }
{
    match sign {
        Sign::Minus => Some(Unary::Negative),
        Sign::Less => Some(Unary::Low),
        Sign::Greater => Some(Unary::High),
        _ => None,
    }
}

fn binary_of(sign: Sign) -> Option<Binary>
    ensures { result ≡ binary_of sign }
{
    match sign {
        Sign::Plus => Some(Binary::Add),
        Sign::Minus => Some(Binary::Subtract),
        Sign::Star => Some(Binary::Multiply),
        Sign::Slash => Some(Binary::Divide),
        Sign::And => Some(Binary::And),
        Sign::Or => Some(Binary::Or),
        Sign::Xor => Some(Binary::Xor),
        Sign::ShiftLeft => Some(Binary::ShiftLeft),
        Sign::ShiftRight => Some(Binary::ShiftRight),
        _ => None,
    }
}

// Whether what waits has its right side where an operator of this level follows.
fn is_due(level: u8, waiting: Waiting) -> bool
    ensures { result ≡ is_due level waiting }
{
    match waiting {
        Waiting::Open => false,
        Waiting::Unary(_) => true,
        Waiting::Binary(operator) => level <= level_of(operator),
    }
}

// The step of an operator that has its right side.
fn step_due(pending: Pending) -> Step
    ensures { mark_of result ≡ mark_due pending }
{
    let action = match pending.waiting {
        Waiting::Open => Action::Here,
        Waiting::Unary(operator) => Action::Unary(operator),
        Waiting::Binary(operator) => Action::Binary(operator),
    };
    Step {
        column: pending.column,
        action,
    }
}

// Takes the last that waits, if it has its right side.
fn take_due(pending: &mut LinkedList<Pending>, level: u8) -> Option<Pending>
    ensures { TakesDue level pending.old result pending.new }
{
    match pending.front() {
        Some(last) if is_due(level, last.waiting) => pending.pop_front(),
        _ => None,
    }
}

fn push_step(steps: &mut Vec<Step>, step: Step) -> Result<(), LineError>
    ensures { Adds result (marks_of steps.old.items) (mark_of step) (marks_of steps.new.items) }
{
    match steps.push(step) {
        Ok(()) => Ok(()),
        Err(_) => Err(LineError::NoMemory),
    }
}

// Makes steps of all that have their right sides.
fn settle(reading: &mut Reading, level: u8) -> Result<(), LineError>
    ensures { Settles (settled level reading.old.pending (marks_of reading.old.steps.items)) result (state_of reading.new) }
{
    while let Some(due) = take_due(&mut reading.pending, level) {
        push_step(&mut reading.steps, step_due(due))?;
    }
    Ok(())
}

// Lets an operator or a parenthesis wait.
fn wait(reading: &mut Reading, column: usize, waiting: Waiting) -> Result<(), LineError>
    ensures { Settles (record { column = column; waiting = waiting } ∷ reading.old.pending, marks_of reading.old.steps.items) result (state_of reading.new) }
{
    match reading.pending.push_front(Pending { column, waiting }) {
        Ok(()) => Ok(()),
        Err(_) => Err(LineError::NoMemory),
    }
}

// The value that a token stands for, if it stands for one.
fn value_of(alloc: Global, scope: &[u8], token: &Token<'_>) -> Result<Option<Step>, LineError>
    ensures { IsValue (value_in scope.now (token_of token.now)) result }
{
    let action = match token.lexeme {
        Lexeme::Number(number) => Action::Number(number),
        Lexeme::Word(word) => match full_name(alloc, scope, word) {
            Ok(name) => Action::Name(name),
            Err(_) => return Err(LineError::NoMemory),
        },
        Lexeme::Sign(Sign::Star) => Action::Here,
        Lexeme::Text(_) | Lexeme::Sign(_) => return Ok(None),
    };
    Ok(Some(Step {
        column: token.column,
        action,
    }))
}

// What of an operand a token opens: a parenthesis, or an operator before it.
fn opening(token: &Token<'_>) -> Option<Waiting>
    ensures { result ≡ opening (token_of token.now) }
{
    match token.lexeme {
        Lexeme::Sign(Sign::Left) => Some(Waiting::Open),
        Lexeme::Sign(sign) => Some(Waiting::Unary(unary_of(sign)?)),
        _ => None,
    }
}

// Takes a token where an operand is wanted. The answer is whether one is wanted next, if the token belongs there.
fn take_wanted(
    alloc: Global,
    scope: &[u8],
    reading: &mut Reading,
    token: &Token<'_>,
) -> Result<Option<bool>, LineError>
    ensures { Moves (wanting scope.now (token_of token.now) (state_of reading.old)) result (state_of reading.new) }
{
    if let Some(step) = value_of(alloc, scope, token)? {
        push_step(&mut reading.steps, step)?;
        return Ok(Some(false));
    }
    match opening(token) {
        Some(waiting) => {
            wait(reading, token.column, waiting)?;
            Ok(Some(true))
        }
        None => Ok(None),
    }
}

// Closes a parenthesis, if one is open.
fn close(reading: &mut Reading) -> Result<Option<bool>, LineError>
    ensures { Moves (closing (settled 0 reading.old.pending (marks_of reading.old.steps.items))) result (state_of reading.new) }
{
    settle(reading, 0)?;
    match reading.pending.pop_front() {
        Some(_) => Ok(Some(false)),
        None => Ok(None),
    }
}

// Takes an operator between two operands.
fn take_operator(
    reading: &mut Reading,
    column: usize,
    operator: Binary,
) -> Result<Option<bool>, LineError>
    ensures { Moves (operating column operator (state_of reading.old)) result (state_of reading.new) }
{
    settle(reading, level_of(operator))?;
    wait(reading, column, Waiting::Binary(operator))?;
    Ok(Some(true))
}

// Takes a token after an operand.
fn take_after(reading: &mut Reading, token: &Token<'_>) -> Result<Option<bool>, LineError>
    ensures { Moves (having (token_of token.now) (state_of reading.old)) result (state_of reading.new) }
{
    match token.lexeme {
        Lexeme::Sign(Sign::Right) => close(reading),
        Lexeme::Sign(sign) => match binary_of(sign) {
            Some(operator) => take_operator(reading, token.column, operator),
            None => Ok(None),
        },
        _ => Ok(None),
    }
}

// Takes a token.
fn take(
    alloc: Global,
    scope: &[u8],
    operand: bool,
    reading: &mut Reading,
    token: &Token<'_>,
) -> Result<Option<bool>, LineError>
    ensures { Moves (taken scope.now operand (token_of token.now) (state_of reading.old)) result (state_of reading.new) }
{
    if operand {
        take_wanted(alloc, scope, reading, token)
    } else {
        take_after(reading, token)
    }
}

/// The tokens after the first `size` ones.
pub fn behind<'t, 'a>(tokens: &'t [Token<'a>], size: usize) -> &'t [Token<'a>]
    requires { size ≤ length tokens.now }
    ensures { map token_of result.now ≡ drop size (map token_of tokens.now) }
{
    tokens.split_at(size).1
}

/// The column of the first token; that of the end if there is none.
pub fn column_at(end: usize, tokens: &[Token<'_>]) -> usize
    ensures { result ≡ column_at end (map token_of tokens.now) }
{
    match tokens {
        [] => end,
        [first, ..] => first.column,
    }
}

// The steps of all that was read, before a token or the end at this column.
fn finish(mut reading: Reading, operand: bool, column: usize) -> Result<Vec<Step>, LineError>
    ensures { Reads (λ steps. marks_of steps.items) (finished operand column (state_of reading)) result }
{
    if operand {
        return Err(bad(column, FaultKind::WantsValue));
    }
    settle(&mut reading, 0)?;
    if reading.pending.is_empty() {
        Ok(reading.steps)
    } else {
        Err(bad(column, FaultKind::WantsRight))
    }
}

// The expression that was read up to a token or the end, at these columns, with the tokens from it on.
fn finish_before<'t, 'a>(
    reading: Reading,
    operand: bool,
    column: usize,
    end: usize,
    rest: &'t [Token<'a>],
) -> Result<(Expression, &'t [Token<'a>]), LineError>
    ensures { Reads (λ r. (sum_of r.0, map token_of r.1.now)) (at_column column (with_rest (map token_of rest.now) (finished operand end (state_of reading)))) result }
{
    let steps = finish(reading, operand, end)?;
    Ok((Expression { column, steps }, rest))
}

/// The expression at the front of some tokens, with the tokens after it. The line ends at the column `end`.
pub fn read_expression<'t, 'a>(
    alloc: Global,
    scope: &[u8],
    end: usize,
    tokens: &'t [Token<'a>],
) -> Result<(Expression, &'t [Token<'a>]), LineError>
    ensures { Reads (λ r. (sum_of r.0, map token_of r.1.now)) (expression scope.now end (map token_of tokens.now)) result }
{
    let mut reading = Reading {
        pending: LinkedList::new(alloc),
        steps: Vec::new(alloc),
    };
    let mut operand = true;
    let column = column_at(end, tokens);
    for (i, token) in tokens.iter().enumerate() {
        match take(alloc, scope, operand, &mut reading, token)? {
            Some(wanted) => operand = wanted,
            None => {
                return finish_before(reading, operand, column, token.column, behind(tokens, i));
            }
        }
    }
    finish_before(reading, operand, column, end, behind(tokens, tokens.len()))
}

/// The expression that some tokens are, of which none is left.
pub fn read_whole(
    alloc: Global,
    scope: &[u8],
    end: usize,
    tokens: &[Token<'_>],
) -> Result<Expression, LineError>
    ensures { Reads sum_of (whole scope.now end (map token_of tokens.now)) result }
{
    let (expression, rest) = read_expression(alloc, scope, end, tokens)?;
    match rest {
        [] => Ok(expression),
        [first, ..] => Err(bad(first.column, FaultKind::Extra)),
    }
}
