//! Operands of instructions.
ghost use Rattle.std.specs.Prelude.{◌≡◌, ◌<◌, length, map, option_map, IfSome, IsFalse};
ghost use Rattle.tb_assembly_text.specs.Tokens.{token_of};
ghost use Rattle.tb_assembly_text.specs.Expressions.{sum_of};
ghost use Rattle.tb_assembly_text.specs.Operands.{after_bracket, after_comma, after_right, bracketed, direct, form_of, forced_width, indexed, is_accumulator, is_none, is_x_right, operand};
ghost use Rattle.tb_assembly_text.specs.Operands.{register_at, sign_at, unbracketed, width_of, word_at};
ghost use Rattle.tb_assembly_text.specs.Reads.{Reads};

use crate::expressions::{Expression, behind, column_at, read_expression, read_whole};
use crate::faults::{FaultKind, LineError, bad};
use crate::names::spells;
use crate::tokens::{Lexeme, Sign, Token};
use std::alloc::Global;

/// How many bytes an address has, if the line says so.
#[derive(Clone, Copy, PartialEq, Eq, Debug, Drop)]
pub enum Width {
    Free,
    ZeroPage,
    Absolute,
    /// A branch to it is a jump behind the inverse branch. No line says so.
    Long,
}

/// A register behind an address.
#[derive(Clone, Copy, PartialEq, Eq, Debug, Drop)]
pub enum Index {
    Without,
    X,
    Y,
}

/// The form of an operand.
#[derive(Drop, Debug)]
pub enum Shape {
    Nothing,
    Accumulator,
    Immediate(Expression),
    Direct(Width, Expression, Index),
    Indirect(Expression),
    /// `(e,X)`
    ByX(Expression),
    /// `(e),Y`
    ByY(Expression),
}

// What follows an expression after an opening parenthesis.
#[derive(Clone, Copy, Drop)]
enum Ending {
    Plain,
    X,
    Y,
    // The expression goes on, so that it has the parenthesis.
    GoesOn,
    // Another register than the right one is at this column.
    Wrong(usize),
}

/// Whether there is no token.
pub fn is_none(tokens: &[Token<'_>]) -> bool
    ensures none { result ≡ is_none (map token_of tokens.now) }
    ensures some { IsFalse result → 0 < length tokens.now }
{
    match tokens {
        [] => true,
        [_, ..] => false,
    }
}

/// The sign that comes first, if a sign does.
pub fn sign_at(tokens: &[Token<'_>]) -> Option<Sign>
    ensures sign { result ≡ sign_at (map token_of tokens.now) }
    ensures some { IfSome result (λ s. 0 < length tokens.now) }
{
    match tokens {
        [] => None,
        [first, ..] => match first.lexeme {
            Lexeme::Sign(sign) => Some(sign),
            _ => None,
        },
    }
}

/// The word that comes first, if a word does.
pub fn word_at<'a>(tokens: &[Token<'a>]) -> Option<&'a [u8]>
    ensures word { option_map (λ w. w.now) result ≡ word_at (map token_of tokens.now) }
    ensures some { IfSome result (λ w. 0 < length tokens.now) }
{
    match tokens {
        [] => None,
        [first, ..] => match first.lexeme {
            Lexeme::Word(word) => Some(word),
            _ => None,
        },
    }
}

// The register that some tokens are.
fn register_at(tokens: &[Token<'_>]) -> Option<Index>
    ensures { result ≡ register_at (map token_of tokens.now) }
{
    if tokens.len() != 1 {
        return None;
    }
    let word = word_at(tokens)?;
    if spells(word, b"X") {
        Some(Index::X)
    } else if spells(word, b"Y") {
        Some(Index::Y)
    } else {
        None
    }
}

// Whether some tokens are `A` alone.
fn is_accumulator(tokens: &[Token<'_>]) -> bool
    ensures { result ≡ is_accumulator (map token_of tokens.now) }
{
    if tokens.len() != 1 {
        return false;
    }
    match word_at(tokens) {
        Some(word) => spells(word, b"A"),
        None => false,
    }
}

fn width_of(word: &[u8]) -> Option<Width>
    ensures { result ≡ width_of word.now }
{
    if spells(word, b"A") {
        Some(Width::Absolute)
    } else if spells(word, b"Z") {
        Some(Width::ZeroPage)
    } else {
        None
    }
}

// The width that `a:` or `z:` at the front forces.
fn forced_width(tokens: &[Token<'_>]) -> Option<Width>
    ensures width { result ≡ forced_width (map token_of tokens.now) }
    ensures some { IfSome result (λ w. 1 < length tokens.now) }
{
    let word = word_at(tokens)?;
    match sign_at(behind(tokens, 1)) {
        Some(Sign::Colon) => width_of(word),
        _ => None,
    }
}

/// The operand of an instruction by the tokens behind it.
pub fn read_operand(
    alloc: Global,
    scope: &[u8],
    end: usize,
    tokens: &[Token<'_>],
) -> Result<Shape, LineError>
    ensures { Reads form_of (operand scope.now end (map token_of tokens.now)) result }
{
    match sign_at(tokens) {
        Some(Sign::Hash) => Ok(Shape::Immediate(read_whole(alloc, scope, end, behind(tokens, 1))?)),
        Some(Sign::Left) => read_bracketed(alloc, scope, end, tokens),
        _ => read_unbracketed(alloc, scope, end, tokens),
    }
}

fn read_unbracketed(
    alloc: Global,
    scope: &[u8],
    end: usize,
    tokens: &[Token<'_>],
) -> Result<Shape, LineError>
    ensures { Reads form_of (unbracketed scope.now end (map token_of tokens.now)) result }
{
    if is_none(tokens) {
        return Ok(Shape::Nothing);
    }
    if is_accumulator(tokens) {
        return Ok(Shape::Accumulator);
    }
    match forced_width(tokens) {
        Some(width) => read_direct(alloc, scope, end, width, behind(tokens, 2)),
        None => read_direct(alloc, scope, end, Width::Free, tokens),
    }
}

// An address, and a register behind it.
fn read_direct(
    alloc: Global,
    scope: &[u8],
    end: usize,
    width: Width,
    tokens: &[Token<'_>],
) -> Result<Shape, LineError>
    ensures { Reads form_of (direct scope.now end width (map token_of tokens.now)) result }
{
    let (expression, rest) = read_expression(alloc, scope, end, tokens)?;
    let index = read_index(end, rest)?;
    Ok(Shape::Direct(width, expression, index))
}

// What follows an address: nothing, or a register.
fn read_index(end: usize, rest: &[Token<'_>]) -> Result<Index, LineError>
    ensures { Reads (λ i. i) (indexed end (map token_of rest.now)) result }
{
    if rest.is_empty() {
        return Ok(Index::Without);
    }
    match sign_at(rest) {
        Some(Sign::Comma) => match register_at(behind(rest, 1)) {
            Some(index) => Ok(index),
            None => Err(bad(column_at(end, behind(rest, 1)), FaultKind::WantsRegister)),
        },
        _ => Err(bad(column_at(end, rest), FaultKind::Extra)),
    }
}

// Whether some tokens are `X` and a closing parenthesis.
fn is_x_right(tokens: &[Token<'_>]) -> bool
    ensures { result ≡ is_x_right (map token_of tokens.now) }
{
    if tokens.len() != 2 {
        return false;
    }
    match (word_at(tokens), sign_at(behind(tokens, 1))) {
        (Some(word), Some(Sign::Right)) => spells(word, b"X"),
        _ => false,
    }
}

// What follows a comma after an opening parenthesis.
fn after_comma(end: usize, tokens: &[Token<'_>]) -> Ending
    ensures { result ≡ after_comma end (map token_of tokens.now) }
{
    if is_x_right(tokens) {
        Ending::X
    } else {
        Ending::Wrong(column_at(end, tokens))
    }
}

// What follows a closing parenthesis.
fn after_right(end: usize, tokens: &[Token<'_>]) -> Ending
    ensures { result ≡ after_right end (map token_of tokens.now) }
{
    if tokens.is_empty() {
        return Ending::Plain;
    }
    match sign_at(tokens) {
        Some(Sign::Comma) => match register_at(behind(tokens, 1)) {
            Some(Index::Y) => Ending::Y,
            _ => Ending::Wrong(column_at(end, behind(tokens, 1))),
        },
        _ => Ending::GoesOn,
    }
}

// What follows an expression after an opening parenthesis.
fn after_bracket(end: usize, rest: &[Token<'_>]) -> Ending
    ensures { result ≡ after_bracket end (map token_of rest.now) }
{
    match sign_at(rest) {
        Some(Sign::Right) => after_right(end, behind(rest, 1)),
        Some(Sign::Comma) => after_comma(end, behind(rest, 1)),
        _ => Ending::GoesOn,
    }
}

// An operand that begins with a parenthesis.
fn read_bracketed(
    alloc: Global,
    scope: &[u8],
    end: usize,
    tokens: &[Token<'_>],
) -> Result<Shape, LineError>
    requires { 0 < length tokens.now }
    ensures { Reads form_of (bracketed scope.now end (map token_of tokens.now)) result }
{
    match read_expression(alloc, scope, end, behind(tokens, 1)) {
        Ok((expression, rest)) => match after_bracket(end, rest) {
            Ending::Plain => Ok(Shape::Indirect(expression)),
            Ending::X => Ok(Shape::ByX(expression)),
            Ending::Y => Ok(Shape::ByY(expression)),
            Ending::Wrong(column) => Err(bad(column, FaultKind::WantsRegister)),
            Ending::GoesOn => read_direct(alloc, scope, end, Width::Free, tokens),
        },
        Err(LineError::Bad(_)) => read_direct(alloc, scope, end, Width::Free, tokens),
        Err(LineError::NoMemory) => Err(LineError::NoMemory),
    }
}
