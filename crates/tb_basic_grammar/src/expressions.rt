//! Expressions, read by recursive descent.
ghost use Rattle.std.specs.Prelude.{◌≡◌, ℕ, false, ◌∷◌, [], ◌+◌, ◌<◌, ◌≤◌, List, length, Option, Some, None, Ok, IfOk, MatchOption, codes};
ghost use Rattle.tb_words.specs.Letters.{letter_index};
ghost use Rattle.tb_basic_syntax.specs.PlainData.{expression_of};
ghost use Rattle.tb_basic_syntax.specs.Source.{Expression};
ghost use Rattle.tb_basic_grammar.specs.Grammar.{Whole, Term, Reads};
ghost use Rattle.tb_basic_grammar.specs.Reading.{starts_digit, behind, behind_word, literal_at, letter_at, variable_at};
ghost use Rattle.tb_basic_grammar.specs.Reading.{factor_at, term_at, whole_at, operator_at, group_by, signed_by, whole_by};
ghost use Rattle.tb_basic_grammar.specs.Reading.{front_of, expression_in, joined as join};
ghost use Rattle.tb_basic_grammar.specs.ReadValues.{seen, whole_seen, Gives, Answers};

use crate::read_error::{ReadError, left_at};
use std::alloc::{AllocError, Global};
use std::boxed::Box;
use tb_basic_syntax::{Expr, Operator};
use tb_words::Letter;

/// An expression at the front of a text, and what is left after it.
#[derive(Drop)]
pub(crate) struct Front<'a> {
    pub(crate) expr: Expr,
    /// The number of bytes left where the first literal above 65,535 begins; `None` if there is none.
    pub(crate) large: Option<usize>,
    pub(crate) rest: &'a [u8],
}

pub(crate) fn behind(byte: u8, text: &[u8]) -> Option<&[u8]>
    ensures { MatchOption result (behind byte text.now ≡ None) (λ rest. behind byte text.now ≡ Some rest.now) }
{
    match text {
        [first, rest @ ..] if *first == byte => Some(rest),
        _ => None,
    }
}

pub(crate) fn behind_word<'a>(word: &[u8], text: &'a [u8]) -> Option<&'a [u8]>
    ensures { MatchOption result (behind_word word.now text.entry.now ≡ None)
        (λ rest. behind_word word.now text.entry.now ≡ Some rest.now) }
{
    text.strip_prefix(word)
}

fn split_digit(text: &[u8]) -> Option<(u8, &[u8])>
    ensures { MatchOption result (starts_digit text.now ≡ false) (λ p. (p.0 < 10) × (text.now ≡ (48 + p.0) ∷ p.1.now)) }
{
    match text {
        [digit @ b'0'..=b'9', rest @ ..] => Some((*digit - b'0', rest)),
        _ => None,
    }
}

fn starts_with_digit(text: &[u8]) -> bool
    ensures { result ≡ starts_digit text.now }
{
    matches!(text, [b'0'..=b'9', ..])
}

// The literal at the front; a larger one counts as 65,536.
fn literal(text: &[u8]) -> Front<'_>
    ensures { seen result ≡ literal_at text.now }
{
    let mut value: u32 = 0;
    let mut rest = text;
    while let Some((digit, tail)) = split_digit(rest) {
        value = (10 * value + u32::from(digit)).min(65_536);
        rest = tail;
    }
    match u16::try_from(value) {
        Ok(word) => Front {
            expr: Expr::Number(word),
            large: None,
            rest,
        },
        Err(_) => Front {
            expr: Expr::Number(u16::MAX),
            large: Some(text.len()),
            rest,
        },
    }
}

pub(crate) fn split_letter(text: &[u8]) -> Option<(Letter, &[u8])>
    ensures { MatchOption result (letter_at text.now ≡ None) (λ p. letter_at text.now ≡ Some (letter_index p.0, p.1.now)) }
{
    match text {
        [byte, rest @ ..] if byte.is_ascii_uppercase() => Some((Letter::read(*byte)?, rest)),
        _ => None,
    }
}

#[tactic(auto, unfolding(crate::specs::Reading::variable_at))]
fn variable(text: &[u8]) -> Result<Front<'_>, ReadError>
    ensures { Gives seen result (variable_at text.now) }
{
    let (letter, rest) = split_letter(text).ok_or(ReadError::NoReading(left_at(text)))?;
    Ok(Front {
        expr: Expr::Variable(letter),
        large: None,
        rest,
    })
}

#[cycle(expression)]
#[tactic(auto, unfolding(crate::specs::Reading::group_by))]
fn group(alloc: Global, nesting: usize, text: &[u8]) -> Result<Front<'_>, ReadError>
    ensures { Gives seen result (group_by (whole_at nesting) text.now) }
{
    let inner = behind(b'(', text).ok_or(ReadError::NoReading(left_at(text)))?;
    let found = whole(alloc, nesting, inner)?;
    let rest = behind(b')', found.rest).ok_or(ReadError::NoReading(left_at(found.rest)))?;
    Ok(Front {
        expr: found.expr,
        large: found.large,
        rest,
    })
}

// RND is one word wherever an operand may begin, whether a parenthesis follows it or not.
#[cycle(expression)]
#[tactic(auto, unfolding(crate::specs::Reading::factor_by))]
fn factor(alloc: Global, nesting: usize, text: &[u8]) -> Result<Front<'_>, ReadError>
    ensures { Gives seen result (factor_at nesting text.now) }
{
    if starts_with_digit(text) {
        return Ok(literal(text));
    }
    if let Some(bound) = behind_word(b"RND", text) {
        let found = group(alloc, nesting, bound)?;
        return Ok(Front {
            expr: Expr::Random(Box::new(alloc, found.expr)?),
            large: found.large,
            rest: found.rest,
        });
    }
    match behind(b'(', text) {
        Some(_) => group(alloc, nesting, text),
        None => variable(text),
    }
}

fn operator_of(text: &[u8]) -> Option<(Operator, &[u8])>
    ensures { MatchOption result (operator_at Term text.now ≡ None) (λ p. operator_at Term text.now ≡ Some (p.0, p.1.now)) }
{
    match text {
        [b'*', rest @ ..] => Some((Operator::Multiply, rest)),
        [b'/', rest @ ..] => Some((Operator::Divide, rest)),
        _ => None,
    }
}

fn sign_of(text: &[u8]) -> Option<(Operator, &[u8])>
    ensures { MatchOption result (operator_at Whole text.now ≡ None) (λ p. operator_at Whole text.now ≡ Some (p.0, p.1.now)) }
{
    match text {
        [b'+', rest @ ..] => Some((Operator::Add, rest)),
        [b'-', rest @ ..] => Some((Operator::Subtract, rest)),
        _ => None,
    }
}

fn joined<'a>(
    alloc: Global,
    op: Operator,
    left: Front<'_>,
    right: Front<'a>,
) -> Result<Front<'a>, AllocError>
    ensures { IfOk result (λ f. seen f ≡ join op (seen left.entry) (seen right.entry)) }
{
    Ok(Front {
        expr: Expr::Binary(
            op,
            Box::new(alloc, left.expr)?,
            Box::new(alloc, right.expr)?,
        ),
        large: left.large.or(right.large),
        rest: right.rest,
    })
}

#[cycle(expression)]
#[tactic(auto, unfolding(crate::specs::Reading::term_by))]
fn term(alloc: Global, nesting: usize, text: &[u8]) -> Result<Front<'_>, ReadError>
    ensures { Gives seen result (term_at nesting text.now) }
{
    let mut found = factor(alloc, nesting, text)?;
    while let Some((op, operand)) = operator_of(found.rest) {
        let right = factor(alloc, nesting, operand)?;
        found = joined(alloc, op, found, right)?;
    }
    Ok(found)
}

#[cycle(expression)]
fn signed(alloc: Global, nesting: usize, text: &[u8]) -> Result<Front<'_>, ReadError>
    ensures { Gives seen result (signed_by (term_at nesting) text.now) }
{
    match text {
        [b'+', operand @ ..] => term(alloc, nesting, operand),
        [b'-', operand @ ..] => {
            let found = term(alloc, nesting, operand)?;
            Ok(Front {
                expr: Expr::Negate(Box::new(alloc, found.expr)?),
                large: found.large,
                rest: found.rest,
            })
        }
        _ => term(alloc, nesting, text),
    }
}

#[cycle(expression)]
#[tactic(auto, unfolding(crate::specs::Reading::whole_by))]
fn sum(alloc: Global, nesting: usize, text: &[u8]) -> Result<Front<'_>, ReadError>
    ensures { Gives seen result (whole_by (factor_at nesting) text.now) }
{
    let mut found = signed(alloc, nesting, text)?;
    while let Some((op, operand)) = sign_of(found.rest) {
        let right = term(alloc, nesting, operand)?;
        found = joined(alloc, op, found, right)?;
    }
    Ok(found)
}

// The measure is the nesting: each parenthesis takes a byte, so a text's length is enough.
#[cycle(expression)]
#[tactic(auto, unfolding(crate::specs::Reading::whole_at))]
fn whole(alloc: Global, nesting: usize, text: &[u8]) -> Result<Front<'_>, ReadError>
    ensures { Gives seen result (whole_at nesting text.now) }
{
    if nesting == 0 {
        return Err(ReadError::NoReading(left_at(text)));
    }
    sum(alloc, nesting - 1, text)
}

#[tactic(auto, unfolding(crate::specs::Reading::front_of))]
pub(crate) fn leading(alloc: Global, text: &[u8]) -> Result<Front<'_>, ReadError>
    ensures { Gives seen result (front_of text.now) }
{
    whole(alloc, text.len() + 1, text)
}

/// An expression that was read.
#[derive(Debug, Drop)]
pub struct ReadExpression {
    /// The expression, with 65,535 for each literal above it.
    pub expr: Expr,
    /// The number of bytes left where the first literal above 65,535 begins; `None` if there is none.
    pub large: Option<usize>,
}

#[tactic(auto, unfolding(crate::specs::Reading::expression_in))]
pub(crate) fn expression(alloc: Global, text: &[u8]) -> Result<ReadExpression, ReadError>
    ensures { Gives whole_seen result (expression_in text.now) }
{
    let found = leading(alloc, text)?;
    match found.rest {
        [] => Ok(ReadExpression {
            expr: found.expr,
            large: found.large,
        }),
        [_, ..] => Err(ReadError::NoReading(left_at(found.rest))),
    }
}

/// The expression that a squeezed text is (Tiny BASIC User Manual, the grammar of expressions). NoReading if it is none,
/// NoMemory only if memory runs out.
pub fn read_expression(alloc: Global, text: &[u8]) -> Result<ReadExpression, ReadError>
    // What is read is in the grammar.
    ensures found { IfOk result (λ r. Reads Whole text.now (expression_of r.expr) r.large []) }
    // What is in the grammar is read, unless memory runs out.
    ensures only { (e : Expression) (large : Option ℕ) → Reads Whole text.now e large []
        → Answers result (λ r. (expression_of r.expr ≡ e) × (r.large ≡ large)) }
{
    expression(alloc, text)
}
