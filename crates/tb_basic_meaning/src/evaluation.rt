//! The values of expressions.
ghost use Rattle.std.specs.Prelude.{◌≡◌, List, ℤ, map, option_map};
ghost use Rattle.tb_words.specs.Words.{word_of, negated};
ghost use Rattle.tb_basic_syntax.specs.PlainData.{expression_of};
ghost use Rattle.tb_basic_meaning.specs.Evaluation.{IsEvaluation};
ghost use Rattle.tb_basic_meaning.specs.Values.{known_value, constant, apply, has_random};

use tb_basic_syntax::{Expr, Operator};
use tb_words::{LETTERS, add, div_rem, mul, neg, sub};

/// Why an expression has no value.
#[derive(Clone, Copy, PartialEq, Eq, Debug, Drop)]
pub enum EvalError {
    /// A division is by zero.
    DivideByZero,
    /// RND occurs anywhere in the expression. This is checked first.
    HasRnd,
}

/// The value of an expression without RND, from -32,768 to 32,767, over the variables A to Z. It takes no memory.
pub fn eval(e: &Expr, variables: &[i16; LETTERS]) -> Result<i16, EvalError>
    ensures { IsEvaluation (expression_of e.now) (map word_of variables.now) result }
{
    if has_random(e) {
        return Err(EvalError::HasRnd);
    }
    known_value(e, variables).ok_or(EvalError::DivideByZero)
}

/// The value of an expression without variables and RND, as a word; `None` for any other expression and if a division
/// is by zero.
pub fn constant(e: &Expr) -> Option<u16>
    ensures { result ≡ constant (expression_of e.now) }
{
    let value = known_value(e, &[])?;
    Some(value.cast_unsigned())
}

// The value of an expression without RND over the first variables; `None` if a division is by zero.
fn known_value(e: &Expr, variables: &[i16]) -> Option<i16>
    ensures { option_map word_of result ≡ known_value (expression_of e.now) (map word_of variables.now) }
{
    match e {
        Expr::Number(n) => Some(n.cast_signed()),
        Expr::Variable(x) => variables.get(x.index()).copied(),
        Expr::Negate(e) => Some(neg(known_value(e, variables)?)),
        Expr::Binary(op, l, r) => {
            let a = known_value(l, variables)?;
            let b = known_value(r, variables)?;
            apply(*op, a, b)
        }
        Expr::Random(_) => None,
    }
}

// An operator on two values; `None` for a division by zero.
fn apply(op: Operator, a: i16, b: i16) -> Option<i16>
    ensures { option_map word_of result ≡ apply op (word_of a) (word_of b) }
{
    match op {
        Operator::Add => Some(add(a, b)),
        Operator::Subtract => Some(sub(a, b)),
        Operator::Multiply => Some(mul(a, b)),
        Operator::Divide => quotient(a, b),
    }
}

fn quotient(a: i16, b: i16) -> Option<i16>
    ensures { option_map word_of result ≡ apply Operator.Divide (word_of a) (word_of b) }
{
    let (quotient, _) = div_rem(a, b)?;
    Some(quotient)
}

/// An operator on two words read as signed, modulo 65,536; `None` for a division by zero.
pub fn apply_words(op: Operator, a: u16, b: u16) -> Option<u16>
    ensures { result ≡ apply op a b }
{
    let value = apply(op, a.cast_signed(), b.cast_signed())?;
    Some(value.cast_unsigned())
}

/// The negative of a word, modulo 65,536.
pub fn negated(word: u16) -> u16
    ensures { result ≡ negated word }
{
    neg(word.cast_signed()).cast_unsigned()
}

fn has_random(e: &Expr) -> bool
    ensures { result ≡ has_random (expression_of e.now) }
{
    match e {
        Expr::Number(_) | Expr::Variable(_) => false,
        Expr::Negate(e) => has_random(e),
        Expr::Binary(_, l, r) => has_random(l) || has_random(r),
        Expr::Random(_) => true,
    }
}
