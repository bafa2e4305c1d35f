//! The values of expressions that are typed.
ghost use Rattle.std.specs.Prelude.{◌≡◌, map, IfOk};
ghost use Rattle.tb_words.specs.Words.{word_of};
ghost use Rattle.tb_debug_inspection.specs.Values.{IsValueOfText};

use crate::readings::Variables;
use std::alloc::{AllocError, Global};
use tb_basic_meaning::{EvalError, eval};
use tb_parser::{SourceErrorKind, parse_expr};

/// The value of an expression, or why it has none.
pub type Value = Result<i16, EvalError>;

/// The value of the expression that a text is, over the values of variables; none for a text that is no expression.
pub fn value_of_text(
    alloc: Global,
    text: &[u8],
    variables: &Variables,
) -> Result<Option<Value>, AllocError>
    ensures { IfOk result (IsValueOfText (map word_of variables.now) text.now) }
{
    match parse_expr(alloc, text) {
        Ok(expression) => Ok(Some(eval(&expression, variables))),
        Err(error) => match error.kind {
            SourceErrorKind::NoMemory => Err(AllocError),
            _ => Ok(None),
        },
    }
}
