//! Expressions over the variables of a run.
ghost use Rattle.std.specs.Prelude.{◌≡◌, IfOk, Some, Ok, map};
ghost use Rattle.tb_words.specs.Words.{word_of};
ghost use Rattle.tb_debug.specs.Telling.{variables_here};
ghost use Rattle.tb_dap_views.specs.Evaluation.{HasValue, answered, seen};

use serde_json::Value;
use std::alloc::{AllocError, Global};
use tb_basic_meaning::EvalError;
use tb_dap_values::value_body;
use tb_debug::Debugger;
use tb_debug_inspection::value_of_text;

// What is said, text by text.
const DIVISION_BY_ZERO: &str = "division by zero";

const HAS_RND: &str = "has RND";

/// What a text comes to.
#[derive(Drop)]
pub enum Evaluated {
    /// Its value, as a body.
    Known(Value),
    /// Why it has none.
    Unknown(&'static str),
}

// The body of a value.
fn known(alloc: Global, value: i16) -> Result<Evaluated, AllocError>
    ensures { IfOk result (λ e. seen e ≡ answered (Some (Ok value))) }
{
    let text = format!(in alloc; "{value}")?;
    Ok(Evaluated::Known(value_body(alloc, &text)?))
}

/// What a text comes to, over the variables of a run.
pub fn evaluate(alloc: Global, debugger: &Debugger<'_>, text: &str) -> Result<Evaluated, AllocError>
    ensures { IfOk result (HasValue (map word_of (variables_here debugger.now)) text.now) }
{
    match value_of_text(alloc, text.as_bytes(), &debugger.variables())? {
        Some(Ok(value)) => known(alloc, value),
        Some(Err(EvalError::DivideByZero)) => Ok(Evaluated::Unknown(DIVISION_BY_ZERO)),
        Some(Err(EvalError::HasRnd)) => Ok(Evaluated::Unknown(HAS_RND)),
        None => Ok(Evaluated::Unknown("what?")),
    }
}
