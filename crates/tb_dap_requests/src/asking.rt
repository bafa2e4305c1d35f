//! What requests ask for, and the answers to those that only look.
ghost use Rattle.std.specs.Prelude.{◌≡◌, ◌≤◌, IfOk, IfSome, option_map};
ghost use Rattle.serde_json.specs.View.{view};
ghost use Rattle.tb_dap_requests.specs.Asking as spec;
ghost use Rattle.tb_dap_requests.specs.Said.{seen};

use crate::said::Said;
use serde_json::Value;
use std::alloc::{AllocError, Global};
use tb_dap_messages::Refusal;
use tb_dap_values::{
    number_in, offset_in, optional_text, text_in, unwatchable_body, watchable_body,
};
use tb_dap_views::{
    CodeRange, SourceFile, code_value, memory_value, place_of, scope_value, shifted, stack_value,
};
use tb_debug::Debugger;

/// How many instructions are shown at most.
const MOST_INSTRUCTIONS: u64 = 65_536;

/// What `evaluate` asks for.
#[derive(Clone, Copy, Debug, Drop)]
pub enum Question<'a> {
    /// A line is typed.
    Typed(&'a str),
    Expression(&'a str),
}

// A text without one space before it.
fn without_space(text: &str) -> &str
    ensures { result.now ≡ spec.without_space text.now }
{
    match text.strip_prefix(' ') {
        Some(rest) => rest,
        None => text,
    }
}

// What a text in the console asks for.
fn console_question(text: &str) -> Question<'_>
    ensures { spec.asked_by result ≡ spec.console_question text.now }
{
    match text.strip_prefix('>') {
        Some(line) => Question::Typed(without_space(line)),
        None => Question::Expression(text),
    }
}

// What a text in a context asks for.
fn question_by<'a>(context: Option<&str>, text: &'a str) -> Question<'a>
    ensures { spec.asked_by result ≡ spec.question_by (option_map (λ t. t.now) context.entry) text.now }
{
    match context {
        Some("repl") => console_question(text),
        _ => Question::Expression(text),
    }
}

/// What `evaluate` asks for.
pub fn question_in(arguments: &Value) -> Option<Question<'_>>
    ensures { option_map spec.asked_by result ≡ spec.question_in (view arguments.now) }
{
    let text = text_in(arguments, "expression")?;
    let context = optional_text(arguments, "context")?;
    Some(question_by(context, text))
}

// An answer with this body, or that the arguments have another form.
fn with_body(body: Option<Value>) -> Said
    ensures { seen result ≡ spec.with_body (option_map view body) }
{
    match body {
        Some(body) => Said::Done(Some(body)),
        None => Said::Refused(Refusal::BadArguments),
    }
}

/// The frames that are asked for.
pub fn stack(
    alloc: Global,
    file: &SourceFile<'_>,
    debugger: &Debugger<'_>,
    arguments: &Value,
) -> Result<Said, AllocError>
    ensures { IfOk result (λ s. seen s ≡ spec.stack file.now debugger.now (view arguments.now)) }
{
    let start = number_in(arguments, "startFrame", 0);
    let levels = number_in(arguments, "levels", 0);
    match (start, levels) {
        (Some(start), Some(levels)) => {
            Ok(Said::Done(Some(stack_value(alloc, file, debugger, start, levels)?)))
        }
        _ => Ok(Said::Refused(Refusal::BadArguments)),
    }
}

/// What a scope shows.
pub fn variables(
    alloc: Global,
    debugger: &Debugger<'_>,
    arguments: &Value,
) -> Result<Said, AllocError>
    ensures { IfOk result (λ s. seen s ≡ spec.variables debugger.now (view arguments.now)) }
{
    match number_in(arguments, "variablesReference", 0) {
        Some(scope) => Ok(with_body(scope_value(alloc, debugger, scope)?)),
        None => Ok(Said::Refused(Refusal::BadArguments)),
    }
}

// The place in memory that arguments name, with the offset; none where they have another form.
fn place_in(arguments: &Value) -> Option<Option<u32>>
    ensures { result ≡ spec.place_in (view arguments.now) }
{
    let place = place_of(text_in(arguments, "memoryReference")?)?;
    let offset = offset_in(arguments, "offset")?;
    Some(shifted(place, offset))
}

// A number from 0 that must be there.
fn needed(arguments: &Value, name: &str) -> Option<u64>
    ensures { result ≡ spec.needed (view arguments.now) name.now }
{
    arguments.get(name)?.as_u64()
}

/// Bytes of memory.
pub fn memory(alloc: Global, debugger: &Debugger<'_>, arguments: &Value) -> Result<Said, AllocError>
    ensures { IfOk result (λ s. seen s ≡ spec.memory debugger.now (view arguments.now)) }
{
    match (place_in(arguments), needed(arguments, "count")) {
        (Some(place), Some(count)) => {
            Ok(Said::Done(Some(memory_value(alloc, debugger, place, count)?)))
        }
        _ => Ok(Said::Refused(Refusal::BadArguments)),
    }
}

// How many instructions, or none for more than are shown.
fn count_by(count: u64) -> Option<u32>
    ensures { result ≡ spec.count_by count }
{
    if count <= MOST_INSTRUCTIONS {
        Some(count as u32)
    } else {
        None
    }
}

// The code that arguments name.
fn range_in(arguments: &Value) -> Option<CodeRange>
    ensures value { result ≡ spec.range_in (view arguments.now) }
    ensures few { IfSome result (λ r. r.count ≤ 65536) }
{
    let place = place_in(arguments)?;
    let offset = offset_in(arguments, "instructionOffset")?;
    let count = count_by(needed(arguments, "instructionCount")?)?;
    Some(CodeRange {
        place,
        offset,
        count,
    })
}

/// Instructions.
pub fn code(
    alloc: Global,
    file: &SourceFile<'_>,
    debugger: &Debugger<'_>,
    arguments: &Value,
) -> Result<Said, AllocError>
    ensures { IfOk result (λ s. seen s ≡ spec.code file.now debugger.now (view arguments.now)) }
{
    match range_in(arguments) {
        Some(range) => Ok(Said::Done(Some(code_value(alloc, file, debugger, range)?))),
        None => Ok(Said::Refused(Refusal::BadArguments)),
    }
}

// The capital of the letter that a name is.
fn letter_in(name: &[u8]) -> Option<u8>
    ensures { result ≡ spec.letter_in name.now }
{
    match *name {
        [byte @ b'A'..=b'Z'] => Some(byte),
        [byte @ b'a'..=b'z'] => Some(byte - 32),
        _ => None,
    }
}

// Whether names in a scope are those of variables.
fn has_variables(scope: u64) -> bool
    ensures { result ≡ spec.has_variables scope }
{
    scope != 2 && scope != 3
}

// That a variable can be watched, or nothing else.
fn watchable_value(alloc: Global, letter: Option<u8>) -> Result<Value, AllocError>
    ensures { IfOk result (λ v. view v ≡ spec.watchable_value letter) }
{
    match letter {
        Some(byte) => {
            let letter = char::from(byte);
            let name = format!(in alloc; "{letter}")?;
            watchable_body(alloc, &name)
        }
        None => unwatchable_body(alloc),
    }
}

// Which variable a name is in a scope.
fn variable_in(name: &str, scope: u64) -> Option<u8>
    ensures { result ≡ spec.variable_in name.now scope }
{
    if has_variables(scope) {
        letter_in(name.as_bytes())
    } else {
        None
    }
}

/// Whether a variable can be watched.
pub fn watchable(alloc: Global, arguments: &Value) -> Result<Said, AllocError>
    ensures { IfOk result (λ s. seen s ≡ spec.watchable (view arguments.now)) }
{
    match (
        text_in(arguments, "name"),
        number_in(arguments, "variablesReference", 0),
    ) {
        (Some(name), Some(scope)) => {
            let letter = variable_in(name, scope);
            Ok(Said::Done(Some(watchable_value(alloc, letter)?)))
        }
        _ => Ok(Said::Refused(Refusal::BadArguments)),
    }
}
