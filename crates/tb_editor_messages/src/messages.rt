//! Messages, and what they ask for.
ghost use Rattle.std.specs.Prelude.{◌≡◌, Bool, Option, Some, None};
ghost use Rattle.serde_json.specs.Data.{Data};
ghost use Rattle.serde_json.specs.View.{view};
ghost use Rattle.tb_editor_messages.specs.Messages.{ReadsValue, Tells, TellsBy, answers, good_id, is_id, seen};

use serde_json::Value;
use std::alloc::Global;

/// Why a content gives no value.
#[derive(Clone, Copy, Debug, PartialEq, Eq, Drop)]
pub enum Unreadable {
    /// It is no JSON in UTF-8.
    NotJson,
    /// A growth was refused.
    NoMemory,
}

/// What a message asks for.
#[derive(Drop)]
pub enum Message<'a> {
    /// Something is to be answered.
    Request {
        id: &'a Value,
        method: &'a str,
        params: Option<&'a Value>,
    },
    /// Something is told.
    Notification {
        method: &'a str,
        params: Option<&'a Value>,
    },
    /// A request of ours is answered.
    Answer,
    /// It is none of these; where it has an id that can be answered, with that.
    NoMessage {
        id: Option<&'a Value>,
    },
}

/// Reads a content as JSON.
pub fn read_value(alloc: Global, content: &[u8]) -> Result<Value, Unreadable>
    ensures { ReadsValue content.now result }
{
    match Value::from_slice(alloc, content) {
        Ok(value) => Ok(value),
        Err(error) => {
            if error.is_memory() {
                Err(Unreadable::NoMemory)
            } else {
                Err(Unreadable::NotJson)
            }
        }
    }
}

// Whether an id is an integer of 64 bits or a text.
fn is_id(id: &Value) -> bool
    ensures { result ≡ is_id (view id.now) }
{
    id.is_string() || id.is_u64() || id.is_i64()
}

// An id that can be answered.
fn good_id(id: Option<&Value>) -> Option<&Value>
    ensures { seen result ≡ good_id (seen id.entry) }
{
    match id {
        Some(id) if is_id(id) => Some(id),
        _ => None,
    }
}

// What a message with a method asks for.
fn with_method<'a>(
    method: &'a Value,
    id: Option<&'a Value>,
    params: Option<&'a Value>,
) -> Message<'a>
    ensures { (answers : Bool) → TellsBy (Some (view method.now)) (seen id.entry) (seen params.entry) answers result }
{
    match (method.as_str(), id) {
        (Some(method), None) => Message::Notification { method, params },
        (Some(method), Some(id)) if is_id(id) => Message::Request { id, method, params },
        (_, id) => Message::NoMessage { id: good_id(id) },
    }
}

// Whether a message has a result or an error.
fn answers(value: &Value) -> bool
    ensures { result ≡ answers (view value.now) }
{
    value.get("result").is_some() || value.get("error").is_some()
}

// What a message without a method is, by whether it has a result or an error.
fn without_method<'a>(id: Option<&'a Value>, answers: bool) -> Message<'a>
    ensures { (params : Option Data) → TellsBy None (seen id.entry) params answers result }
{
    if answers {
        Message::Answer
    } else {
        Message::NoMessage { id: good_id(id) }
    }
}

/// What a message asks for.
pub fn message_of(value: &Value) -> Message<'_>
    ensures { Tells (view value.now) result }
{
    let id = value.get("id");
    match value.get("method") {
        Some(method) => with_method(method, id, value.get("params")),
        None => without_method(id, answers(value)),
    }
}
