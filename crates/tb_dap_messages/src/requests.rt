//! Messages, and what they ask for.
ghost use Rattle.std.specs.Prelude.{◌≡◌, option_map};
ghost use Rattle.serde_json.specs.View.{view};
ghost use Rattle.tb_dap_messages.specs.Requests.{asked_in, asked_of};
ghost use Rattle.tb_dap_messages.specs.Requests as spec;

use serde_json::Value;

/// What a message asks for.
#[derive(Clone, Copy, Drop)]
pub enum Message<'a> {
    /// Something is to be done, and answered.
    Request {
        /// Its number, from 0.
        seq: u64,
        command: &'a str,
        arguments: Option<&'a Value>,
    },
    /// It answers or tells something.
    Passed,
    /// It is none of these.
    NoMessage,
}

// A text that is a member of a value.
fn text_in<'a>(value: &'a Value, name: &str) -> Option<&'a str>
    ensures { option_map (λ t. t.now) result ≡ spec.text_in (view value.now) name.now }
{
    value.get(name).and_then(Value::as_str)
}

// What a message asks for that has a number.
fn numbered(value: &Value, seq: u64) -> Message<'_>
    ensures { asked_of result ≡ spec.numbered (view value.now) seq }
{
    match text_in(value, "command") {
        Some(command) => Message::Request {
            seq,
            command,
            arguments: value.get("arguments"),
        },
        None => Message::NoMessage,
    }
}

// What a request asks for.
fn request_in(value: &Value) -> Message<'_>
    ensures { asked_of result ≡ spec.request_in (view value.now) }
{
    match value.get("seq").and_then(Value::as_u64) {
        Some(seq) => numbered(value, seq),
        None => Message::NoMessage,
    }
}

/// What a message asks for.
pub fn message_of(value: &Value) -> Message<'_>
    ensures { asked_of result ≡ asked_in (view value.now) }
{
    match text_in(value, "type") {
        Some("request") => request_in(value),
        Some("response" | "event") => Message::Passed,
        _ => Message::NoMessage,
    }
}
