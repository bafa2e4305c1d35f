//! The contents of answers and events, each with a number of its own.
ghost use Rattle.std.specs.Prelude.{◌≡◌, IfOk, option_map};
ghost use Rattle.serde_json.specs.View.{view};
ghost use Rattle.tb_editor_messages.specs.Messages.{Says};
ghost use Rattle.tb_dap_messages.specs.Envelopes.{event_of, failure_of, reason_of, success_of};

use serde_json::{Value, json};
use std::alloc::{AllocError, Global};

/// A request that is answered.
#[derive(Clone, Copy, Drop)]
pub struct Asker<'a> {
    /// Its number.
    pub seq: u64,
    pub command: &'a str,
}

fn success_value(
    alloc: Global,
    seq: u64,
    asker: Asker<'_>,
    body: Option<Value>,
) -> Result<Value, AllocError>
    ensures { IfOk result (λ v. view v ≡ success_of seq asker.entry.seq asker.entry.command.now (option_map view body)) }
{
    let asked = asker.seq;
    let command = asker.command;
    match body {
        Some(body) => json!(in alloc; {
            "body": body,
            "command": command,
            "request_seq": asked,
            "seq": seq,
            "success": true,
            "type": "response"
        }),
        None => json!(in alloc; {
            "command": command,
            "request_seq": asked,
            "seq": seq,
            "success": true,
            "type": "response"
        }),
    }
}

// Why a request is refused, as clients show it.
fn reason_value(alloc: Global, text: &str, is_shown: bool) -> Result<Value, AllocError>
    ensures { IfOk result (λ v. view v ≡ reason_of text.now is_shown) }
{
    json!(in alloc; {"error": {"format": text, "id": 1, "showUser": is_shown}})
}

fn failure_value(
    alloc: Global,
    seq: u64,
    asker: Asker<'_>,
    text: &str,
    is_shown: bool,
) -> Result<Value, AllocError>
    ensures { IfOk result (λ v. view v ≡ failure_of seq asker.entry.seq asker.entry.command.now text.now is_shown) }
{
    let asked = asker.seq;
    let command = asker.command;
    let reason = reason_value(alloc, text, is_shown)?;
    json!(in alloc; {
        "body": reason,
        "command": command,
        "message": text,
        "request_seq": asked,
        "seq": seq,
        "success": false,
        "type": "response"
    })
}

fn event_value(
    alloc: Global,
    seq: u64,
    name: &str,
    body: Option<Value>,
) -> Result<Value, AllocError>
    ensures { IfOk result (λ v. view v ≡ event_of seq name.now (option_map view body)) }
{
    match body {
        Some(body) => json!(in alloc; {"body": body, "event": name, "seq": seq, "type": "event"}),
        None => json!(in alloc; {"event": name, "seq": seq, "type": "event"}),
    }
}

/// The content that answers a request, by its number among all that is written.
pub fn success(
    alloc: Global,
    seq: u64,
    asker: Asker<'_>,
    body: Option<Value>,
) -> Result<Vec<u8>, AllocError>
    ensures { IfOk result (λ content. Says content.items (success_of seq asker.entry.seq asker.entry.command.now (option_map view body))) }
{
    success_value(alloc, seq, asker, body)?.to_vec(alloc)
}

/// The content that refuses a request with a text, and tells whether a client is to show it to its user.
pub fn failure(
    alloc: Global,
    seq: u64,
    asker: Asker<'_>,
    text: &str,
    is_shown: bool,
) -> Result<Vec<u8>, AllocError>
    ensures { IfOk result (λ content. Says content.items (failure_of seq asker.entry.seq asker.entry.command.now text.now is_shown)) }
{
    failure_value(alloc, seq, asker, text, is_shown)?.to_vec(alloc)
}

/// The content of an event.
pub fn event(
    alloc: Global,
    seq: u64,
    name: &str,
    body: Option<Value>,
) -> Result<Vec<u8>, AllocError>
    ensures { IfOk result (λ content. Says content.items (event_of seq name.now (option_map view body))) }
{
    event_value(alloc, seq, name, body)?.to_vec(alloc)
}
