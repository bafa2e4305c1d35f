//! The contents that answer requests.
ghost use Rattle.std.specs.Prelude.{◌≡◌, IfOk, unwrap_or};
ghost use Rattle.serde_json.specs.Data.{null};
ghost use Rattle.serde_json.specs.View.{view};
ghost use Rattle.tb_editor_messages.specs.Messages.{Says, failure_of, seen, success_of};

use crate::refusals::Refusal;
use serde_json::{Value, json};
use std::alloc::{AllocError, Global};

fn success_value(alloc: Global, id: &Value, answer: Value) -> Result<Value, AllocError>
    ensures { IfOk result (λ v. view v ≡ success_of (view id.now) (view answer)) }
{
    json!(in alloc; {"id": id, "jsonrpc": "2.0", "result": answer})
}

fn failure_value(alloc: Global, id: &Value, refusal: Refusal) -> Result<Value, AllocError>
    ensures { IfOk result (λ v. view v ≡ failure_of (view id.now) refusal) }
{
    let code = refusal.code();
    let text = refusal.text();
    json!(in alloc; {"error": {"code": code, "message": text}, "id": id, "jsonrpc": "2.0"})
}

/// The content that answers a request.
pub fn success(alloc: Global, id: &Value, answer: Value) -> Result<Vec<u8>, AllocError>
    ensures { IfOk result (λ content. Says content.items (success_of (view id.now) (view answer))) }
{
    let answer = success_value(alloc, id, answer)?;
    answer.to_vec(alloc)
}

/// The content that refuses a message, with its id if that is known.
pub fn failure(alloc: Global, id: Option<&Value>, refusal: Refusal) -> Result<Vec<u8>, AllocError>
    ensures { IfOk result (λ content. Says content.items
        (failure_of (unwrap_or (seen id.entry) null) refusal)) }
{
    let answer = match id {
        Some(id) => failure_value(alloc, id, refusal)?,
        None => failure_value(alloc, &Value::Null, refusal)?,
    };
    answer.to_vec(alloc)
}
