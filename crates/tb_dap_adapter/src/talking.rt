//! What is said in turns, and counted.
ghost use Rattle.std.specs.Prelude.{◌≡◌, ◌∷◌, [], IfOk, map, option_map};
ghost use Rattle.serde_json.specs.Data.{null as null_data};
ghost use Rattle.serde_json.specs.View.{view};
ghost use Rattle.tb_dap_requests.specs.Said.{complaint_of, seen};
ghost use Rattle.tb_dap_adapter.specs.Talking as spec;

use crate::session::alone;
use serde_json::Value;
use std::alloc::{AllocError, Global};
use tb_dap_messages::{Asker, Refusal};
use tb_dap_requests::{Said, complaint, frames_of};
use tb_dap_values::Command;
use tb_editor_dialogue::Turn;

// A request that asks for nothing: events answer none.
const NOBODY: Asker<'static> = Asker {
    seq: 0,
    command: "",
};

/// The turn in which this is said to a request: its messages are counted from the next number on.
pub fn say<E: Drop>(
    alloc: Global,
    next: &mut u64,
    asker: Asker<'_>,
    said: Vec<Said>,
    end: Option<E>,
) -> Result<Turn<E>, AllocError>
    ensures { IfOk result (λ turn. spec.SaysAndEnds asker.entry.seq asker.entry.command.now (map seen said.items) end turn next.old next.new) }
{
    let count = said.len() as u64;
    if u64::MAX - *next < count {
        return Err(AllocError);
    }
    let frames = frames_of(alloc, *next, asker, said)?;
    *next += count;
    Ok(Turn {
        frames: Some(frames),
        end,
    })
}

// What is said to a frame that is no message.
fn complaints(alloc: Global, refusal: Refusal) -> Result<Vec<Said>, AllocError>
    ensures { IfOk result (λ said. map seen said.items ≡ complaint_of refusal ∷ []) }
{
    let one = complaint(alloc, refusal)?;
    alone(alloc, one)
}

/// The turn in which it is complained of what is no message.
pub fn complain<E: Drop>(
    alloc: Global,
    next: &mut u64,
    refusal: Refusal,
) -> Result<Turn<E>, AllocError>
    ensures { IfOk result (λ turn. spec.Complains refusal turn next.old next.new) }
{
    let said = complaints(alloc, refusal)?;
    say(alloc, next, NOBODY, said, None)
}

/// The turn in which nothing is said.
pub fn silence<E>() -> Turn<E>
    ensures { result ≡ spec.silence }
{
    Turn {
        frames: None,
        end: None,
    }
}

/// The arguments of a request, or null.
pub fn given<'a>(arguments: Option<&'a Value>, null: &'a Value) -> &'a Value
    requires { view null.now ≡ null_data }
    ensures { view result.now ≡ spec.given (option_map (λ v. view v.now) arguments.entry) }
{
    match arguments {
        Some(arguments) => arguments,
        None => null,
    }
}

/// The end, if a request asks for it.
pub fn end_by<E: Drop>(command: Option<Command>, end: E) -> Option<E>
    ensures { result ≡ spec.end_by command end }
{
    if matches!(command, Some(Command::Disconnect)) {
        Some(end)
    } else {
        None
    }
}
