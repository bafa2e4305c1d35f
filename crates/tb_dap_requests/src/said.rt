//! What is said, and the frames in which it is written.
ghost use Rattle.std.specs.Prelude.{◌≡◌, ◌+◌, ◌<◌, ◌^◌, IfOk, OnOk, Some, codes, length, map};
ghost use Rattle.tb_editor_messages.specs.Messages.{Says};
ghost use Rattle.tb_dap_values.specs.Bodies.{output_body};
ghost use Rattle.tb_dap_requests.specs.Said.{AddsFrame, AreFrames, complaint_of, event, message_of, seen};

use serde_json::Value;
use std::alloc::{AllocError, Global};
use tb_dap_messages::{Asker, Refusal, event, failure, success};
use tb_dap_values::output_body;
use tb_editor_frames::frame_of;

/// What is said: the answer to a request, or an event.
#[derive(Drop)]
pub enum Said {
    /// The request is done.
    Done(Option<Value>),
    /// It is refused.
    Refused(Refusal),
    /// It has no answer, and this is why.
    Unknown(&'static str),
    /// It is refused for its source, which a user is to be shown.
    Unfit(String),
    Event {
        name: &'static str,
        body: Option<Value>,
    },
}

/// A text that is written in a category.
pub fn output(alloc: Global, category: &str, text: &str) -> Result<Said, AllocError>
    ensures { IfOk result (λ s. seen s ≡ event (codes "output") (Some (output_body category.now text.now))) }
{
    let body = output_body(alloc, category, text)?;
    Ok(Said::Event {
        name: "output",
        body: Some(body),
    })
}

/// That a frame is no message.
pub fn complaint(alloc: Global, refusal: Refusal) -> Result<Said, AllocError>
    ensures { IfOk result (λ s. seen s ≡ complaint_of refusal) }
{
    let text = refusal.text();
    let text = format!(in alloc; "tbc: {text}\n")?;
    output(alloc, "stderr", &text)
}

/// The content of what is said to a request, by its number among all that is written.
pub fn content_of(
    alloc: Global,
    seq: u64,
    asker: Asker<'_>,
    said: Said,
) -> Result<Vec<u8>, AllocError>
    ensures { IfOk result (λ content. Says content.items (message_of seq asker.entry.seq asker.entry.command.now (seen said))) }
{
    match said {
        Said::Done(body) => success(alloc, seq, asker, body),
        Said::Refused(refusal) => failure(alloc, seq, asker, refusal.text(), false),
        Said::Unknown(why) => failure(alloc, seq, asker, why, false),
        Said::Unfit(why) => failure(alloc, seq, asker, &why, true),
        Said::Event { name, body } => event(alloc, seq, name, body),
    }
}

// Appends the frame of what is said.
fn push_frame(
    alloc: Global,
    frames: &mut Vec<u8>,
    seq: u64,
    asker: Asker<'_>,
    said: Said,
) -> Result<(), AllocError>
    ensures { OnOk result (AddsFrame seq asker.entry.seq asker.entry.command.now (seen said) frames.old.items frames.new.items) }
{
    let content = content_of(alloc, seq, asker, said)?;
    let frame = frame_of(alloc, &content)?;
    frames.extend_from_slice(&frame)
}

/// The frames of what is said to a request, the first of which has this number.
pub fn frames_of(
    alloc: Global,
    seq: u64,
    asker: Asker<'_>,
    said: Vec<Said>,
) -> Result<Vec<u8>, AllocError>
    requires { seq + length said.items < 2 ^ 64 }
    ensures { IfOk result (λ frames. AreFrames seq asker.entry.seq asker.entry.command.now (map seen said.items) frames.items) }
{
    let mut frames = Vec::new(alloc);
    let mut number = seq;
    for one in said {
        push_frame(alloc, &mut frames, number, asker, one)?;
        number += 1;
    }
    Ok(frames)
}
