//! What is heard: what the next frame holds.
ghost use Rattle.std.specs.Prelude.{IfOk};
ghost use Rattle.tb_engine_streams.specs.Failures.{failures_of};
ghost use Rattle.tb_editor_dialogue.specs.Hearing.{Holds, HoldsContent, NextIs};

use serde_json::Value;
use std::alloc::{AllocError, Global};
use std::io::Read;
use tb_editor_frames::{Frame, FrameError, read_frame};
use tb_editor_messages::{Unreadable, read_value};
use tb_engine_streams::Tracked;

/// What a frame holds: a value, or why it holds none.
#[derive(Drop)]
pub enum Heard {
    Value(Value),
    /// Its content is no JSON.
    NoJson,
    /// Its content has too many bytes.
    TooLarge,
}

// What a content holds.
fn hear_content(alloc: Global, content: &[u8]) -> Result<Heard, AllocError>
    ensures { IfOk result (HoldsContent content.now) }
{
    match read_value(alloc, content) {
        Ok(value) => Ok(Heard::Value(value)),
        Err(Unreadable::NotJson) => Ok(Heard::NoJson),
        Err(Unreadable::NoMemory) => Err(AllocError),
    }
}

// What a frame holds.
fn hear_frame(alloc: Global, frame: &Frame) -> Result<Heard, AllocError>
    ensures { IfOk result (Holds frame.now) }
{
    match frame {
        Frame::Content(content) => hear_content(alloc, content),
        Frame::TooLong(_) => Ok(Heard::TooLarge),
    }
}

/// What the next frame holds; `None` where the input has ended before it.
pub fn hear<R: Read>(alloc: Global, reader: &mut Tracked<R>) -> Result<Option<Heard>, FrameError>
    ensures { NextIs result (R.remaining reader.old.stream) (R.remaining reader.new.stream)
        (failures_of reader.old) (failures_of reader.new) }
{
    let frame = match read_frame(alloc, reader) {
        Ok(Some(frame)) => frame,
        Ok(None) => return Ok(None),
        Err(error) => return Err(error),
    };
    match hear_frame(alloc, &frame) {
        Ok(heard) => Ok(Some(heard)),
        Err(_) => Err(FrameError::NoMemory),
    }
}
