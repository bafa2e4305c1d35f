//! Frames that are written.
ghost use Rattle.std.specs.Prelude.{◌≡◌, IfOk, OnOk, OnErr, is_err};
ghost use Rattle.tb_editor_frames.specs.Frames.{frame_of, WritesFrame};
ghost use Rattle.tb_engine_streams.specs.Failures.{failures_of};

use std::alloc::{AllocError, Global};
use std::io::Write;
use tb_engine_streams::{Tracked, write_output};

/// Why a frame was not written.
#[derive(Clone, Copy, Debug, PartialEq, Eq, Drop)]
pub enum WriteError {
    /// The writer failed.
    Fault,
    /// A growth was refused.
    NoMemory,
}

/// The frame of a content.
pub fn frame_of(alloc: Global, content: &[u8]) -> Result<Vec<u8>, AllocError>
    ensures { IfOk result (λ frame. frame.items ≡ frame_of content.now) }
{
    let length = content.len();
    let mut frame = Vec::new(alloc);
    frame.extend_from_slice(format!(in alloc; "Content-Length: {length}\r\n\r\n")?.as_bytes())?;
    frame.extend_from_slice(content)?;
    Ok(frame)
}

/// Writes the frame of a content, and flushes.
pub fn write_frame<W: Write>(
    alloc: Global,
    writer: &mut Tracked<W>,
    content: &[u8],
) -> Result<(), WriteError>
    ensures { WritesFrame content.now result (W.contents writer.old.stream) (W.contents writer.new.stream)
        (failures_of writer.old) (failures_of writer.new) }
{
    let Ok(frame) = frame_of(alloc, content) else {
        return Err(WriteError::NoMemory);
    };
    match write_output(writer, frame.as_slice()) {
        Ok(()) => Ok(()),
        Err(_) => Err(WriteError::Fault),
    }
}
