//! Who talks, and the dialogue.
ghost use Rattle.std.specs.Prelude.{Result};
ghost use Rattle.tb_engine_streams.specs.Failures.{failures_of};
ghost use Rattle.tb_editor_dialogue.specs.Dialogue.{Converses, TakesFrame, TakesHeard, WritesFrames, moment, streams};

use crate::hearing::{Heard, hear};
use std::alloc::{AllocError, Global};
use std::io::{Read, Write};
use tb_editor_frames::BadFrame;
use tb_engine_streams::{Outcome, StreamFailure, Tracked, write_output};

/// What comes of what is heard.
#[derive(Drop)]
pub struct Turn<E> {
    /// The frames that are written, if anything is said.
    pub frames: Option<Vec<u8>>,
    /// How the dialogue ends, if it ends with it.
    pub end: Option<E>,
}

/// Who answers in a dialogue.
pub trait Talker {
    ghost use Rattle.tb_editor_dialogue.specs.declared.hearing.Heard.{Heard};
    ghost use Rattle.tb_editor_dialogue.specs.declared.talking.Turn.{Turn};
    ghost use Rattle.std.specs.declared.alloc.AllocError.{AllocError};

    /// How a dialogue ends that it ends, or whose input does.
    type End: Drop;

    // what comes of what it hears, or that memory ran out, and what it is then
    ghost takes: { Self → Heard → Result (Turn Self.End) AllocError → Self → Type 0 };

    // how a dialogue with it ends as the input does
    ghost ends: { Self → Self.End → Type 0 };

    /// Takes what it hears.
    fn take(&mut self, alloc: Global, heard: &Heard) -> Result<Turn<Self::End>, AllocError>
        ensures { takes self.old heard.now result self.new };

    /// How a dialogue with it ends as the input does.
    fn end(&self) -> Self::End
        ensures { ends self.now result };
}

/// Writes frames, if there are any.
pub fn write_frames<W: Write>(
    writer: &mut Tracked<W>,
    frames: Option<Vec<u8>>,
) -> Result<(), StreamFailure>
    ensures { WritesFrames frames result (W.contents writer.old.stream) (W.contents writer.new.stream)
        (failures_of writer.old) (failures_of writer.new) }
{
    match frames {
        Some(frames) => write_output(writer, &frames),
        None => Ok(()),
    }
}

// Has it take what it hears, and writes what comes of that: how the dialogue ends, if it does.
fn take_heard<T: Talker, W: Write>(
    alloc: Global,
    talker: &mut T,
    heard: &Heard,
    writer: &mut Tracked<W>,
) -> Result<(), Outcome<T::End, BadFrame>>
    ensures { TakesHeard T.takes talker.old heard.now result talker.new (W.contents writer.old.stream) (W.contents writer.new.stream)
        (failures_of writer.old) (failures_of writer.new) }
{
    let Turn { frames, end } = match talker.take(alloc, heard) {
        Ok(turn) => turn,
        Err(_) => return Err(Outcome::NoMemory),
    };
    match write_frames(writer, frames) {
        Ok(()) => match end {
            Some(end) => Err(Outcome::Ended(end)),
            None => Ok(()),
        },
        Err(_) => Err(Outcome::WriteFault),
    }
}

// Reads a frame, and has it take what that holds: how the dialogue ends, if it does.
fn take_frame<T: Talker, R: Read, W: Write>(
    alloc: Global,
    talker: &mut T,
    reader: &mut Tracked<R>,
    writer: &mut Tracked<W>,
) -> Result<(), Outcome<T::End, BadFrame>>
    ensures { TakesFrame T.takes T.ends
        (moment talker.old (streams (R.remaining reader.old.stream) (failures_of reader.old) (W.contents writer.old.stream) (failures_of writer.old)))
        result
        (moment talker.new (streams (R.remaining reader.new.stream) (failures_of reader.new) (W.contents writer.new.stream) (failures_of writer.new))) }
{
    match hear(alloc, reader) {
        Ok(Some(heard)) => take_heard(alloc, talker, &heard, writer),
        Ok(None) => Err(Outcome::Ended(talker.end())),
        Err(error) => Err(Outcome::from(error)),
    }
}

/// Leads a dialogue up to its end: what each frame holds is answered before the next one is read.
pub fn converse<T: Talker, R: Read, W: Write>(
    alloc: Global,
    talker: &mut T,
    reader: &mut Tracked<R>,
    writer: &mut Tracked<W>,
) -> Outcome<T::End, BadFrame>
    ensures { Converses T.takes T.ends
        (moment talker.old (streams (R.remaining reader.old.stream) (failures_of reader.old) (W.contents writer.old.stream) (failures_of writer.old)))
        result
        (moment talker.new (streams (R.remaining reader.new.stream) (failures_of reader.new) (W.contents writer.new.stream) (failures_of writer.new))) }
{
    for _ in 0..u64::MAX {
        if let Err(outcome) = take_frame(alloc, talker, reader, writer) {
            return outcome;
        }
    }
    Outcome::Ended(talker.end())
}
