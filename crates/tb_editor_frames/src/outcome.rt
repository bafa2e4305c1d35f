//! How a call ends that can't read or write a frame.
ghost use Rattle.std.specs.Prelude.{◌≡◌};

use crate::reading::FrameError;
use crate::writing::WriteError;
use std::fmt;
use tb_engine_streams::{ExitStatus, Outcome, status};

/// What a reader gave is no frame, or was cut off.
#[derive(Clone, Copy, PartialEq, Eq, Debug, Drop)]
pub struct BadFrame;

impl ExitStatus for BadFrame {
    ghost use Rattle.tb_engine_streams.specs.Numbers.{FAULT};

    ghost exit_status = { λ _. FAULT };

    fn status(&self) -> u8 {
        status::FAULT
    }
}

impl fmt::Display for BadFrame {
    fn fmt<W: fmt::Write>(&self, f: &mut fmt::Formatter<W>) -> fmt::Result {
        f.write_str("bad frame")
    }
}

impl<E> From<FrameError> for Outcome<E, BadFrame> {
    ghost use Rattle.tb_editor_frames.specs.Outcomes.{unread};

    ghost from_gives = { λ error outcome. outcome ≡ unread error };

    fn from(error: FrameError) -> Outcome<E, BadFrame> {
        match error {
            FrameError::Fault => Outcome::ReadFault,
            FrameError::Bad => Outcome::Refused(BadFrame),
            FrameError::NoMemory => Outcome::NoMemory,
        }
    }
}

impl<E> From<WriteError> for Outcome<E, BadFrame> {
    ghost use Rattle.tb_editor_frames.specs.Outcomes.{unwritten};

    ghost from_gives = { λ error outcome. outcome ≡ unwritten error };

    fn from(error: WriteError) -> Outcome<E, BadFrame> {
        match error {
            WriteError::Fault => Outcome::WriteFault,
            WriteError::NoMemory => Outcome::NoMemory,
        }
    }
}
