//! What an engine made, and how it is written.
ghost use Rattle.std.specs.Prelude.{◌≡◌};
ghost use Rattle.tb_engine_streams.specs.Uses.{use_of};
ghost use Rattle.tb_engines.specs.Outcomes.{Answers};
ghost use Rattle.tb_engines.specs.Delivery.{Shows, DeliveryFaults};

use crate::outcome::{End, Outcome, Refusal};
use std::alloc::AllocError;
use std::io::Write;
use tb_engine_streams::{Tracked, write_output};

/// A text that is to be written, and how the engine ends after it.
#[derive(Drop)]
pub struct Text {
    pub bytes: Vec<u8>,
    pub end: End,
}

/// Why there is no text.
#[derive(Clone, Copy, PartialEq, Eq, Debug, Drop)]
pub enum NoText {
    Refused(Refusal),
    NoMemory,
}

impl From<AllocError> for NoText {
    ghost use Rattle.tb_engines.specs.declared.delivery.NoText.TheVariants.{NoMemory};

    ghost from_gives = { λ _ stop. stop ≡ NoMemory };

    fn from(_error: AllocError) -> NoText {
        NoText::NoMemory
    }
}

/// How a call ends if there is no text.
impl<E> From<NoText> for tb_engine_streams::Outcome<E, Refusal> {
    ghost use Rattle.tb_engines.specs.Delivery.{outcome_without};

    ghost from_gives = { λ stop outcome. outcome ≡ outcome_without stop };

    fn from(stop: NoText) -> tb_engine_streams::Outcome<E, Refusal> {
        match stop {
            NoText::Refused(refusal) => tb_engine_streams::Outcome::Refused(refusal),
            NoText::NoMemory => tb_engine_streams::Outcome::NoMemory,
        }
    }
}

/// Writes a text that was made.
pub fn deliver<W: Write>(writer: &mut Tracked<W>, made: Result<Text, NoText>) -> Outcome
    ensures answers { Answers (Shows made) result
        (W.contents writer.old.stream) (W.contents writer.new.stream) }
    ensures faults { DeliveryFaults result (use_of W.contents writer.old writer.new) }
{
    let text = match made {
        Ok(text) => text,
        Err(stop) => return Outcome::from(stop),
    };
    match write_output(writer, text.bytes.as_slice()) {
        Ok(()) => Outcome::Ended(text.end),
        Err(_) => Outcome::WriteFault,
    }
}
