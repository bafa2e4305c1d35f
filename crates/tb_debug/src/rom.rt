//! The ROM next to the program: a quiet one, or a rude one.
use std::marker::Model;
use tb_kernal::{Event, Machine, Outside, Quiet, Rude};
use tb_words::next_seed;

/// A ROM whose events can be given again.
#[derive(Clone, Copy, PartialEq, Eq, Debug, Drop)]
pub enum Rom {
    /// It changes nothing.
    Quiet,
    /// It is rude, by a seed.
    Rude(u16),
}

impl Outside for Rom {
    ghost use Rattle.std.proofs.Common.{sym, ◌∙◌};
    ghost use Rattle.std.specs.Prelude.{◌≡◌};
    ghost use Rattle.tb_debug.specs.Roms.{event_is_blind, event_of, after, given_is_lawful};

    ghost gives = { λ rom m e left. (e ≡ event_of rom m) × (left ≡ after rom) };

    ghost gives_lawful = { λ rom m e left h. given_is_lawful rom m e h.0 };

    ghost gives_blindly = { λ rom m e left sent h. (h.0 ∙ sym (event_is_blind rom m sent), h.1) };

    fn next(&mut self, machine: &Machine) -> Event {
        match *self {
            Rom::Quiet => Quiet.next(machine),
            Rom::Rude(seed) => {
                *self = Rom::Rude(next_seed(seed));
                Rude::new(seed).next(machine)
            }
        }
    }

    fn is_quiet(&self) -> bool {
        matches!(self, Rom::Quiet)
    }
}
