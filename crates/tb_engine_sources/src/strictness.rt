//! Strict runs: a fault that ends the program has an exit status of its own.
ghost use Rattle.std.specs.Prelude.{◌≡◌};
ghost use Rattle.tb_engine_sources.specs.Strictness.{FaultedIsNumber, strict_status};

use crate::notes::EndNote;
use tb_engines::Outcome;

/// A fault ended the program of a strict run.
pub const FAULTED: u8 = 8;

/// The exit status of a strict run, by how it ended and what was told then.
pub fn strict_status(outcome: Outcome, note: Option<EndNote>) -> u8
    ensures { result ≡ strict_status outcome note }
{
    match (outcome, note) {
        (Outcome::Ended(_), Some(EndNote::Fault(_))) => FAULTED,
        _ => outcome.status(),
    }
}

/// The status of a fault is the number that the definitions have for it.
pub fn faulted_is_number()
    ensures { FaultedIsNumber }
{}
