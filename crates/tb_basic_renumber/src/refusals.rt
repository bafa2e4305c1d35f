//! Why a source is not renumbered.

use crate::JumpFault;
use std::alloc::AllocError;
use tb_parser::{SourceError, SourceErrorKind};

/// Why a source is not renumbered, in the order of the checks.
#[derive(Clone, Copy, PartialEq, Eq, Debug)]
pub enum Refusal {
    /// The text is no program. It is never want of memory.
    Source(SourceError),
    /// The lowest line whose jump can't be renumbered, and why.
    Jump(u16, JumpFault),
    /// A line would get a number above 32,767.
    AboveHighest,
    /// A line, by its old number, would have more than 255 bytes.
    LineTooLong(u16),
    /// The new text would be another program, or none: a line with signs may stand for more than 255 bytes.
    Other,
    /// Memory ran out.
    NoMemory,
}

impl From<SourceError> for Refusal {
    ghost use Rattle.std.specs.Prelude.{◌≡◌};
    ghost use Rattle.tb_basic_renumber.specs.Answers.{of_source};

    ghost from_gives = { λ e r. r ≡ of_source e };

    fn from(e: SourceError) -> Self {
        match e.kind {
            SourceErrorKind::NoMemory => Refusal::NoMemory,
            _ => Refusal::Source(e),
        }
    }
}

impl From<AllocError> for Refusal {
    ghost use Rattle.std.specs.Prelude.{◌≡◌};
    ghost use Rattle.tb_basic_renumber.specs.declared.refusals.Refusal.TheVariants.{NoMemory};

    ghost from_gives = { λ _ r. r ≡ NoMemory };

    fn from(_: AllocError) -> Self {
        Refusal::NoMemory
    }
}
