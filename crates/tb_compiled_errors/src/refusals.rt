//! Why a source text is not compiled.
ghost use Rattle.std.specs.Prelude.{◌≡◌};
ghost use Rattle.tb_compiled_errors.specs.Refusals.{of_source, of_lower};

use std::alloc::AllocError;
use tb_basic_meaning::LowerError;
use tb_parser::{SourceError, SourceErrorKind};

/// Why a source text is not compiled, in the order of the checks.
#[derive(Clone, Copy, Debug, PartialEq, Eq)]
pub enum CompileError {
    /// The text is not a program.
    Source(SourceError),
    /// An expression needs too many slots.
    Lower(LowerError),
    /// What the program costs or takes, in bytes: above 37,888.
    TooLarge(u32),
    /// Memory ran out.
    NoMemory,
}

impl From<SourceError> for CompileError {
    ghost from_gives = { λ e r. r ≡ of_source e };

    fn from(e: SourceError) -> Self {
        match e.kind {
            SourceErrorKind::NoMemory => CompileError::NoMemory,
            _ => CompileError::Source(e),
        }
    }
}

impl From<LowerError> for CompileError {
    ghost from_gives = { λ e r. r ≡ of_lower e };

    fn from(e: LowerError) -> Self {
        match e {
            LowerError::NoMemory => CompileError::NoMemory,
            LowerError::TooDeep(_) => CompileError::Lower(e),
        }
    }
}

impl From<AllocError> for CompileError {
    ghost use Rattle.tb_compiled_errors.specs.declared.refusals.CompileError.TheVariants.{NoMemory};

    ghost from_gives = { λ _ r. r ≡ NoMemory };

    fn from(_: AllocError) -> Self {
        CompileError::NoMemory
    }
}
