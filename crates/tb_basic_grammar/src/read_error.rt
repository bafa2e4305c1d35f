//! Why nothing was read.
ghost use Rattle.std.specs.Prelude.{◌≡◌, ◌≤◌, length};
ghost use Rattle.tb_basic_grammar.specs.declared.read_error.ReadError.TheVariants.{NoMemory};

use std::alloc::{AllocError, AllocFailed};

/// Why nothing was read.
#[derive(Debug, Drop)]
pub enum ReadError {
    /// Memory ran out.
    NoMemory,
    /// The text has no reading. The number counts the bytes from the first token such that the
    /// tokens up to and including it begin no statement (or no expression) to the end of the text:
    /// 0 if every token could still begin one, or if that token is a text without its
    /// second quote. No clause states this number.
    NoReading(usize),
}

impl From<AllocError> for ReadError {
    ghost from_gives = { λ _ e. e ≡ NoMemory };

    fn from(_e: AllocError) -> ReadError {
        ReadError::NoMemory
    }
}

impl<T: Drop> From<AllocFailed<T>> for ReadError {
    ghost from_gives = { λ _ e. e ≡ NoMemory };

    fn from(_e: AllocFailed<T>) -> ReadError {
        ReadError::NoMemory
    }
}

// The length of the rest at a token that does not fit; 0 after a quote that is never closed.
pub(crate) fn left_at(rest: &[u8]) -> usize
    ensures { result ≤ length rest.now }
{
    match rest {
        [b'"', inside @ ..] if !inside.contains(&b'"') => 0,
        _ => rest.len(),
    }
}
