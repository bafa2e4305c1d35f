//! Sources that are read when their turn comes.
ghost use Rattle.std.specs.Prelude.{ℕ, List, Result};
ghost use Rattle.tb_engine_check.specs.Checks.{bytes_of};
ghost use Rattle.tb_engine_streams.specs.declared.stream.InputError.{InputError};

use std::alloc::Global;
use tb_engine_streams::InputError;

/// Sources that are read by their names.
pub trait Sources {
    // what reading a source by its name gives, and makes of the sources
    ghost reads: { Self → List ℕ → Result (List ℕ) InputError → Self → Type 0 };

    /// Reads a source whole.
    fn read(&mut self, alloc: Global, name: &str) -> Result<Vec<u8>, InputError>
        ensures { reads self.old name.now (bytes_of result) self.new };
}
