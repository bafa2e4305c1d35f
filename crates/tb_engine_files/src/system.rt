//! A system of files, of which only this is asked.
ghost use Rattle.std.specs.Prelude.{◌≡◌, ℕ, List, Option, IfOk};
ghost use Rattle.tb_engine_streams.specs.Failures.{failures_of};
ghost use Rattle.tb_engine_files.specs.Deeds.{Deed, Opens, Closes, Saves, ending};
ghost use Rattle.tb_engine_files.specs.declared.looks.Look.{Look};
ghost use Rattle.tb_engine_files.specs.declared.places.Place.{Place};

use crate::looks::Look;
use crate::places::Place;
use std::alloc::{AllocError, Global};
use std::io::Read;
use tb_engine_streams::Tracked;

/// Why a file was not opened, or not written.
#[derive(Clone, Copy, PartialEq, Eq, Debug, Drop)]
pub enum Trouble {
    /// The system refused.
    Fault,
    /// Memory ran out.
    NoMemory,
}

/// A system of files.
pub trait FileSystem {
    /// A file that is opened for reading.
    type Input: Read + Drop;

    // where a path may lead
    ghost leads: { Self → List ℕ → Place → Type 0 };

    // what a look at a path may show
    ghost shows: { Self → List ℕ → Option Look → Type 0 };

    // what a deed makes of the system, done or not
    ghost does: { Self → Deed → Self → Type 0 };

    // what the file at a path may hold, as far as its reader tells
    ghost holds: { Self → List ℕ → Option (List ℕ) → Type 0 };

    /// Where a path leads. Nothing is opened.
    fn place(&self, alloc: Global, path: &str) -> Result<Place, AllocError>
        ensures { IfOk result (leads self.now path.now) };

    /// Looks at the regular file to which a path leads, if there is one. One that can't be read shows no byte.
    fn look(&self, alloc: Global, path: &str) -> Result<Option<Look>, AllocError>
        ensures { IfOk result (shows self.now path.now) };

    /// Opens a file for reading: its reader has what the file holds, and no read of it has failed.
    fn open(&mut self, path: &str) -> Result<Tracked<Self::Input>, Trouble>
        ensures deed { does self.old (Opens path.now (ending result)) self.new }
        ensures held { IfOk result (λ input. holds self.old path.now (Self.Input.remaining input.stream)) }
        ensures fresh { IfOk result (λ input. failures_of input ≡ 0) };

    /// Takes back a file that was opened for reading. Its reader has counted the reads that failed.
    fn close(&mut self, path: &str, input: Tracked<Self::Input>)
        ensures { does self.old (Closes path.now (failures_of input)) self.new };

    /// Opens a file for writing, and writes all bytes, or up to where that fails.
    fn save(&mut self, path: &str, bytes: &[u8]) -> Result<(), Trouble>
        ensures { does self.old (Saves path.now bytes.now result) self.new };
}
