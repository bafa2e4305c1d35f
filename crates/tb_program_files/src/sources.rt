//! Sources that are the files of a system.
ghost use Rattle.tb_engine_files.specs.Deeds.{ReadsFile};

use std::alloc::Global;
use tb_engine_check::Sources;
use tb_engine_files::{FileSystem, read_file};
use tb_engine_streams::InputError;

/// The sources that the files of a system are, by their paths.
#[derive(Drop)]
pub struct FileSources<F>(pub F);

impl<F: FileSystem + Drop> Sources for FileSources<F> {
    ghost reads = { λ s path given t. ReadsFile F.does F.holds s.0 path given t.0 };

    fn read(&mut self, alloc: Global, name: &str) -> Result<Vec<u8>, InputError> {
        read_file(alloc, &mut self.0, name)
    }
}
