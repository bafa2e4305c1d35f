//! How making a disk ended.
use tb_engine_streams::{Done, ExitStatus, Failure, Outcome, status};
use tb_prg::PrgError;
use thiserror::Error;

/// Why there is no disk.
#[derive(Clone, Copy, PartialEq, Eq, Debug, Drop, Error)]
pub enum DiskRefusal {
    /// A file's name is not one that a file on a disk can have.
    #[error("bad name")]
    BadName,
    /// An earlier file has this name.
    #[error("name twice")]
    NameTwice,
    /// A file is no PRG file.
    #[error("not a PRG: {0}")]
    Prg(PrgError),
    /// A file is a text.
    #[error("not a PRG: text")]
    Text,
    /// A file without a BASIC line would not lie in RAM.
    #[error("not a PRG: not RAM")]
    NotRam,
    /// The files take more than 664 blocks, or there are more than 144.
    #[error("disk full")]
    Full,
}

/// How making a disk ended.
pub type DiskOutcome = Outcome<Done, DiskRefusal>;

/// Why there is no name, no file or no image.
pub type DiskFailure = Failure<DiskRefusal>;

impl ExitStatus for DiskRefusal {
    ghost use Rattle.tb_engine_streams.specs.Numbers.{REFUSED};

    ghost exit_status = { λ _. REFUSED };

    fn status(&self) -> u8 {
        status::REFUSED
    }
}
