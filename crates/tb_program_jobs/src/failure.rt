//! Why the words of the command line lead to no call of an engine.
ghost use Rattle.std.specs.Prelude.{◌≡◌};
ghost use Rattle.tb_program_jobs.specs.Failures as failures;
ghost use Rattle.tb_program_jobs.specs.Statuses.{status_of};

use crate::jobs::JobError;
use std::alloc::AllocError;
use std::fmt;
use tb_assembly_labels::LabelsError;
use tb_engine_files::Kind;
use tb_engine_streams::{InputError, KeyError, KeyFileError, status};
use tb_engines::Outcome;

/// What is wrong with the words, or that memory is wanting.
#[derive(Debug, Drop)]
pub enum Failure {
    /// What the parser says of the words.
    Words(String),
    /// A word is no UTF-8.
    NotUtf8,
    /// A key list is no even number of hexadecimal digits, or a key file is too large.
    BadKeys,
    /// An address is no four hexadecimal digits.
    BadAddress,
    /// A file would be written that is also read, or that is written twice.
    SameFile,
    /// A source that is there would be written, at this path.
    IsSource(String),
    /// What is there, at this path, doesn't look like what would be written.
    Unlike(String, Kind),
    /// This line of a label file is no label, counted from 1.
    BadLabels(usize),
    /// The machine's screen would be shown where no terminal is.
    NoTerminal,
    /// It would be shown at a terminal that is too small for it.
    SmallTerminal,
    /// A key file or a label file can't be read.
    ReadFault,
    /// A seed is wanted that is made of the clock, and no clock can be read.
    NoClock,
    /// A growth was refused.
    NoMemory,
}

impl Failure {
    /// The exit status of the program.
    pub fn status(&self) -> u8
        ensures { result ≡ status_of self.now }
    {
        match self {
            Failure::Words(_)
            | Failure::NotUtf8
            | Failure::BadKeys
            | Failure::BadAddress
            | Failure::SameFile
            | Failure::IsSource(_)
            | Failure::Unlike(_, _)
            | Failure::NoTerminal
            | Failure::SmallTerminal => status::BAD_WORDS,
            Failure::BadLabels(_) => status::REFUSED,
            Failure::ReadFault | Failure::NoClock => status::FAULT,
            Failure::NoMemory => status::NO_MEMORY,
        }
    }
}

fn kind_text(kind: Kind) -> &'static str {
    match kind {
        Kind::Program => "a PRG file of tbc build",
        Kind::Code(None) => "a PRG file",
        Kind::Code(Some(_)) => "a PRG file of this address",
        Kind::Image => "a disk image",
        Kind::Labels => "a label file",
        Kind::Listing => "a listing",
        Kind::Map => "a map",
        Kind::Watch => "a watch file",
        Kind::Page => "a page of tbc",
        Kind::Keys => "a key file",
        Kind::Transcript => "a transcript",
    }
}

/// The whole text for standard error, with its line ends.
impl fmt::Display for Failure {
    fn fmt<W: fmt::Write>(&self, f: &mut fmt::Formatter<W>) -> fmt::Result {
        match self {
            Failure::Words(text) => f.write_str(text),
            Failure::NotUtf8 => f.write_str("tbc: an argument is not UTF-8\n"),
            Failure::BadKeys => f.write_str("tbc: bad key list\n"),
            Failure::BadAddress => f.write_str("tbc: bad address\n"),
            Failure::SameFile => f.write_str("tbc: same file twice\n"),
            Failure::IsSource(path) => writeln!(f, "tbc: {path} is a source"),
            Failure::Unlike(path, kind) => {
                writeln!(
                    f,
                    "tbc: {path} is not {}: --force replaces it",
                    kind_text(*kind)
                )
            }
            Failure::BadLabels(_) => f.write_str("tbc: bad labels\n"),
            Failure::NoTerminal => f.write_str("tbc: not a terminal\n"),
            Failure::SmallTerminal => f.write_str("tbc: terminal smaller than 40 by 25\n"),
            Failure::ReadFault => f.write_str("tbc: read fault\n"),
            Failure::NoClock => f.write_str("tbc: no clock\n"),
            Failure::NoMemory => f.write_str("tbc: out of memory\n"),
        }
    }
}

impl From<AllocError> for Failure {
    ghost use Rattle.tb_program_jobs.specs.declared.failure.Failure.TheVariants.{NoMemory};

    ghost from_gives = { λ _ failure. failure ≡ NoMemory };

    fn from(_error: AllocError) -> Failure {
        Failure::NoMemory
    }
}

impl From<JobError> for Failure {
    ghost from_gives = { λ error failure. failure ≡ failures.failure_of error };

    fn from(error: JobError) -> Failure {
        match error {
            JobError::Words(text) => Failure::Words(text),
            JobError::NoClock => Failure::NoClock,
            JobError::NoMemory => Failure::NoMemory,
        }
    }
}

impl From<KeyError> for Failure {
    ghost from_gives = { λ error failure. failure ≡ failures.of_keys error };

    fn from(error: KeyError) -> Failure {
        match error {
            KeyError::BadKeys => Failure::BadKeys,
            KeyError::NoMemory => Failure::NoMemory,
        }
    }
}

impl From<KeyFileError> for Failure {
    ghost from_gives = { λ error failure. failure ≡ failures.of_key_file error };

    fn from(error: KeyFileError) -> Failure {
        match error {
            KeyFileError::BadKeys => Failure::BadKeys,
            KeyFileError::Fault => Failure::ReadFault,
            KeyFileError::NoMemory => Failure::NoMemory,
        }
    }
}

impl From<InputError> for Failure {
    ghost from_gives = { λ error failure. failure ≡ failures.of_input error };

    fn from(error: InputError) -> Failure {
        match error {
            InputError::Fault => Failure::ReadFault,
            InputError::NoMemory => Failure::NoMemory,
        }
    }
}

impl From<LabelsError> for Failure {
    ghost from_gives = { λ error failure. failure ≡ failures.of_labels error };

    fn from(error: LabelsError) -> Failure {
        match error {
            LabelsError::Line(line) => Failure::BadLabels(line),
            LabelsError::NoMemory => Failure::NoMemory,
        }
    }
}

impl Failure {
    /// Why a key file or a label file was not opened.
    pub fn of_unopened(outcome: Outcome) -> Failure
        ensures { result ≡ failures.of_unopened outcome }
    {
        match outcome {
            Outcome::NoMemory => Failure::NoMemory,
            _ => Failure::ReadFault,
        }
    }
}
