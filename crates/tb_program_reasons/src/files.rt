//! Why a file can't be read or written, as far as its system tells.
ghost use Rattle.std.specs.Prelude.{◌≡◌};
ghost use Rattle.tb_program_reasons.specs.Files.{failed, reason_by_error, reason_by_length, reason_if_missing, reason_of};

use crate::reasons::FileReason;
use std::io::ErrorKind;
use tb_engine_streams::{MOST_INPUT, MOST_KEY_FILE};

// The texts of reasons name these.
const _: () = prove!(MOST_INPUT == 1_048_576);

const _: () = prove!(MOST_KEY_FILE == 2_097_154);

/// What a file is opened for.
#[derive(Clone, Copy, PartialEq, Eq, Debug, Drop)]
pub enum Purpose {
    /// A source, a text or a PRG file is read.
    Input,
    /// A key file is read.
    Keys,
    /// A file is written.
    Output,
}

/// What a system tells of a file that it did not give or take whole.
#[derive(Clone, Copy, Drop)]
pub struct Told {
    /// The error of opening or writing it, if there was one.
    pub error: Option<ErrorKind>,
    pub is_folder: bool,
    pub length: u64,
}

impl Told {
    /// What it tells of one that it did not open or write.
    pub fn failed(error: ErrorKind) -> Told
        ensures { result ≡ failed error }
    {
        Told {
            error: Some(error),
            is_folder: false,
            length: 0,
        }
    }
}

/// Why a file was not read or written, as far as its system tells.
pub fn file_reason(purpose: Purpose, told: Told) -> Option<FileReason>
    ensures { result ≡ reason_of purpose told }
{
    match told.error {
        Some(error) => reason_by_error(purpose, error),
        None if told.is_folder => Some(FileReason::IsFolder),
        None => reason_by_length(purpose, told.length),
    }
}

fn reason_by_error(purpose: Purpose, error: ErrorKind) -> Option<FileReason>
    ensures { result ≡ reason_by_error purpose error }
{
    match error {
        ErrorKind::NotFound | ErrorKind::NotADirectory => Some(reason_if_missing(purpose)),
        ErrorKind::IsADirectory => Some(FileReason::IsFolder),
        ErrorKind::PermissionDenied | ErrorKind::ReadOnlyFilesystem => {
            Some(FileReason::NoPermission)
        }
        ErrorKind::StorageFull | ErrorKind::QuotaExceeded => Some(FileReason::DiskFull),
        _ => None,
    }
}

// A file that is written is made if it isn't there.
fn reason_if_missing(purpose: Purpose) -> FileReason
    ensures { result ≡ reason_if_missing purpose }
{
    match purpose {
        Purpose::Input | Purpose::Keys => FileReason::NoSuchFile,
        Purpose::Output => FileReason::NoSuchFolder,
    }
}

fn reason_by_length(purpose: Purpose, length: u64) -> Option<FileReason>
    ensures { result ≡ reason_by_length purpose length }
{
    match purpose {
        Purpose::Input if length > MOST_INPUT as u64 => Some(FileReason::TooLong),
        Purpose::Keys if length > MOST_KEY_FILE as u64 => Some(FileReason::KeysTooLong),
        Purpose::Input | Purpose::Keys | Purpose::Output => None,
    }
}
