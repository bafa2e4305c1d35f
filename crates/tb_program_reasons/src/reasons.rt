//! Reasons, and their texts.
ghost use Rattle.std.specs.Prelude.{◌≡◌, Some};
ghost use Rattle.tb_program_reasons.specs.Texts.{file_note_text, reason_text};

use std::fmt;

// What is said, text by text.
const NO_SUCH_FILE: &str = "no such file";

const NO_SUCH_FOLDER: &str = "no such folder";

const IS_FOLDER: &str = "is a folder";

const NO_PERMISSION: &str = "no permission";

const DISK_FULL: &str = "disk full";

const KEPT: &str = "what it held is in the file of this name with ~ at its end";

const TOO_LONG: &str = "longer than 1,048,576 bytes";

const KEYS_TOO_LONG: &str = "longer than 2,097,154 bytes";

const NO_IMAGE_NAME: &str = "the name of a disk image ends in .d64";

const NO_DISK_NAME: &str = "a name on a disk is 1 to 16 of A to Z, 0 to 9, space, - and .";

const DISK_NAME_TWICE: &str = "an earlier file has this name on the disk";

const TOO_SHORT: &str = "a PRG file has two bytes or more";

const RUNS_PAST: &str = "its bytes end past 65,536";

const TEXT: &str = "this is a text";

const NOT_RAM: &str = "a byte of it would lie outside of RAM";

const PROGRAM: &str = "a PRG file is run with --prg";

/// What is wrong with a file.
#[derive(Clone, Copy, PartialEq, Eq, Debug, Drop)]
pub enum FileReason {
    NoSuchFile,
    /// The folder in which it would be made is not there.
    NoSuchFolder,
    IsFolder,
    NoPermission,
    DiskFull,
    /// It was written over, and that broke off.
    Kept,
    /// A new one took the place of the one that was there.
    Replaced,
    /// It has more bytes than a source, a text or a PRG file may have.
    TooLong,
    /// It has more bytes than a key file may have.
    KeysTooLong,
    /// A disk image is named otherwise.
    NoImageName,
    /// A file on a disk is named otherwise.
    NoDiskName,
    /// An earlier file has the same name on the disk.
    DiskNameTwice,
    /// It has no load address.
    TooShort,
    /// Its bytes end past 65,536.
    RunsPast,
    /// It is a text.
    Text,
    /// A byte would not lie in RAM.
    NotRam,
    /// It is a PRG file in place of a source.
    Program,
}

impl FileReason {
    fn text(self) -> &'static str
        ensures { result.now ≡ reason_text self }
    {
        match self {
            FileReason::NoSuchFile => NO_SUCH_FILE,
            FileReason::NoSuchFolder => NO_SUCH_FOLDER,
            FileReason::IsFolder => IS_FOLDER,
            FileReason::NoPermission => NO_PERMISSION,
            FileReason::DiskFull => DISK_FULL,
            FileReason::Replaced => "replaced",
            FileReason::Kept => KEPT,
            FileReason::TooLong => TOO_LONG,
            FileReason::KeysTooLong => KEYS_TOO_LONG,
            FileReason::NoImageName => NO_IMAGE_NAME,
            FileReason::NoDiskName => { NO_DISK_NAME }
            FileReason::DiskNameTwice => DISK_NAME_TWICE,
            FileReason::TooShort => TOO_SHORT,
            FileReason::RunsPast => RUNS_PAST,
            FileReason::Text => TEXT,
            FileReason::NotRam => NOT_RAM,
            FileReason::Program => PROGRAM,
        }
    }
}

/// What is said of a file, by its path.
#[derive(Clone, Copy, Debug, Drop)]
pub struct FileNote<'a> {
    pub path: &'a str,
    pub reason: FileReason,
}

impl fmt::Display for FileNote<'_> {
    ghost output = { λ n. Some (file_note_text n.path.now n.reason) };

    fn fmt<W: fmt::Write>(&self, f: &mut fmt::Formatter<W>) -> fmt::Result {
        write!(f, "{}: {}", self.path, self.reason.text())
    }
}
