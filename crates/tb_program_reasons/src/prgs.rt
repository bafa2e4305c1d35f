//! Why a file is no PRG file, or isn't put on a disk.
ghost use Rattle.std.specs.Prelude.{◌≡◌, map, option_map, string_bytes};
ghost use Rattle.tb_program_reasons.specs.Prgs.{disk_note, pair_of, prg_reason, reason_of_prg, said_of};

use crate::reasons::{FileNote, FileReason};
use tb_engine_disk::DiskRefusal;
use tb_engine_files::{STANDARD, is_image_name};
use tb_engines::Refusal;
use tb_prg::PrgError;

/// Why a file is no PRG file that can be run, if that is why it is refused.
pub fn prg_reason(refusal: Refusal) -> Option<FileReason>
    ensures { result ≡ prg_reason refusal }
{
    match refusal {
        Refusal::Prg(error) => Some(reason_of_prg(error)),
        Refusal::NotRam => Some(FileReason::NotRam),
        Refusal::TextLine(_) | Refusal::Item(_) | Refusal::Source(_) => None,
    }
}

fn reason_of_prg(error: PrgError) -> FileReason
    ensures { result ≡ reason_of_prg error }
{
    match error {
        PrgError::TooShort => FileReason::TooShort,
        PrgError::RunsPast => FileReason::RunsPast,
    }
}

// What is said of one of the files, counted from 0.
fn nth_note(files: &[String], index: usize, reason: FileReason) -> Option<FileNote<'_>>
    ensures { option_map pair_of result ≡ said_of (map string_bytes files.now) index reason }
{
    match files.get(index) {
        Some(path) => Some(FileNote {
            path: path.as_str(),
            reason,
        }),
        None => None,
    }
}

/// Of which file it is said that a disk is refused, and why: by the path of the image, those of the files, and how many
/// of them were opened. A disk that is full is refused for no single file.
pub fn disk_note<'a>(
    out: &'a str,
    files: &'a [String],
    opened: usize,
    refusal: DiskRefusal,
) -> Option<FileNote<'a>>
    ensures { option_map pair_of result ≡ disk_note out.now (map string_bytes files.now) opened refusal }
{
    let last = opened.saturating_sub(1);
    match refusal {
        DiskRefusal::BadName if out != STANDARD && !is_image_name(out) => Some(FileNote {
            path: out,
            reason: FileReason::NoImageName,
        }),
        DiskRefusal::BadName => nth_note(files, opened, FileReason::NoDiskName),
        DiskRefusal::NameTwice => nth_note(files, opened, FileReason::DiskNameTwice),
        DiskRefusal::Prg(error) => nth_note(files, last, reason_of_prg(error)),
        DiskRefusal::Text => nth_note(files, last, FileReason::Text),
        DiskRefusal::NotRam => nth_note(files, last, FileReason::NotRam),
        DiskRefusal::Full => None,
    }
}
