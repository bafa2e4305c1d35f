//! Files for a disk, taken in one after the other, and the image of the disk with them.
//!
//! - `DiskFiles::name` gives a file's name from its path, or refuses it (`NamesNext`). It is bad exactly if the text
//!   is no name, and there twice exactly if a file that was taken in has the same name.
//! - `add` takes in the bytes of a program that can be loaded, after the files before it. It refuses a name that one
//!   of them has. What has another name it refuses exactly if it is no PRG file, a text, or a program elsewhere than
//!   at `$0801` that does not lie in RAM (`Judges`, `Adds`).
//! - `image` is a disk of exactly these files in their order, named by its path. It is refused as full only for files
//!   that do not fit (`IsImageOf`, `HasNoImage`). `DiskRefusal` has its status (`exit_status`).
#![tactic(auto)]

mod files;
mod names;
mod outcome;

pub use files::DiskFiles;
pub use outcome::{DiskFailure, DiskOutcome, DiskRefusal};
pub use tb_machine_disk::Name;
