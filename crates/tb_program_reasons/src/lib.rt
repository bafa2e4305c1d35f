//! Why a file can't be read, written or taken, by its path: what a person at a terminal is told beside the text of a
//! fault.
//!
//! `file_reason` says what an error of the system means, or else what a folder or a length does (`specs/Files`).
//! `prg_reason` and `disk_note` say of which file a refusal is, and why (`specs/Prgs`). `first_clash` is the first two
//! paths of one file (`specs/Clashes`).
#![tactic(auto)]

mod clashes;
mod files;
mod prgs;
mod reasons;

pub use clashes::{Clash, first_clash};
pub use files::{Purpose, Told, file_reason};
pub use prgs::{disk_note, prg_reason};
pub use reasons::{FileNote, FileReason};
