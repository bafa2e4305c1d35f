//! The files of a command: where paths lead, which of them may be written, in which order files are opened and
//! written, and how one is replaced, over any system of files.
//!
//! A `FileSystem` says where a path may lead, what a file may hold, and what each deed makes of it: opening a file,
//! closing it after so many failed reads, or writing one (`Deed`). An opening and a writing have how they ended.
//!
//! - `clashes` is true exactly if a file that is to be written must be kept, or is to be written twice. Files are
//!   compared by spelling, by device and number, and by folder and name (`specs/Places`).
//! - `may_write` allows the files exactly if none clashes and none is a text of people that is there. What else is
//!   there must look like what is to be written (`looks_like`, `specs/Looks`), or be forced (`Judges`,
//!   `specs/Checks`). That each command's output looks so is tried (`tools/try/kept_files.py`).
//! - `read_file` opens the file at a path, closes it, and does nothing else; what it reads is what the file holds. It
//!   answers a fault only if the file could not be opened, a read of it failed, or it holds too many bytes
//!   (`ReadsFile`, `CantRead`).
//! - `transfer` reads the inputs in order, each whole before the next one. Then it writes the outputs in order, each
//!   with its text, and does nothing else with files (`Transfers`). It ends as done only if each deed was. Where it
//!   breaks off, it has read some first inputs (`MakesNothing`), or all and written some first outputs, up to one that
//!   can't be written (`Writes`). So no output is opened before all texts are made. A read fault comes only if an input
//!   can't be read, as `read_file` says it, and a write fault only if an output could not be saved. The texts are
//!   those that the work makes of what the inputs hold (`Works`), and no work answers a fault (`IsNoFault`).
//! - `convert` does the same with one input, by a function from its bytes to the texts (`Maker`, `OfOne`). What it
//!   refuses is refused for bytes that the input holds (`Refuses`). `replace` has one file as input and output, for
//!   `--in-place`.
//! - `put` puts a text in a file's place over any folder's files (`Folder`). It makes a new file beside it, fills it,
//!   gives it the owner and the permissions of the old one and renames it over that. Where this breaks off and the
//!   file is there, it copies the file, writes over it, and puts the copy back if that breaks off (`Puts`,
//!   `specs/Putting`).
//! - `nothing_is_lost`: at each moment of this, whichever step fails, the file holds what it held or all of the text,
//!   or what it held is in the copy. Each other file that was there holds what it held. When it ends, the answer says
//!   which (`NothingIsLost`). The premises: files hold bytes, and the other two paths are not the file's own.
//! - `usual_out`, `is_source_name` and `is_image_name` go by the names of files (`specs/Names`).
#![tactic(auto)]

mod checks;
mod looks;
mod names;
mod numbers;
mod places;
mod putting;
mod system;
mod transfers;

pub use checks::{Barred, Output, may_write};
pub use looks::{Kind, Look, MOST_LOOK, code_kind, is_text, looks_like};
pub use names::{STANDARD, is_image_name, is_source_name, usual_out};
pub use numbers::constants_are_numbers;
pub use places::{Named, Node, Place, clashes};
pub use putting::{Folder, PutNames, Unput, nothing_is_lost, put};
pub use system::{FileSystem, Trouble};
pub use transfers::{Maker, Work, convert, read_file, replace, transfer};
