//! Commands that read files and write others: each opens its inputs in order, makes all that is to be written, and
//! then writes it, over any system of files.
//!
//! Each does with files what one `transfer` or `convert` of tb_engine_files does. It ends as done only if all was
//! written, and with a fault only if a file failed. What is written is what is made of the bytes that the inputs hold,
//! by the engines' own definitions (`specs/Texts`). Bytes are refused by exactly the refusal that these definitions
//! have for them, and then nothing is written.
//!
//! - `assemble_file`: OUT is the image of the text at that address (`MakesImage`). `list_file`: standard output gets
//!   the listing of the PRG file, for `tbc asm` or as another assembler takes it (`MakesListing`, `specs/Listings`).
//! - `build_file`: OUT is the PRG file of the program that the compiler answers for the source by these settings.
//!   Labels, listing, map and watch file, as far as they are wanted, are written after it in this order, and are those
//!   of this program (`MakesBuild`). If the source costs too much, it may be opened once more, and the map written of
//!   the program that only the memory limits (`Maps`). It ends by the refusal, unless that failed (`ends_by`,
//!   `Builds`).
//! - `disk_file`: OUT is the image of a disk with the files of the paths, in order, each with the name that its path
//!   gives and all bytes that it holds (`MakesDisk`). If OUT isn't named as an image, it opens nothing.
//! - `format_file` and `format_in_place`: standard output or the source gets its tidy text; one that is tidy is not
//!   written in its place (`MakesTidy`). `check_format`: standard output gets the name of a source that is not tidy
//!   (`ChecksTidy`). `renumber_file` and `renumber_in_place`: the text with other line numbers (`MakesRenumbered`).
//! - `profile_file`: standard output gets the table of the source's run, and then the page's file its page, if one is
//!   named (`MakesPages`, `ProfilesFile`). `profile_prg_file`: the table of the PRG file's run (`MakesTable`).
//! - `page_file`: OUT is the web page of the source's program, with a row for each of its lines (`MakesSourcePage`,
//!   `PagesFile`). `page_prg_file`: the page of a PRG file that can be started (`MakesPrgPage`).
//! - `FileSources` reads the sources of a check, as `read_file` of tb_engine_files does. `opened` and `save` open or
//!   write one file, and answer a fault only if that failed (`OpensFile`, `SavesFile`).
//!
//! No clause tells the warnings of `build_file`: they are handed on as the compiler told them, which the code shows.
#![tactic(auto)]

mod assembling;
mod building;
mod disks;
mod formatting;
mod listing;
mod paging;
mod profiling;
mod renumbering;
mod saving;
mod sources;

pub use assembling::assemble_file;
pub use building::{BuildNames, build_file};
pub use disks::disk_file;
pub use formatting::{FormatOutcome, Tidiness, check_format, format_file, format_in_place};
pub use listing::{Dialect, list_file};
pub use paging::{page_file, page_prg_file};
pub use profiling::{profile_file, profile_prg_file};
pub use renumbering::{RenumberOutcome, RenumberRefusal, renumber_file, renumber_in_place};
pub use saving::{opened, save};
pub use sources::FileSources;
pub use tb_basic_renumber::Numbering;
pub use tb_engine_page::title_of;
