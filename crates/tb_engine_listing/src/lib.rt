//! What a programmer reads of a compiled program: its labels for a debugger, its listing, and its map.
//!
//! `make` asks for a source and the program that the compiler answered for it, by whatever settings. All that it makes
//! tells of these two (`IsMade`), and the program's file keeps its source (`keeps`: `KeepsSourceIn`).
//!
//! - `list`: reading the listing and assembling it at `$080D` gives exactly the bytes after the BASIC line (`back`:
//!   `GivesBack`). It has at most 1,048,576 bytes (`readable`).
//! - The listing's comments that begin a line are exactly the lines of the source as they were written, cut at 120
//!   bytes. They are in the order of their code, each above the label of its line. Each place of the program is under
//!   its name: the block and its routines, each line, and the line table (`shows`: `ShowsProgram`).
//! - The listing is exactly the text with names (`rows`: `named_text`). `specs/Pieces` cuts the image into pieces,
//!   `specs/PlaceNames` says which address has which name, and `specs/Rows` what stands on a row.
//! - The plain listing stands there exactly where that text has more than 1,048,576 bytes, does not give the image
//!   back, or misses a name (`IsReadable`). No such program is known; that there is none is only tested.
//! - `sizes_are_those_of_code`: the sizes by which the listing finds data are those of the templates and of the block.
//! - `labels`: the file has exactly the lines of the places of `specs/Labels`, with the addresses that `start_of`
//!   answers and the constants of tb_runtime16 and tb_compiled_kept. They rise strictly (`sorted`).
//! - `chart`: the map has exactly the rows of `specs/Map`. The bytes of its parts add up to the image's, and their
//!   costs to the program's (`bytes`, `prices`).
#![tactic(auto)]

mod build;
mod bytes;
mod label_file;
mod labelled;
mod listing;
mod map;
mod marks;
mod names;
mod pieces;
mod places;
mod sizes;

pub use build::{Made, make};
pub use label_file::labels;
pub use listing::list;
pub use map::chart;
pub use sizes::sizes_are_those_of_code;
