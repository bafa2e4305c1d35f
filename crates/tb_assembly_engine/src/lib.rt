//! Assembling a text as people write it, over any system of files: the text is opened first, then each file that it
//! includes, and nothing is written before all is made.
//!
//! - `assemble_source` reads the file at the path that the command names, and then, one by one, the file that a line of
//!   those before it includes, at the path that `expansion` wants (`Gathers`, `AsksFor`). The text of each is all that
//!   the file holds, as far as its reader tells. One without a text can't be read, as `read_file` of tb_engine_files
//!   says it (`GivesText`).
//! - What is made or refused is what `assemble_texts` answers of these files (`IsMade`, `Stops`). More than 256 are
//!   told of if 257 were read.
//! - Then the PRG file is written to OUT, the labels to their path and the listing to its path, in this order, up to
//!   one that can't be written (`saves_of`, `Puts`). Nothing is written if a file that was read would be written, one
//!   twice, or a source, or the PRG file where a text is (`MayWrite`).
#![tactic(auto)]

mod engine;
mod gathering;
mod outcome;
mod saving;

pub use engine::assemble_source;
pub use gathering::MOST_FILES;
pub use outcome::{TextFailure, TextOutcome, TextRefusal};
pub use saving::TextNames;
pub use tb_assembly_output::Manner;
