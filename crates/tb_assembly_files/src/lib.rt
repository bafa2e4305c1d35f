//! Assembler text in files: the statements of a text with those of the files that it includes, or all that is wrong
//! with their lines.
//!
//! `expand` answers the statements of a text with those of all that it includes, each with its place. Or it answers
//! all lines that are bad, in order, or the path of the first file that is wanted (`Expands`, by `expansion`). What an
//! include is, is one definition (`including`): circles, the depth and files that can't be read are cases of it.
#![tactic(auto)]

mod expanding;
mod faults;
mod library;
mod numbers;
mod paths;

pub use expanding::{Reading, Stop, expand};
pub use faults::{BadLine, DEEPEST, IncludeFault, MOST_LINES, Place, Problem};
pub use library::{SourceFile, file_with, path_at, text_at};
pub use numbers::constants_are_numbers;
