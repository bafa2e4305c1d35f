//! Everything that is wrong with a source, as data: each bad line, by the table of faults that compilers use, what is
//! wrong with the whole, what helps, and what there is to warn of.
//!
//! - `bad_lines` answers exactly the bad lines of a file, in order, each with its first fault by the parser's own
//!   table (`lines`). The first of them is why a compiler refuses the file. If there is none, the lines make a program,
//!   which may be empty (`first`).
//! - `judge` answers the bad lines, or else that no line is left, or else what is wrong with the program. That is all
//!   lines whose need is above 16, in rising order, and the cost if it is above 37,888. If nothing is wrong, it
//!   answers the program (`judged`). Whatever answer the contract of `Compile` allows agrees with that (`agrees`).
//! - `examine` answers the lines of the file as they were written (`lines`), with these faults and more of them
//!   (`findings`). Each bad line has the note of `specs/Notes` (`note_on`): by its words and signs, or by the first
//!   row of `specs/Rules` that fits the code around the place.
//! - The lines that are too deep are those with an expression that needs more than 16 slots, which no later line
//!   replaces or takes out (`DeepLinesAre`).
//! - The warnings on a source that is compiled are exactly those of `specs/Warnings`, in their order (`WarningsAre`).
//!
//! All this is of the notation in which the source is read. Only tests show the column of a syntax error.
#![tactic(auto)]

mod examination;
mod fitting;
mod foreign_words;
mod judging;
mod lines;
mod near_words;
mod notes;
mod numbers;
mod patterns;
mod remaining;
mod rules;
mod settings;
mod surroundings;
mod warnings;

pub use examination::{BadLine, Examined, Findings, examine};
pub use fitting::{Fitted, examine_to_fit, fits_memory};
pub use foreign_words::ForeignWord;
pub use judging::{ProgramFaults, Verdict, judge};
pub use lines::bad_lines;
pub use near_words::StatementWord;
pub use notes::Note;
pub use numbers::constants_are_numbers;
pub use settings::CheckSettings;
pub use tb_parser::{SourceError, SourceErrorKind};
pub use warnings::{LineWarning, Warning};
