//! What there is to say of an assembler text: all that is wrong with it, each with its line, its place, and what
//! helps.
//!
//! `report` is that text by its definition (`specs/Reports`): each row, each line, each caret, each note.
#![tactic(auto)]

mod causes;
mod near;
mod notes;
mod numbers;
mod reports;
mod words;

pub use causes::{Cause, Finding};
pub use notes::NOTED;
pub use numbers::constants_are_numbers;
pub use reports::report;
