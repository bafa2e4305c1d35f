//! Texts as they were written: the lines of a source by the numbers that they begin with, and bytes as they are shown.
//!
//! `numbered_lines` gives the lines of a file, each with the number that it begins with. `text_of` is the last of them
//! that has a given number, and `behind_number` what stands behind it. `shown` and `push_shown` give bytes as they are
//! shown.
#![tactic(auto)]

mod lines;
mod showing;

pub use lines::{Numbered, behind_number, numbered_lines, text_of};
pub use showing::{MOST_SHOWN, cut, push_shown, push_spaces, shown};
