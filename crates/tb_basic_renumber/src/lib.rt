//! The text of a source, and its program, with other line numbers.
//!
//! The new text is read again and compared with the program renumbered, before it is answered. `renumber` answers one
//! of these (`Renumbers`):
//!
//! - The new text (`new_text` of `specs/Texts`). A line that gives the program its line has its new number, and a new
//!   target in place of its jump's expression (`new_line`). Lines of spaces stay, and all others are left out. No line
//!   has more than 255 bytes, and the text reads as the program renumbered, which has the program's runs.
//! - The parser's refusal, or the lowest line with a jump that is not constant or goes nowhere.
//! - That a number would be too high, or the first line whose new text has more than 255 bytes.
//! - That the new text reads otherwise. This comes only where it does, so an answer is not withheld. That it never
//!   does is not proved.
//!
//! A program renumbered is its lines and the constant targets of its jumps, put through a map of its line numbers
//! (`renumbered` of `specs/Renumbered`).
//!
//! - `renumbered_programs_run_alike` is the law (`specs/Runs`). Each jump must be constant and go to a line, and the
//!   new numbers must be line numbers. Then, with every seed, keyboard and answers, both runs are in the same state
//!   after each number of lines, but for the places, which the map relates. Or they ended alike with the same output,
//!   but for the line number in a fault's text.
//! - `jump_fault` answers the lowest line with another jump, and `fits` whether all new numbers are low enough.
//!   `new_number` is that of the definition; it is none only of a number that stays.
//! - `is_renumbered` is true only of the program renumbered (`sound`), and always of that if all new numbers are low
//!   enough (`whole`).
#![tactic(auto)]

mod comparing;
mod cuts;
mod jumps;
mod laws;
mod lines;
mod numbering;
mod refusals;
mod renumbering;
mod texts;

pub use comparing::is_renumbered;
pub use jumps::{JumpFault, jump_fault};
pub use laws::renumbered_programs_run_alike;
pub use numbering::Numbering;
pub use refusals::Refusal;
pub use renumbering::renumber;
pub use tb_basic_text::Notation;
