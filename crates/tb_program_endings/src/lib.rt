//! How a job ended: its exit status, what standard error says of it, and what helps a person at a terminal.
//!
//! `Ending::status` is the status of each outcome as its own crate has it (`specs/Statuses`). `help_for` names what helps with
//! an ending (`specs/Helping`): a table of jobs and endings. `Note` is a note that knows all that it says, with its text
//! to the letter (`specs/Notes`). `shown_fault` is what is told of a play.
#![tactic(auto)]

mod ending;
mod helping;
mod notes;
mod runs;
mod tests;

pub use ending::Ending;
pub use helping::{Help, help_for};
pub use notes::Note;
pub use runs::{Ran, shown_fault};
pub use tests::{TestEnd, TestOutcome};
