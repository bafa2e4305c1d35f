//! Playing: a program runs, and what it sends is written as it comes. When it waits for a key, a line is read and typed.
//!
//! - `play_file` is a dialogue (`dialogue`). Before each wait, and at the end, everything that was sent is written in the
//!   host form. Then one line is taken from the keyboard's reader, byte by byte and nothing after it. It is typed with
//!   its letters as capitals and a return. The clause says so at each fault too, and each stretch takes at most the
//!   limit.
//! - However it ends, what was sent before a wait is written before a byte of the next line is taken
//!   (`written_first`).
//! - What was written is the host form of one run from the start whose keyboard text is all that was typed (`whole`).
//!   So the output clause of `run_prg` holds of it.
//! - `play_to_end` is the same, and leaves the machine: where playing ended, that to which what was typed led (`left`), but
//!   for the beginning of what it sent.
//! - At most 1,048,576 bytes are handed over (`within`). A read fault comes only if the reader failed or a line was
//!   read that hands over too many.
//! - `play` is the same for a machine.
#![tactic(auto)]

mod files;
mod lines;
mod talk;

pub use files::{PlayedFile, play_file, play_to_end};
pub use lines::{MOST_TYPED, keys_of_text};
pub use talk::{Played, play};
