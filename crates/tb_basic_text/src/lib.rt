//! The lines of a source, and how its texts are read. The assembler's texts have the same lines, so nothing here knows
//! BASIC.
//!
//! - `next_line` takes the first line off a text (`specs/Lines`). A line ends at a byte 10, at a byte 13, at both, 13
//!   first, or at the end of the text.
//! - `LONGEST_LINE` is 255, the most bytes of a line. `Notation` says whether texts have signs.
#![tactic(auto)]

mod lines;
mod notation;

pub use lines::{LONGEST_LINE, next_line};
pub use notation::Notation;
