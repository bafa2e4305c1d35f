//! Transcripts: what a program sends, as it is shown, with what is typed, and above it what is asked for and the end
//! that is wanted.
//!
//! - `read_transcript` answers what a text says, or its first line that is bad and why (`specs/Reading`). What it answers
//!   can come of a run (`IsWritable`).
//! - `transcript_text` is the canonical text of a transcript (`specs/Writing`). Read again it is the same transcript, if
//!   this one can come of a run: nothing sent has a byte 13, nothing typed a byte 10 or 13, and numbers are in range
//!   (`IsWritable`).
//! - `is_same` says whether the same was sent and typed and the ends are the same. What is asked for does not count.
//! - `difference` answers nothing exactly if that is so, and else the turn that differs first, how much of what was sent
//!   there is alike, and a hunk (`specs/Differing`).
//!
//! Each fails only if memory runs out, but for a text that is refused.
#![tactic(auto)]

mod comparing;
mod differing;
mod forms;
mod header;
mod marks;
mod options;
mod reading;
mod reasons;
mod transcript;
mod writing;

pub use comparing::is_same;
pub use differing::difference;
pub use forms::TestForm;
pub use reading::read_transcript;
pub use reasons::{BadLine, Reason, Unread};
pub use transcript::{Difference, RunEnd, RunOptions, Transcript, Turn};
pub use writing::transcript_text;
