//! Frames: messages with their length before them, as editors talk to language servers and debug adapters.
//!
//! A frame is a header and a content. The header is at most 16 lines of at most 256 bytes, each ended by 10 or 13 10
//! (`IsHeader`, `specs/Headers.antt`). The last one is empty, and another says how many bytes the content has. What a
//! frame is of the bytes of a reader is `specs/Frames.antt`.
//!
//! - `read_frame` takes a frame by this definition, and nothing after it. A content of more than 8,388,608 bytes is
//!   passed over. A frame is refused as bad only where what was taken begins no header whatever follows it
//!   (`BeginsNoHeader`), or where the input ended within a frame. A fault comes only if the reader failed.
//! - `frame_of` and `write_frame` write the frame of the content, or a prefix of it where the writer failed.
#![tactic(auto)]

mod header;
mod lines;
mod numbers;
mod outcome;
mod reading;
mod writing;

pub use header::{Field, read_field};
pub use lines::MOST_LINE;
pub use numbers::constants_are_numbers;
pub use outcome::BadFrame;
pub use reading::{Frame, FrameError, MOST_CONTENT, MOST_LINES, read_frame};
pub use writing::{WriteError, frame_of, write_frame};
