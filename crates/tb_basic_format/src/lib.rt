//! The tidy text of a source: the same lines with one space where one belongs, and letters as capitals.
//!
//! What a line says stays: its bytes are the same, but for spaces that mean nothing and for the case of letters
//! outside texts and remarks.
//!
//! - `tidy_line` leaves a bad line as it is, and answers the tidy form of a good one (`tidy_line` of `specs/Lines`). A
//!   good one stays too if that has more than 255 bytes, or if other bytes are kept of it (`IsTidied`).
//! - `tidy_text` does so with each line of a source (`tidy`). Line ends stay, and a line of spaces stays where an
//!   empty one would be no line. The text has as many lines, each with the same squeezed bytes (`same`).
//!
//! All this holds in each notation. Only tests show that each good line has a tidy form that says the same, and that a
//! tidy text is its own.
#![tactic(auto)]

mod conditions;
mod kept;
mod laws;
mod lines;
mod modes;
mod statements;
mod texts;

pub use laws::tidy_texts_stay;
pub use lines::tidy_line;
pub use texts::tidy_text;
