//! What a language server shows of a place: the line, variable, number or word there.
//!
//! `hover` answers the value with the text of what is there (`Hovers`), by `about`; `help_of` is that of a word.
//! `line_numbers` gives address, bytes and cost of a line as the map's parts have them (`first_part` of tb_compiled).
//! They are of the program that the compiler answers in the source's notation; none only where it is refused
//! (`NumbersAre`).
#![tactic(auto)]

mod numbers;
mod shown;
mod texts;
mod tokens;
mod words;

pub use numbers::{LineNumbers, line_numbers};
pub use shown::hover;
pub use tokens::{About, about_token};
pub use words::help_of;
