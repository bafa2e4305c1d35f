//! Signs: the bytes that no key of a host types, as they are written in the texts of a source.
//!
//! `{clr}` is a control character by its name, `{3 down}` one so many times, and `{C1}` the byte of two hexadecimal
//! digits. `[` and `]` stand for themselves.
//!
//! - `read_character` reads the sign or plain byte that a text begins with: the byte that it stands for, how often,
//!   and how many bytes it is written with (`specs/Characters`).
//! - `read_text` reads a whole text, or answers the place where no character begins. `write_text` answers a text that
//!   is read as the same bytes (`back`); there is none exactly if a quote or a new line is among them.
//! - `byte_named` and `name_of` go between a byte and its name. `near_name` is the name of the fewest edits;
//!   `after_count` and `written_name` are the parts of a sign.
#![tactic(auto)]

mod characters;
mod names;
mod near;
mod numbers;
mod texts;

pub use characters::{Character, read_character};
pub use names::{byte_named, name_of};
pub use near::{after_count, near_name, written_name};
pub use numbers::constants_are_numbers;
pub use texts::{read_text, write_text};
