//! What meets the host: readers and writers whose failures are counted, whole inputs and outputs, lines, key lists,
//! the text in which sent bytes are shown, and exit statuses.
//!
//! - `Tracked` counts a stream's failures. The count is private, so only its three calls on the stream change it.
//! - `read_input` gives all that a reader had, up to 1,048,576 bytes, and takes just that from it (`consumed`).
//!   `read_line` reads a line byte by byte and nothing after it. `write_output` writes a text or a prefix of it. Each
//!   says when a stream failed.
//! - `read_key_file` gives the keys that a key file spells. It refuses exactly the texts that spell none, and files
//!   that are too large. What `key_file` makes of keys spells them again (`spelled`).
//! - `host_form`, `key_list` and `address` are their definitions. `write_shown` writes bytes as a notation shows them, or
//!   a prefix of that, and takes no memory.
//! - `Outcome::status` is the exit status of how a call ended (`status_of`), by those of its ends and refusals
//!   (`ExitStatus`). `Outcome::of`: what made nothing ends as it failed (`ended_by`).
#![tactic(auto)]

mod key_files;
mod keys;
mod lines;
mod numbers;
mod outcome;
mod screen;
pub mod status;
mod stream;
mod tracked;

pub use key_files::{KeyFileError, MOST_KEY_FILE, key_file, read_key_file};
pub use keys::{KeyError, address, key_list};
pub use lines::{read_line, without_return};
pub use numbers::constants_are_numbers;
pub use outcome::{
    Done, ExitStatus, Failure, NoRefusal, OUT_OF_MEMORY, Outcome, READ_FAULT, WRITE_FAULT,
};
pub use screen::{host_form, write_shown};
pub use stream::{InputError, MOST_INPUT, read_input, write_output};
pub use tracked::{StreamFailure, Tracked};
