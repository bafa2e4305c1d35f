//! Messages of JSON-RPC: the content of a frame as a JSON value, what it asks for, and the contents that answer it.
//!
//! `read_value` is the value that a content reads as by JSON's grammar; what is refused and is UTF-8 reads as none.
//! `message_of` tells by a value's members whether it is a request, a notification, an answer or none of these
//! (`TellsBy`). `success` and `failure` are contents that read as the answer, if that nests no deeper than 127
//! (`Says`).
#![tactic(auto)]

mod answers;
mod messages;
mod refusals;

pub use answers::{failure, success};
pub use messages::{Message, Unreadable, message_of, read_value};
pub use refusals::{INITIALIZED, NO_JSON, NO_MESSAGE, NOT_INITIALIZED, Refusal, TOO_LARGE};
