//! Messages of the Debug Adapter Protocol: what a content asks for, and the contents of answers and events.
//!
//! `message_of`: which command a value asks for, by which number and with which arguments; that it answers or tells
//! something; or that it is no message (`asked_in`). `success`, `failure` and `event` are contents that read as the
//! answer, the refusal or the event with its number, member by member (`specs/Envelopes`), if they nest no deeper than
//! 127.
#![tactic(auto)]

mod envelopes;
mod refusals;
mod requests;

pub use envelopes::{Asker, event, failure, success};
pub use refusals::Refusal;
pub use requests::{Message, message_of};
