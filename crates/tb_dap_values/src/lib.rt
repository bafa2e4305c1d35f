//! What requests to a debug adapter ask for, with their arguments, and the bodies of answers and events.
//!
//! `command_of` is the command of a request by its name. `text_in`, `list_in`, `flag_in`, `number_in`, `offset_in` and
//! `optional_text` read a member of its arguments: what it usually is where it is left out, or that it has not the
//! form. The bodies of answers and events are the values that `specs/Bodies` and `specs/Stops` name.
#![tactic(auto)]

mod arguments;
mod bodies;
mod requests;
mod stops;

pub use arguments::{flag_in, list_in, number_in, offset_in, optional_text, text_in};
pub use bodies::{
    all_continued_body, capabilities_body, continued_body, exited_body, frame_value, memory_body,
    named_value, output_body, scopes_body, source_value, stack_body, start_value, stopped_at_body,
    stopped_body, threads_body, typed_body, value_body, variable_value, variables_body,
};
pub use requests::{Command, Movement, command_of};
pub use stops::{
    breakpoints_body, unverified_value, unwatchable_body, verified_value, watchable_body,
    watched_value,
};
