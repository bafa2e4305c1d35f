//! Requests to a debug adapter, one by one: which program is launched, how it is loaded, what is set and asked, and
//! what is told of a stop.
//!
//! `launch_in`, `question_in`, `breakpoints_in` and `watches_in` are what arguments ask for. `load` reads and compiles
//! the source, in the notation that the launch asks for, or else in the adapter's own, and as the source's own words ask
//! for (`Loads`). A source that is
//! refused is told as `check` reports it (`IsReport`), and then in the words of `run`. `stack`, `variables`, `memory`
//! and `code` answer by their definitions over the debugger, and `stop_event` tells a stop. `frames_of` numbers
//! messages on from the number that it is given (`AreFrames`).
#![tactic(auto)]

mod asking;
mod launching;
mod loading;
mod said;
mod setting;
mod stops;

pub use asking::{Question, code, memory, question_in, stack, variables, watchable};
pub use launching::{Launch, Manner, Plan, Usual, is_understood, launch_in};
pub use loading::{Loaded, Loading, load};
pub use said::{Said, complaint, content_of, frames_of, output};
pub use setting::{
    Breakpoints, Wanted, breakpoints_in, elsewhere_body, letters_of, lines_of, placed_body,
    watched_body, watches_in,
};
pub use stops::{Stop, leads_back, stop_ahead, stop_behind, stop_event};
