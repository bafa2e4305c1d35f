//! The stepper's commands, one on a line, and the lines that answer them.
//!
//! `read_command` is the format's table of commands. `respond` answers a command, and leaves the history that the
//! stepper's step, step back or walk leaves. What only a source tells (`needs_source`) is answered by `no source`
//! where there is none, and then nothing changes. `answers` is the dialogue over the lines of a text, up to `q` or its
//! end, each answer's line to the letter.
#![tactic(auto)]

mod answer;
mod command;
mod dialogue;
mod lines;

pub use answer::Answer;
pub use command::{Command, read_command};
pub use dialogue::{answers, respond};
