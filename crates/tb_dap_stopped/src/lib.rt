//! The law of what a debug adapter tells of a run.
//!
//! `what_is_told_is_of_the_run`: after each dialogue with a program that was launched, these hold of the keys that
//! were typed and of all that was said (`Tells`):
//!
//! - The debugger is on the run of that program from its start on all these keys (`IsOnRun`). Where a line begins and
//!   a compiler made the program, the source is at that line, with its variables, lines to return to and output
//!   (`ShowsLine`).
//! - Each `stopped` event tells a stop at which the debugger was (`AreStopsOf`).
//! - The texts of the program's output, one behind the other, are the host form of what that run had sent at the
//!   farthest moment at which it came to rest. So each byte is told once, however often it went back and on
//!   (`OutputIsTold`).
#![tactic(auto)]

mod laws;

pub use laws::what_is_told_is_of_the_run;
