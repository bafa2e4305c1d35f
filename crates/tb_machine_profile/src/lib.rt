//! Profiles of runs: how often each line of a program is begun, and how many instructions and cycles it takes.
//!
//! A step is an event of the program's own: an instruction, or a service, which counts as one instruction of 6 cycles.
//! It belongs to the line that was begun last. `run_counted` is a run as `run`'s (`RanOver`), and its tally has
//! counted exactly the steps of that run's events (`IsTally`). For each address it has how often a step began there,
//! how many steps belong to the line that begins there, and their cycles. It also has all steps and all cycles.
#![tactic(auto)]

mod run;
mod tally;

pub use run::{Profile, run_counted};
pub use tally::Tally;
