//! Stepping a program forward and back.
//!
//! A `Stepper` holds a machine, its outside, undos of its last 1,000 steps, and the program of its source, if it has
//! one.
//!
//! - `step`: the outside's event happens. The machines that the undos give back become the last 1,001 of the old ones
//!   and the new state. A stopped machine asks nobody (`Stepped`).
//! - `back` takes the last machine off (`restored`), and is refused exactly when only one is left (`refused`).
//! - Each machine held comes from the one before it by one event (`each_follows`), and there are at most 1,001
//!   (`few`).
//! - `to_line`, `line`, `variable`, `value_of` and `depth` are their definitions.
#![tactic(auto)]

mod reached;
mod readings;
mod stepper;

pub use reached::{Reached, StepError};
pub use stepper::{NothingBack, Refused, Stepper};
