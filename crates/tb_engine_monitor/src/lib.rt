//! What VICE's monitor is told so that it stops where a ROM writes what is a program's, or where code runs outside it.
//!
//! `watch_file` gives, byte by byte, the text of the checkpoints for a PRG file of this size: which there are, in
//! which order, where each looks, when it counts and what follows. That the monitor does what its manual says is not
//! proved. That it stops where it should is tried with nine ROMs that break a rule each
//! (`tools/try/foreign_machines.sh`).
#![tactic(auto)]

mod checkpoints;
mod digits;
mod lists;
mod texts;

pub use texts::watch_file;
