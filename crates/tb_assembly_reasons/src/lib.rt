//! Why a text is not assembled: the line and its place, and what helps.
//!
//! `line_text` says why a line of assembler text is bad: at the first byte that belongs to no part of it, or else at a
//! word (`line_fault`, by cases). `item_text` names the line of an item that is refused, and its label (`item_rows`).
//! Both show that line of the text.
#![tactic(auto)]

mod errors;
mod faults;
mod lines;
mod reasons;
mod rows;
mod strays;
mod words;

pub use faults::line_fault;
pub use reasons::{LineFault, LineReason};
pub use rows::{item_text, line_text};
