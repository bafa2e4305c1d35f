//! Reaching: what machine code does, whatever its ROM does.
//!
//! `step` and `chain` are the two laws of reaching. `never_wrong`: code that comes from one view to another never goes
//! wrong on the way. `sends_text`: a loop through CHROUT sends any text under any caller and every lawful list of
//! events, within 9 events a byte plus 3. `prints_hello` is a headline in miniature, from every start. The laws over
//! all sets of states are lemmas.
#![tactic(auto)]

mod example;
mod theory;

pub use example::{HELLO, prints_hello, sends_text};
pub use theory::{chain, never_wrong, step};
