//! Listings of programs as other assemblers take them.
//!
//! `list_for` lists what follows a program's BASIC line, as a text that assembles at its address to the same bytes. It
//! takes the listing with labels, or the one without names if the first does not give the bytes back. Before that text
//! come the bytes of the BASIC line. `spell` writes a text as the assembler takes it. Items, names and comments are
//! given by cases on the assembler. What an assembler makes of them is not proved, but tried
//! (`tools/try/assemblers.sh`).
#![tactic(auto)]

mod basic_line;
mod dialect;
mod items;
mod kernal;
mod lines;
mod listing;
mod named;
mod places;

pub use dialect::Dialect;
pub use listing::{list_for, spell};
