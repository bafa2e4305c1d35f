//! What a source says by itself of how it is to be read and compiled: `REM TBC: --fit --petscii --seed 7` on one of its
//! first five lines.
//!
//! `own_options` answers what the words of such remarks ask for, and the place of the first word that is no option, or
//! no seed (`options_of`). `notation_for` is the notation of a source, by the one that is asked for and by its own
//! words.
#![tactic(auto)]

mod options;
mod remarks;
mod words;

pub use options::{BadWord, OwnOptions, notation_for, own_options};
