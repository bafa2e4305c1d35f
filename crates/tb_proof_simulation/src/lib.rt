//! The theory of the headline: the code of a program keeps the program.
//!
//! Its lemmas say that the headline and the promise on line starts (`Keeps` and `MarksLines` of tb_compiled_kept)
//! follow from a law of each step of a program's code, whatever the steps are. It has no contract of its own.
#![tactic(auto)]

mod promises;

pub use promises::nothing;
