//! What a program means.
//!
//! The meaning is a definition (`specs/Meaning.antt`). `run_source` is a plain program that runs it: the source's run
//! after a given number of lines. `eval` is the value of an expression without RND. `warnings` gives the missing
//! constant targets of jumps, in order. `statement_need` is how many slots a statement needs, `statement_bounds` which
//! bounds its RNDs have.
#![tactic(auto)]

mod bounds;
mod evaluation;
mod faults;
mod interpreter;
mod missing;
mod needs;
mod numbers;
mod output;
mod places;
mod turns;

pub use bounds::statement_bounds;
pub use evaluation::{EvalError, constant, eval};
pub use interpreter::{DEEPEST, RunEnd, SourceRun, run_source};
pub use missing::{Warning, warnings};
pub use needs::{LowerError, SLOT_COUNT, statement_need};
pub use numbers::constants_are_numbers;
pub use places::Place;
