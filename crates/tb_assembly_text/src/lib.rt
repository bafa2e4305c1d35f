//! Assembler text as people write it: the tokens of a line, its expressions, and its statements, or the line's first
//! fault.
//!
//! `read_line` appends the statements of a line by their definition (`said_in`), or answers its first fault
//! (`pushes`). The label to which local names belong is then the line's last, if it has one (`scope`).
#![tactic(auto)]

mod expressions;
mod faults;
mod lines;
mod lists;
mod names;
mod operands;
mod statements;
mod tokens;
mod words;

pub use expressions::{Action, Binary, Expression, Step, Unary};
pub use faults::{Fault, FaultKind, LineError};
pub use lines::read_line;
pub use lists::Datum;
pub use names::{MOST_LETTERS, Name};
pub use operands::{Index, Shape, Width};
pub use statements::{Clause, Statement};
