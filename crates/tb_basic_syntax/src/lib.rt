//! Programs in Tiny BASIC as trees: expressions, statements and numbered lines.
//!
//! The crate has no text in it: the parser makes these trees, and every layer after it reads them. Two trees are equal
//! exactly if they are the same as plain data. `jump_of` and `expressions_of` find parts of a statement, also behind its
//! IFs. `Program` is a map from numbers to statements: `set`, `delete`, `lines`, `is_empty`. A `set` that finds no
//! memory changes nothing, and hands back the number and the statement.
#![tactic(auto)]

mod expressions;
mod parts;
mod programs;
mod statements;

pub use expressions::{Expr, Operator};
pub use parts::{expressions_of, jump_of};
pub use programs::{HIGHEST_LINE, Program};
pub use statements::{PrintItem, Statement};
