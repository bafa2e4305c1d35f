//! The grammar of expressions and statements, and its reader.
//!
//! A text is squeezed: it has no spaces outside texts and remarks, and its letters are in upper case. What it means is
//! a relation by cases, in `specs/Grammar.antt` and `specs/Statements.antt`.
//!
//! `read_expression` and `read_statement` answer a reading (`found`), and every reading is the answer (`only`). So a
//! refusal comes only if there is no reading. `expressions_are_unique` and `statements_are_unique`: no text has two
//! readings. `Keyword::spelling` gives the words of statements.
#![tactic(auto)]

mod expressions;
mod items;
mod keywords;
mod laws;
mod read_error;
mod statements;

pub use expressions::{ReadExpression, read_expression};
pub use keywords::{KEYWORDS, Keyword, THEN};
pub use laws::{expressions_are_unique, statements_are_unique};
pub use read_error::ReadError;
pub use statements::{ReadStatement, read_statement};
