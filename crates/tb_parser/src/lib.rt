//! The parser of Tiny BASIC: what a source text means, or the first place where it means nothing.
//!
//! A file is a list of lines, each with a number; the lines make a map from numbers to statements. Texts may have
//! signs, as `{clr}` for the byte that clears the screen, where a reader is told so by its `Notation`.
//!
//! - `parse` answers the map that the file's lines make, or kind, line and column of the first bad line (`found`), and
//!   there is no other answer (`only`). The numbers rise from 1 to 32,767 (`rising`). `parse_expr` is the same for one
//!   expression.
//! - `parse_in` and `read_line_in` are the same in a notation. If no text has a brace or a bracket, both notations
//!   give the same (`plain`). `programs_are_made`: a source has a program, as the headline says it, exactly where its
//!   lines make that program without signs.
//! - `tokens` are slices of the line in order, with only spaces between and around them, each of its kind
//!   (`AreTokens`). `specs/Kinds` says what may follow a token (`awaited`), and which kind begins at a byte
//!   (`TokenAt`). `tokens_are_unique`: no line has two lists of tokens. `remarks_are_whole`: what is left of a line
//!   behind REM is one token.
//!
//! The contracts do not say the column of a syntax error; only tests show it.
#![tactic(auto)]

mod edits;
mod errors;
mod laws;
mod lexer;
mod parser;
mod scans;
mod signs;
mod squeeze;

pub use edits::{LineEdit, apply};
pub use errors::{LineFault, SourceError, SourceErrorKind};
pub use laws::{programs_are_made, remarks_are_whole, tokens_are_unique};
pub use lexer::{Token, TokenKind, tokens};
pub use parser::{parse, parse_expr, parse_in, read_line, read_line_in};
pub use tb_basic_syntax::{Expr, Operator, PrintItem, Program, Statement};
pub use tb_words::{Letter, Rel};
