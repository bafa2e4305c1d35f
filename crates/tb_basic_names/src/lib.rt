//! The names of a source: its lines with their tokens, which of them give the program its lines, and where lines and
//! variables are named.
//!
//! - `read_line` and `read_source` say of each line what it does to the program in a notation, or that it is refused
//!   (`Does`). Its tokens are slices of it with only spaces between them, each of its kind (`AreTokens`).
//! - `Source::standing` is the place of the last good line of a number, if that has a statement. The program of the
//!   good lines has that statement at this number, and none where no line stands (`Gives`).
//! - `Line::jump` and `jump_of` are the jump of a good line, if its target is constant. `name_at`, `occurrences`,
//!   `target_span` and the other calls are their definitions over these lines and tokens.
//! - `remarks_name_nothing`: what is named in a line is named by its tokens before REM.
#![tactic(auto)]

mod jumps;
mod laws;
mod lines;
mod names;
mod places;
mod sources;
mod touched;
mod variables;

pub use jumps::{Jump, jump_of, jump_word};
pub use laws::{remarks_name_nothing, superseded_lines_do_nothing};
pub use lines::{Line, read_line};
pub use names::{Name, name_in};
pub use places::{Occurrence, Role, number_span, occurrences, target_span};
pub use sources::{Source, read_source};
pub use touched::{name_at, touched_at};
pub use variables::{Mode, Variable, variables_of};
