//! Places of a source as editors count them: lines from 0, and columns in units of UTF-16.
//!
//! `column` says how many units the bytes before a place are, and `place_at` how many bytes are before a column. From
//! the column of a place where a character begins it leads back to that place (`LeadsBack`). `word_span`, `line_span`,
//! `piece` and the other calls on spans say what stands at a column of a line (`specs/Spans`).
#![tactic(auto)]

mod columns;
mod spans;

pub use columns::{column, place_at};
pub use spans::{Span, between, line_span, piece, place_span, tail, whole_span, word_span};
