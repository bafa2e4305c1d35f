//! Places, spans and edits of texts as JSON values: what is told of them, and where a request asks.
//!
//! `range_value` and `location_value` are the JSON of a span. `place_in` and `lines_of_range` are where params ask, or
//! that they have not the form.
//!
//! `edit_value`, `lines_edit` and `changes_value` are the JSON of a text in place of a span, of lines, and of all
//! edits of a text.
#![tactic(auto)]

mod edits;
mod places;
mod ranges;

pub use edits::{changes_value, edit_value, lines_edit};
pub use places::{Place, lines_of_range, place_in};
pub use ranges::{location_value, range_value};
