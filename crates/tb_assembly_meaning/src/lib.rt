//! What statements of assembler text mean: where each lies, what its names stand for, and which items it is.
//!
//! `mean` answers items, faults, first address, names and places of statements, each by its definition (`items_of`,
//! `faults_of`, `base_of`, `names_of`, `spots_of`). `settle` answers statements after rounds (`Settles`). In each, the
//! branches that don't reach by the places and values of their round become long, and after the last there is none.
#![tactic(auto)]

mod bytes;
mod faults;
mod items;
mod layout;
mod meaning;
mod modes;
mod settling;
mod spots;
mod symbols;
mod values;

pub use faults::{MeaningError, MeaningFault, Wrong};
pub use layout::Laid;
pub use meaning::{Meaning, StatementFault, mean};
pub use settling::settle;
pub use spots::Spot;
pub use symbols::{Symbols, symbol};
