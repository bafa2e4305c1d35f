//! Where lines and variables of a source are named, as a language server answers it: definition, references,
//! highlights and symbols. And how a text is shown: which lines can be folded, and what each token is.
//!
//! `definition`, `references`, `highlights`, `symbols`, `calls`, `standing_number`, `is_remark` and `shown` are their
//! definitions over the lines of a source.
//!
//! `folds`, `legend` and `semantic_tokens` are their definitions over the lines of a source and their tokens.
#![tactic(auto)]

mod folding;
mod outline;
mod places;
mod remarks;
mod tokens;
mod values;

pub use folding::folds;
pub use outline::{calls, standing_number, symbols};
pub use places::{definition, highlights, references};
pub use remarks::{is_remark, shown};
pub use tokens::{legend, semantic_tokens};
