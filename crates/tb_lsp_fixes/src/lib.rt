//! What mends the findings of a source: an edit of the text, as a language server offers it.
//!
//! `fix_of_bad_line` and `fix_of_warning` are the edits that mend a finding, by its note or warning. For an even bound
//! there is one edit for each `RND` with it (`edits_of` of `specs/Bounds`). For a sign that stands for nothing it is
//! the near name in place of the one that is written (`writes_sign` of `specs/Signs`). `actions` are those of the
//! findings on lines, which are the source's by the clause of `examine`, each with its diagnostic as it is published
//! (`AreActions`).
#![tactic(auto)]

mod bounds;
mod fixes;
mod offers;
mod signs;

pub use fixes::{Fix, fix_of_bad_line, fix_of_warning};
pub use offers::{LineRange, actions};
