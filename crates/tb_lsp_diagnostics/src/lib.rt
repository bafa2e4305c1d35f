//! What `check` finds of a source, as a language server publishes it: ranges, severities, codes and texts.
//!
//! `diagnose`: the diagnostics of a source are those of findings that are the source's by the clause of
//! `examine_to_fit` (`AreFitted`). A program that is too large by its cost alone is no fault, and an information says so.
//! There is one for each bad line, line that is too deep, or warning, in their order, with range, severity, code, text and
//! note, and one for its own word that is no option. Or it says that the source has more than 1,048,576 bytes
//! (`Diagnoses`). `publish` and `publish_none`: the content reads as the message with just these (`Publishes`).
#![tactic(auto)]

mod codes;
mod findings;
mod published;
mod values;

pub use codes::{error_code, warning_code};
pub use findings::{Lines, fitted, on_bad_line, on_warning, push_bad_word, too_long};
pub use published::{diagnose, publish, publish_none};
pub use values::{Said, Severity, plain, superseded};
