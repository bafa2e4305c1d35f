//! A note, as it is said.
use std::fmt;

/// Says a note. Nobody can be told that standard error fails.
pub fn say<R: Eprint, D: fmt::Display + Drop>(rt: &R, note: D) {
    let _ = eprintln!(rt; "tbc: note: {note}");
}
