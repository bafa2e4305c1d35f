//! How sources are checked.
use tb_compiled::{Notation, SizeLimit};

/// How sources are checked.
#[derive(Clone, Copy, Debug, PartialEq, Eq, Drop)]
pub struct CheckSettings {
    /// When a program is too large.
    pub size: SizeLimit,
    /// How texts are read.
    pub notation: Notation,
}
