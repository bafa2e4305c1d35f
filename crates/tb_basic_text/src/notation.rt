//! How the texts of a source are read.

/// How the texts of a source are read.
#[derive(Clone, Copy, Debug, PartialEq, Eq, Drop)]
pub enum Notation {
    /// Byte by byte, with small letters as capitals.
    Plain,
    /// With signs: `{clr}`, `{3 down}` and `{C1}` are the bytes that they stand for, and `[` and `]` are themselves.
    Signs,
}
