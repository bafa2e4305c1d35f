//! Labels.

/// A name of an address.
#[derive(Debug, Drop)]
pub struct Label {
    pub address: u16,
    /// One character or more, of ASCII, none of them a space.
    pub name: String,
}

/// Why a label file is refused.
#[derive(Clone, Copy, PartialEq, Eq, Debug, Drop)]
pub enum LabelsError {
    /// This line names no label, counted from 1.
    Line(usize),
    /// Memory ran out.
    NoMemory,
}
