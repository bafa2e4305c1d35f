//! In which form it is told how transcripts went.

/// In words, or by the Test Anything Protocol.
#[derive(Clone, Copy, PartialEq, Eq, Debug, Drop)]
pub enum TestForm {
    Text,
    Tap,
}
