//! What a transcript says.

/// How a run ended.
#[derive(Clone, Copy, PartialEq, Eq, Debug, Drop)]
pub enum RunEnd {
    /// The program returned.
    Returned,
    /// It waits for a key, and none is left.
    Waits,
    /// It still runs at the limit.
    Runs,
    /// A fault by its code, and the number of the line.
    Fault(u8, u16),
}

/// What a transcript asks for beside what its source asks for.
#[derive(Clone, Copy, PartialEq, Eq, Debug, Drop)]
pub struct RunOptions {
    /// The first state of RND.
    pub seed: Option<u16>,
    /// Whether a source is refused as too large only if it doesn't fit the memory.
    pub fits: bool,
    /// Whether texts have signs.
    pub signs: bool,
    /// How many instructions the program may take.
    pub limit: Option<u32>,
    /// The seed of a ROM that is rude.
    pub rude: Option<u16>,
}

/// A line that was typed, and what the program had sent since the one before.
#[derive(Debug, Drop)]
pub struct Turn {
    pub sent: Vec<u8>,
    pub typed: Vec<u8>,
}

/// What a transcript says.
#[derive(Debug, Drop)]
pub struct Transcript {
    pub options: RunOptions,
    pub end: RunEnd,
    pub turns: Vec<Turn>,
    /// What was sent after the last line that was typed.
    pub last: Vec<u8>,
}

/// Where a run differs from what was wanted.
#[derive(Debug, Drop)]
pub struct Difference {
    /// The first turn that differs; the number of turns if what was sent last does.
    pub turn: usize,
    /// How many bytes of what was sent there are alike.
    pub alike: usize,
    /// The lines that differ, as a hunk of a unified difference of both canonical texts: at most three lines of the
    /// output before them, then at most four that are wanted and four of the run. If the output is the same, it is
    /// the header's line of the end.
    pub text: Vec<u8>,
}
