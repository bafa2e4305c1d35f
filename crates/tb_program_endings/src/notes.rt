//! Notes that know all that they say.
ghost use Rattle.std.specs.Prelude.{Some};
ghost use Rattle.tb_program_endings.specs.Notes.{note_text};

use std::fmt;
use tb_basic_options::BadWord;

/// A note for a person at a terminal.
#[derive(Clone, Copy, Debug, Drop)]
pub enum Note<'a> {
    /// The place where a PRG file stopped.
    Stopped(&'a str),
    /// The line of a label file, by its path, that is no label, counted from 1.
    BadLabel(&'a str, usize),
    /// How many bytes a source takes that costs too much, and that the memory would hold.
    Fits(usize),
    /// The seed that was made of the clock.
    Seed(u16),
    /// The word of a source, by its path, that is no option.
    Passed(&'a str, BadWord),
    /// A source that stands in the place of a command.
    Source(&'a str),
}

impl fmt::Display for Note<'_> {
    ghost output = { λ n. Some (note_text n) };

    fn fmt<W: fmt::Write>(&self, f: &mut fmt::Formatter<W>) -> fmt::Result {
        match self {
            Note::Stopped(place) => write!(f, "at {place}"),
            Note::BadLabel(path, line) => write!(f, "{path}, line {line}"),
            Note::Fits(bytes) => write!(f, "its code takes {bytes} bytes: --fit compiles it"),
            Note::Seed(seed) => {
                write!(f, "the seed is {seed}; --seed {seed} gives the same again")
            }
            Note::Passed(path, BadWord { line, column }) => {
                write!(
                    f,
                    "{path}:{line}:{column}: no option of a source, and passed over"
                )
            }
            Note::Source(word) => write!(f, "to run a source: tbc run {word}"),
        }
    }
}
