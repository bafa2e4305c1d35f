//! The options that a source has by its own words.
ghost use Rattle.std.specs.Prelude.{◌≡◌, ◌≤◌, ◌+◌, false, take};
ghost use Rattle.tb_basic_text.specs.Lines.{lines_from};
ghost use Rattle.tb_basic_options.specs.Options as spec;

use crate::remarks::words_behind;
use crate::words::Reading;
use tb_basic_text::{LONGEST_LINE, Notation, next_line};

/// How many of a source's lines may have such words.
pub const FIRST_LINES: usize = 5;

/// The place of a word that is no option, or no seed: its line, and its column there, both from 1.
#[derive(Clone, Copy, Debug, PartialEq, Eq, Drop)]
pub struct BadWord {
    pub line: usize,
    pub column: usize,
}

/// What a source asks for by its own words.
#[derive(Clone, Copy, Debug, PartialEq, Eq, Drop)]
pub struct OwnOptions {
    /// The first state of RND.
    pub seed: Option<u16>,
    /// Whether it is refused as too large only if it doesn't fit the memory.
    pub fit: bool,
    /// Whether its texts have signs.
    pub petscii: bool,
    /// The first word that asks for nothing.
    pub bad: Option<BadWord>,
}

const NONE: OwnOptions = OwnOptions {
    seed: None,
    fit: false,
    petscii: false,
    bad: None,
};

/// What a source asks for by its own words.
pub fn own_options(source: &[u8]) -> OwnOptions
    ensures { result ≡ spec.options_of source.now }
{
    with_lines(NONE, 1, FIRST_LINES, source)
}

// With what the next lines ask for, of which so many count.
fn with_lines(options: OwnOptions, number: usize, left: usize, source: &[u8]) -> OwnOptions
    requires { number + left ≤ 6 }
    ensures { result ≡ spec.with_lines options number (take left (lines_from false source.now)) }
{
    if left == 0 {
        return options;
    }
    match next_line(source) {
        None => options,
        Some((line, rest)) => {
            with_lines(with_line(options, number, line), number + 1, left - 1, rest)
        }
    }
}

// With what a line asks for. No line of a program is longer than a line may be.
fn with_line(options: OwnOptions, number: usize, line: &[u8]) -> OwnOptions
    ensures { result ≡ spec.with_line options number line.now }
{
    if line.len() > LONGEST_LINE {
        return options;
    }
    match words_behind(line) {
        None => options,
        Some(words) => {
            let reading = Reading {
                options,
                line: number,
                awaits: None,
            };
            reading
                .with_words(line.len() - words.len() + 1, words)
                .ended()
        }
    }
}

impl OwnOptions {
    /// How the source's texts are read: with signs, if that is asked for or the source itself asks for it.
    pub fn notation(self, asked: Notation) -> Notation
        ensures { result ≡ spec.notation_by asked self }
    {
        if self.petscii { Notation::Signs } else { asked }
    }
}

/// The notation in which a source is read: signs if it asks for them, else the one that is asked for.
pub fn notation_for(asked: Notation, source: &[u8]) -> Notation
    ensures { result ≡ spec.notation_for asked source.now }
{
    own_options(source).notation(asked)
}
