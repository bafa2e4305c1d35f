//! The words that ask for options, one by one.
ghost use Rattle.std.specs.Prelude.{◌≡◌, ◌≤◌, ◌<◌, ◌+◌, ◌∷◌, [], length, MatchOption};
ghost use Rattle.tb_basic_options.specs.Words as spec;

use crate::options::{BadWord, OwnOptions};

const FIT: &str = "--fit";

const PETSCII: &str = "--petscii";

const SEED: &str = "--seed";

/// The most that a seed is.
const MOST_SEED: u32 = 65535;

/// How far the words of a line are read.
#[derive(Clone, Copy, Drop)]
pub struct Reading {
    pub options: OwnOptions,
    /// The number of the line.
    pub line: usize,
    /// The column of the option that awaits its value.
    pub awaits: Option<usize>,
}

impl Reading {
    /// With all words of a text that begins at a column.
    pub fn with_words(self, column: usize, text: &[u8]) -> Reading
        requires { column + length text.now ≤ 511 }
        ensures { result ≡ spec.with_words self column (spec.words_in text.now) }
    {
        let Some((word, rest)) = next_word(text) else {
            return self;
        };
        let read = self.with_word(column, word);
        match rest {
            [] => read,
            _ => read.with_words(column + word.len() + 1, rest),
        }
    }

    // With one word. Between two spaces there is none.
    fn with_word(self, column: usize, word: &[u8]) -> Reading
        ensures { result ≡ spec.with_word self column word.now }
    {
        if word.is_empty() {
            return self;
        }
        match self.awaits {
            Some(_) => self.with_seed(column, seed_of(word)),
            None => self.with_option(column, word),
        }
    }

    // With the value of the option that awaits it.
    fn with_seed(self, column: usize, seed: Option<u16>) -> Reading
        ensures { result ≡ spec.with_seed self column seed }
    {
        let read = Reading {
            awaits: None,
            ..self
        };
        match seed {
            Some(_) => read.with_options(OwnOptions {
                seed,
                ..self.options
            }),
            None => read.refusing(column),
        }
    }

    fn with_option(self, column: usize, word: &[u8]) -> Reading
        ensures { result ≡ spec.with_option self column word.now }
    {
        if word == FIT.as_bytes() {
            self.with_options(OwnOptions {
                fit: true,
                ..self.options
            })
        } else if word == PETSCII.as_bytes() {
            self.with_options(OwnOptions {
                petscii: true,
                ..self.options
            })
        } else if word == SEED.as_bytes() {
            Reading {
                awaits: Some(column),
                ..self
            }
        } else {
            self.refusing(column)
        }
    }

    fn with_options(self, options: OwnOptions) -> Reading
        ensures { result ≡ spec.with_options self options }
    {
        Reading { options, ..self }
    }

    // With a word that asks for nothing. The first one is kept.
    fn refusing(self, column: usize) -> Reading
        ensures { result ≡ spec.refusing self column }
    {
        match self.options.bad {
            Some(_) => self,
            None => self.with_options(OwnOptions {
                bad: Some(BadWord {
                    line: self.line,
                    column,
                }),
                ..self.options
            }),
        }
    }

    /// What the words ask for. An option without its value asks for nothing.
    pub fn ended(self) -> OwnOptions
        ensures { result ≡ spec.ended self }
    {
        match self.awaits {
            Some(column) => self.refusing(column).options,
            None => self.options,
        }
    }
}

// The first word of a text, up to a space, and what is left behind that. `None` if the text is empty.
fn next_word(text: &[u8]) -> Option<(&[u8], &[u8])>
    ensures { MatchOption result (text.now ≡ [])
        (λ p. (spec.words_in text.now ≡ p.0.now ∷ spec.words_in p.1.now) × (length p.1.now < length text.now)
        × (0 < length p.1.now → length p.0.now + 1 + length p.1.now ≡ length text.now)) }
{
    if text.is_empty() {
        return None;
    }
    for (i, byte) in text.iter().enumerate() {
        if *byte == b' ' {
            return Some((&text[..i], &text[i + 1..]));
        }
    }
    Some((text, &[]))
}

// The seed that a word spells.
fn seed_of(word: &[u8]) -> Option<u16>
    ensures { result ≡ spec.seed_from 0 word.now }
{
    seed_from(0, word)
}

// The seed that some digits spell, and these behind them.
fn seed_from(begun: u16, digits: &[u8]) -> Option<u16>
    ensures { result ≡ spec.seed_from begun digits.now }
{
    match digits {
        [] => Some(begun),
        [digit @ b'0'..=b'9', rest @ ..] => {
            let number = 10 * u32::from(begun) + u32::from(*digit - b'0');
            if number <= MOST_SEED {
                seed_from(number as u16, rest)
            } else {
                None
            }
        }
        _ => None,
    }
}
