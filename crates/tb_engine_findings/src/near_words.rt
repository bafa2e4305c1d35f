//! Words one slip away from those of statements.
ghost use Rattle.std.specs.Prelude.{◌≡◌};
ghost use Rattle.std.specs.List.{find};
ghost use Rattle.tb_engine_findings.specs.NearWords.{is_near, is_swapped, near_word, spelling_of};

use tb_basic_grammar::{Keyword, THEN};

/// A word of statements.
#[derive(Clone, Copy, Drop)]
pub enum StatementWord {
    /// One that begins them.
    Begins(Keyword),
    Then,
}

// All but PR.
const STATEMENT_WORDS: [StatementWord; 10] = [
    StatementWord::Begins(Keyword::Let),
    StatementWord::Begins(Keyword::Print),
    StatementWord::Begins(Keyword::Input),
    StatementWord::Begins(Keyword::If),
    StatementWord::Then,
    StatementWord::Begins(Keyword::Goto),
    StatementWord::Begins(Keyword::Gosub),
    StatementWord::Begins(Keyword::Return),
    StatementWord::Begins(Keyword::End),
    StatementWord::Begins(Keyword::Rem),
];

impl StatementWord {
    /// How it is written.
    pub fn spelling(self) -> &'static str
        ensures { result.now ≡ spelling_of self }
    {
        match self {
            StatementWord::Begins(keyword) => keyword.spelling(),
            StatementWord::Then => THEN,
        }
    }
}

/// The first word of a statement from which a word in upper case is one slip away: a letter is changed, left out or
/// added, or two that follow each other are swapped.
pub fn near_word(letters: &[u8]) -> Option<StatementWord>
    ensures { result ≡ near_word letters.now }
{
    first_near(&STATEMENT_WORDS, letters)
}

fn first_near(words: &[StatementWord], letters: &[u8]) -> Option<StatementWord>
    ensures { result ≡ find (λ w. is_near letters.now (spelling_of w)) words.now }
{
    for word in words {
        if is_near(letters, word.spelling().as_bytes()) {
            return Some(*word);
        }
    }
    None
}

fn is_near(word: &[u8], other: &[u8]) -> bool
    ensures { result ≡ is_near word.now other.now }
{
    match (word, other) {
        ([a, word_rest @ ..], [b, other_rest @ ..]) => {
            if a == b {
                is_near(word_rest, other_rest)
            } else {
                word_rest == other_rest
                    || word_rest == other
                    || word == other_rest
                    || is_swapped(word, other)
            }
        }
        ([_, word_rest @ ..], []) => word_rest.is_empty(),
        ([], [_, other_rest @ ..]) => other_rest.is_empty(),
        ([], []) => false,
    }
}

// Whether two words differ in that their first two letters are swapped.
fn is_swapped(word: &[u8], other: &[u8]) -> bool
    ensures { result ≡ is_swapped word.now other.now }
{
    match (word, other) {
        ([a, b, word_rest @ ..], [c, d, other_rest @ ..]) => {
            a == d && b == c && word_rest == other_rest
        }
        _ => false,
    }
}
