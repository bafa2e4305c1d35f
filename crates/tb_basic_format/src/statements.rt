//! Tidy statements, from those without spaces.
ghost use Rattle.std.specs.Prelude.{◌≡◌, ◌++◌, is_some, MatchOption, Option, Some, None};
ghost use Rattle.tb_basic_grammar.specs.Reading.{behind_word};
ghost use Rattle.tb_basic_grammar.specs.StatementReading.{keyword_at, target_at};
ghost use Rattle.tb_words.specs.Texts.{AppendsBytes};
ghost use Rattle.tb_basic_format.specs.Conditions.{condition_length};
ghost use Rattle.tb_basic_format.specs.Statements.{spaced, tidy_at, tidy_conditional, tidy_guarded};
ghost use Rattle.tb_basic_format.specs.Statements.{tidy_statement, tidy_word};
ghost use Rattle.tb_basic_format.specs.declared.conditions.Place.TheVariants.{Operand};

use crate::conditions::condition_length;
use std::alloc::AllocError;
use tb_basic_grammar::{KEYWORDS, Keyword, THEN};

// Whether the text is an assignment without LET.
#[tactic(auto, unfolding(tb_basic_grammar::specs::StatementReading::target_at))]
fn is_assignment(text: &[u8]) -> bool
    ensures { result ≡ is_some (target_at text.now) }
{
    matches!(text, [b'A'..=b'Z', b'=', ..])
}

// What follows a word at the front of a text.
fn behind_word<'a>(word: &[u8], text: &'a [u8]) -> Option<&'a [u8]>
    ensures { MatchOption result (behind_word word.now text.entry.now ≡ None)
        (λ rest. behind_word word.now text.entry.now ≡ Some rest.now) }
{
    text.strip_prefix(word)
}

// The first word of a statement, and what follows it.
#[tactic(auto, unfolding(tb_basic_grammar::specs::StatementReading::keyword_at))]
fn split_keyword(text: &[u8]) -> Option<(Keyword, &[u8])>
    ensures { MatchOption result (keyword_at text.now ≡ None) (λ p. keyword_at text.now ≡ Some (p.0, p.1.now)) }
{
    for keyword in KEYWORDS {
        if let Some(rest) = behind_word(keyword.spelling().as_bytes(), text) {
            return Some((keyword, rest));
        }
    }
    None
}

// Appends a word, with a space before what follows it.
fn push_spaced(text: &mut Vec<u8>, word: &str, behind: &[u8]) -> Result<(), AllocError>
    ensures { AppendsBytes result text.old text.new (spaced word.now behind.now) }
{
    text.extend_from_slice(word.as_bytes())?;
    if behind.is_empty() {
        return Ok(());
    }
    text.push(b' ')?;
    text.extend_from_slice(behind)
}

// Appends a word with what follows it.
fn push_joined(text: &mut Vec<u8>, word: &str, behind: &[u8]) -> Result<(), AllocError>
    ensures { AppendsBytes result text.old text.new (word.now ++ behind.now) }
{
    text.extend_from_slice(word.as_bytes())?;
    text.extend_from_slice(behind)
}

// Appends the statement that an IF guards.
#[cycle(push_nested)]
fn push_guarded(text: &mut Vec<u8>, nesting: usize, guarded: &[u8]) -> Result<(), AllocError>
    ensures { AppendsBytes result text.old text.new (tidy_guarded (tidy_at nesting) guarded.now) }
{
    match behind_word(THEN.as_bytes(), guarded) {
        Some(statement) => {
            text.extend_from_slice(b"THEN ")?;
            push_nested(text, nesting, statement)
        }
        None => push_nested(text, nesting, guarded),
    }
}

// Appends an IF, from what follows the word.
#[cycle(push_nested)]
fn push_conditional(text: &mut Vec<u8>, nesting: usize, behind: &[u8]) -> Result<(), AllocError>
    ensures { AppendsBytes result text.old text.new
        (tidy_conditional (tidy_at nesting) (condition_length Operand behind.now) behind.now) }
{
    let (condition, guarded) = behind.split_at(condition_length(behind));
    text.extend_from_slice(b"IF ")?;
    text.extend_from_slice(condition)?;
    text.push(b' ')?;
    push_guarded(text, nesting, guarded)
}

// Appends a statement by its first word, and what follows that.
#[cycle(push_nested)]
fn push_by_word(
    text: &mut Vec<u8>,
    nesting: usize,
    keyword: Keyword,
    behind: &[u8],
) -> Result<(), AllocError>
    ensures { AppendsBytes result text.old text.new (tidy_word (tidy_at nesting) keyword behind.now) }
{
    match keyword {
        Keyword::If => push_conditional(text, nesting, behind),
        Keyword::Let
        | Keyword::Print
        | Keyword::Pr
        | Keyword::Input
        | Keyword::Goto
        | Keyword::Gosub => push_spaced(text, keyword.spelling(), behind),
        Keyword::Return | Keyword::End | Keyword::Rem => push_joined(
            text,
            keyword.spelling(),
            behind,
        ),
    }
}

// Appends a statement with an IF nested less deep than `nesting`, which is the measure.
#[cycle(push_nested)]
#[tactic(auto, unfolding(crate::specs::Statements::tidy_at))]
fn push_nested(text: &mut Vec<u8>, nesting: usize, statement: &[u8]) -> Result<(), AllocError>
    ensures { AppendsBytes result text.old text.new (tidy_at nesting statement.now) }
{
    if nesting == 0 || is_assignment(statement) {
        return text.extend_from_slice(statement);
    }
    match split_keyword(statement) {
        Some((keyword, behind)) => push_by_word(text, nesting - 1, keyword, behind),
        None => text.extend_from_slice(statement),
    }
}

/// Appends the tidy form of a statement without spaces.
pub(crate) fn push_statement(text: &mut Vec<u8>, statement: &[u8]) -> Result<(), AllocError>
    ensures { AppendsBytes result text.old text.new (tidy_statement statement.now) }
{
    push_nested(text, statement.len() + 1, statement)
}
