//! Statements, read by their first words.
ghost use Rattle.std.specs.Prelude.{◌≡◌, ℕ, [], ◌∷◌, length, Option, Some, None, IfOk, MatchOption};
ghost use Rattle.tb_words.specs.Letters.{letter_index};
ghost use Rattle.tb_basic_syntax.specs.Source.{Statement as SourceStatement, Let, Goto, Gosub};
ghost use Rattle.tb_basic_syntax.specs.PlainData.{statement_of};
ghost use Rattle.tb_basic_grammar.specs.ReadValues.{told, Gives, Answers};
ghost use Rattle.tb_basic_grammar.specs.StatementReading.{target_at, relation_at, made, alone, behind_then, conditional_by};
ghost use Rattle.tb_basic_grammar.specs.StatementReading.{spelled, first_word, keyword_at, assigned_at, behind_keyword, statement_at};
ghost use Rattle.tb_basic_grammar.specs.Reading.{behind_word};
ghost use Rattle.tb_basic_grammar.specs.StatementReading.{statement_in};
ghost use Rattle.tb_basic_grammar.specs.Statements.{States};

use crate::expressions::{behind, behind_word, expression, leading, split_letter};
use crate::items::{behind_variable, input, print};
use crate::keywords::{Keyword, THEN};
use crate::read_error::{ReadError, left_at};
use std::alloc::Global;
use std::boxed::Box;
use tb_basic_syntax::Statement;
use tb_words::{Letter, Rel};

/// A statement that was read.
#[derive(Debug, Drop)]
pub struct ReadStatement {
    /// The statement, with 65,535 for each literal above it.
    pub statement: Statement,
    /// The number of bytes left where the first literal above 65,535 begins; `None` if there is none.
    pub large: Option<usize>,
}

// A word at the front, and what is left after it.
fn split_word(word: Keyword, text: &[u8]) -> Option<(Keyword, &[u8])>
    ensures { MatchOption result (behind_word (spelled word) text.now ≡ None)
        (λ p. (p.0 ≡ word) × (behind_word (spelled word) text.now ≡ Some p.1.now)) }
{
    let rest = behind_word(word.spelling().as_bytes(), text)?;
    Some((word, rest))
}

// The first of two words that is at the front.
fn split_either(first: Keyword, second: Keyword, text: &[u8]) -> Option<(Keyword, &[u8])>
    ensures { MatchOption result (first_word (first ∷ second ∷ []) text.now ≡ None)
        (λ p. first_word (first ∷ second ∷ []) text.now ≡ Some (p.0, p.1.now)) }
{
    match split_word(first, text) {
        Some(found) => Some(found),
        None => split_word(second, text),
    }
}

// Its first byte leaves at most two words to be tried.
#[tactic(auto, unfolding(crate::specs::StatementReading::keyword_at))]
fn split_keyword(text: &[u8]) -> Option<(Keyword, &[u8])>
    ensures { MatchOption result (keyword_at text.now ≡ None) (λ p. keyword_at text.now ≡ Some (p.0, p.1.now)) }
{
    match text {
        [b'L', ..] => split_word(Keyword::Let, text),
        [b'P', ..] => split_either(Keyword::Print, Keyword::Pr, text),
        [b'I', ..] => split_either(Keyword::Input, Keyword::If, text),
        [b'G', ..] => split_either(Keyword::Goto, Keyword::Gosub, text),
        [b'R', ..] => split_either(Keyword::Return, Keyword::Rem, text),
        [b'E', ..] => split_word(Keyword::End, text),
        _ => None,
    }
}

#[tactic(auto, unfolding(crate::specs::StatementReading::target_at))]
fn target(text: &[u8]) -> Option<(Letter, &[u8])>
    ensures { MatchOption result (target_at text.now ≡ None) (λ p. target_at text.now ≡ Some (letter_index p.0, p.1.now)) }
{
    let (letter, rest) = split_letter(text)?;
    Some((letter, behind(b'=', rest)?))
}

#[tactic(auto, unfolding(crate::specs::StatementReading::relation_at))]
fn relation(text: &[u8]) -> Option<(Rel, &[u8])>
    ensures { MatchOption result (relation_at text.now ≡ None) (λ p. relation_at text.now ≡ Some (p.0, p.1.now)) }
{
    match text {
        [b'=', rest @ ..] => Some((Rel::Eq, rest)),
        [b'<', b'=', rest @ ..] => Some((Rel::Le, rest)),
        [b'<', b'>', rest @ ..] => Some((Rel::Ne, rest)),
        [b'<', rest @ ..] => Some((Rel::Lt, rest)),
        [b'>', b'=', rest @ ..] => Some((Rel::Ge, rest)),
        [b'>', b'<', rest @ ..] => Some((Rel::Ne, rest)),
        [b'>', rest @ ..] => Some((Rel::Gt, rest)),
        _ => None,
    }
}

#[tactic(auto, unfolding(crate::specs::StatementReading::made))]
fn assignment(alloc: Global, letter: Letter, text: &[u8]) -> Result<ReadStatement, ReadError>
    ensures { Gives told result (made (Let (letter_index letter)) text.now) }
{
    let value = expression(alloc, text)?;
    Ok(ReadStatement {
        statement: Statement::Let(letter, value.expr),
        large: value.large,
    })
}

#[tactic(auto, unfolding(crate::specs::StatementReading::assigned_at))]
fn let_assignment(alloc: Global, text: &[u8]) -> Result<ReadStatement, ReadError>
    ensures { Gives told result (assigned_at text.now) }
{
    let (letter, value) = target(text).ok_or(ReadError::NoReading(left_at(behind_variable(text))))?;
    assignment(alloc, letter, value)
}

fn alone(statement: Statement, text: &[u8]) -> Result<ReadStatement, ReadError>
    ensures { Gives told result (alone (statement_of statement) text.now) }
{
    match text {
        [] => Ok(ReadStatement {
            statement,
            large: None,
        }),
        [_, ..] => Err(ReadError::NoReading(left_at(text))),
    }
}

fn behind_then(text: &[u8]) -> &[u8]
    ensures { result.now ≡ behind_then text.now }
{
    behind_word(THEN.as_bytes(), text).unwrap_or(text)
}

#[tactic(auto, unfolding(crate::specs::StatementReading::made))]
fn goto(alloc: Global, text: &[u8]) -> Result<ReadStatement, ReadError>
    ensures { Gives told result (made Goto text.now) }
{
    let line = expression(alloc, text)?;
    Ok(ReadStatement {
        statement: Statement::Goto(line.expr),
        large: line.large,
    })
}

#[tactic(auto, unfolding(crate::specs::StatementReading::made))]
fn gosub(alloc: Global, text: &[u8]) -> Result<ReadStatement, ReadError>
    ensures { Gives told result (made Gosub text.now) }
{
    let line = expression(alloc, text)?;
    Ok(ReadStatement {
        statement: Statement::Gosub(line.expr),
        large: line.large,
    })
}

#[cycle(statement)]
#[tactic(auto, unfolding(crate::specs::StatementReading::conditional_by))]
fn conditional(alloc: Global, nesting: usize, text: &[u8]) -> Result<ReadStatement, ReadError>
    ensures { Gives told result (conditional_by (statement_at nesting) text.now) }
{
    let left = leading(alloc, text)?;
    let (rel, rest) = relation(left.rest).ok_or(ReadError::NoReading(left_at(left.rest)))?;
    let right = leading(alloc, rest)?;
    let body = statement(alloc, nesting, behind_then(right.rest))?;
    Ok(ReadStatement {
        statement: Statement::If(left.expr, rel, right.expr, Box::new(alloc, body.statement)?),
        large: left.large.or(right.large.or(body.large)),
    })
}

#[cycle(statement)]
#[tactic(auto, unfolding(crate::specs::StatementReading::behind_keyword))]
fn behind_keyword(
    alloc: Global,
    nesting: usize,
    keyword: Keyword,
    text: &[u8],
) -> Result<ReadStatement, ReadError>
    ensures { Gives told result (behind_keyword (statement_at nesting) keyword text.now) }
{
    match keyword {
        Keyword::Let => let_assignment(alloc, text),
        Keyword::Print | Keyword::Pr => print(alloc, text),
        Keyword::Input => input(alloc, text),
        Keyword::If => conditional(alloc, nesting, text),
        Keyword::Goto => goto(alloc, text),
        Keyword::Gosub => gosub(alloc, text),
        Keyword::Return => alone(Statement::Return, text),
        Keyword::End => alone(Statement::End, text),
        Keyword::Rem => Ok(ReadStatement {
            statement: Statement::Remark,
            large: None,
        }),
    }
}

// The measure is the nesting: each IF takes a byte, so a text's length is enough.
#[cycle(statement)]
#[tactic(auto, unfolding(crate::specs::StatementReading::statement_at))]
fn statement(alloc: Global, nesting: usize, text: &[u8]) -> Result<ReadStatement, ReadError>
    ensures { Gives told result (statement_at nesting text.now) }
{
    if nesting == 0 {
        return Err(ReadError::NoReading(left_at(text)));
    }
    if let Some((letter, value)) = target(text) {
        return assignment(alloc, letter, value);
    }
    let (keyword, rest) = split_keyword(text).ok_or(ReadError::NoReading(left_at(text)))?;
    behind_keyword(alloc, nesting - 1, keyword, rest)
}

#[tactic(auto, unfolding(crate::specs::StatementReading::statement_in))]
fn whole_statement(alloc: Global, text: &[u8]) -> Result<ReadStatement, ReadError>
    ensures { Gives told result (statement_in text.now) }
{
    statement(alloc, text.len() + 1, text)
}

/// The statement that a squeezed text is (Tiny BASIC User Manual, the grammar of statements). NoReading if it is none,
/// NoMemory only if memory runs out.
pub fn read_statement(alloc: Global, text: &[u8]) -> Result<ReadStatement, ReadError>
    // What is read is in the grammar.
    ensures found { IfOk result (λ r. States text.now (statement_of r.statement) r.large) }
    // What is in the grammar is read, unless memory runs out.
    ensures only { (s : SourceStatement) (large : Option ℕ) → States text.now s large
        → Answers result (λ r. (statement_of r.statement ≡ s) × (r.large ≡ large)) }
{
    whole_statement(alloc, text)
}
