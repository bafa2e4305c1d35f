//! A line of text.
ghost use Rattle.std.specs.Prelude.{◌≡◌, ◌<◌, ◌∷◌, ◌++◌, [], OnOk, IfErr, length, map};
ghost use Rattle.tb_assembly_text.specs.Names.{scope_after};
ghost use Rattle.tb_assembly_text.specs.Tokens.{token_of};
ghost use Rattle.tb_assembly_text.specs.Statements.{clause_of, said_of, word_item};
ghost use Rattle.tb_assembly_text.specs.Operands.{sign_at, word_at};
ghost use Rattle.tb_assembly_text.specs.Reads.{Reads};
ghost use Rattle.tb_assembly_text.specs.Lines.{after_label, alone, assigned, first_item, label_fault, labelled, line_statements, name_of, origin, rest_of_line, said_in, scope_of_line, scope_of_word, sign_item, word_line};
ghost use Rattle.tb_assembly_text.specs.Lines.{is_unknown, may_follow, plain_word, IsScopeAfter, Pushes};

use crate::expressions::{behind, column_at, read_whole};
use crate::faults::{FaultKind, LineError, bad};
use crate::names::{Name, enter, full_name, spells};
use crate::operands::{is_none, sign_at, word_at};
use crate::statements::{Clause, Statement, read_item};
use crate::tokens::{Sign, Token, read_tokens};
use crate::words::is_item;
use std::alloc::Global;

// A word, and the column where it begins.
#[derive(Clone, Copy, Drop)]
struct Word<'a> {
    column: usize,
    letters: &'a [u8],
}

fn push(statements: &mut Vec<Statement>, column: usize, clause: Clause) -> Result<(), LineError>
    ensures added { OnOk result (map said_of statements.new.items ≡ map said_of statements.old.items ++ (column, clause_of clause) ∷ []) }
    ensures memory { IfErr result (λ e. e ≡ LineError.NoMemory) }
{
    match statements.push(Statement { column, clause }) {
        Ok(()) => Ok(()),
        Err(_) => Err(LineError::NoMemory),
    }
}

// `* = e`, from the star on.
fn read_origin(
    alloc: Global,
    scope: &[u8],
    end: usize,
    tokens: &[Token<'_>],
) -> Result<Clause, LineError>
    requires { 0 < length tokens.now }
    ensures { Reads clause_of (origin scope.now end (map token_of tokens.now)) result }
{
    let rest = behind(tokens, 1);
    match sign_at(rest) {
        Some(Sign::Equals) => Ok(Clause::Origin(read_whole(alloc, scope, end, behind(rest, 1))?)),
        _ => Err(bad(column_at(end, rest), FaultKind::WantsEquals)),
    }
}

// An instruction or a directive, by its word and the tokens behind it.
fn read_word_statement(
    alloc: Global,
    scope: &[u8],
    end: usize,
    word: Word<'_>,
    rest: &[Token<'_>],
    statements: &mut Vec<Statement>,
) -> Result<(), LineError>
    ensures { Pushes (alone word.entry.column (word_item scope.now end word.entry.column word.entry.letters.now (map token_of rest.now))) (map said_of statements.old.items) result (map said_of statements.new.items) }
{
    let clause = read_item(alloc, scope, end, word.column, word.letters, rest)?;
    push(statements, word.column, clause)
}

// `* = e`, from the star at a column on.
fn read_star_statement(
    alloc: Global,
    scope: &[u8],
    end: usize,
    column: usize,
    tokens: &[Token<'_>],
    statements: &mut Vec<Statement>,
) -> Result<(), LineError>
    requires { 0 < length tokens.now }
    ensures { Pushes (alone column (origin scope.now end (map token_of tokens.now))) (map said_of statements.old.items) result (map said_of statements.new.items) }
{
    let clause = read_origin(alloc, scope, end, tokens)?;
    push(statements, column, clause)
}

// What a line has besides a label: nothing, an instruction or a directive.
fn read_rest(
    alloc: Global,
    scope: &[u8],
    end: usize,
    tokens: &[Token<'_>],
    statements: &mut Vec<Statement>,
) -> Result<(), LineError>
    ensures { Pushes (rest_of_line scope.now end (map token_of tokens.now)) (map said_of statements.old.items) result (map said_of statements.new.items) }
{
    if is_none(tokens) {
        return Ok(());
    }
    read_first(alloc, scope, end, tokens, statements)
}

// An instruction or a directive, with which tokens begin.
fn read_first(
    alloc: Global,
    scope: &[u8],
    end: usize,
    tokens: &[Token<'_>],
    statements: &mut Vec<Statement>,
) -> Result<(), LineError>
    ensures { Pushes (first_item (word_at (map token_of tokens.now)) scope.now end (map token_of tokens.now)) (map said_of statements.old.items) result (map said_of statements.new.items) }
{
    let column = column_at(end, tokens);
    match word_at(tokens) {
        Some(letters) => {
            let word = Word { column, letters };
            read_word_statement(alloc, scope, end, word, behind(tokens, 1), statements)
        }
        None => read_sign_statement(alloc, scope, end, column, tokens, statements),
    }
}

// What a sign at a column begins.
fn read_sign_statement(
    alloc: Global,
    scope: &[u8],
    end: usize,
    column: usize,
    tokens: &[Token<'_>],
    statements: &mut Vec<Statement>,
) -> Result<(), LineError>
    ensures { Pushes (sign_item (sign_at (map token_of tokens.now)) scope.now end column (map token_of tokens.now)) (map said_of statements.old.items) result (map said_of statements.new.items) }
{
    match sign_at(tokens) {
        Some(Sign::Star) => { read_star_statement(alloc, scope, end, column, tokens, statements) }
        _ => Err(bad(column, FaultKind::WantsItem)),
    }
}

// Why a word can't be a label or the name of a value.
fn label_fault(word: &[u8]) -> Option<FaultKind>
    ensures { result ≡ label_fault word.now }
{
    if spells(word, b"A") {
        Some(FaultKind::Reserved)
    } else if matches!(word, [b'!', ..]) {
        Some(FaultKind::UnknownDirective)
    } else {
        None
    }
}

// The name that a label or a value gets.
fn read_name(alloc: Global, scope: &[u8], word: Word<'_>) -> Result<Name, LineError>
    ensures { Reads (λ n. n.letters.items) (name_of scope.now word.entry.column word.entry.letters.now) result }
{
    match label_fault(word.letters) {
        Some(kind) => Err(bad(word.column, kind)),
        None => match full_name(alloc, scope, word.letters) {
            Ok(name) => Ok(name),
            Err(_) => Err(LineError::NoMemory),
        },
    }
}

// A label, and what follows it.
fn read_labelled(
    alloc: Global,
    scope: &mut Vec<u8>,
    end: usize,
    word: Word<'_>,
    tokens: &[Token<'_>],
    statements: &mut Vec<Statement>,
) -> Result<(), LineError>
    ensures pushes { Pushes (labelled scope.old.items end word.entry.column word.entry.letters.now (map token_of tokens.now)) (map said_of statements.old.items) result (map said_of statements.new.items) }
    ensures scope { OnOk result (scope.new.items ≡ scope_after scope.old.items word.entry.letters.now) }
{
    let name = read_name(alloc, scope, word)?;
    enter_scope(alloc, scope, word.letters)?;
    push(statements, word.column, Clause::Label(name))?;
    read_rest(alloc, scope, end, tokens, statements)
}

fn enter_scope(alloc: Global, scope: &mut Vec<u8>, word: &[u8]) -> Result<(), LineError>
    ensures scope { OnOk result (scope.new.items ≡ scope_after scope.old.items word.now) }
    ensures memory { IfErr result (λ e. e ≡ LineError.NoMemory) }
{
    match enter(alloc, scope, word) {
        Ok(()) => Ok(()),
        Err(_) => Err(LineError::NoMemory),
    }
}

// `NAME = e`, with the tokens behind the sign.
fn read_assign(
    alloc: Global,
    scope: &[u8],
    end: usize,
    word: Word<'_>,
    tokens: &[Token<'_>],
    statements: &mut Vec<Statement>,
) -> Result<(), LineError>
    ensures { Pushes (assigned scope.now end word.entry.column word.entry.letters.now (map token_of tokens.now)) (map said_of statements.old.items) result (map said_of statements.new.items) }
{
    let name = read_name(alloc, scope, word)?;
    let value = read_whole(alloc, scope, end, tokens)?;
    push(statements, word.column, Clause::Assign(name, value))
}

// Whether tokens may stand behind a label: none, or an instruction, a directive or an origin.
fn may_follow(tokens: &[Token<'_>]) -> bool
    ensures { result ≡ may_follow (map token_of tokens.now) }
{
    match word_at(tokens) {
        Some(word) => is_item(word),
        None => is_none(tokens) || matches!(sign_at(tokens), Some(Sign::Star)),
    }
}

// Whether a word names no directive: it begins with a full stop, and what stands behind it can't stand behind a label.
fn is_unknown(word: &[u8], rest: &[Token<'_>]) -> bool
    ensures { result ≡ is_unknown word.now (map token_of rest.now) }
{
    matches!(word, [b'.', ..]) && !may_follow(rest)
}

// A word that begins no statement: a label, or a directive that is unknown.
fn read_plain_word(
    alloc: Global,
    scope: &mut Vec<u8>,
    end: usize,
    word: Word<'_>,
    rest: &[Token<'_>],
    statements: &mut Vec<Statement>,
) -> Result<(), LineError>
    ensures pushes { Pushes (plain_word scope.old.items end word.entry.column word.entry.letters.now (map token_of rest.now)) (map said_of statements.old.items) result (map said_of statements.new.items) }
    ensures scope { OnOk result (scope.new.items ≡ scope_after scope.old.items word.entry.letters.now) }
{
    if is_unknown(word.letters, rest) {
        return Err(bad(word.column, FaultKind::UnknownDirective));
    }
    read_labelled(alloc, scope, end, word, rest, statements)
}

// A line that begins with a word: the name of a value, a label, an instruction or a directive.
fn read_word_line(
    alloc: Global,
    scope: &mut Vec<u8>,
    end: usize,
    letters: &[u8],
    tokens: &[Token<'_>],
    statements: &mut Vec<Statement>,
) -> Result<(), LineError>
    requires { 0 < length tokens.now }
    ensures pushes { Pushes (word_line scope.old.items end letters.now (map token_of tokens.now)) (map said_of statements.old.items) result (map said_of statements.new.items) }
    ensures scope { OnOk result (scope.new.items ≡ scope_of_word scope.old.items letters.now (map token_of tokens.now)) }
{
    let column = column_at(end, tokens);
    let word = Word { column, letters };
    let rest = behind(tokens, 1);
    match sign_at(rest) {
        Some(Sign::Equals) => { read_assign(alloc, scope, end, word, behind(rest, 1), statements) }
        Some(Sign::Colon) => { read_labelled(alloc, scope, end, word, behind(rest, 1), statements) }
        _ => if is_item(letters) {
            read_rest(alloc, scope, end, tokens, statements)
        } else {
            read_plain_word(alloc, scope, end, word, rest, statements)
        },
    }
}

// A line by its tokens.
fn read_statements(
    alloc: Global,
    scope: &mut Vec<u8>,
    end: usize,
    tokens: &[Token<'_>],
    statements: &mut Vec<Statement>,
) -> Result<(), LineError>
    ensures pushes { Pushes (line_statements scope.old.items end (map token_of tokens.now)) (map said_of statements.old.items) result (map said_of statements.new.items) }
    ensures scope { OnOk result (scope.new.items ≡ scope_of_line scope.old.items (map token_of tokens.now)) }
{
    match word_at(tokens) {
        Some(word) => read_word_line(alloc, scope, end, word, tokens, statements),
        None => read_rest(alloc, scope, end, tokens, statements),
    }
}

/// Reads a line, and puts its statements behind the others. `scope` is the last plain label, to which names belong that
/// begin with a full stop, `@` or `_`.
pub fn read_line(
    alloc: Global,
    scope: &mut Vec<u8>,
    line: &[u8],
    statements: &mut Vec<Statement>,
) -> Result<(), LineError>
    ensures pushes { Pushes (said_in scope.old.items line.now) (map said_of statements.old.items) result (map said_of statements.new.items) }
    ensures scope { OnOk result (IsScopeAfter scope.old.items line.now scope.new.items) }
{
    let mut tokens = Vec::new(alloc);
    read_tokens(line, &mut tokens)?;
    read_statements(alloc, scope, line.len() + 1, tokens.as_slice(), statements)
}
