//! The statements of a line.
ghost use Rattle.std.specs.Prelude.{◌≡◌, map};
ghost use Rattle.tb_assembly_text.specs.Tokens.{token_of};
ghost use Rattle.tb_assembly_text.specs.Statements.{clause_of, directed, filled, included, unnamed, word_item};
ghost use Rattle.tb_assembly_text.specs.Reads.{Reads};

use crate::expressions::{Expression, behind, column_at, read_whole};
use crate::faults::{FaultKind, LineError, bad};
use crate::lists::{Datum, first_segment, front, lone_text, read_data, read_values, shown_text};
use crate::names::Name;
use crate::operands::{Shape, read_operand};
use crate::tokens::Token;
use crate::words::{Directive, directive_named, mnemonic};
use std::alloc::Global;
use tb_opcodes::Mnemonic;

/// What a statement is.
#[derive(Drop, Debug)]
pub enum Clause {
    /// A label at the address of what follows.
    Label(Name),
    /// A name for a value.
    Assign(Name, Expression),
    /// Where what follows lies.
    Origin(Expression),
    Instruction(Mnemonic, Shape),
    Bytes(Vec<Datum>),
    Words(Vec<Expression>),
    /// So many bytes of a value, of 0 if none is given.
    Fill(Expression, Option<Expression>),
    /// Bytes up to a multiple.
    Align(Expression),
    /// The statements of another file, by its path.
    Include(Vec<u8>),
}

/// A statement, and the column where it begins.
#[derive(Drop, Debug)]
pub struct Statement {
    pub column: usize,
    pub clause: Clause,
}

// How many bytes, and of which value.
fn read_fill(
    alloc: Global,
    scope: &[u8],
    end: usize,
    tokens: &[Token<'_>],
) -> Result<Clause, LineError>
    ensures { Reads clause_of (filled scope.now end (map token_of tokens.now)) result }
{
    let segment = first_segment(end, tokens);
    let count = read_whole(alloc, scope, segment.end, front(tokens, segment.size))?;
    if !segment.more {
        return Ok(Clause::Fill(count, None));
    }
    let value = read_whole(alloc, scope, end, behind(tokens, segment.size + 1))?;
    Ok(Clause::Fill(count, Some(value)))
}

// The path of a file.
fn read_include(alloc: Global, end: usize, tokens: &[Token<'_>]) -> Result<Clause, LineError>
    ensures { Reads clause_of (included end (map token_of tokens.now)) result }
{
    match lone_text(tokens) {
        Some(path) => match shown_text(alloc, false, path) {
            Ok(path) => Ok(Clause::Include(path)),
            Err(_) => Err(LineError::NoMemory),
        },
        None => Err(bad(column_at(end, tokens), FaultKind::WantsText)),
    }
}

// What a directive is with the tokens behind it.
fn read_directive(
    alloc: Global,
    scope: &[u8],
    end: usize,
    directive: Directive,
    tokens: &[Token<'_>],
) -> Result<Clause, LineError>
    ensures { Reads clause_of (directed scope.now end directive (map token_of tokens.now)) result }
{
    match directive {
        Directive::Byte => Ok(Clause::Bytes(read_data(alloc, scope, false, end, tokens)?)),
        Directive::Text => Ok(Clause::Bytes(read_data(alloc, scope, true, end, tokens)?)),
        Directive::Word => Ok(Clause::Words(read_values(alloc, scope, end, tokens)?)),
        Directive::Fill => read_fill(alloc, scope, end, tokens),
        Directive::Align => Ok(Clause::Align(read_whole(alloc, scope, end, tokens)?)),
        Directive::Origin => Ok(Clause::Origin(read_whole(alloc, scope, end, tokens)?)),
        Directive::Include => read_include(alloc, end, tokens),
    }
}

/// Why a word is neither an instruction nor a directive.
pub fn unnamed(word: &[u8]) -> FaultKind
    ensures { result ≡ unnamed word.now }
{
    match word {
        [b'.' | b'!', ..] => FaultKind::UnknownDirective,
        _ => FaultKind::UnknownMnemonic,
    }
}

/// An instruction or a directive, by its word and the tokens behind it.
pub fn read_item(
    alloc: Global,
    scope: &[u8],
    end: usize,
    column: usize,
    word: &[u8],
    tokens: &[Token<'_>],
) -> Result<Clause, LineError>
    ensures { Reads clause_of (word_item scope.now end column word.now (map token_of tokens.now)) result }
{
    if let Some(mnemonic) = mnemonic(word) {
        let shape = read_operand(alloc, scope, end, tokens)?;
        return Ok(Clause::Instruction(mnemonic, shape));
    }
    match directive_named(word) {
        Some(directive) => read_directive(alloc, scope, end, directive, tokens),
        None => Err(bad(column, unnamed(word))),
    }
}
