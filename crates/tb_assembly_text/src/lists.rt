//! Lists of values and texts, with commas between them.
ghost use Rattle.std.specs.Prelude.{◌≡◌, ◌≤◌, ◌∷◌, ◌++◌, [], IfOk, IfErr, OnOk, length, take, map, option_map};
ghost use Rattle.tb_assembly_text.specs.Tokens.{token_of};
ghost use Rattle.tb_assembly_text.specs.Expressions.{sum_of};
ghost use Rattle.tb_assembly_text.specs.Lists.{content_of, contents, datum, is_comma, lone_text, segments, shown_text, values, FirstSegment};
ghost use Rattle.tb_assembly_text.specs.Reads.{Reads};

use crate::expressions::{Expression, behind, read_whole};
use crate::faults::LineError;
use crate::names::fold_byte;
use crate::tokens::{Lexeme, Sign, Token};
use std::alloc::{AllocError, Global};

/// A value or a text among data.
#[derive(Drop, Debug)]
pub enum Datum {
    Value(Expression),
    Text(Vec<u8>),
}

/// How many tokens are before a comma or the end, the column there, and whether it is a comma.
#[derive(Clone, Copy, Drop)]
pub struct Segment {
    pub size: usize,
    pub end: usize,
    pub more: bool,
}

fn is_comma(token: &Token<'_>) -> bool
    ensures { result ≡ is_comma (token_of token.now) }
{
    matches!(token.lexeme, Lexeme::Sign(Sign::Comma))
}

/// The tokens before the first comma.
pub fn first_segment(end: usize, tokens: &[Token<'_>]) -> Segment
    ensures { FirstSegment end (map token_of tokens.now) result }
{
    for (i, token) in tokens.iter().enumerate() {
        if is_comma(token) {
            return Segment {
                size: i,
                end: token.column,
                more: true,
            };
        }
    }
    Segment {
        size: tokens.len(),
        end,
        more: false,
    }
}

/// The first tokens.
pub fn front<'t, 'a>(tokens: &'t [Token<'a>], size: usize) -> &'t [Token<'a>]
    requires { size ≤ length tokens.now }
    ensures { map token_of result.now ≡ take size (map token_of tokens.now) }
{
    tokens.split_at(size).0
}

/// The text that some tokens are.
pub fn lone_text<'a>(tokens: &[Token<'a>]) -> Option<&'a [u8]>
    ensures { option_map (λ t. t.now) result ≡ lone_text (map token_of tokens.now) }
{
    match tokens {
        [token] => match token.lexeme {
            Lexeme::Text(text) => Some(text),
            _ => None,
        },
        _ => None,
    }
}

/// A text by its bytes, of which small letters are written as capitals if it is shown on the screen.
pub fn shown_text(alloc: Global, shown: bool, text: &[u8]) -> Result<Vec<u8>, AllocError>
    ensures { IfOk result (λ bytes. bytes.items ≡ shown_text shown text.now) }
{
    let mut bytes = Vec::new(alloc);
    if !shown {
        bytes.extend_from_slice(text)?;
        return Ok(bytes);
    }
    for byte in text {
        bytes.push(fold_byte(*byte))?;
    }
    Ok(bytes)
}

// A value or a text.
fn read_datum(
    alloc: Global,
    scope: &[u8],
    shown: bool,
    end: usize,
    tokens: &[Token<'_>],
) -> Result<Datum, LineError>
    ensures { Reads content_of (datum scope.now shown end (map token_of tokens.now)) result }
{
    match lone_text(tokens) {
        Some(text) => match shown_text(alloc, shown, text) {
            Ok(bytes) => Ok(Datum::Text(bytes)),
            Err(_) => Err(LineError::NoMemory),
        },
        None => Ok(Datum::Value(read_whole(alloc, scope, end, tokens)?)),
    }
}

fn push_datum(list: &mut Vec<Datum>, datum: Datum) -> Result<(), LineError>
    ensures added { OnOk result (map content_of list.new.items ≡ map content_of list.old.items ++ content_of datum ∷ []) }
    ensures memory { IfErr result (λ e. e ≡ LineError.NoMemory) }
{
    match list.push(datum) {
        Ok(()) => Ok(()),
        Err(_) => Err(LineError::NoMemory),
    }
}

fn push_value(list: &mut Vec<Expression>, value: Expression) -> Result<(), LineError>
    ensures added { OnOk result (map sum_of list.new.items ≡ map sum_of list.old.items ++ sum_of value ∷ []) }
    ensures memory { IfErr result (λ e. e ≡ LineError.NoMemory) }
{
    match list.push(value) {
        Ok(()) => Ok(()),
        Err(_) => Err(LineError::NoMemory),
    }
}

/// Values and texts with commas between them.
pub fn read_data(
    alloc: Global,
    scope: &[u8],
    shown: bool,
    end: usize,
    tokens: &[Token<'_>],
) -> Result<Vec<Datum>, LineError>
    ensures { Reads (λ v. map content_of v.items) (contents scope.now shown (segments end (map token_of tokens.now))) result }
{
    let mut list = Vec::new(alloc);
    let mut start = 0usize;
    'parts: loop {
        let rest = behind(tokens, start);
        let segment = first_segment(end, rest);
        let datum = read_datum(alloc, scope, shown, segment.end, front(rest, segment.size))?;
        push_datum(&mut list, datum)?;
        if !segment.more {
            return Ok(list);
        }
        start += segment.size + 1;
    }
}

/// Values with commas between them.
pub fn read_values(
    alloc: Global,
    scope: &[u8],
    end: usize,
    tokens: &[Token<'_>],
) -> Result<Vec<Expression>, LineError>
    ensures { Reads (λ v. map sum_of v.items) (values scope.now (segments end (map token_of tokens.now))) result }
{
    let mut list = Vec::new(alloc);
    let mut start = 0usize;
    'parts: loop {
        let rest = behind(tokens, start);
        let segment = first_segment(end, rest);
        let value = read_whole(alloc, scope, segment.end, front(rest, segment.size))?;
        push_value(&mut list, value)?;
        if !segment.more {
            return Ok(list);
        }
        start += segment.size + 1;
    }
}
