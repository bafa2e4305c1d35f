//! The tokens of a line.
ghost use Rattle.std.specs.Prelude.{◌≡◌, [], ◌∷◌, ◌++◌, OnOk, IfErr, ◌+◌, ◌≤◌, ◌<◌, length, drop, map};
ghost use Rattle.tb_assembly_text.specs.Tokens.{begins_with, begins_word, digit_of, digits_in, first_lead, lead_of, is_digit_in, is_name_byte};
ghost use Rattle.tb_assembly_text.specs.Tokens.{character_lead, is_quoted, run, sign_lead, sign_of, text_lead, token_of, tokens_from, value_lead, with_digit, word_lead, Fits};
ghost use Rattle.tb_assembly_text.specs.Reads.{Splits};

use crate::faults::{FaultKind, LineError, bad};
use crate::names::MOST_LETTERS;

/// A sign.
#[derive(Clone, Copy, PartialEq, Eq, Debug, Drop)]
pub enum Sign {
    Plus,
    Minus,
    Star,
    Slash,
    And,
    Or,
    Xor,
    ShiftLeft,
    ShiftRight,
    Less,
    Greater,
    Left,
    Right,
    Comma,
    Colon,
    Equals,
    Hash,
}

/// A word or a text by its bytes, a number by its value, or a sign.
#[derive(Clone, Copy, Debug, Drop)]
pub enum Lexeme<'a> {
    Word(&'a [u8]),
    Number(u32),
    Text(&'a [u8]),
    Sign(Sign),
}

/// A lexeme, and the column where it begins, from 1.
#[derive(Clone, Copy, Debug, Drop)]
pub struct Token<'a> {
    pub column: usize,
    pub lexeme: Lexeme<'a>,
}

// What is at the front of a text.
#[derive(Clone, Copy, Drop)]
enum Lead<'a> {
    // A space or a tab.
    Blank,
    // A comment, or nothing.
    Ending,
    // A lexeme of n bytes.
    Found(Lexeme<'a>, usize),
    Bad(FaultKind),
}

/// Splits a line into its tokens, up to a comment or the line's end, and puts them into an empty list.
pub fn read_tokens<'a>(line: &'a [u8], tokens: &mut Vec<Token<'a>>) -> Result<(), LineError>
    requires { tokens.old.items ≡ [] }
    ensures { Splits (tokens_from 0 1 line.now) result (map token_of tokens.new.items) }
{
    let mut rest = line;
    let mut column = 1usize;
    while !rest.is_empty() {
        match first_lead(rest) {
            Lead::Blank => {
                rest = behind(rest, 1);
                column += 1;
            }
            Lead::Ending => return Ok(()),
            Lead::Found(lexeme, size) => {
                push(tokens, Token { column, lexeme })?;
                rest = behind(rest, size);
                column += size;
            }
            Lead::Bad(kind) => return Err(bad(column, kind)),
        }
    }
    Ok(())
}

fn push<'a>(tokens: &mut Vec<Token<'a>>, token: Token<'a>) -> Result<(), LineError>
    ensures added { OnOk result (map token_of tokens.new.items ≡ map token_of tokens.old.items ++ token_of token.entry ∷ []) }
    ensures memory { IfErr result (λ e. e ≡ LineError.NoMemory) }
{
    match tokens.push(token) {
        Ok(()) => Ok(()),
        Err(_) => Err(LineError::NoMemory),
    }
}

// The bytes after the first `size` ones.
fn behind(bytes: &[u8], size: usize) -> &[u8]
    requires { size ≤ length bytes.now }
    ensures { result.now ≡ drop size bytes.now }
{
    bytes.split_at(size).1
}

// What is at the front of a text.
fn first_lead(text: &[u8]) -> Lead<'_>
    ensures lead { lead_of result ≡ first_lead text.now }
    ensures fits { Fits (lead_of result) (length text.now) }
{
    let Some((first, after)) = text.split_first() else {
        return Lead::Ending;
    };
    match *first {
        b' ' | b'\t' => Lead::Blank,
        b';' => Lead::Ending,
        b'$' => value_lead(16, after, 1),
        b'%' => value_lead(2, after, 1),
        b'\'' => character_lead(after),
        b'"' => text_lead(after),
        b'0'..=b'9' => value_lead(10, text, 0),
        byte if begins_word(byte) => word_lead(text),
        byte => sign_lead(byte, after),
    }
}

// Whether a word begins with a byte.
fn begins_word(byte: u8) -> bool
    ensures { result ≡ begins_word byte }
{
    matches!(byte, b'a'..=b'z' | b'A'..=b'Z' | b'.' | b'@' | b'_' | b'!')
}

// Whether a word goes on with a byte.
fn is_name_byte(byte: u8) -> bool
    ensures { result ≡ is_name_byte byte }
{
    matches!(byte, b'a'..=b'z' | b'A'..=b'Z' | b'0'..=b'9' | b'_')
}

// How many bytes at the front a word goes on with.
fn name_run(text: &[u8]) -> usize
    ensures run { result ≡ run is_name_byte text.now }
    ensures within { result ≤ length text.now }
{
    for (i, byte) in text.iter().enumerate() {
        if !is_name_byte(*byte) {
            return i;
        }
    }
    text.len()
}

// A word, which begins at the front.
fn word_lead(text: &[u8]) -> Lead<'_>
    requires { 0 < length text.now }
    ensures lead { lead_of result ≡ word_lead text.now }
    ensures fits { Fits (lead_of result) (length text.now) }
{
    let size = name_run(behind(text, 1)) + 1;
    if size > MOST_LETTERS {
        Lead::Bad(FaultKind::NameTooLong)
    } else {
        Lead::Found(Lexeme::Word(&text[..size]), size)
    }
}

// The value of a hexadecimal digit; 16 for any other byte.
fn digit_of(byte: u8) -> u8
    ensures { result ≡ digit_of byte }
{
    match byte {
        b'0'..=b'9' => byte - b'0',
        b'A'..=b'F' => byte - b'A' + 10,
        b'a'..=b'f' => byte - b'a' + 10,
        _ => 16,
    }
}

// How many digits are at the front.
fn digit_run(base: u8, text: &[u8]) -> usize
    ensures run { result ≡ run (is_digit_in base) text.now }
    ensures within { result ≤ length text.now }
{
    for (i, byte) in text.iter().enumerate() {
        if digit_of(*byte) >= base {
            return i;
        }
    }
    text.len()
}

// A number with one more digit; nothing if it has more than 32 bits.
fn with_digit(base: u8, value: u32, digit: u8) -> Option<u32>
    ensures { result ≡ with_digit base value digit }
{
    match value.checked_mul(u32::from(base)) {
        Some(shifted) => shifted.checked_add(u32::from(digit)),
        None => None,
    }
}

// The value of digits; nothing if it has more than 32 bits.
fn digits_in(base: u8, digits: &[u8]) -> Option<u32>
    ensures { result ≡ digits_in base 0 digits.now }
{
    let mut value = 0u32;
    for byte in digits {
        match with_digit(base, value, digit_of(*byte)) {
            Some(longer) => value = longer,
            None => return None,
        }
    }
    Some(value)
}

// A number whose digits are at the front, after `before` other bytes.
fn value_lead(base: u8, text: &[u8], before: usize) -> Lead<'_>
    requires { before ≤ 1 }
    ensures lead { lead_of result ≡ value_lead base text.now before }
    ensures fits { Fits (lead_of result) (length text.now + before) }
{
    let size = digit_run(base, text);
    if size == 0 {
        return Lead::Bad(FaultKind::NoDigits);
    }
    match digits_in(base, &text[..size]) {
        Some(value) => Lead::Found(Lexeme::Number(value), size + before),
        None => Lead::Bad(FaultKind::NumberTooLarge),
    }
}

// A character, after the first quotation mark.
fn character_lead(after: &[u8]) -> Lead<'_>
    ensures lead { lead_of result ≡ character_lead after.now }
    ensures fits { Fits (lead_of result) (length after.now + 1) }
{
    match after {
        [character, b'\'', ..] => Lead::Found(Lexeme::Number(u32::from(*character)), 3),
        _ => Lead::Bad(FaultKind::Character),
    }
}

// How many bytes are before a quotation mark.
fn quoted_run(text: &[u8]) -> usize
    ensures run { result ≡ run is_quoted text.now }
    ensures within { result ≤ length text.now }
{
    for (i, byte) in text.iter().enumerate() {
        if *byte == b'"' {
            return i;
        }
    }
    text.len()
}

// A text, after the first quotation mark.
fn text_lead(after: &[u8]) -> Lead<'_>
    ensures lead { lead_of result ≡ text_lead after.now }
    ensures fits { Fits (lead_of result) (length after.now + 1) }
{
    let size = quoted_run(after);
    if size == after.len() {
        Lead::Bad(FaultKind::OpenText)
    } else {
        Lead::Found(Lexeme::Text(&after[..size]), size + 2)
    }
}

fn begins_with(wanted: u8, text: &[u8]) -> bool
    ensures { result ≡ begins_with wanted text.now }
{
    match text {
        [] => false,
        [first, ..] => *first == wanted,
    }
}

// The sign of a byte alone.
fn sign_of(byte: u8) -> Option<Sign>
    ensures { result ≡ sign_of byte }
{
    Some(match byte {
        b'+' => Sign::Plus,
        b'-' => Sign::Minus,
        b'*' => Sign::Star,
        b'/' => Sign::Slash,
        b'&' => Sign::And,
        b'|' => Sign::Or,
        b'^' => Sign::Xor,
        b'<' => Sign::Less,
        b'>' => Sign::Greater,
        b'(' => Sign::Left,
        b')' => Sign::Right,
        b',' => Sign::Comma,
        b':' => Sign::Colon,
        b'=' => Sign::Equals,
        b'#' => Sign::Hash,
        _ => return None,
    })
}

// A sign, or a comment.
fn sign_lead(first: u8, after: &[u8]) -> Lead<'_>
    ensures lead { lead_of result ≡ sign_lead first after.now }
    ensures fits { Fits (lead_of result) (length after.now + 1) }
{
    if begins_with(first, after) {
        match first {
            b'/' => return Lead::Ending,
            b'<' => return Lead::Found(Lexeme::Sign(Sign::ShiftLeft), 2),
            b'>' => return Lead::Found(Lexeme::Sign(Sign::ShiftRight), 2),
            _ => {}
        }
    }
    match sign_of(first) {
        Some(sign) => Lead::Found(Lexeme::Sign(sign), 1),
        None => Lead::Bad(FaultKind::Stray),
    }
}
