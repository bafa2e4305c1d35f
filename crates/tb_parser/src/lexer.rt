//! Tokens: a line taken apart from left to right.
ghost use Rattle.std.specs.Prelude.{◌≡◌, ◌+◌, ◌<◌, ◌≤◌, ◌^◌, length, slice_index, true, IfOk, MatchBool, MatchOption};
ghost use Rattle.tb_basic_grammar.specs.Grammar.{is_digit};
ghost use Rattle.tb_parser.specs.Kinds.{AreSpaces, FirstAt, IsAssigned, IsWord, IsWritten, LacksWord, LacksWords, LetterAt};
ghost use Rattle.tb_parser.specs.Kinds.{NumberAt, OperandAt, RelationAt, TextAt, TokenAt, WordAt, awaited, is_pair, mark_of};
ghost use Rattle.tb_parser.specs.Tokens.{AreTokens, BeginsWritten, IsNext, IsRemark, IsSlice, NoneComes, end_of};

use std::alloc::{AllocError, Global};
use tb_basic_grammar::{KEYWORDS, Keyword, THEN};

/// What a token is.
#[derive(Clone, Copy, Debug, PartialEq, Eq)]
pub enum TokenKind {
    /// One or more digits.
    Number,
    /// A letter that names a variable.
    Variable,
    /// RND.
    Random,
    /// The first word of a statement.
    Keyword(Keyword),
    /// THEN.
    Then,
    /// `+`, `-`, `*` or `/`.
    Operator,
    /// `=`, `<`, `>`, `<=`, `>=`, `<>` or `><`.
    Relation,
    /// `(`.
    Open,
    /// `)`.
    Close,
    /// `,`.
    Comma,
    /// `;`.
    Semicolon,
    /// A text with its two quotes.
    Text,
    /// What follows REM.
    Remark,
    /// A byte that begins nothing, or a text without its second quote, which goes on to the line's end.
    Stray,
}

/// A token of a line.
#[derive(Clone, Copy, Debug, PartialEq, Eq)]
pub struct Token<'a> {
    /// What it is.
    pub kind: TokenKind,
    /// Its bytes as they are in the line, with any spaces between the letters or digits.
    pub text: &'a [u8],
    /// Where it begins in the line, from 1.
    pub column: usize,
}

// What a letter begins, by the token before it.
#[derive(Clone, Copy)]
enum Awaits {
    /// RND, else a variable.
    Operand,
    /// A variable if `=` follows, else the longest keyword.
    Word,
    /// What follows REM.
    Remark,
}

impl TokenKind {
    /// What a letter after this token begins.
    fn awaits(self) -> Awaits
        ensures { result ≡ awaited self }
    {
        match self {
            TokenKind::Operator
            | TokenKind::Relation
            | TokenKind::Open
            | TokenKind::Comma
            | TokenKind::Semicolon => Awaits::Operand,
            TokenKind::Keyword(keyword) => match keyword {
                Keyword::Let
                | Keyword::Print
                | Keyword::Pr
                | Keyword::Input
                | Keyword::If
                | Keyword::Goto
                | Keyword::Gosub => Awaits::Operand,
                Keyword::Rem => Awaits::Remark,
                Keyword::Return | Keyword::End => Awaits::Word,
            },
            _ => Awaits::Word,
        }
    }
}

impl Token<'_> {
    /// The place in the line after the token, from 0.
    fn end(&self) -> usize
        requires { (1 ≤ self.now.column) × (self.now.column + length self.now.text.now < 2 ^ 64) }
        ensures { result ≡ end_of self.now }
    {
        self.column - 1 + self.text.len()
    }
}

// The first place from `from` on that holds no space.
fn written_from(line: &[u8], from: usize) -> Option<usize>
    ensures { MatchOption result (AreSpaces line.now from (length line.now)) (IsWritten line.now from) }
{
    for place in from..line.len() {
        if line[place] != b' ' {
            return Some(place);
        }
    }
    None
}

// The place after a word's letters, if the line has them from `from` on with at most spaces between.
fn word_end(line: &[u8], from: usize, word: &[u8]) -> Option<usize>
    requires { from ≤ length line.now }
    ensures { MatchOption result (LacksWord line.now from word.now) (IsWord line.now from word.now) }
{
    let mut end = from;
    for letter in word {
        let place = written_from(line, end)?;
        if line[place].to_ascii_uppercase() != *letter {
            return None;
        }
        end = place + 1;
    }
    Some(end)
}

// The next token from the place `at` on, if there is one.
fn next_token(line: &[u8], at: usize, awaits: Awaits) -> Option<Token<'_>>
    requires { at ≤ length line.now }
    ensures { MatchOption result (NoneComes awaits line.now at) (IsNext awaits line.now at) }
{
    match awaits {
        Awaits::Operand => written_token(line, at, Awaits::Operand),
        Awaits::Word => written_token(line, at, Awaits::Word),
        Awaits::Remark => remark_token(line, at),
    }
}

// What is left of the line, if it isn't empty.
fn remark_token(line: &[u8], at: usize) -> Option<Token<'_>>
    requires { at ≤ length line.now }
    ensures { MatchOption result (length line.now ≤ at) (λ t. IsSlice line.now t × IsRemark line.now at t) }
{
    if at == line.len() {
        return None;
    }
    Some(Token {
        kind: TokenKind::Remark,
        text: &line[at..],
        column: at + 1,
    })
}

// The token that begins at the first byte from `at` on that is no space.
fn written_token(line: &[u8], at: usize, awaits: Awaits) -> Option<Token<'_>>
    ensures { MatchOption result (AreSpaces line.now at (length line.now))
        (λ t. IsSlice line.now t × BeginsWritten awaits line.now at t) }
{
    let start = written_from(line, at)?;
    let (kind, end) = token_at(line, start, awaits);
    Some(Token {
        kind,
        text: &line[start..end],
        column: start + 1,
    })
}

// The token that begins here, with the place after it.
fn token_at(line: &[u8], start: usize, awaits: Awaits) -> (TokenKind, usize)
    requires { start < length line.now }
    ensures is { TokenAt awaits line.now start result.0 result.1 }
    ensures within { (start < result.1) × (result.1 ≤ length line.now) }
{
    match line[start] {
        b'0'..=b'9' => (TokenKind::Number, digits_end(line, start)),
        b'A'..=b'Z' | b'a'..=b'z' => letter_token(line, start, awaits),
        b'"' => text_token(line, start),
        b'<' | b'>' => (TokenKind::Relation, relation_end(line, start)),
        byte => (mark_kind(byte), start + 1),
    }
}

// The kind of a byte that is a token alone.
fn mark_kind(byte: u8) -> TokenKind
    ensures { result ≡ mark_of byte }
{
    match byte {
        b'+' | b'-' | b'*' | b'/' => TokenKind::Operator,
        b'=' => TokenKind::Relation,
        b'(' => TokenKind::Open,
        b')' => TokenKind::Close,
        b',' => TokenKind::Comma,
        b';' => TokenKind::Semicolon,
        _ => TokenKind::Stray,
    }
}

// The place after a number that begins here.
fn digits_end(line: &[u8], start: usize) -> usize
    requires inside { start < length line.now }
    requires digit { is_digit (slice_index line.now start) ≡ true }
    ensures { NumberAt line.now start result }
{
    let mut end = start + 1;
    while let Some(place) = written_from(line, end) {
        if !line[place].is_ascii_digit() {
            return end;
        }
        end = place + 1;
    }
    end
}

// Whether two bytes are one relation.
fn is_pair(first: u8, second: u8) -> bool
    ensures { result ≡ is_pair first second }
{
    matches!((first, second), (b'<', b'=' | b'>') | (b'>', b'=' | b'<'))
}

// The place after a relation that begins here: two bytes if they make one relation, else one.
fn relation_end(line: &[u8], start: usize) -> usize
    requires { start < length line.now }
    ensures is { RelationAt line.now start result }
    ensures within { (start < result) × (result ≤ length line.now) }
{
    if let Some(place) = written_from(line, start + 1) {
        if is_pair(line[start], line[place]) {
            return place + 1;
        }
    }
    start + 1
}

// The text whose first quote is here.
fn text_token(line: &[u8], start: usize) -> (TokenKind, usize)
    requires { start < length line.now }
    ensures is { TextAt line.now start result.0 result.1 }
    ensures within { (start < result.1) × (result.1 ≤ length line.now) }
{
    for i in start + 1..line.len() {
        if line[i] == b'"' {
            return (TokenKind::Text, i + 1);
        }
    }
    (TokenKind::Stray, line.len())
}

// What the letter here begins.
fn letter_token(line: &[u8], start: usize, awaits: Awaits) -> (TokenKind, usize)
    requires { start < length line.now }
    ensures is { LetterAt awaits line.now start result.0 result.1 }
    ensures within { (start < result.1) × (result.1 ≤ length line.now) }
{
    match awaits {
        Awaits::Operand => operand_token(line, start),
        Awaits::Word | Awaits::Remark => first_token(line, start),
    }
}

// RND, else a variable.
fn operand_token(line: &[u8], start: usize) -> (TokenKind, usize)
    requires { start < length line.now }
    ensures is { OperandAt line.now start result.0 result.1 }
    ensures within { (start < result.1) × (result.1 ≤ length line.now) }
{
    match word_end(line, start, b"RND") {
        Some(end) => (TokenKind::Random, end),
        None => (TokenKind::Variable, start + 1),
    }
}

// Whether `=` comes next.
fn is_assigned(line: &[u8], from: usize) -> bool
    ensures { MatchBool result (IsAssigned line.now from) (IsAssigned line.now from → ⊥) }
{
    match written_from(line, from) {
        Some(place) => line[place] == b'=',
        None => false,
    }
}

// A variable if `=` follows, else a word, else a stray byte.
fn first_token(line: &[u8], start: usize) -> (TokenKind, usize)
    requires { start < length line.now }
    ensures is { FirstAt line.now start result.0 result.1 }
    ensures within { (start < result.1) × (result.1 ≤ length line.now) }
{
    let one = start + 1;
    if is_assigned(line, one) {
        return (TokenKind::Variable, one);
    }
    match word_token(line, start) {
        Some(word) => word,
        None => (TokenKind::Stray, one),
    }
}

// THEN, or the longest first word of a statement that begins here, with the place after it.
fn word_token(line: &[u8], start: usize) -> Option<(TokenKind, usize)>
    requires { start < length line.now }
    ensures { MatchOption result (LacksWords line.now start) (λ p. WordAt line.now start p.0 p.1) }
{
    if let Some(end) = word_end(line, start, THEN.as_bytes()) {
        return Some((TokenKind::Then, end));
    }
    for keyword in KEYWORDS {
        if let Some(end) = word_end(line, start, keyword.spelling().as_bytes()) {
            return Some((TokenKind::Keyword(keyword), end));
        }
    }
    None
}

/// The tokens of a line, in order: slices of it, with only spaces between and round them.
///
/// What a letter begins depends on the token before it. After an operator, a relation, `(`, `,`, `;`, LET, PRINT, PR,
/// INPUT, IF, GOTO or GOSUB it is RND if those letters are there, else a variable. Everywhere else it is a
/// variable if `=` follows, else the longest keyword there, else a stray byte. What follows REM is
/// one token, with its spaces, if it isn't empty. Fails only if memory runs out.
pub fn tokens(alloc: Global, line: &[u8]) -> Result<Vec<Token<'_>>, AllocError>
    ensures { IfOk result (λ v. AreTokens line.now v.items) }
{
    let mut found = Vec::new(alloc);
    let mut at = 0;
    let mut awaits = Awaits::Word;
    while let Some(token) = next_token(line, at, awaits) {
        at = token.end();
        awaits = token.kind.awaits();
        found.push(token)?;
    }
    Ok(found)
}
