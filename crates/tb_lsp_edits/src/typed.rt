//! What is typed before a place of a line.
ghost use Rattle.std.specs.Prelude.{◌≡◌, ◌≤◌, IfOk, length};
ghost use Rattle.tb_lsp_edits.specs.Typed as spec;

use std::alloc::{AllocError, Global};
use tb_basic_grammar::Keyword;
use tb_parser::{Token, TokenKind, tokens};

// How many letters a text ends with.
fn letters_before(text: &[u8]) -> usize
    ensures count { result ≡ spec.ending spec.is_letter 0 text.now }
    ensures within { result ≤ length text.now }
{
    let mut count = 0;
    for byte in text {
        count = if byte.is_ascii_alphabetic() {
            count + 1
        } else {
            0
        };
    }
    count
}

// How many digits a text ends with.
fn digits_before(text: &[u8]) -> usize
    ensures count { result ≡ spec.ending spec.is_digit 0 text.now }
    ensures within { result ≤ length text.now }
{
    let mut count = 0;
    for byte in text {
        count = if byte.is_ascii_digit() { count + 1 } else { 0 };
    }
    count
}

// The kind of the last token.
fn last_kind(tokens: &[Token<'_>]) -> Option<TokenKind>
    ensures { result ≡ spec.last_kind tokens.now }
{
    match tokens.last() {
        Some(token) => Some(token.kind),
        None => None,
    }
}

// Whether a token is GOTO or GOSUB.
fn is_jump(kind: Option<TokenKind>) -> bool
    ensures { result ≡ spec.is_jump kind }
{
    matches!(
        kind,
        Some(TokenKind::Keyword(Keyword::Goto | Keyword::Gosub))
    )
}

// The kind of the last token of a text. Fails only if memory runs out.
fn kind_before(alloc: Global, text: &[u8]) -> Result<Option<TokenKind>, AllocError>
    ensures { IfOk result (spec.IsKindBefore text.now) }
{
    let found = tokens(alloc, text)?;
    Ok(last_kind(&found))
}

/// What is before a place of a line.
#[derive(Clone, Copy, Drop)]
pub struct Typed<'a> {
    /// The line up to what is typed of a word or a number.
    pub base: &'a [u8],
    /// That: letters, digits or nothing.
    pub part: &'a [u8],
    /// The kind of the last token before it.
    pub before: Option<TokenKind>,
}

// What is typed, by how many bytes of it there are.
fn split(alloc: Global, text: &[u8], count: usize) -> Result<Typed<'_>, AllocError>
    requires { count ≤ length text.now }
    ensures { IfOk result (spec.IsSplit text.now count) }
{
    let (base, part) = text.split_at(text.len() - count);
    let before = kind_before(alloc, base)?;
    Ok(Typed { base, part, before })
}

// How many digits are typed: none but behind GOTO or GOSUB.
fn digits_typed(alloc: Global, text: &[u8]) -> Result<usize, AllocError>
    ensures count { IfOk result (spec.AreDigitsTyped text.now) }
    ensures within { IfOk result (λ count. count ≤ length text.now) }
{
    let count = digits_before(text);
    let before = kind_before(alloc, &text[..text.len() - count])?;
    Ok(if is_jump(before) { count } else { 0 })
}

/// What is typed at the end of a text: the letters there; if there are none, and GOTO or GOSUB is before them, the
/// digits.
pub fn typed_part(alloc: Global, text: &[u8]) -> Result<Typed<'_>, AllocError>
    ensures { IfOk result (spec.IsTyped text.now) }
{
    let letters = letters_before(text);
    if letters > 0 {
        return split(alloc, text, letters);
    }
    let digits = digits_typed(alloc, text)?;
    split(alloc, text, digits)
}

impl Typed<'_> {
    /// Whether nothing can be offered: behind REM, and within a text, which is a stray byte while it has no second quote.
    pub fn is_closed(&self) -> bool
        ensures { result ≡ spec.is_closed self.now.before }
    {
        matches!(
            self.before,
            Some(TokenKind::Keyword(Keyword::Rem) | TokenKind::Remark | TokenKind::Stray)
        )
    }

    /// Whether the number of a line is meant: behind GOTO and GOSUB.
    pub fn is_behind_jump(&self) -> bool
        ensures { result ≡ spec.is_jump self.now.before }
    {
        is_jump(self.before)
    }
}
