//! What there is to show of a token.
ghost use Rattle.std.specs.Prelude.{◌≡◌, ◌≤◌, option_map};
ghost use Rattle.tb_basic_names.specs.Lines.{does};
ghost use Rattle.tb_lsp_hover.specs.About as spec;

use tb_basic_names::{Line, jump_word};
use tb_parser::{Token, TokenKind};

/// No number of a line is as high.
const PAST: u32 = 65_536;

/// What there is to show of a token.
#[derive(Clone, Copy, Drop)]
pub enum About {
    /// It begins the line of this number.
    Own(u16),
    /// It is in the constant expression of a jump to this number.
    Target(u16),
    /// It is this number.
    Number(u32),
    /// It is the variable of this capital letter.
    Variable(u8),
    /// It is a word, of this kind.
    Word(TokenKind),
}

// A number with one more digit, at most `PAST`.
fn longer(number: u32, byte: u8) -> u32
    requires { number ≤ 65536 }
    ensures few { result ≤ 65536 }
    ensures value { result ≡ spec.longer number byte }
{
    match byte {
        b'0'..=b'9' => (number * 10 + u32::from(byte - b'0')).min(PAST),
        _ => number,
    }
}

// The number that digits spell, with any spaces between them.
fn value_of(text: &[u8]) -> u32
    ensures { result ≡ spec.value_from 0 text.now }
{
    let mut number = 0;
    for byte in text {
        number = longer(number, *byte);
    }
    number
}

// What there is to show of a token by itself.
fn by_kind(token: &Token<'_>) -> Option<About>
    ensures { result ≡ spec.by_kind token.now }
{
    match (token.kind, token.text) {
        (TokenKind::Number, text) => Some(About::Number(value_of(text))),
        (TokenKind::Variable, [letter, ..]) => Some(About::Variable(letter.to_ascii_uppercase())),
        (TokenKind::Keyword(_) | TokenKind::Then | TokenKind::Random, _) => {
            Some(About::Word(token.kind))
        }
        _ => None,
    }
}

// The constant target of a line, where a token is behind GOTO or GOSUB.
fn target(line: &Line<'_>, index: usize) -> Option<About>
    ensures { result ≡ spec.target (does line.now.edit) line.now.tokens.items index }
{
    let jump = line.jump()?;
    let word = jump_word(&line.tokens)?;
    if word < index {
        Some(About::Target(jump.target))
    } else {
        None
    }
}

/// What there is to show of a token of a line, if that is good.
pub fn about_token(line: &Line<'_>, index: usize) -> Option<About>
    ensures { result ≡ spec.about (does line.now.edit) line.now.tokens.items index }
{
    let number = line.number()?;
    if index == 0 {
        return Some(About::Own(number));
    }
    let token = line.tokens.get(index)?;
    target(line, index).or(by_kind(token))
}
