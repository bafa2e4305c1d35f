//! The texts of remarks.
ghost use Rattle.std.specs.Prelude.{◌≡◌, ◌≤◌, length, option_map};
ghost use Rattle.tb_basic_names.specs.Lines.{does};
ghost use Rattle.tb_editor_navigation.specs.Remarks as spec;

use tb_basic_names::Line;
use tb_basic_syntax::Statement;
use tb_parser::{Token, TokenKind};

/// Whether a line's statement is REM.
pub fn is_remark(line: &Line<'_>) -> bool
    ensures { result ≡ spec.is_remark (does line.now.edit) }
{
    matches!(line.statement(), Some(Statement::Remark))
}

// A text without the spaces before it.
fn behind_spaces(text: &[u8]) -> &[u8]
    ensures { result.now ≡ spec.behind_spaces text.now }
{
    for (i, byte) in text.iter().enumerate() {
        if *byte != b' ' {
            return &text[i..];
        }
    }
    &[]
}

// How many bytes of a text are before its last spaces.
fn end_of(text: &[u8]) -> usize
    ensures value { result ≡ spec.end_from 0 0 text.now }
    ensures within { result ≤ length text.now }
{
    let mut end = 0;
    for (i, byte) in text.iter().enumerate() {
        if *byte != b' ' {
            end = i + 1;
        }
    }
    end
}

// A text without the spaces at its ends.
fn trimmed(text: &[u8]) -> &[u8]
    ensures { result.now ≡ spec.trimmed text.now }
{
    let text = behind_spaces(text);
    &text[..end_of(text)]
}

// The text of a remark among tokens, without spaces at its ends.
fn remark_in<'a>(tokens: &[Token<'a>]) -> &'a [u8]
    ensures { result.now ≡ spec.remark_in tokens.now }
{
    for token in tokens {
        if token.kind == TokenKind::Remark {
            return trimmed(token.text);
        }
    }
    &[]
}

/// The text of a line whose statement is REM, without spaces at its ends; empty for any other line.
pub fn remark_of<'a>(line: &Line<'a>) -> &'a [u8]
    ensures { result.now ≡ spec.remark_of line.now }
{
    if is_remark(line) {
        remark_in(&line.tokens)
    } else {
        &[]
    }
}

/// A text as it is shown, which it is where it is UTF-8: a slice of a text that is that, cut where characters begin.
pub fn shown(text: &[u8]) -> &str
    ensures { result.now ≡ spec.shown text.now }
{
    match str::from_utf8(text) {
        Ok(text) => text,
        Err(_) => "",
    }
}
