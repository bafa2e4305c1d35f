//! What a place of a source names.
ghost use Rattle.std.specs.Prelude.{◌≡◌, option_map};
ghost use Rattle.tb_basic_names.specs.Lines.{does};
ghost use Rattle.tb_basic_names.specs.Names as spec;

use crate::jumps::jump_word;
use crate::lines::Line;
use tb_parser::{Token, TokenKind};

/// What is named.
#[derive(Clone, Copy, Drop)]
pub enum Name {
    /// The line of a number.
    Line(u16),
    /// The variable of a capital letter.
    Variable(u8),
}

fn touches(token: &Token<'_>, place: usize) -> bool
    ensures { result ≡ spec.touches token.now place }
{
    let start = token.column.saturating_sub(1);
    start <= place && place - start <= token.text.len()
}

/// Which token a place of a line touches: it lies in it, at its beginning or at its end. Of two that touch it is the one
/// behind.
pub fn touched(tokens: &[Token<'_>], place: usize) -> Option<usize>
    ensures { result ≡ spec.touched tokens.now place }
{
    let mut found = None;
    for (i, token) in tokens.iter().enumerate() {
        if touches(token, place) {
            found = Some(i);
        }
    }
    found
}

// The variable that a token is.
fn variable_name(token: &Token<'_>) -> Option<Name>
    ensures { result ≡ spec.variable_name token.now }
{
    match (token.kind, token.text) {
        (TokenKind::Variable, [letter, ..]) => Some(Name::Variable(letter.to_ascii_uppercase())),
        _ => None,
    }
}

// The number of the line, where a token is that.
fn own_number(line: &Line<'_>, index: usize) -> Option<Name>
    ensures { result ≡ spec.own_number (does line.now.edit) index }
{
    let number = line.number()?;
    if index == 0 {
        Some(Name::Line(number))
    } else {
        None
    }
}

// The constant target, where a token is GOTO or GOSUB, or behind it.
fn target(line: &Line<'_>, index: usize) -> Option<Name>
    ensures { result ≡ spec.target (does line.now.edit) line.now.tokens.items index }
{
    let jump = line.jump()?;
    let word = jump_word(&line.tokens)?;
    if word <= index {
        Some(Name::Line(jump.target))
    } else {
        None
    }
}

/// What a token of a line names.
pub fn name_in(line: &Line<'_>, index: usize) -> Option<Name>
    ensures { result ≡ spec.name_in (does line.now.edit) line.now.tokens.items index }
{
    let _ = line.number()?;
    let token = line.tokens.get(index)?;
    own_number(line, index)
        .or(target(line, index))
        .or(variable_name(token))
}
