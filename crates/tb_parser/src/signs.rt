//! Lines with signs in their texts.
ghost use Rattle.std.specs.Prelude.{◌≡◌, ◌++◌, ◌≤◌, ◌<◌, IfSome, OnOk, length, replicate};
ghost use Rattle.tb_parser.specs.Signed as spec;
ghost use Rattle.tb_parser.specs.declared.squeeze.Mode.TheVariants.{Code};

use crate::scans::is_bad_byte;
use crate::squeeze::{Mode, Placed, drops, show};
use std::alloc::AllocError;
use tb_basic_signs::{Character, read_character};

// The sign that a line's rest begins with; only a text has signs.
fn sign_at(mode: Mode, rest: &[u8]) -> Option<Character>
    ensures value { result ≡ spec.sign_at mode rest.now }
    ensures within { IfSome result (λ c. (1 ≤ c.length) × (c.length ≤ length rest.now)) }
{
    match (mode, rest) {
        (Mode::Text, [b'{' | b'[' | b']', ..]) => read_character(rest),
        _ => None,
    }
}

/// The column, from 1, of the first byte that is not allowed in its place; `None` if there is none.
pub(crate) fn bad_byte_or_sign(line: &[u8]) -> Option<usize>
    ensures { result ≡ spec.first_bad 0 Code 1 line.now }
{
    let mut mode = Mode::Code;
    let mut column = 1;
    let mut rest = line;
    while let [byte, behind @ ..] = rest {
        match sign_at(mode, rest) {
            Some(sign) => {
                column += sign.length;
                rest = &rest[sign.length..];
            }
            None => {
                if is_bad_byte(mode, *byte) {
                    return Some(column);
                }
                mode = mode.after(*byte);
                column += 1;
                rest = behind;
            }
        }
    }
    None
}

/// The line without spaces and in upper case outside texts and remarks, with what its signs stand for. Each byte of a
/// sign has the sign's column.
// It takes the place of what `placed` held.
pub(crate) fn squeeze_signs(placed: &mut Vec<Placed>, line: &[u8]) -> Result<(), AllocError>
    ensures { OnOk result (placed.new.items ≡ spec.squeezed_from 0 Code 1 line.now) }
{
    placed.clear();
    let mut mode = Mode::Code;
    let mut column = 1;
    let mut rest = line;
    while let [byte, behind @ ..] = rest {
        match sign_at(mode, rest) {
            Some(sign) => {
                push_sign(placed, sign, column)?;
                column += sign.length;
                rest = &rest[sign.length..];
            }
            None => {
                push_byte(placed, mode, column, *byte)?;
                mode = mode.after(*byte);
                column += 1;
                rest = behind;
            }
        }
    }
    Ok(())
}

// Appends what a sign stands for.
fn push_sign(placed: &mut Vec<Placed>, sign: Character, column: usize) -> Result<(), AllocError>
    ensures { OnOk result (placed.new.items ≡ placed.old.items ++ spec.placed_of column sign) }
{
    for _ in 0..sign.times {
        placed.push(Placed {
            byte: sign.byte,
            column,
            in_code: false,
        })?;
    }
    Ok(())
}

// Appends a byte as it is kept, unless it is dropped.
fn push_byte(
    placed: &mut Vec<Placed>,
    mode: Mode,
    column: usize,
    byte: u8,
) -> Result<(), AllocError>
    ensures { OnOk result (placed.new.items ≡ placed.old.items ++ spec.kept_at mode column byte) }
{
    if !drops(mode, byte) {
        placed.push(Placed {
            byte: show(mode, byte),
            column,
            in_code: mode.is_in_code(),
        })?;
    }
    Ok(())
}
