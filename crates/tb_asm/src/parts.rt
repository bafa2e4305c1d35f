//! The parts of a line.
ghost use Rattle.std.specs.Prelude.{◌≡◌, ℕ, ◌+◌, ◌<◌, ◌≤◌, ◌∷◌, [], length, drop, slice_index, Some, IfSome};
ghost use Rattle.tb_asm.specs.Names.{fold_byte};
ghost use Rattle.tb_asm.specs.Parts.{digit_value, sign_of, number_of, parts_from, parts_of, in_identifier, in_number};
ghost use Rattle.tb_asm.specs.Reads.{Splits, ReadsFirst, ReadsRun};

use crate::errors::LineError;
use crate::names::{MOST_LETTERS, is_name_byte};
use arrayvec::ArrayVec;

/// The most digits that a number has.
pub const MOST_DIGITS: usize = 4;

/// A part of a line: a mnemonic, a directive, a name or a register by its letters in upper case; a number by the value of
/// its hexadecimal digits; or a sign.
#[derive(Drop, Debug)]
pub enum Part {
    Identifier(ArrayVec<u8, 31>),
    TwoDigits(u8),
    FourDigits(u16),
    Hash,
    Less,
    Greater,
    Left,
    Right,
    Comma,
    Colon,
}

/// Splits a line into its parts, up to a comment or the line's end, and puts them into `parts` in place of what it held.
pub fn read_parts(line: &[u8], parts: &mut Vec<Part>) -> Result<(), LineError>
    ensures { Splits line.now result parts.new.items }
{
    parts.clear();
    let mut rest = line;
    while !rest.is_empty() {
        let (part, size) = read_part(rest[0], behind(rest, 1)).ok_or(LineError::Bad)?;
        if let Some(part) = part
            && parts.push(part).is_err()
        {
            return Err(LineError::NoMemory);
        }
        rest = behind(rest, size);
    }
    Ok(())
}

/// The bytes after the first `size` ones.
pub fn behind(bytes: &[u8], size: usize) -> &[u8]
    requires { size ≤ length bytes.now }
    ensures { result.now ≡ drop size bytes.now }
{
    bytes.split_at(size).1
}

// The part at the front with its size, unless there is a space or a comment.
fn read_part(byte: u8, after: &[u8]) -> Option<(Option<Part>, usize)>
    ensures { ReadsFirst (parts_of (byte ∷ after.now)) (byte ∷ after.now) result }
{
    match byte {
        b';' => Some((None, after.len() + 1)),
        b' ' => Some((None, 1)),
        b'$' => {
            let (digits, size) = read_digits(after)?;
            Some((Some(number(digits.as_slice())?), size + 1))
        }
        b'.' => read_identifier(byte, after),
        _ if byte.to_ascii_uppercase().is_ascii_uppercase() => read_identifier(byte, after),
        _ => {
            let sign = read_sign(byte)?;
            Some((Some(sign), 1))
        }
    }
}

// An identifier that begins with a letter or a full stop, with its size.
fn read_identifier(byte: u8, after: &[u8]) -> Option<(Option<Part>, usize)>
    ensures { ReadsFirst (parts_from (in_identifier (fold_byte byte ∷ [])) after.now) (byte ∷ after.now) result }
{
    let (letters, size) = read_letters(byte.to_ascii_uppercase(), after)?;
    Some((Some(Part::Identifier(letters)), size + 1))
}

fn read_sign(byte: u8) -> Option<Part>
    ensures { result ≡ sign_of byte }
{
    match byte {
        b'#' => Some(Part::Hash),
        b'<' => Some(Part::Less),
        b'>' => Some(Part::Greater),
        b'(' => Some(Part::Left),
        b')' => Some(Part::Right),
        b',' => Some(Part::Comma),
        b':' => Some(Part::Colon),
        _ => None,
    }
}

// A number by its digits.
fn number(digits: &[u8]) -> Option<Part>
    requires { (i : ℕ) → slice_index digits.now i < 16 }
    ensures { result ≡ number_of digits.now }
{
    match digits {
        [a, b] => Some(Part::TwoDigits(16 * a + b)),
        [a, b, c, d] => Some(Part::FourDigits(u16::from_be_bytes([16 * a + b, 16 * c + d]))),
        _ => None,
    }
}

// The letters of an identifier in upper case, with the count of those after the first one.
fn read_letters(first: u8, after: &[u8]) -> Option<(ArrayVec<u8, 31>, usize)>
    ensures { ReadsRun (λ w. Some (Part.Identifier w)) (parts_from (in_identifier (first ∷ [])) after.now) after.now result }
{
    let mut letters = ArrayVec::new();
    letters.push(first);
    for (index, byte) in after.iter().enumerate() {
        let letter = byte.to_ascii_uppercase();
        if !is_name_byte(letter) {
            return Some((letters, index));
        }
        if letters.len() == MOST_LETTERS {
            return None;
        }
        letters.push(letter);
    }
    Some((letters, after.len()))
}

// The digits of a number, with their count.
fn read_digits(after: &[u8]) -> Option<(ArrayVec<u8, 4>, usize)>
    ensures run { ReadsRun (λ ds. number_of ds.items) (parts_from (in_number []) after.now) after.now result }
    ensures digits { IfSome result (λ r. (i : ℕ) → slice_index r.0.items i < 16) }
{
    let mut digits = ArrayVec::new();
    for (index, byte) in after.iter().enumerate() {
        let Some(digit) = digit_value(*byte) else {
            return Some((digits, index));
        };
        if digits.len() == MOST_DIGITS {
            return None;
        }
        digits.push(digit);
    }
    Some((digits, after.len()))
}

// The value of a hexadecimal digit.
fn digit_value(byte: u8) -> Option<u8>
    ensures value { result ≡ digit_value byte }
    ensures digit { IfSome result (λ d. d < 16) }
{
    match byte {
        b'0'..=b'9' => Some(byte - b'0'),
        b'A'..=b'F' => Some(byte - b'A' + 10),
        b'a'..=b'f' => Some(byte - b'a' + 10),
        _ => None,
    }
}
