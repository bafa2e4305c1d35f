//! What is looked for in a line before it is read.
ghost use Rattle.std.specs.Prelude.{◌≡◌, ℕ, ◌+◌, ◌*◌, ◌<◌, false, true, length, MatchOption};
ghost use Rattle.tb_parser.specs.Readings.{IsLineNumber};
ghost use Rattle.tb_parser.specs.Scans.{begins, column_left, first_bad, first_written, is_bad, is_left_out};
ghost use Rattle.tb_parser.specs.Scans.{left_out_word, number_at, starts_with_digit};
ghost use Rattle.tb_parser.specs.declared.squeeze.Mode.TheVariants.{Code};

use crate::squeeze::{Mode, Placed};
use tb_basic_syntax::HIGHEST_LINE;

/// The column, from 1, of the first byte that is no space; `None` for a blank line.
pub(crate) fn written(line: &[u8]) -> Option<usize>
    ensures { result ≡ first_written 1 line.now }
{
    for (i, byte) in line.iter().enumerate() {
        if *byte != b' ' {
            return Some(i + 1);
        }
    }
    None
}

/// Whether a byte is not allowed in its place.
pub(crate) fn is_bad_byte(mode: Mode, byte: u8) -> bool
    ensures { result ≡ is_bad mode byte }
{
    match mode {
        Mode::Remark => false,
        _ => !matches!(byte, b' '..=b'Z' | b'a'..=b'z'),
    }
}

/// The column, from 1, of the first byte that is not allowed in its place; `None` if there is none.
pub(crate) fn bad_byte(line: &[u8]) -> Option<usize>
    ensures { result ≡ first_bad Code 1 line.now }
{
    let mut mode = Mode::Code;
    for (i, byte) in line.iter().enumerate() {
        if let Mode::Remark = mode {
            return None;
        }
        if is_bad_byte(mode, *byte) {
            return Some(i + 1);
        }
        mode = mode.after(*byte);
    }
    None
}

/// Whether the line begins with a digit.
pub(crate) fn is_numbered(placed: &[Placed]) -> bool
    ensures { result ≡ starts_with_digit placed.now }
{
    split_digit(placed).is_some()
}

// The digit at the front, and what is left after it.
#[tactic(auto, unfolding(crate::specs::Scans::number_at))]
fn split_digit(placed: &[Placed]) -> Option<(u8, &[Placed])>
    ensures { MatchOption result (starts_with_digit placed.now ≡ false) (λ p. (p.0 < 10)
        × (starts_with_digit placed.now ≡ true) × (length p.1.now < length placed.now) × ((n : ℕ)
        → number_at n placed.now ≡ number_at (10 * n + p.0) p.1.now)) }
{
    match placed {
        [first, rest @ ..] if first.byte.is_ascii_digit() => Some((first.byte - b'0', rest)),
        _ => None,
    }
}

/// The line number, `None` unless it is from 1 to 32,767, and what is left after it.
pub(crate) fn line_number(placed: &[Placed]) -> Option<(u16, &[Placed])>
    ensures { MatchOption result (IsLineNumber (number_at 0 placed.now).value → ⊥) (λ p. IsLineNumber p.0
        × ((number_at 0 placed.now).value ≡ p.0) × ((number_at 0 placed.now).rest ≡ p.1.now)) }
{
    let mut value: u32 = 0;
    let mut rest = placed;
    while let Some((digit, tail)) = split_digit(rest) {
        value = 10 * value + u32::from(digit);
        if value > u32::from(HIGHEST_LINE) {
            return None;
        }
        rest = tail;
    }
    if value == 0 {
        return None;
    }
    Some((value as u16, rest))
}

fn begins_with(placed: &[Placed], word: &[u8]) -> bool
    ensures { result ≡ begins word.now placed.now }
{
    match word {
        [] => true,
        [letter, letters @ ..] => match placed {
            [] => false,
            [first, rest @ ..] => first.byte == *letter && begins_with(rest, letters),
        },
    }
}

fn begins_left_out(placed: &[Placed]) -> bool
    ensures { result ≡ is_left_out placed.now }
{
    begins_with(placed, b"USR")
        || begins_with(placed, b"RUN")
        || begins_with(placed, b"LIST")
        || begins_with(placed, b"CLEAR")
}

/// The column, from 1, of the first USR, RUN, LIST or CLEAR outside texts and remarks; `None` if there is none.
pub(crate) fn left_out(placed: &[Placed]) -> Option<usize>
    ensures { result ≡ left_out_word placed.now }
{
    for (i, first) in placed.iter().enumerate() {
        if first.in_code && begins_left_out(&placed[i..]) {
            return Some(first.column);
        }
    }
    None
}

/// The column of the byte from which on `left` bytes are left.
pub(crate) fn column_of_left(placed: &[Placed], left: usize) -> usize
    ensures { result ≡ column_left left placed.now }
{
    match placed.get(placed.len().saturating_sub(left)) {
        Some(first) => first.column,
        None => 0,
    }
}
