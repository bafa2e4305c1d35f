//! What belongs to no part of a line.
ghost use Rattle.std.specs.Prelude.{◌≡◌, ◌≤◌, length, IfSome, option_map, drop};
ghost use Rattle.tb_assembly_reasons.specs.Strays.{begins_word, is_number, is_sign, stray, stray_reason, step_of};

use crate::reasons::{LineFault, LineReason};
use crate::words::{before, is_word_byte, past_digits};

// What comes of a byte.
#[derive(Clone, Copy, Drop)]
enum Step {
    // It goes on, inside of a word or a number or not.
    On { inside: bool },
    // A comment begins.
    Ends,
    Stray(LineReason),
}

// Whether two or four hexadecimal digits are at the front, and no more.
fn is_number(text: &[u8]) -> bool
    ensures { result ≡ is_number text.now }
{
    matches!(before(text, past_digits(text)).len(), 2 | 4)
}

fn is_sign(byte: u8) -> bool
    ensures { result ≡ is_sign byte }
{
    matches!(byte, b' ' | b'#' | b'<' | b'>' | b'(' | b')' | b',' | b':')
}

// Why nothing begins with a byte.
fn stray_reason(byte: u8) -> LineReason
    ensures { result ≡ stray_reason byte }
{
    match byte {
        b'0'..=b'9' | b'%' | b'$' => LineReason::Number,
        b'\t' => LineReason::Tab,
        b'"' | b'\'' => LineReason::Quote,
        b'+' | b'-' | b'*' | b'/' | b'=' => LineReason::Sum,
        _ => LineReason::Stray,
    }
}

// Whether a word begins with a byte: a letter or a full stop.
fn begins_word(byte: u8) -> bool
    ensures { result ≡ begins_word byte }
{
    matches!(byte, b'a'..=b'z' | b'A'..=b'Z' | b'.')
}

// What comes of a byte with what follows it, inside of a word or a number or not.
fn step_of(inside: bool, byte: u8, after: &[u8]) -> Step
    ensures { result ≡ step_of inside byte after.now }
{
    if byte == b';' {
        Step::Ends
    } else if is_sign(byte) {
        Step::On { inside: false }
    } else if begins_word(byte)
        || (inside && is_word_byte(byte))
        || (byte == b'$' && is_number(after))
    {
        Step::On { inside: true }
    } else {
        Step::Stray(stray_reason(byte))
    }
}

/// The first byte before a comment that belongs to no part of a line.
pub fn stray(line: &[u8]) -> Option<LineFault>
    ensures { result ≡ stray line.now }
{
    let mut inside = false;
    for (index, byte) in line.iter().enumerate() {
        match step_of(inside, *byte, &line[index + 1..]) {
            Step::On { inside: now } => inside = now,
            Step::Ends => return None,
            Step::Stray(reason) => {
                return Some(LineFault {
                    column: index + 1,
                    reason,
                });
            }
        }
    }
    None
}
