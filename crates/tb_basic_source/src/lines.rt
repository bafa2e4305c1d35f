//! The lines of a source by the numbers that they begin with.
ghost use Rattle.std.specs.Prelude.{◌≡◌, ◌≤◌, [], IfOk, map};
ghost use Rattle.tb_basic_source.specs.Lines.{behind_number, last_of, longer, number_of, numbered, pair_of};

use std::alloc::{AllocError, Global};
use tb_basic_text::next_line;

/// No line has this number or a higher one.
const PAST: u32 = 65_536;

/// A line of a source as it was written, and the number that it begins with: 0, which no line has, if there is none.
#[derive(Clone, Copy, Drop)]
pub struct Numbered<'a> {
    pub number: u32,
    pub text: &'a [u8],
}

// A number with one more digit, at most `PAST`.
fn longer(number: u32, digit: u8) -> u32
    requires { number ≤ 65536 }
    ensures few { result ≤ 65536 }
    ensures value { result ≡ longer number digit }
{
    (number * 10 + u32::from(digit)).min(PAST)
}

// The number that a line begins with.
fn number_of(line: &[u8]) -> u32
    ensures { result ≡ number_of line.now }
{
    let mut number = 0;
    for byte in line {
        match *byte {
            b' ' => (),
            b'0'..=b'9' => number = longer(number, *byte - b'0'),
            _ => return number,
        }
    }
    number
}

/// What follows the number of a line.
pub fn behind_number(line: &[u8]) -> &[u8]
    ensures { result.now ≡ behind_number line.now }
{
    for (i, byte) in line.iter().enumerate() {
        if !matches!(*byte, b' ' | b'0'..=b'9') {
            return &line[i..];
        }
    }
    &[]
}

/// The lines of a source, each with its number. Fails only if memory runs out.
pub fn numbered_lines(alloc: Global, source: &[u8]) -> Result<Vec<Numbered<'_>>, AllocError>
    ensures { IfOk result (λ lines. map pair_of lines.items ≡ numbered source.now) }
{
    let mut lines = Vec::new(alloc);
    let mut rest = source;
    while let Some((text, behind)) = next_line(rest) {
        lines.push(Numbered {
            number: number_of(text),
            text,
        })?;
        rest = behind;
    }
    Ok(lines)
}

/// The text of the last of these lines that has a number; empty if none has it.
pub fn text_of<'a>(lines: &[Numbered<'a>], number: u16) -> &'a [u8]
    ensures { result.now ≡ last_of [] number (map pair_of lines.now) }
{
    let mut text: &'a [u8] = &[];
    for line in lines {
        if line.number == u32::from(number) {
            text = line.text;
        }
    }
    text
}
