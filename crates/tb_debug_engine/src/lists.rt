//! Lines of a source, as they are shown.
ghost use Rattle.std.specs.Prelude.{◌≡◌, ◌+◌, ◌^◌, ◌<◌, drop, length, map, take};
ghost use Rattle.tb_words.specs.Texts.{AppendsBytes};
ghost use Rattle.tb_basic_source.specs.Lines.{pair_of};
ghost use Rattle.tb_debug_engine.specs.Lists.{index_from, index_of, list_text, marked, written};

use std::alloc::AllocError;
use tb_basic_source::{Numbered, push_shown, text_of};

/// How many lines are shown before a line, and after it.
const AROUND: usize = 5;

/// Appends the line of a number as it is written, and a 10.
pub fn push_written(
    text: &mut Vec<u8>,
    lines: &[Numbered<'_>],
    number: u16,
) -> Result<(), AllocError>
    ensures { AppendsBytes result text.old text.new (written (map pair_of lines.now) number) }
{
    push_shown(text, text_of(lines, number))?;
    text.push(b'\n')?;
    Ok(())
}

// The index of a line among others that `before` lines precede; 0 if it isn't one of them.
fn index_from(before: usize, numbers: &[u16], number: u16) -> usize
    requires { before + length numbers.now < 2 ^ 63 }
    ensures { result ≡ index_from before numbers.now number }
{
    match numbers {
        [] => 0,
        [first, rest @ ..] => if *first == number {
            before
        } else {
            index_from(before + 1, rest, number)
        },
    }
}

// The index of a line; 0 if it is none, or not one of these.
fn index_of(numbers: &[u16], line: Option<u16>) -> usize
    ensures { result ≡ index_of numbers.now line }
{
    match line {
        Some(number) => index_from(0, numbers, number),
        None => 0,
    }
}

// The lines after the first `count`.
fn after(numbers: &[u16], count: usize) -> &[u16]
    ensures { result.now ≡ drop count numbers.now }
{
    if count < numbers.len() {
        &numbers[count..]
    } else {
        &[]
    }
}

// The first `count` lines.
fn first(numbers: &[u16], count: usize) -> &[u16]
    ensures { result.now ≡ take count numbers.now }
{
    if count < numbers.len() {
        &numbers[..count]
    } else {
        numbers
    }
}

// Appends a line after `* ` if the run is at it, else after two spaces.
fn push_marked(
    text: &mut Vec<u8>,
    lines: &[Numbered<'_>],
    here: Option<u16>,
    number: u16,
) -> Result<(), AllocError>
    ensures { AppendsBytes result text.old text.new (marked (map pair_of lines.now) here number) }
{
    match here {
        Some(line) if number == line => text.extend_from_slice(b"* ")?,
        _ => text.extend_from_slice(b"  ")?,
    }
    push_written(text, lines, number)
}

/// Appends the lines around a line, the one at which the run is after `* ` and the others after two spaces.
pub fn push_list(
    text: &mut Vec<u8>,
    lines: &[Numbered<'_>],
    numbers: &[u16],
    around: Option<u16>,
    here: Option<u16>,
) -> Result<(), AllocError>
    ensures { AppendsBytes result text.old text.new (list_text (map pair_of lines.now) numbers.now around here) }
{
    let index = index_of(numbers, around);
    let from = index.saturating_sub(AROUND);
    let near = first(after(numbers, from), index - from + AROUND + 1);
    for number in near {
        push_marked(text, lines, here, *number)?;
    }
    Ok(())
}
