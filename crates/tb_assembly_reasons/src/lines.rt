//! The lines of a text, and in which of them an item stands.
ghost use Rattle.std.specs.Prelude.{◌≡◌, ◌≤◌, IfOk, drop, length, map};
ghost use Rattle.tb_asm.specs.Text.{begins_with_10, split_lines};
ghost use Rattle.tb_asm.specs.Reads.{FirstLine};
ghost use Rattle.tb_asm.specs.Layout.{entry_of};
ghost use Rattle.tb_assembly_reasons.specs.Lines.{items_in, line_at, place_of};

use std::alloc::{AllocError, Global};
use tb_asm::{Item, TextError, read_text};

/// A line, counted from 1, and one of its items, counted from 0.
#[derive(Clone, Copy, Drop)]
pub struct ItemPlace {
    pub line: usize,
    pub index: usize,
}

fn behind(bytes: &[u8], size: usize) -> &[u8]
    requires { size ≤ length bytes.now }
    ensures { result.now ≡ drop size bytes.now }
{
    bytes.split_at(size).1
}

fn begins_with_newline(bytes: &[u8]) -> bool
    ensures { result ≡ begins_with_10 bytes.now }
{
    matches!(bytes, [b'\n', ..])
}

// Where the first line ends, and where the next one begins, if there is one, as the assembler reads its text.
fn first_line(text: &[u8]) -> (usize, Option<usize>)
    ensures { FirstLine text.now result }
{
    for (index, byte) in text.iter().enumerate() {
        if *byte == b'\n' {
            return (index, Some(index + 1));
        }
        if *byte == b'\r' && begins_with_newline(behind(text, index + 1)) {
            return (index, Some(index + 2));
        }
    }
    (text.len(), None)
}

/// The lines of a text, without their ends. Fails only if memory runs out.
pub fn lines_of(alloc: Global, text: &[u8]) -> Result<Vec<&[u8]>, AllocError>
    ensures { IfOk result (λ lines. map (λ l. l.now) lines.items ≡ split_lines text.now) }
{
    let mut lines = Vec::new(alloc);
    let mut rest = text;
    'lines: loop {
        let (end, next) = first_line(rest);
        lines.push(&rest[..end])?;
        let Some(next) = next else {
            return Ok(lines);
        };
        rest = &rest[next..];
    }
}

/// A line, counted from 1; empty if there is none.
pub fn line_at<'a>(lines: &[&'a [u8]], line: usize) -> &'a [u8]
    ensures { result.now ≡ line_at (map (λ l. l.now) lines.now) line }
{
    match lines.get(line.saturating_sub(1)) {
        Some(line) => line,
        None => &[],
    }
}

/// The items of a line; none if it is bad. Fails only if memory runs out.
pub fn items_in(alloc: Global, line: &[u8]) -> Result<Vec<Item>, AllocError>
    ensures { IfOk result (λ items. map entry_of items.items ≡ items_in line.now) }
{
    match read_text(alloc, line) {
        Ok(items) => Ok(items),
        Err(TextError::Line(_)) => Ok(Vec::new(alloc)),
        Err(TextError::NoMemory) => Err(AllocError),
    }
}

/// Where an item of the text stands, counted from 0. Fails only if memory runs out.
pub fn place_of(
    alloc: Global,
    lines: &[&[u8]],
    item: usize,
) -> Result<Option<ItemPlace>, AllocError>
    ensures { IfOk result (λ r. r ≡ place_of 1 item (map (λ l. l.now) lines.now)) }
{
    let mut left = item;
    for (i, line) in lines.iter().enumerate() {
        let count = items_in(alloc, line)?.len();
        if left < count {
            return Ok(Some(ItemPlace {
                line: i + 1,
                index: left,
            }));
        }
        left -= count;
    }
    Ok(None)
}
