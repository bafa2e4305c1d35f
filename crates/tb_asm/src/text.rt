//! The assembler's text.
ghost use Rattle.std.specs.Prelude.{◌≡◌, ◌<◌, ◌≤◌, drop, take, length, map};
ghost use Rattle.tb_asm.specs.Layout.{entry_of};
ghost use Rattle.tb_asm.specs.Text.{begins_with_10, line_items, items_of_text};
ghost use Rattle.tb_asm.specs.Reads.{FirstLine, Pushes, ReadsText};

use crate::errors::{LineError, TextError};
use crate::forms::read_items;
use crate::items::Item;
use crate::parts::{Part, behind, read_parts};
use std::alloc::Global;

/// The items of a text, or its first line that the format does not allow, from 1. A line is nothing, a label and a
/// colon, an item, or a label and an item.
pub fn read_text(alloc: Global, text: &[u8]) -> Result<Vec<Item>, TextError>
    ensures { ReadsText (λ items. map entry_of items.items) (items_of_text text.now) result }
{
    let mut items = Vec::new(alloc);
    let mut parts = Vec::new(alloc);
    let mut rest = text;
    let mut number = 1usize;
    'lines: loop {
        let (end, next) = first_line(rest);
        match read_line(alloc, before(rest, end), &mut parts, &mut items) {
            Ok(()) => {}
            Err(LineError::Bad) => return Err(TextError::Line(number)),
            Err(LineError::NoMemory) => return Err(TextError::NoMemory),
        }
        let Some(next) = next else {
            return Ok(items);
        };
        rest = behind(rest, next);
        number += 1;
    }
}

// Puts the items of a line after the others. The list of parts is reused.
fn read_line(
    alloc: Global,
    line: &[u8],
    parts: &mut Vec<Part>,
    items: &mut Vec<Item>,
) -> Result<(), LineError>
    ensures { Pushes (line_items line.now) items.old.items result items.new.items }
{
    read_parts(line, parts)?;
    read_items(alloc, parts.as_slice(), items)
}

fn before(bytes: &[u8], end: usize) -> &[u8]
    requires { end ≤ length bytes.now }
    ensures { result.now ≡ take end bytes.now }
{
    bytes.split_at(end).0
}

// Where the first line ends, and where the next one begins, if there is one.
fn first_line(text: &[u8]) -> (usize, Option<usize>)
    ensures { FirstLine text.now result }
{
    for (index, byte) in text.iter().enumerate() {
        if *byte == b'\n' {
            return (index, Some(index + 1));
        }
        if *byte == b'\r' && begins_with_newline(behind(text, index + 1)) {
            return (index, Some(index + 2));
        }
    }
    (text.len(), None)
}

fn begins_with_newline(bytes: &[u8]) -> bool
    ensures { result ≡ begins_with_10 bytes.now }
{
    match bytes {
        [] => false,
        [first, ..] => *first == b'\n',
    }
}
