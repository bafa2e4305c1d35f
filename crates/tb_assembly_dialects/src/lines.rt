//! A text of the assembler, line by line, as another one spells it.
ghost use Rattle.std.specs.Prelude.{◌≡◌, ◌∷◌, [], IfOk, map, flat_map};
ghost use Rattle.tb_words.specs.Texts.{AppendsBytes};
ghost use Rattle.tb_asm.specs.Layout.{entry_of};
ghost use Rattle.tb_asm.specs.Text.{items_of_text};
ghost use Rattle.tb_assembly_dialects.specs.Items as items;
ghost use Rattle.tb_assembly_dialects.specs.Lines as lines;

use crate::dialect::Dialect;
use crate::items::push_item;
use std::alloc::{AllocError, Global};
use tb_asm::{Item, TextError, read_text};

/// The items of a text; none if it can't be read.
pub fn items_in(alloc: Global, text: &[u8]) -> Result<Vec<Item>, AllocError>
    ensures { IfOk result (λ found. map entry_of found.items ≡ lines.items_or_none (items_of_text text.now)) }
{
    match read_text(alloc, text) {
        Ok(items) => Ok(items),
        Err(TextError::Line(_)) => Ok(Vec::new(alloc)),
        Err(TextError::NoMemory) => Err(AllocError),
    }
}

/// Appends the lines of a text, each with its items as another assembler spells them, and its comment.
pub fn push_lines(
    alloc: Global,
    text: &mut Vec<u8>,
    dialect: Dialect,
    source: &[u8],
) -> Result<(), AllocError>
    ensures { AppendsBytes result text.old text.new (lines.lines_spelled dialect (lines.lines_from [] source.now)) }
{
    let mut line = Vec::new(alloc);
    for byte in source {
        if *byte == b'\n' {
            push_line(alloc, text, dialect, line.as_slice())?;
            line.clear();
        } else {
            line.push(*byte)?;
        }
    }
    Ok(())
}

fn push_line(
    alloc: Global,
    text: &mut Vec<u8>,
    dialect: Dialect,
    line: &[u8],
) -> Result<(), AllocError>
    ensures { AppendsBytes result text.old text.new (lines.line_spelled dialect line.now) }
{
    let items = items_in(alloc, line)?;
    push_items(text, dialect, items.as_slice())?;
    push_comment(text, dialect, comment_in(line))?;
    text.extend_from_slice(b"\n")
}

fn push_items(text: &mut Vec<u8>, dialect: Dialect, items: &[Item]) -> Result<(), AllocError>
    ensures { AppendsBytes result text.old text.new (lines.items_spelled dialect (map entry_of items.now)) }
{
    for item in items {
        push_item(text, dialect, item)?;
    }
    Ok(())
}

// The comment of a line: from the first semicolon on.
fn comment_in(line: &[u8]) -> &[u8]
    ensures { result.now ≡ lines.comment_in line.now }
{
    for (index, byte) in line.iter().enumerate() {
        if *byte == b';' {
            return &line[index..];
        }
    }
    &[]
}

// Appends a comment as the assembler takes it.
fn push_comment(text: &mut Vec<u8>, dialect: Dialect, comment: &[u8]) -> Result<(), AllocError>
    ensures { AppendsBytes result text.old text.new (lines.comment dialect comment.now) }
{
    match dialect {
        Dialect::Xa => push_guarded(text, comment),
        Dialect::Tass64 | Dialect::Ca65 | Dialect::Acme => text.extend_from_slice(comment),
    }
}

// Appends a comment without what xa reads in comments too.
fn push_guarded(text: &mut Vec<u8>, comment: &[u8]) -> Result<(), AllocError>
    ensures { AppendsBytes result text.old text.new (lines.guarded_all 0 comment.now) }
{
    let mut previous = 0;
    for byte in comment {
        push_guarded_byte(text, previous, *byte)?;
        previous = *byte;
    }
    Ok(())
}

fn push_guarded_byte(text: &mut Vec<u8>, previous: u8, byte: u8) -> Result<(), AllocError>
    ensures { AppendsBytes result text.old text.new (lines.guarded previous byte) }
{
    match (previous, byte) {
        (_, b'\\' | b':') => text.extend_from_slice(b"?"),
        (b'/', b'*') => text.extend_from_slice(b" *"),
        _ => text.extend_from_slice(&[byte]),
    }
}
