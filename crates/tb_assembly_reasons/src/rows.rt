//! What is said of a text that is refused: the line, its place, and what helps.
ghost use Rattle.std.specs.Prelude.{◌≡◌, IfOk, map};
ghost use Rattle.std.specs.Fmt.{decimal};
ghost use Rattle.std.specs.List.{slice_get};
ghost use Rattle.tb_words.specs.Texts.{AppendsBytes};
ghost use Rattle.tb_asm.specs.Layout.{entry_of};
ghost use Rattle.tb_asm.specs.Text.{split_lines};
ghost use Rattle.tb_assembly_reasons.specs.Lines.{line_at};
ghost use Rattle.tb_assembly_reasons.specs.Rows.{fault_row, item_row, item_rows, letters_at, line_rows, rows_at};

use crate::errors::{letters_of, push_error};
use crate::faults::line_fault;
use crate::lines::{ItemPlace, items_in, line_at, lines_of, place_of};
use crate::reasons::LineFault;
use std::alloc::{AllocError, Global};
use tb_asm::{AsmError, AsmErrorKind, Item};
use tb_engine_check::{push_caret, push_line};

fn push_row(text: &mut Vec<u8>, row: &str) -> Result<(), AllocError>
    ensures { AppendsBytes result text.old text.new row.now }
{
    text.extend_from_slice(row.as_bytes())
}

// Appends why a line is refused.
fn push_fault(
    alloc: Global,
    text: &mut Vec<u8>,
    name: &str,
    line: usize,
    fault: LineFault,
) -> Result<(), AllocError>
    ensures { AppendsBytes result text.old text.new (fault_row name.now line fault) }
{
    let (column, reason) = (fault.column, fault.reason);
    push_row(
        text,
        &format!(in alloc; "{name}:{line}:{column}: error: {reason}\n")?,
    )
}

/// What there is to say of a line of a text under a name, counted from 1, that is no line of assembler text: why, the line
/// and its place. Fails only if memory runs out.
pub fn line_text(alloc: Global, name: &str, text: &[u8], line: usize) -> Result<Vec<u8>, AllocError>
    ensures { IfOk result (λ said. said.items ≡ line_rows name.now line (line_at (split_lines text.now) line)) }
{
    let lines = lines_of(alloc, text)?;
    let shown = line_at(lines.as_slice(), line);
    let fault = line_fault(alloc, shown)?;
    let number = format!(in alloc; "{line}")?;
    let mut said = Vec::new(alloc);
    push_fault(alloc, &mut said, name, line, fault)?;
    push_line(&mut said, number.as_bytes(), shown)?;
    push_caret(&mut said, number.as_bytes(), fault.column)?;
    Ok(said)
}

/// What there is to say of an item of a text under a name that is not assembled: why, and its line. Fails only if memory
/// runs out.
pub fn item_text(
    alloc: Global,
    name: &str,
    text: &[u8],
    error: AsmError,
) -> Result<Vec<u8>, AllocError>
    ensures { IfOk result (λ said. said.items ≡ item_rows name.now (split_lines text.now) error) }
{
    let lines = lines_of(alloc, text)?;
    let mut said = Vec::new(alloc);
    if let Some(place) = place_of(alloc, lines.as_slice(), error.item)? {
        let line = line_at(lines.as_slice(), place.line);
        push_item(alloc, &mut said, name, line, place, error.kind)?;
    }
    Ok(said)
}

// The letters of an item's label; none if there is no such item.
fn letters_at(items: &[Item], index: usize) -> &[u8]
    ensures { result.now ≡ letters_at (slice_get (map entry_of items.now) index) }
{
    match items.get(index) {
        Some(item) => letters_of(item),
        None => &[],
    }
}

// Appends why an item of a line is refused, with the letters of its label.
fn push_item_error(
    alloc: Global,
    text: &mut Vec<u8>,
    name: &str,
    line: usize,
    kind: AsmErrorKind,
    letters: &[u8],
) -> Result<(), AllocError>
    ensures { AppendsBytes result text.old text.new (item_row name.now line kind letters.now) }
{
    push_row(text, &format!(in alloc; "{name}:{line}: error: ")?)?;
    push_error(text, kind, letters)?;
    text.extend_from_slice(b"\n")
}

// Appends why an item of a line is refused, and the line.
fn push_item(
    alloc: Global,
    text: &mut Vec<u8>,
    name: &str,
    line: &[u8],
    place: ItemPlace,
    kind: AsmErrorKind,
) -> Result<(), AllocError>
    ensures { AppendsBytes result text.old text.new (rows_at name.now line.now place kind) }
{
    let items = items_in(alloc, line)?;
    let letters = letters_at(items.as_slice(), place.index);
    push_item_error(alloc, text, name, place.line, kind, letters)?;
    let number = format!(in alloc; "{}", place.line)?;
    push_line(text, number.as_bytes(), line)
}
