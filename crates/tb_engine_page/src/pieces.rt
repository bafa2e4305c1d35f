//! The pieces that a page is made of.
ghost use Rattle.std.specs.Prelude.{◌≡◌, IfOk, flat_map, map, string_bytes};
ghost use Rattle.tb_compiled.specs.Compiled.{pair_of as start_pair};
ghost use Rattle.tb_basic_source.specs.Lines.{pair_of};
ghost use Rattle.tb_engine_page.specs.Pages.{characters, escaped_text, line_row, reference, row_in, titled, titled_byte};
ghost use Rattle.tb_words.specs.Texts.{AppendsBytes};

use std::alloc::{AllocError, Global};
use tb_basic_source::{Numbered, text_of};
use tb_compiled::LineStart;
use tb_engine_profile_table::{push_all_escaped, push_escaped};
use tb_machine_screen::{GRAPHICS, LETTERS};
use tb_words::{decimal_digits, hex_digits};

/// The pieces of a text, one after the other.
pub fn joined(alloc: Global, pieces: &[&[u8]]) -> Result<Vec<u8>, AllocError>
    ensures { IfOk result (λ text. text.items ≡ flat_map (λ p. p.now) pieces.now) }
{
    pieces.concat(alloc)
}

// Appends a byte of a title: one of a character above 127 as it is, and else escaped if need be.
fn push_titled(text: &mut Vec<u8>, byte: u8) -> Result<(), AllocError>
    ensures { AppendsBytes result text.old text.new (titled_byte byte) }
{
    if 128 <= byte {
        text.extend_from_slice(&[byte])
    } else {
        push_escaped(text, byte)
    }
}

/// A title as HTML has it.
pub fn titled(alloc: Global, title: &str) -> Result<Vec<u8>, AllocError>
    ensures { IfOk result (λ text. text.items ≡ titled title.now) }
{
    let mut text = Vec::new(alloc);
    for byte in title.as_bytes() {
        push_titled(&mut text, *byte)?;
    }
    Ok(text)
}

// A character by its number, as HTML refers to it.
fn reference(alloc: Global, character: char) -> Result<String, AllocError>
    ensures { IfOk result (λ text. string_bytes text ≡ reference character) }
{
    let number = u32::from(character);
    Ok(format!(in alloc; "&#{number};")?)
}

// Appends characters by their numbers.
fn push_references(alloc: Global, text: &mut Vec<u8>, characters: &[char]) -> Result<(), AllocError>
    ensures { AppendsBytes result text.old text.new (flat_map reference characters.now) }
{
    for character in characters {
        text.extend_from_slice(reference(alloc, *character)?.as_bytes())?;
    }
    Ok(())
}

/// The characters of the screen codes 0 to 127, of both sets.
pub fn characters(alloc: Global) -> Result<Vec<u8>, AllocError>
    ensures { IfOk result (λ text. text.items ≡ characters) }
{
    let mut text = Vec::new(alloc);
    push_references(alloc, &mut text, &GRAPHICS)?;
    push_references(alloc, &mut text, &LETTERS)?;
    Ok(text)
}

// The row of a line that begins at an address, with its text in HTML.
fn row_of(alloc: Global, start: LineStart, shown: &[u8]) -> Result<Vec<u8>, AllocError>
    ensures { IfOk result (λ row. row.items ≡ line_row (start_pair start) shown.now) }
{
    let number = decimal_digits(start.number);
    let address = hex_digits(start.at);
    let pieces: [&[u8]; 7] = [
        b"<li value=\"",
        number.as_slice(),
        b"\" data-at=\"",
        address.as_slice(),
        b"\">",
        shown,
        b"</li>\n",
    ];
    joined(alloc, &pieces)
}

// A text in HTML.
fn escaped_text(alloc: Global, text: &[u8]) -> Result<Vec<u8>, AllocError>
    ensures { IfOk result (λ r. r.items ≡ escaped_text text.now) }
{
    let mut shown = Vec::new(alloc);
    push_all_escaped(&mut shown, text)?;
    Ok(shown)
}

// Appends the row of a line of this source.
fn push_row(
    alloc: Global,
    text: &mut Vec<u8>,
    written: &[Numbered<'_>],
    start: LineStart,
) -> Result<(), AllocError>
    ensures { AppendsBytes result text.old text.new (row_in (map pair_of written.now) (start_pair start)) }
{
    let shown = escaped_text(alloc, text_of(written, start.number))?;
    text.extend_from_slice(row_of(alloc, start, &shown)?.as_slice())
}

/// The rows of a program's lines, where its source is split into lines.
pub fn rows_in(
    alloc: Global,
    written: &[Numbered<'_>],
    starts: &[LineStart],
) -> Result<Vec<u8>, AllocError>
    ensures { IfOk result (λ text. text.items ≡ flat_map (row_in (map pair_of written.now)) (map start_pair starts.now)) }
{
    let mut text = Vec::new(alloc);
    for start in starts {
        push_row(alloc, &mut text, written, *start)?;
    }
    Ok(text)
}
