//! The listing of a whole program for an assembler: assembled, it gives all bytes of the PRG file.
ghost use Rattle.std.specs.Prelude.{◌≡◌, ◌+◌, ◌≤◌, ◌++◌, IfOk, drop, length, map, take};
ghost use Rattle.tb_words.specs.Texts.{AppendsBytes};
ghost use Rattle.tb_asm.specs.Layout.{entry_of};
ghost use Rattle.tb_asm.specs.Text.{items_of_text};
ghost use Rattle.tb_assembly_dialects.specs.Listings as listings;

use crate::basic_line::{basic_line, behind_basic};
use crate::dialect::Dialect;
use crate::items::push_bytes;
use crate::kernal::push_services;
use crate::lines::{items_in, push_lines};
use crate::named::list_named;
use std::alloc::{AllocError, Global};
use tb_disasm::write_word;

// Appends what stands before the bytes: the command that assembles the listing, the services, and the origin.
fn push_head(
    alloc: Global,
    text: &mut Vec<u8>,
    dialect: Dialect,
    at: u16,
    size: usize,
    source: &[u8],
) -> Result<(), AllocError>
    ensures { AppendsBytes result text.old text.new (listings.head dialect at size source.now) }
{
    push_top(alloc, text, dialect, size, source)?;
    push_place(text, dialect, at)
}

// Appends the command that assembles the listing, and the services.
fn push_top(
    alloc: Global,
    text: &mut Vec<u8>,
    dialect: Dialect,
    size: usize,
    source: &[u8],
) -> Result<(), AllocError>
    ensures { AppendsBytes result text.old text.new (listings.top dialect size source.now) }
{
    let items = items_in(alloc, source)?;
    text.extend_from_slice(dialect.command(size))?;
    push_services(text, items.as_slice())
}

// Appends the load address, where it has to be said, and the origin.
fn push_place(text: &mut Vec<u8>, dialect: Dialect, at: u16) -> Result<(), AllocError>
    ensures { AppendsBytes result text.old text.new (listings.place dialect at) }
{
    push_load_word(text, dialect, at)?;
    write_word(text, dialect.origin(), at, b"\n")
}

// Appends the load address, where a file begins with it only if the listing says so.
fn push_load_word(text: &mut Vec<u8>, dialect: Dialect, at: u16) -> Result<(), AllocError>
    ensures { AppendsBytes result text.old text.new (listings.load_line dialect at) }
{
    let before = dialect.load_word();
    if before.is_empty() {
        return Ok(());
    }
    write_word(text, before, at, b" ; the load address\n")
}

// Appends the bytes of a BASIC line, if there is one.
fn push_basic(text: &mut Vec<u8>, dialect: Dialect, at: u16, basic: &[u8]) -> Result<(), AllocError>
    ensures { AppendsBytes result text.old text.new (listings.basic_row dialect at basic.now) }
{
    if basic.is_empty() {
        return Ok(());
    }
    push_basic_bytes(text, dialect, at, basic)
}

// Appends the bytes of a BASIC line.
fn push_basic_bytes(
    text: &mut Vec<u8>,
    dialect: Dialect,
    at: u16,
    basic: &[u8],
) -> Result<(), AllocError>
    ensures { AppendsBytes result text.old text.new (listings.basic_bytes dialect at basic.now) }
{
    text.extend_from_slice(b"  ")?;
    push_bytes(text, dialect, basic)?;
    write_word(text, b"; ", at, b" the BASIC line\n")
}

/// A text of the assembler for the bytes of a program after its BASIC line, as another one takes it, with that line before
/// it. Fails if memory runs out.
pub fn spell(
    alloc: Global,
    dialect: Dialect,
    at: u16,
    bytes: &[u8],
    source: &[u8],
) -> Result<Vec<u8>, AllocError>
    ensures { IfOk result (λ text. text.items ≡ listings.spelled dialect at bytes.now source.now) }
{
    let mut text = Vec::new(alloc);
    push_head(alloc, &mut text, dialect, at, bytes.len(), source)?;
    push_basic(&mut text, dialect, at, basic_line(at, bytes))?;
    push_lines(alloc, &mut text, dialect, source)?;
    Ok(text)
}

/// The listing of a program for an assembler. What follows the BASIC line is a text that assembles to it, with labels
/// where that is so, as the assembler takes it. Fails if memory runs out.
pub fn list_for(
    alloc: Global,
    dialect: Dialect,
    at: u16,
    bytes: &[u8],
) -> Result<Vec<u8>, AllocError>
    requires { at + length bytes.now ≤ 65536 }
    ensures { IfOk result (λ text. listings.Lists dialect at bytes.now text.items) }
{
    let (start, code) = behind_basic(at, bytes);
    let source = list_named(alloc, start, code)?;
    spell(alloc, dialect, at, bytes, source.as_slice())
}
