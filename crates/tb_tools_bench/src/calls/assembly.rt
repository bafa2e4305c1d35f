//! Calls of the assembler, of the disassembler, on PRG files and on disks.
use super::sources::{SOURCES, compiled, show_bytes, show_each, show_letters};
use crate::failure::Failure;
use std::alloc::Global;
use tb_asm::{AsmErrorKind, Image, Item, TextError, assemble, read_text, settle};
use tb_assembly_settling::assemble_settled;
use tb_disasm::{Listing, disassemble};
use tb_machine_disk::{File, Name, disk};
use tb_memmap::CODE_START;
use tb_prg::write;

/// The bytes of the worked rows: a program, and instructions among bytes that are not instructions.
const LISTED: [&[u8]; 2] = [
    &[0xa9, 0x05, 0x8d, 0x20, 0xd0, 0x60],
    &[0xad, 0x12, 0x00, 0xff, 0x6c, 0xff, 0x12, 0xa9],
];

/// How many bytes a PRG file has before its program's image.
const HEADER_SIZE: usize = 14;

/// A branch over this many zeros to a label, forward or back.
#[derive(Clone, Copy, Drop)]
struct Branch {
    zeros: usize,
    is_forward: bool,
}

/// Where the directory of a disk begins, in bytes.
const DIRECTORY: usize = 358 * 256;

/// The branches of the worked rows: the last that reaches and the first that does not, each way.
const BRANCHES: [Branch; 4] = [
    Branch {
        zeros: 127,
        is_forward: true,
    },
    Branch {
        zeros: 128,
        is_forward: true,
    },
    Branch {
        zeros: 126,
        is_forward: false,
    },
    Branch {
        zeros: 127,
        is_forward: false,
    },
];

/// The other texts of the worked rows.
const TEXTS: [&[u8]; 3] = [b"STA #$05", b"JMP ($12FF)", b"LDA #5"];

fn push_zeros(count: usize, row: &mut Vec<u8>) -> Result<(), Failure> {
    row.extend_from_slice(b"\n.byte $00")?;
    for _ in 1..count {
        row.extend_from_slice(b",$00")?;
    }
    row.push(b'\n')?;
    Ok(())
}

impl Branch {
    fn push_text(self, row: &mut Vec<u8>) -> Result<(), Failure> {
        let (first, last): (&[u8], &[u8]) = if self.is_forward {
            (b"BNE L", b"L:")
        } else {
            (b"L:", b"BNE L")
        };
        row.extend_from_slice(first)?;
        push_zeros(self.zeros, row)?;
        row.extend_from_slice(last)?;
        Ok(())
    }

    fn text(self, alloc: Global) -> Result<Vec<u8>, Failure> {
        let mut row = Vec::new(alloc);
        self.push_text(&mut row)?;
        Ok(row)
    }

    fn items(self, alloc: Global) -> Result<Vec<Item>, Failure> {
        let row = self.text(alloc)?;
        Ok(read_text(alloc, row.as_slice())?)
    }
}

// The texts of the worked rows.
fn texts(alloc: Global) -> Result<Vec<Vec<u8>>, Failure> {
    let mut texts = Vec::new(alloc);
    for branch in BRANCHES {
        texts.push(branch.text(alloc)?)?;
    }
    for row in TEXTS {
        texts.push(Vec::from_slice(alloc, row)?)?;
    }
    Ok(texts)
}

fn show_image(image: &Image, text: &mut String) -> Result<(), Failure> {
    show_bytes(text, image.bytes.as_slice())?;
    writeln!(text, "{:?}", image.labels)?;
    Ok(())
}

// Assembles items. A refusal is an answer, unless memory ran out.
fn show_assembled(alloc: Global, items: &[Item], text: &mut String) -> Result<(), Failure> {
    match assemble(alloc, 0x1000, items) {
        Ok(image) => show_image(&image, text),
        Err(error) if error.kind == AsmErrorKind::NoMemory => Err(Failure::from(error)),
        Err(error) => {
            writeln!(text, "{error:?}")?;
            Ok(())
        }
    }
}

// Assembles a row's text. A bad line is an answer.
fn show_assembled_text(alloc: Global, row: &[u8], text: &mut String) -> Result<(), Failure> {
    match read_text(alloc, row) {
        Ok(items) => show_assembled(alloc, items.as_slice(), text),
        Err(error) => show_text_error(error, text),
    }
}

/// Shows what assembling the texts of the worked rows answers.
pub fn show_assemble(alloc: Global, text: &mut String) -> Result<(), Failure> {
    for row in texts(alloc)? {
        show_assembled_text(alloc, row.as_slice(), text)?;
    }
    Ok(())
}

fn show_text_error(error: TextError, text: &mut String) -> Result<(), Failure> {
    match error {
        TextError::NoMemory => Err(Failure::NoMemory),
        TextError::Line(line) => {
            writeln!(text, "line {line}")?;
            Ok(())
        }
    }
}

fn show_settled(alloc: Global, branch: Branch, text: &mut String) -> Result<(), Failure> {
    let items = branch.items(alloc)?;
    show_settled_items(alloc, items.as_slice(), text)
}

fn show_settled_items(alloc: Global, items: &[Item], text: &mut String) -> Result<(), Failure> {
    let settled = settle(alloc, 0x1000, items)?;
    show_each(text, settled.as_slice())
}

/// Shows what `settle` answers for the branches of the worked rows.
pub fn show_settle(alloc: Global, text: &mut String) -> Result<(), Failure> {
    for branch in BRANCHES {
        show_settled(alloc, branch, text)?;
    }
    Ok(())
}

fn show_laid(alloc: Global, branch: Branch, text: &mut String) -> Result<(), Failure> {
    let items = branch.items(alloc)?;
    let image = assemble_settled(alloc, 0x1000, items.as_slice())?;
    show_image(&image, text)
}

/// Shows what `assemble_settled` answers for the branches of the worked rows.
pub fn show_assemble_settled(alloc: Global, text: &mut String) -> Result<(), Failure> {
    for branch in BRANCHES {
        show_laid(alloc, branch, text)?;
    }
    Ok(())
}

fn show_read(alloc: Global, row: &[u8], text: &mut String) -> Result<(), Failure> {
    match read_text(alloc, row) {
        Ok(items) => show_each(text, items.as_slice()),
        Err(error) => show_text_error(error, text),
    }
}

/// Shows what `read_text` answers for the texts of the worked rows.
pub fn show_read_text(alloc: Global, text: &mut String) -> Result<(), Failure> {
    for row in texts(alloc)? {
        show_read(alloc, row.as_slice(), text)?;
    }
    Ok(())
}

// The file of an image at the address where a program starts.
fn file_of(alloc: Global, items: &[Item]) -> Result<Vec<u8>, Failure> {
    let image = assemble(alloc, CODE_START, items)?;
    Ok(write(alloc, &image)?)
}

fn show_file(alloc: Global, image: &[u8], text: &mut String) -> Result<(), Failure> {
    let items = [Item::Bytes(Vec::from_slice(alloc, image)?)];
    let file = file_of(alloc, &items)?;
    show_bytes(text, file.as_slice())
}

// The file that `write` makes of a source's image, which is the compiled one.
fn show_write_of(alloc: Global, source: &[u8], text: &mut String) -> Result<(), Failure> {
    let program = compiled(alloc, source)?;
    let image = program.prg().get(HEADER_SIZE..).ok_or(Failure::Refused)?;
    show_file(alloc, image, text)
}

/// Shows what `write` makes of the images of the sources.
pub fn show_write(alloc: Global, text: &mut String) -> Result<(), Failure> {
    for source in SOURCES {
        show_write_of(alloc, source, text)?;
    }
    Ok(())
}

fn listing(alloc: Global, bytes: &[u8]) -> Result<Listing, Failure> {
    Ok(disassemble(alloc, 0xc000, bytes)?)
}

fn show_listing(alloc: Global, bytes: &[u8], text: &mut String) -> Result<(), Failure> {
    let listing = listing(alloc, bytes)?;
    show_each(text, listing.lines.as_slice())
}

/// Shows what `disassemble` makes of the bytes of the worked rows.
pub fn show_disassemble(alloc: Global, text: &mut String) -> Result<(), Failure> {
    for bytes in LISTED {
        show_listing(alloc, bytes, text)?;
    }
    Ok(())
}

fn listing_text(alloc: Global, bytes: &[u8]) -> Result<Vec<u8>, Failure> {
    let listing = listing(alloc, bytes)?;
    Ok(listing.text(alloc)?)
}

fn show_listing_text_of(alloc: Global, bytes: &[u8], text: &mut String) -> Result<(), Failure> {
    let written = listing_text(alloc, bytes)?;
    show_letters(text, written.as_slice())
}

/// Shows the texts of these listings.
pub fn show_listing_text(alloc: Global, text: &mut String) -> Result<(), Failure> {
    for bytes in LISTED {
        show_listing_text_of(alloc, bytes, text)?;
    }
    Ok(())
}

// The disk of this name with this file.
fn show_disk_of(alloc: Global, name: &Name, text: &mut String) -> Result<(), Failure> {
    let file = File {
        name: *name,
        bytes: LISTED[0],
    };
    let image = disk(alloc, name, &[file])?;
    // The first block of the file, and the directory's first block.
    show_bytes(text, image.as_slice().get(..16).ok_or(Failure::Refused)?)?;
    show_bytes(
        text,
        image
            .as_slice()
            .get(DIRECTORY..DIRECTORY + 32)
            .ok_or(Failure::Refused)?,
    )
}

/// Shows what is made of a disk.
pub fn show_disk(alloc: Global, text: &mut String) -> Result<(), Failure> {
    let name = Name::new(b"A").ok_or(Failure::Refused)?;
    show_disk_of(alloc, &name, text)
}
