//! The listing of a text: assembler text that gives its image back.
ghost use Rattle.std.specs.Prelude.{IfOk, MatchBool, map};
ghost use Rattle.tb_asm.specs.Layout.{entry_of};
ghost use Rattle.tb_disasm.specs.Back.{GivesBack};
ghost use Rattle.tb_assembly_output.specs.Listings.{AssemblesTo};

use std::alloc::{AllocError, Global};
use tb_asm::{AsmErrorKind, Image, Item, TextError, assemble, read_text};
use tb_assembly_files::{Place, SourceFile, text_at};
use tb_assembly_meaning::{Laid, Spot};
use tb_assembly_text::Clause;
use tb_basic_source::{cut, push_shown};
use tb_basic_text::next_line;
use tb_disasm::{disassemble, first_line, write_byte, write_item, write_word};

// How many bytes of data are in a row.
const ROW: usize = 16;

// The size of a branch.
const BRANCH: usize = 2;

// The size of a long branch: a branch and a jump.
const LONG: usize = 5;

/// What a listing shows: the files, where each statement stands, where it lies, and the image.
#[derive(Clone, Copy, Drop)]
pub struct View<'a> {
    pub library: &'a [SourceFile],
    pub places: &'a [Place],
    pub laid: &'a [Laid<'a>],
    pub image: &'a Image,
}

// What is left of the lines of a file, and the number of the first of them.
#[derive(Clone, Copy, Drop)]
struct Rest<'a> {
    place: Place,
    text: &'a [u8],
}

/// The listing: each line of the text that has statements as a comment, and below it a row for each instruction and for
/// each 16 bytes of data, with the address and the bytes. Fails only if memory runs out.
pub fn listing(alloc: Global, view: &View<'_>) -> Result<Vec<u8>, AllocError>
    ensures { IfOk result (λ text. GivesBack view.now.image.now.at text.items view.now.image.now.bytes.items) }
{
    let text = with_lines(alloc, view)?;
    if gives_back(alloc, &text, view.image)? {
        return Ok(text);
    }
    plain(alloc, view.image)
}

// Whether a text reads as items that assemble to the bytes of an image.
fn gives_back(alloc: Global, text: &[u8], image: &Image) -> Result<bool, AllocError>
    ensures { IfOk result (λ does. MatchBool does (GivesBack image.now.at text.now image.now.bytes.items) (Unit {0})) }
{
    match read_text(alloc, text) {
        Ok(items) => assembles_to(alloc, &items, image),
        Err(TextError::NoMemory) => Err(AllocError),
        Err(TextError::Line(_)) => Ok(false),
    }
}

fn assembles_to(alloc: Global, items: &[Item], image: &Image) -> Result<bool, AllocError>
    ensures { IfOk result (λ does. MatchBool does (AssemblesTo image.now.at (map entry_of items.now) image.now.bytes.items) (Unit {0})) }
{
    match assemble(alloc, image.at, items) {
        Ok(made) => Ok(made.bytes.as_slice() == image.bytes.as_slice()),
        Err(error) => match error.kind {
            AsmErrorKind::NoMemory => Err(AllocError),
            _ => Ok(false),
        },
    }
}

// The listing without lines. An image ends within the memory, so it can only fail for lack of memory.
fn plain(alloc: Global, image: &Image) -> Result<Vec<u8>, AllocError>
    ensures { IfOk result (λ text. GivesBack image.now.at text.items image.now.bytes.items) }
{
    match disassemble(alloc, image.at, &image.bytes) {
        Ok(listing) => listing.text(alloc),
        Err(_) => Err(AllocError),
    }
}

// The listing with lines.
fn with_lines(alloc: Global, view: &View<'_>) -> Result<Vec<u8>, AllocError> {
    let mut text = Vec::new(alloc);
    let mut shown = Place { file: 0, line: 0 };
    let mut rest: Rest<'_> = Rest {
        place: shown,
        text: b"",
    };
    for (i, laid) in view.laid.iter().enumerate() {
        let place = match view.places.get(i) {
            Some(place) => *place,
            None => shown,
        };
        if place != shown {
            rest = rest_at(view.library, rest, place);
            push_comment(&mut text, rest.text)?;
            shown = place;
        }
        push_statement(&mut text, view.image, laid)?;
    }
    Ok(text)
}

// What is left of a file from a line on.
fn rest_at<'a>(library: &'a [SourceFile], rest: Rest<'a>, place: Place) -> Rest<'a> {
    if rest.place.file == place.file && rest.place.line != 0 && rest.place.line <= place.line {
        return passed(rest, place);
    }
    let start = Rest {
        place: Place {
            file: place.file,
            line: 1,
        },
        text: text_at(library, place.file).unwrap_or(b""),
    };
    passed(start, place)
}

fn passed(mut rest: Rest<'_>, place: Place) -> Rest<'_> {
    for _ in rest.place.line..place.line {
        match next_line(rest.text) {
            Some((_, behind)) => rest.text = behind,
            None => {}
        }
    }
    rest.place = place;
    rest
}

// The first line of a text as a comment.
fn push_comment(text: &mut Vec<u8>, rest: &[u8]) -> Result<(), AllocError> {
    text.extend_from_slice(b"; ")?;
    if let Some((line, _)) = next_line(rest) {
        push_shown(text, cut(line))?;
    }
    text.extend_from_slice(b"\n")
}

// The rows of a statement, if it lays bytes.
fn push_statement(text: &mut Vec<u8>, image: &Image, laid: &Laid<'_>) -> Result<(), AllocError> {
    let Ok(spot) = laid.spot else {
        return Ok(());
    };
    let Some(bytes) = bytes_of(image, spot) else {
        return Ok(());
    };
    match &laid.statement.clause {
        Clause::Instruction(_, _) => push_code(text, spot.at, bytes),
        _ => push_data(text, spot.at, bytes),
    }
}

// The bytes of a statement.
fn bytes_of(image: &Image, spot: Spot) -> Option<&[u8]> {
    let from = spot.at.checked_sub(usize::from(image.at))?;
    let to = from.checked_add(spot.size)?;
    image.bytes.get(from..to)
}

// An address as a listing shows it.
fn shown_address(at: usize) -> u16 {
    (at % 0x1_0000) as u16
}

// The rows of an instruction: a long branch has two.
fn push_code(text: &mut Vec<u8>, at: usize, bytes: &[u8]) -> Result<(), AllocError> {
    if bytes.len() == LONG {
        push_instruction(text, at, &bytes[..BRANCH])?;
        push_instruction(text, at.saturating_add(BRANCH), &bytes[BRANCH..])
    } else {
        push_instruction(text, at, bytes)
    }
}

fn push_instruction(text: &mut Vec<u8>, at: usize, bytes: &[u8]) -> Result<(), AllocError> {
    if bytes.is_empty() {
        return Ok(());
    }
    let address = shown_address(at);
    let (line, _) = first_line(address, bytes);
    text.extend_from_slice(b"  ")?;
    write_item(text, &line.content)?;
    write_word(text, b"; ", address, b" ")?;
    for byte in bytes {
        write_byte(text, b" ", u16::from(*byte), b"")?;
    }
    text.extend_from_slice(b"\n")
}

fn push_data(text: &mut Vec<u8>, at: usize, bytes: &[u8]) -> Result<(), AllocError> {
    for (i, row) in bytes.chunks(ROW).enumerate() {
        push_data_row(
            text,
            shown_address(at.saturating_add(i.saturating_mul(ROW))),
            row,
        )?;
    }
    Ok(())
}

fn push_data_row(text: &mut Vec<u8>, address: u16, row: &[u8]) -> Result<(), AllocError> {
    let mut before: &'static [u8] = b"  .byte $";
    for byte in row {
        write_byte(text, before, u16::from(*byte), b"")?;
        before = b",$";
    }
    write_word(text, b" ; ", address, b"  ")?;
    push_shown(text, row)?;
    text.extend_from_slice(b"\n")
}
