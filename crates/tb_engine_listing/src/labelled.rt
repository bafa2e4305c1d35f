//! The listing with names, row by row.
ghost use Rattle.std.specs.Prelude.{◌≡◌, ◌≤◌, ◌∷◌, ◌++◌, [], IfOk, OnOk, drop, length, map, option_map, take};
ghost use Rattle.tb_words.specs.Texts.{AppendsBytes};
ghost use Rattle.tb_compiled.specs.Compiled.{pair_of as start_pair};
ghost use Rattle.tb_asm.specs.Mnemonics as mnemonics;
ghost use Rattle.tb_engine_listing.specs.Comments.{KeepsHeadings, comment_row, heading_on, headings, label_row};
ghost use Rattle.tb_engine_listing.specs.Pieces.{plan_of, row_of};
ghost use Rattle.tb_engine_listing.specs.PlaceNames as places;
ghost use Rattle.tb_engine_listing.specs.Rows as rows;
ghost use Rattle.tb_basic_source.specs.Lines.{pair_of};
ghost use Rattle.tb_basic_source.specs.ShownBytes.{shown};

use crate::marks::Marks;
use crate::names::{has_label, is_line, line_name, name_of, push_outside};
use crate::pieces::{Kind, Named, Piece, Program};
use std::alloc::{AllocError, Global};
use tb_asm::name;
use tb_basic_source::{Numbered, cut, push_shown, text_of};
use tb_disasm::{Content, first_line, write_byte, write_item, write_word};
use tb_opcodes::{Mnemonic, Mode};

/// All that a listing shows.
#[derive(Clone, Copy, Drop)]
pub struct View<'a> {
    pub program: Program<'a>,
    pub pieces: &'a [Piece<'a>],
    pub marks: &'a Marks,
    pub sources: &'a [Numbered<'a>],
}

/// The text of a listing: a row for each piece, below its label; above the first piece of a line are the source's text of
/// it and its label. Each row is ended by 10. Fails if memory runs out.
pub fn labelled(alloc: Global, view: &View<'_>) -> Result<Vec<u8>, AllocError>
    ensures rows { IfOk result (λ text. text.items ≡ rows.lines_text (plan_of view.now.program) view.now.marks.now.marks.items
        (map pair_of view.now.sources.now) (map start_pair view.now.program.starts.now) (map row_of view.now.pieces.now)) }
    ensures headed { IfOk result (λ text. headings text.items ≡ map (heading_on (map pair_of view.now.sources.now))
        (map start_pair view.now.program.starts.now)) }
{
    let mut text = Vec::new(alloc);
    let mut rest = view.pieces;
    for start in view.program.starts {
        push_pieces(alloc, &mut text, view, pieces_before(rest, start.at))?;
        push_comment(&mut text, text_of(view.sources, start.number))?;
        push_line_label(alloc, &mut text, start.number)?;
        rest = pieces_from(rest, start.at);
    }
    push_pieces(alloc, &mut text, view, rest)?;
    Ok(text)
}

// The pieces before an address.
fn pieces_before<'a, 'b>(pieces: &'a [Piece<'b>], at: u16) -> &'a [Piece<'b>]
    ensures { result.now ≡ take (rows.count_before at (map row_of pieces.now)) pieces.now }
{
    pieces.split_at(count_before(pieces, at)).0
}

// The pieces from an address on.
fn pieces_from<'a, 'b>(pieces: &'a [Piece<'b>], at: u16) -> &'a [Piece<'b>]
    ensures { result.now ≡ drop (rows.count_before at (map row_of pieces.now)) pieces.now }
{
    pieces.split_at(count_before(pieces, at)).1
}

// How many of the first pieces lie before an address.
fn count_before(pieces: &[Piece<'_>], at: u16) -> usize
    ensures count { result ≡ rows.count_before at (map row_of pieces.now) }
    ensures within { result ≤ length pieces.now }
{
    let mut count = 0;
    for piece in pieces {
        if at <= piece.at {
            return count;
        }
        count += 1;
    }
    count
}

// Appends the front of a row and what follows it.
fn push_row(text: &mut Vec<u8>, front: &[u8], row: &[u8]) -> Result<(), AllocError>
    ensures { AppendsBytes result text.old text.new (rows.row_text front.now row.now) }
{
    push_shown(text, front)?;
    push_shown(text, row)?;
    text.extend_from_slice(b"\n")
}

// Appends a line of the source as a comment.
fn push_comment(text: &mut Vec<u8>, line: &[u8]) -> Result<(), AllocError>
    ensures { AppendsBytes result text.old text.new (comment_row line.now) }
{
    push_row(text, b"; ", cut(line))
}

// Appends the label of a line.
fn push_line_label(alloc: Global, text: &mut Vec<u8>, number: u16) -> Result<(), AllocError>
    ensures { AppendsBytes result text.old text.new (label_row number) }
{
    push_row(text, &line_name(alloc, number)?, b":")
}

fn push_pieces(
    alloc: Global,
    text: &mut Vec<u8>,
    view: &View<'_>,
    pieces: &[Piece<'_>],
) -> Result<(), AllocError>
    ensures rows { AppendsBytes result text.old text.new (rows.pieces_text (plan_of view.now.program)
        view.now.marks.now.marks.items (map row_of pieces.now)) }
    ensures kept { OnOk result (KeepsHeadings text.old.items text.new.items) }
{
    for piece in pieces {
        push_label(alloc, text, view, piece.at)?;
        push_piece(alloc, text, view, piece)?;
    }
    Ok(())
}

// Appends the label of an address, if it has one. That of a line is below its comment.
fn push_label(alloc: Global, text: &mut Vec<u8>, view: &View<'_>, at: u16) -> Result<(), AllocError>
    ensures label { AppendsBytes result text.old text.new (rows.label_text (plan_of view.now.program) view.now.marks.now.marks.items at) }
    ensures kept { OnOk result (KeepsHeadings text.old.items text.new.items) }
{
    if is_line(&view.program, at) || !has_label(&view.program, view.marks, at) {
        return Ok(());
    }
    push_row(text, &name_of(alloc, &view.program, view.marks, at)?, b":")
}

// Appends the row of a piece.
fn push_piece(
    alloc: Global,
    text: &mut Vec<u8>,
    view: &View<'_>,
    piece: &Piece<'_>,
) -> Result<(), AllocError>
    ensures row { AppendsBytes result text.old text.new (rows.row_text (32 ∷ 32 ∷ [])
        (rows.row_content (plan_of view.now.program) view.now.marks.now.marks.items (row_of piece.now))) }
    ensures kept { OnOk result (KeepsHeadings text.old.items text.new.items) }
{
    push_row(text, b"  ", &row_content(alloc, view, piece)?)
}

// The content of a piece's row.
fn row_content(alloc: Global, view: &View<'_>, piece: &Piece<'_>) -> Result<Vec<u8>, AllocError>
    ensures { IfOk result (λ row. row.items ≡ rows.row_content (plan_of view.now.program) view.now.marks.now.marks.items
        (row_of piece.now)) }
{
    let mut row = Vec::new(alloc);
    push_item(alloc, &mut row, view, piece)?;
    write_word(&mut row, b"; ", piece.at, b" ")?;
    push_bytes(&mut row, piece.kind, piece.bytes)?;
    push_sent(&mut row, view, piece)?;
    push_outside_named(alloc, &mut row, piece.named)?;
    Ok(row)
}

// Appends the text of one byte that a piece of code sends.
fn push_sent(row: &mut Vec<u8>, view: &View<'_>, piece: &Piece<'_>) -> Result<(), AllocError>
    ensures { AppendsBytes result row.old row.new (rows.sent_by piece.now.kind (plan_of view.now.program) (row_of piece.now)) }
{
    match piece.kind {
        Kind::Code if view.program.sends_byte(piece.at) => push_byte_text(row, piece.bytes),
        Kind::Code | Kind::Data | Kind::Number | Kind::Address => Ok(()),
    }
}

// Appends the byte that two bytes of code load, as a text.
fn push_byte_text(row: &mut Vec<u8>, bytes: &[u8]) -> Result<(), AllocError>
    ensures { AppendsBytes result row.old row.new (rows.byte_text bytes.now) }
{
    match bytes {
        [_, byte] => {
            row.extend_from_slice(b" \"")?;
            row.push(*byte)?;
            row.extend_from_slice(b"\"")
        }
        _ => Ok(()),
    }
}

// Appends the name of an address outside the image that a piece names whole.
fn push_outside_named(alloc: Global, row: &mut Vec<u8>, named: Named) -> Result<(), AllocError>
    ensures { AppendsBytes result row.old row.new (rows.outside_of named) }
{
    match named {
        Named::Whole(address) => push_outside(alloc, row, address),
        Named::Nothing | Named::Low(_) | Named::High(_) => Ok(()),
    }
}

// Appends the item of a piece, by what it is.
fn push_item(
    alloc: Global,
    row: &mut Vec<u8>,
    view: &View<'_>,
    piece: &Piece<'_>,
) -> Result<(), AllocError>
    ensures { AppendsBytes result row.old row.new (rows.item_by piece.now.kind (plan_of view.now.program)
        view.now.marks.now.marks.items (row_of piece.now)) }
{
    match piece.kind {
        Kind::Code => push_code(alloc, row, view, piece),
        Kind::Data => push_data(row, piece.bytes),
        Kind::Number => push_word(row, piece.bytes),
        Kind::Address => push_address(alloc, row, view, piece),
    }
}

// What is written before a name and after it.
#[derive(Clone, Copy, Drop)]
struct Around {
    before: &'static [u8],
    behind: &'static [u8],
}

// How an instruction of a mode writes an address by its name, whole or by a byte; none if it names no address.
fn signs_around(mode: Mode, named: Named) -> Option<Around>
    ensures { option_map rows.pair_of result ≡ rows.signs_around mode named }
{
    let (before, behind): (&'static [u8], &'static [u8]) = match (mode, named) {
        (Mode::Immediate, Named::Low(_)) => (b" #<", b" "),
        (Mode::Immediate, Named::High(_)) => (b" #>", b" "),
        (Mode::Relative | Mode::Absolute, Named::Whole(_)) => (b" ", b" "),
        (Mode::AbsoluteX, Named::Whole(_)) => (b" ", b",X "),
        (Mode::AbsoluteY, Named::Whole(_)) => (b" ", b",Y "),
        (Mode::Indirect, Named::Whole(_)) => (b" (", b") "),
        _ => return None,
    };
    Some(Around { before, behind })
}

// The name of the address of the image that a piece names, if a piece begins there.
fn named_address(
    alloc: Global,
    view: &View<'_>,
    piece: &Piece<'_>,
) -> Result<Option<Vec<u8>>, AllocError>
    ensures { IfOk result (λ name. option_map (λ v. v.items) name ≡ rows.named_place (plan_of view.now.program)
        view.now.marks.now.marks.items (row_of piece.now)) }
{
    match piece.named.address() {
        Some(at) if view.marks.at(at).begins.is_some() => {
            Ok(Some(name_of(alloc, &view.program, view.marks, at)?))
        }
        _ => Ok(None),
    }
}

fn push_code(
    alloc: Global,
    row: &mut Vec<u8>,
    view: &View<'_>,
    piece: &Piece<'_>,
) -> Result<(), AllocError>
    ensures { AppendsBytes result row.old row.new (rows.code_item (plan_of view.now.program)
        view.now.marks.now.marks.items (row_of piece.now)) }
{
    if piece.bytes.is_empty() {
        return Ok(());
    }
    let (line, _) = first_line(piece.at, piece.bytes);
    if let Content::Instr(mnemonic, mode, _) = &line.content {
        if let (Some(place), Some(around)) = (
            named_address(alloc, view, piece)?,
            signs_around(*mode, piece.named),
        ) {
            return push_by_name(row, *mnemonic, around, &place);
        }
    }
    write_item(row, &line.content)
}

// Appends an instruction with a name as its operand.
fn push_by_name(
    row: &mut Vec<u8>,
    mnemonic: Mnemonic,
    around: Around,
    place: &[u8],
) -> Result<(), AllocError>
    ensures { AppendsBytes result row.old row.new (mnemonics.name_of mnemonic ++ around.before.now ++ place.now ++ around.behind.now) }
{
    row.extend_from_slice(name(mnemonic).as_slice())?;
    row.extend_from_slice(around.before)?;
    row.extend_from_slice(place)?;
    row.extend_from_slice(around.behind)
}

fn push_address(
    alloc: Global,
    row: &mut Vec<u8>,
    view: &View<'_>,
    piece: &Piece<'_>,
) -> Result<(), AllocError>
    ensures { AppendsBytes result row.old row.new (rows.address_item (rows.named_place (plan_of view.now.program)
        view.now.marks.now.marks.items (row_of piece.now)) piece.now.bytes.now) }
{
    match named_address(alloc, view, piece)? {
        Some(place) => {
            row.extend_from_slice(b".word ")?;
            row.extend_from_slice(&place)?;
            row.extend_from_slice(b" ")
        }
        None => push_word(row, piece.bytes),
    }
}

fn push_word(row: &mut Vec<u8>, bytes: &[u8]) -> Result<(), AllocError>
    ensures { AppendsBytes result row.old row.new (rows.word_item bytes.now) }
{
    match bytes {
        [low, high] => write_word(row, b".word $", u16::from_le_bytes([*low, *high]), b" "),
        _ => push_data(row, bytes),
    }
}

fn push_data(row: &mut Vec<u8>, bytes: &[u8]) -> Result<(), AllocError>
    ensures { AppendsBytes result row.old row.new (rows.data_item bytes.now) }
{
    let mut before: &'static [u8] = b".byte $";
    for byte in bytes {
        write_byte(row, before, u16::from(*byte), b"")?;
        before = b",$";
    }
    row.extend_from_slice(b" ")
}

// Appends bytes as a comment has them: data as text, all else in digits.
fn push_bytes(row: &mut Vec<u8>, kind: Kind, bytes: &[u8]) -> Result<(), AllocError>
    ensures { AppendsBytes result row.old row.new (rows.bytes_shown kind bytes.now) }
{
    match kind {
        Kind::Data => {
            row.extend_from_slice(b" ")?;
            row.extend_from_slice(bytes)
        }
        Kind::Code | Kind::Number | Kind::Address => push_digits(row, bytes),
    }
}

fn push_digits(row: &mut Vec<u8>, bytes: &[u8]) -> Result<(), AllocError>
    ensures { AppendsBytes result row.old row.new (rows.spaced bytes.now) }
{
    for byte in bytes {
        write_byte(row, b" ", u16::from(*byte), b"")?;
    }
    Ok(())
}
