//! An image in pieces: the bytes of each row of a listing, and the addresses that they name.
ghost use Rattle.std.specs.Prelude.{◌≡◌, ◌≤◌, ◌<◌, [], length, map, IfOk};
ghost use Rattle.tb_asm.specs.Layout.{number_in};
ghost use Rattle.tb_engine_listing.specs.Pieces as plans;
ghost use Rattle.tb_engine_listing.specs.PlaceNames.{address_named};
ghost use Rattle.tb_engine_listing.specs.Pieces.{plan_of, row_of, rows_of};

use crate::bytes::{JSR, behind, forth, is_at, is_call, last, pair_in, word_in};
use crate::sizes::{
    ASKED_SIZE, BLOCK_SIZE, COMPARED_SIZE, FAULT_SIZE, LOOK_UP_SIZE, ROW_SIZE, TOO_MANY_LINES, WORD,
};
use std::alloc::{AllocError, Global};
use tb_asm::Operand;
use tb_compiled::LineStart;
use tb_compiled_kept::{LINES_AT, RETURN_LOW, WANTED};
use tb_disasm::{Content, first_line};
use tb_opcodes::Mode;
use tb_runtime16::{BLOCK_AT, Routine, SEND_AT, entry};

// The opcodes by which the code that loads addresses and texts is found.
const JMP: u8 = 0x4c;

const STA_PAGE_ZERO: u8 = 0x85;

const STA: u8 = 0x8d;

const STA_BY_X: u8 = 0x9d;

const LDA_NUMBER: u8 = 0xa9;

const LDA: u8 = 0xad;

const LDX: u8 = 0xae;

/// A compiled program: the bytes after its BASIC line, where its lines begin, and where its line table does.
#[derive(Clone, Copy, Drop)]
pub struct Program<'a> {
    pub image: &'a [u8],
    pub starts: &'a [LineStart],
    pub table: u16,
}

impl Program<'_> {
    /// The address of the search in the line table, before the table.
    pub fn look_up(&self) -> u16
        ensures { result ≡ plans.look_up (plan_of self.now) }
    {
        self.table.wrapping_sub(LOOK_UP_SIZE)
    }

    // Where the comparisons with the lines' numbers begin, if there are any: before the search in the line table.
    fn comparisons(&self) -> u16
        requires { length self.now.starts.now < 64 }
        ensures { result ≡ plans.comparisons (plan_of self.now) }
    {
        let size = ASKED_SIZE + COMPARED_SIZE * self.starts.len() as u16;
        self.look_up().wrapping_sub(size)
    }

    // The bytes of the image from an address on.
    fn bytes_from(&self, at: u16) -> &[u8]
        ensures { result.now ≡ plans.bytes_from (plan_of self.now) at }
    {
        let offset = usize::from(at.wrapping_sub(BLOCK_AT));
        last(self.image, self.image.len().saturating_sub(offset))
    }

    /// The address of the search for a line: of its comparisons, if it begins with these.
    pub fn search(&self) -> u16
        ensures { result ≡ plans.search (plan_of self.now) }
    {
        if self.starts.len() < TOO_MANY_LINES
            && asks_for_wanted(self.bytes_from(self.comparisons()))
        {
            self.comparisons()
        } else {
            self.look_up()
        }
    }

    /// Whether the code at an address loads a byte, and sends it.
    pub fn sends_byte(&self, at: u16) -> bool
        ensures { result ≡ plans.sends_byte (plan_of self.now) at }
    {
        is_sending(self.bytes_from(at))
    }

    /// The address of fault 7, between the last line and the search.
    pub fn past(&self) -> u16
        ensures { result ≡ plans.past (plan_of self.now) }
    {
        self.search().wrapping_sub(FAULT_SIZE)
    }
}

// Whether a byte is loaded here, and Send is called then.
fn is_sending(rest: &[u8]) -> bool
    ensures { result ≡ plans.is_sending rest.now }
{
    is_at(rest, 0, LDA_NUMBER)
        && is_at(rest, 2, JSR)
        && 5 <= rest.len()
        && word_in(rest, 3) == SEND_AT
}

/// What a piece is.
#[derive(Clone, Copy, PartialEq, Eq, Drop)]
pub enum Kind {
    /// An instruction, or a byte that begins no instruction.
    Code,
    /// Bytes as they are.
    Data,
    /// A word that is not an address.
    Number,
    /// An address.
    Address,
}

/// An address that a piece names, whole or by one of its bytes.
#[derive(Clone, Copy, Drop)]
pub enum Named {
    Nothing,
    Whole(u16),
    Low(u16),
    High(u16),
}

impl Named {
    /// The address, if one is named.
    pub fn address(self) -> Option<u16>
        ensures { result ≡ address_named self }
    {
        match self {
            Named::Nothing => None,
            Named::Whole(address) | Named::Low(address) | Named::High(address) => Some(address),
        }
    }
}

/// The bytes of one row.
#[derive(Clone, Copy, Drop)]
pub struct Piece<'a> {
    pub at: u16,
    pub bytes: &'a [u8],
    pub kind: Kind,
    pub named: Named,
}

/// The pieces of a program's image, one after another. Fails if memory runs out.
pub fn pieces<'a>(alloc: Global, program: &Program<'a>) -> Result<Vec<Piece<'a>>, AllocError>
    ensures { IfOk result (λ pieces. map row_of pieces.items ≡ rows_of (plan_of program.now)) }
{
    let mut pieces = Vec::new(alloc);
    let mut rest = program.image;
    let mut at = BLOCK_AT;
    let mut text = Span { from: 0, to: 0 };
    while !rest.is_empty() {
        text = text_here(text, at, rest);
        let piece = first_piece(program, text, at, rest);
        pieces.push(piece)?;
        at = forth(at, piece.bytes.len());
        rest = behind(rest, piece.bytes.len());
    }
    Ok(pieces)
}

// Bytes from an address up to before another one.
#[derive(Clone, Copy, Drop)]
struct Span {
    from: u16,
    to: u16,
}

// The text of a PRINT, if its call of Text is here: the jump after the call leads past the text. Else the one before.
fn text_here(text: Span, at: u16, rest: &[u8]) -> Span
    ensures { result ≡ plans.text_here text at rest.now }
{
    if is_call(rest, 0, Routine::Text) && is_at(rest, 3, JMP) && 6 <= rest.len() {
        Span {
            from: forth(at, 6),
            to: word_in(rest, 4),
        }
    } else {
        text
    }
}

// The first piece.
fn first_piece<'a>(program: &Program<'a>, text: Span, at: u16, rest: &'a [u8]) -> Piece<'a>
    requires { 0 < length rest.now }
    ensures row { row_of result ≡ plans.first_row (plan_of program.now) text at rest.now }
    ensures some { 0 < length result.bytes.now }
    ensures within { length result.bytes.now ≤ length rest.now }
{
    let kind = first_kind(program, text, at);
    Piece {
        at,
        bytes: rest.split_at(first_size(kind, text, at, rest)).0,
        kind,
        named: what_is_named(program, kind, at, rest),
    }
}

// What comes first.
fn first_kind(program: &Program<'_>, text: Span, at: u16) -> Kind
    ensures { result ≡ plans.first_kind program.now.table text at }
{
    if data_size(text, at) > 0 {
        Kind::Data
    } else if at < program.table {
        Kind::Code
    } else if (at - program.table) % ROW_SIZE == 0 {
        Kind::Number
    } else {
        Kind::Address
    }
}

// How many bytes the first piece has: at least one, and no more than there are.
fn first_size(kind: Kind, text: Span, at: u16, rest: &[u8]) -> usize
    requires { 0 < length rest.now }
    ensures size { result ≡ plans.first_size kind text at rest.now }
    ensures some { 0 < result }
    ensures within { result ≤ length rest.now }
{
    let size = match kind {
        Kind::Data => usize::from(data_size(text, at)),
        Kind::Code => first_line(at, rest).1,
        Kind::Number | Kind::Address => WORD,
    };
    size.max(1).min(rest.len())
}

// How many bytes of data begin here; 0 for code and for the line table.
fn data_size(text: Span, at: u16) -> u16
    ensures { result ≡ plans.data_size text at }
{
    let block_end = BLOCK_AT + BLOCK_SIZE;
    if at == text.from {
        text.to.saturating_sub(text.from)
    } else if at == block_end {
        LINES_AT.saturating_sub(block_end)
    } else {
        0
    }
}

// What the first piece names.
fn what_is_named(program: &Program<'_>, kind: Kind, at: u16, rest: &[u8]) -> Named
    requires { 0 < length rest.now }
    ensures { result ≡ plans.named_first (plan_of program.now) kind at rest.now }
{
    match kind {
        Kind::Code => named_by_code(program, at, rest),
        Kind::Address if 2 <= rest.len() => Named::Whole(word_in(rest, 0)),
        _ => Named::Nothing,
    }
}

// What the first instruction names.
fn named_by_code(program: &Program<'_>, at: u16, rest: &[u8]) -> Named
    requires { 0 < length rest.now }
    ensures { result ≡ plans.named_by_code (plan_of program.now) at rest.now }
{
    let (line, _) = first_line(at, rest);
    match line.content {
        Content::Instr(_, mode, operand) => {
            named_by_operand(program, at, rest, mode, number(&operand))
        }
        Content::Byte(_) => Named::Nothing,
    }
}

// The number that an operand shows.
fn number(operand: &Operand) -> u16
    ensures { result ≡ number_in [] operand.now }
{
    match operand {
        Operand::Byte(byte) => u16::from(*byte),
        Operand::Word(word) => *word,
        _ => 0,
    }
}

// What an instruction names, by its mode and the number of its operand.
fn named_by_operand(program: &Program<'_>, at: u16, rest: &[u8], mode: Mode, number: u16) -> Named
    ensures { result ≡ plans.named_by_operand (plan_of program.now) at rest.now mode number }
{
    match mode {
        Mode::Immediate => loaded(program, at, rest),
        Mode::Implied | Mode::Accumulator => Named::Nothing,
        _ => Named::Whole(number),
    }
}

// The address of which the first instruction loads a byte, if it is known to load one.
fn loaded(program: &Program<'_>, at: u16, rest: &[u8]) -> Named
    ensures { result ≡ plans.loaded (plan_of program.now) at rest.now }
{
    if is_load(program, at, rest) {
        return Named::Low(pair_in(rest, 1, 5));
    }
    if is_load_by_x(rest) {
        return Named::Low(pair_in(rest, 1, 6));
    }
    let before = last(program.image, rest.len().saturating_add(4));
    if is_load(program, at.wrapping_sub(4), before) {
        return Named::High(pair_in(before, 1, 5));
    }
    let before = last(program.image, rest.len().saturating_add(5));
    if is_load_by_x(before) {
        return Named::High(pair_in(before, 1, 6));
    }
    Named::Nothing
}

// Whether an address is loaded here byte by byte into page zero: of the line table for the search, of the line to return
// to for Push, or of a text.
fn is_load(program: &Program<'_>, at: u16, rest: &[u8]) -> bool
    ensures { result ≡ plans.is_load (plan_of program.now) at rest.now }
{
    is_at(rest, 0, LDA_NUMBER)
        && is_at(rest, 2, STA_PAGE_ZERO)
        && is_at(rest, 4, LDA_NUMBER)
        && 6 <= rest.len()
        && (at == program.look_up() || hands_to_push(rest) || hands_to_text(rest))
}

// Whether the number of the line that is sought is loaded here.
fn asks_for_wanted(rest: &[u8]) -> bool
    ensures { result ≡ plans.asks_for_wanted rest.now }
{
    is_at(rest, 0, LDA)
        && word_in(rest, 1) == WANTED
        && is_at(rest, 3, LDX)
        && word_in(rest, 4) == WANTED + 1
}

// Whether, after both loads, STA to page zero and JSR Push follow.
fn hands_to_push(rest: &[u8]) -> bool
    ensures { result ≡ plans.hands_to_push rest.now }
{
    is_at(rest, 6, STA_PAGE_ZERO) && is_call(rest, 8, Routine::Push)
}

// Whether, after both loads, STA to page zero, LDA of the length, STA and JSR Text follow.
fn hands_to_text(rest: &[u8]) -> bool
    ensures { result ≡ plans.hands_to_text rest.now }
{
    is_at(rest, 6, STA_PAGE_ZERO)
        && is_at(rest, 8, LDA_NUMBER)
        && is_at(rest, 10, STA)
        && is_call(rest, 13, Routine::Text)
}

// Whether the address of the line to return to is loaded here byte by byte, each stored in the list of returns.
fn is_load_by_x(rest: &[u8]) -> bool
    ensures { result ≡ plans.is_load_by_x rest.now }
{
    is_at(rest, 0, LDA_NUMBER)
        && is_at(rest, 2, STA_BY_X)
        && word_in(rest, 3) == RETURN_LOW
        && is_at(rest, 5, LDA_NUMBER)
        && is_at(rest, 7, STA_BY_X)
        && 10 <= rest.len()
}
