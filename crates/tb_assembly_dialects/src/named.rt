//! The listing of a program with labels, as `tbc asm` takes it.
ghost use Rattle.std.specs.Prelude.{◌≡◌, ◌≢◌, ◌+◌, ◌≤◌, ◌++◌, ◌∷◌, [], false, IfOk, MatchBool, length, map, option_map};
ghost use Rattle.tb_words.specs.Texts.{AppendsBytes};
ghost use Rattle.tb_asm.specs.Layout.{entry_of as item_of};
ghost use Rattle.tb_asm.specs.declared.errors.AsmErrorKind.TheVariants.{NoMemory};
ghost use Rattle.tb_disasm.specs.Back.{GivesBack};
ghost use Rattle.tb_disasm.specs.Lines.{entry_of, shown};
ghost use Rattle.tb_asm.specs.Layout.{distance, opcode_of};
ghost use Rattle.tb_opcodes.specs.declared.Mode.TheVariants.{Relative};
ghost use Rattle.tb_assembly_dialects.specs.Named as named;
ghost use Rattle.tb_assembly_dialects.specs.Places.{view_of};

use crate::places::{Places, target_of};
use std::alloc::{AllocError, Global};
use tb_asm::{AsmErrorKind, Item, Operand, TextError, assemble, name, read_text};
use tb_disasm::{Content, Line, Listing, disassemble, write_byte, write_item, write_word};
use tb_opcodes::{Mnemonic, Mode, encode};

// Whether a branch at an address leads past an end of the memory, which not every assembler takes.
fn leads_around(address: u16, mode: Mode, to: u16) -> bool
    ensures { result ≡ named.leads_around address mode to }
{
    let next = usize::from(address) + 2;
    let to = usize::from(to);
    mode == Mode::Relative && (to + 128 < next || next + 128 <= to)
}

// Appends the name of an address between two pieces.
fn push_name(text: &mut Vec<u8>, address: u16, behind: &[u8]) -> Result<(), AllocError>
    ensures { AppendsBytes result text.old text.new (named.label_name address ++ behind.now) }
{
    write_word(text, b"at", address, behind)
}

// The opcode of a branch; 0 if the mnemonic is none of a branch.
fn branch_opcode(mnemonic: Mnemonic) -> u16
    ensures { result ≡ opcode_of mnemonic Relative }
{
    match encode(mnemonic, Mode::Relative) {
        Some(opcode) => u16::from(opcode),
        None => 0,
    }
}

// From the address after a branch to its target, as a word.
fn distance(address: u16, to: u16) -> u16
    ensures { result ≡ distance address to }
{
    to.wrapping_sub(address.wrapping_add(2))
}

// Appends the bytes of a branch.
fn push_branch_bytes(
    text: &mut Vec<u8>,
    mnemonic: Mnemonic,
    address: u16,
    to: u16,
) -> Result<(), AllocError>
    ensures { AppendsBytes result text.old text.new (named.branch_bytes mnemonic address to) }
{
    write_byte(text, b".byte $", branch_opcode(mnemonic), b"")?;
    write_byte(text, b",$", distance(address, to), b" ")
}

// Appends an instruction: a jump by the name of its target, if that has one; a branch past an end of the memory as bytes.
fn push_item(text: &mut Vec<u8>, places: &Places, line: &Line) -> Result<(), AllocError>
    ensures { AppendsBytes result text.old text.new (named.item_named (view_of places.now) line.now.address (entry_of line.now.content)) }
{
    let Content::Instr(mnemonic, mode, operand) = &line.content else {
        return write_item(text, &line.content);
    };
    if let Operand::Word(to) = operand {
        if leads_around(line.address, *mode, *to) {
            return push_branch_bytes(text, *mnemonic, line.address, *to);
        }
    }
    match target_of(line) {
        Some(to) if places.has_label(to) => {
            text.extend_from_slice(name(*mnemonic).as_slice())?;
            text.extend_from_slice(b" ")?;
            push_name(text, to, b" ")
        }
        _ => write_item(text, &line.content),
    }
}

// Appends a line below its label, if it has one.
fn push_line(text: &mut Vec<u8>, places: &Places, line: &Line) -> Result<(), AllocError>
    ensures { AppendsBytes result text.old text.new (named.line_named (view_of places.now) (shown line.now)) }
{
    if places.has_label(line.address) {
        push_name(text, line.address, b":\n")?;
    }
    text.extend_from_slice(b"  ")?;
    push_item(text, places, line)?;
    write_word(text, b"; ", line.address, b"\n")
}

// The text with labels.
fn with_labels(alloc: Global, end: usize, listing: &Listing) -> Result<Vec<u8>, AllocError>
    ensures { IfOk result (λ text. text.items ≡ named.text_named end (map shown listing.now.lines.items)) }
{
    let lines = listing.lines.as_slice();
    let places = Places::of_lines(alloc, end, lines)?;
    let mut text = Vec::new(alloc);
    for line in lines {
        push_line(&mut text, &places, line)?;
    }
    Ok(text)
}

/// The listing of bytes with a label at each line that another one jumps to. Its text assembles to the bytes. Fails if
/// memory runs out.
pub fn list_named(alloc: Global, at: u16, bytes: &[u8]) -> Result<Vec<u8>, AllocError>
    requires { at + length bytes.now ≤ 65536 }
    ensures back { IfOk result (λ text. GivesBack at text.items bytes.now) }
    ensures either { IfOk result (λ text. named.IsNamed at bytes.now text.items) }
{
    let Ok(listing) = disassemble(alloc, at, bytes) else {
        return Err(AllocError);
    };
    let text = with_labels(alloc, usize::from(at) + bytes.len(), &listing)?;
    if gives_back(alloc, at, text.as_slice(), bytes)? {
        Ok(text)
    } else {
        listing.text(alloc)
    }
}

// Whether a text reads as items that assemble to these bytes.
fn gives_back(alloc: Global, at: u16, text: &[u8], bytes: &[u8]) -> Result<bool, AllocError>
    ensures { IfOk result (λ does. MatchBool does (GivesBack at text.now bytes.now) (¬ (GivesBack at text.now bytes.now))) }
{
    match read_text(alloc, text) {
        Ok(items) => assembles_to(alloc, at, items.as_slice(), bytes),
        Err(TextError::NoMemory) => Err(AllocError),
        Err(TextError::Line(_)) => Ok(false),
    }
}

fn assembles_to(alloc: Global, at: u16, items: &[Item], bytes: &[u8]) -> Result<bool, AllocError>
    ensures { IfOk result (λ does. MatchBool does (named.AssembleTo at bytes.now (map item_of items.now))
        (¬ (named.AssembleTo at bytes.now (map item_of items.now)))) }
{
    match assemble(alloc, at, items) {
        Ok(made) => Ok(made.bytes.as_slice() == bytes),
        Err(error) => no_image(error.kind),
    }
}

// What is not assembled gives no image.
fn no_image(kind: AsmErrorKind) -> Result<bool, AllocError>
    ensures { IfOk result (λ same. (same ≡ false) × (kind ≢ NoMemory)) }
{
    match kind {
        AsmErrorKind::NoMemory => Err(AllocError),
        _ => Ok(false),
    }
}
