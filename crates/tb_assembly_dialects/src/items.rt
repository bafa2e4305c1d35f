//! Items of the assembler as another one spells them.
ghost use Rattle.std.specs.Prelude.{◌≡◌, ◌++◌, ◌∷◌, []};
ghost use Rattle.tb_words.specs.Texts.{AppendsBytes};
ghost use Rattle.tb_asm.specs.Layout.{entry_of};
ghost use Rattle.tb_assembly_dialects.specs.Items as items;

use crate::dialect::Dialect;
use crate::kernal::{is_jump, service_name};
use std::alloc::AllocError;
use tb_asm::{Item, Name, Operand, name};
use tb_disasm::{Content, write_byte, write_item, write_word};
use tb_opcodes::{Mnemonic, Mode};

/// Appends an item; all but a label two spaces further right. All appending fails only if memory runs out.
pub fn push_item(text: &mut Vec<u8>, dialect: Dialect, item: &Item) -> Result<(), AllocError>
    ensures { AppendsBytes result text.old text.new (items.item dialect (entry_of item.now)) }
{
    match item {
        Item::Label(label) => {
            text.extend_from_slice(label.letters.as_slice())?;
            text.extend_from_slice(b":")
        }
        Item::Instr(mnemonic, mode, operand) => {
            text.extend_from_slice(b"  ")?;
            push_instruction(text, dialect, *mnemonic, *mode, operand)
        }
        Item::Bytes(bytes) => {
            text.extend_from_slice(b"  ")?;
            push_bytes(text, dialect, bytes.as_slice())
        }
        Item::Word(operand) => {
            text.extend_from_slice(b"  ")?;
            text.extend_from_slice(dialect.word_directive())?;
            push_word(text, operand)
        }
    }
}

/// Appends bytes with commas between them, and a space.
pub fn push_bytes(text: &mut Vec<u8>, dialect: Dialect, bytes: &[u8]) -> Result<(), AllocError>
    ensures { AppendsBytes result text.old text.new (items.bytes_text dialect bytes.now) }
{
    let mut before = dialect.byte_directive();
    for byte in bytes {
        write_byte(text, before, u16::from(*byte), b"")?;
        before = b",$";
    }
    text.extend_from_slice(b" ")
}

// Appends the operand of a word.
fn push_word(text: &mut Vec<u8>, operand: &Operand) -> Result<(), AllocError>
    ensures { AppendsBytes result text.old text.new (items.word_text operand.now) }
{
    match operand {
        Operand::Label(label) => {
            text.extend_from_slice(label.letters.as_slice())?;
            text.extend_from_slice(b" ")
        }
        Operand::Word(word) => write_word(text, b"$", *word, b" "),
        Operand::Nothing | Operand::Byte(_) | Operand::LowOf(_) | Operand::HighOf(_) => Ok(()),
    }
}

// Appends an instruction.
fn push_instruction(
    text: &mut Vec<u8>,
    dialect: Dialect,
    mnemonic: Mnemonic,
    mode: Mode,
    operand: &Operand,
) -> Result<(), AllocError>
    ensures { AppendsBytes result text.old text.new (items.instruction dialect mnemonic mode operand.now) }
{
    match operand {
        Operand::Label(label) => push_named(text, mnemonic, before_name(mode), label, behind(mode)),
        Operand::LowOf(label) => push_named(text, mnemonic, b" #<", label, b" "),
        Operand::HighOf(label) => push_named(text, mnemonic, b" #>", label, b" "),
        Operand::Nothing => push_alone(text, dialect, mnemonic, mode),
        Operand::Byte(byte) => write_item(
            text,
            &Content::Instr(mnemonic, mode, Operand::Byte(*byte)),
        ),
        Operand::Word(word) => push_address(text, dialect, mnemonic, mode, *word),
    }
}

// Appends an instruction with a name as its operand.
fn push_named(
    text: &mut Vec<u8>,
    mnemonic: Mnemonic,
    before: &[u8],
    label: &Name,
    behind: &[u8],
) -> Result<(), AllocError>
    ensures { AppendsBytes result text.old text.new (items.with_name mnemonic before.now label.now.letters.items behind.now) }
{
    text.extend_from_slice(name(mnemonic).as_slice())?;
    text.extend_from_slice(before)?;
    text.extend_from_slice(label.letters.as_slice())?;
    text.extend_from_slice(behind)
}

// What stands between a mnemonic and an address by its name.
fn before_name(mode: Mode) -> &'static [u8]
    ensures { result.now ≡ items.before_name mode }
{
    match mode {
        Mode::Indirect => b" (",
        _ => b" ",
    }
}

// What stands after an address.
fn behind(mode: Mode) -> &'static [u8]
    ensures { result.now ≡ items.behind mode }
{
    match mode {
        Mode::AbsoluteX => b",X ",
        Mode::AbsoluteY => b",Y ",
        Mode::Indirect => b") ",
        _ => b" ",
    }
}

// Appends an instruction without an operand.
fn push_alone(
    text: &mut Vec<u8>,
    dialect: Dialect,
    mnemonic: Mnemonic,
    mode: Mode,
) -> Result<(), AllocError>
    ensures { AppendsBytes result text.old text.new (items.alone dialect mnemonic mode) }
{
    text.extend_from_slice(name(mnemonic).as_slice())?;
    match mode {
        Mode::Accumulator => text.extend_from_slice(dialect.accumulator()),
        _ => text.extend_from_slice(b" "),
    }
}

// Whether an address of two bytes has to be marked as such: other assemblers take the shorter form for one below 256.
fn is_forced(mnemonic: Mnemonic, mode: Mode, word: u16) -> bool
    ensures { result ≡ items.is_forced mnemonic mode word }
{
    match mode {
        Mode::Absolute | Mode::AbsoluteX | Mode::AbsoluteY => word < 256 && !is_jump(mnemonic),
        _ => false,
    }
}

// Appends an instruction with an address: by the name of a service, if it jumps to one.
fn push_address(
    text: &mut Vec<u8>,
    dialect: Dialect,
    mnemonic: Mnemonic,
    mode: Mode,
    word: u16,
) -> Result<(), AllocError>
    ensures { AppendsBytes result text.old text.new (items.with_address dialect mnemonic mode word) }
{
    if is_forced(mnemonic, mode, word) {
        text.extend_from_slice(name(mnemonic).as_slice())?;
        return write_word(text, dialect.forced(), word, behind(mode));
    }
    let service = service_jumped_to(mnemonic, mode, word);
    if service.is_empty() {
        return write_item(text, &Content::Instr(mnemonic, mode, Operand::Word(word)));
    }
    text.extend_from_slice(name(mnemonic).as_slice())?;
    text.extend_from_slice(b" ")?;
    text.extend_from_slice(service)?;
    text.extend_from_slice(b" ")
}

// The name of the service that an instruction jumps to; empty if it jumps to none.
fn service_jumped_to(mnemonic: Mnemonic, mode: Mode, word: u16) -> &'static [u8]
    ensures { result.now ≡ items.service_jumped_to mnemonic mode word }
{
    match mode {
        Mode::Absolute if is_jump(mnemonic) => service_name(word),
        _ => b"",
    }
}
