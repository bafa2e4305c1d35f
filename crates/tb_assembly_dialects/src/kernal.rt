//! The names of the KERNAL's services.
ghost use Rattle.std.specs.Prelude.{◌≡◌, ◌∷◌, [], IfOk, map};
ghost use Rattle.tb_words.specs.Texts.{AppendsBytes};
ghost use Rattle.tb_asm.specs.Layout.{entry_of};
ghost use Rattle.tb_assembly_dialects.specs.Kernal as services;

use std::alloc::AllocError;
use tb_asm::{Item, Operand};
use tb_disasm::write_word;
use tb_opcodes::{Mnemonic, Mode};

/// The first service of the jump table.
const FIRST: u16 = 0xff81;

/// How many services it has.
const COUNT: u16 = 39;

/// How many bytes each takes there.
const SIZE: u16 = 3;

/// The name of the service at an address; empty if none is there.
pub fn service_name(at: u16) -> &'static [u8]
    ensures { result.now ≡ services.service_name at }
{
    match at {
        0xff81 => b"SCINIT",
        0xff84 => b"IOINIT",
        0xff87 => b"RAMTAS",
        0xff8a => b"RESTOR",
        0xff8d => b"VECTOR",
        0xff90 => b"SETMSG",
        0xff93 => b"SECOND",
        0xff96 => b"TKSA",
        0xff99 => b"MEMTOP",
        0xff9c => b"MEMBOT",
        0xff9f => b"SCNKEY",
        0xffa2 => b"SETTMO",
        0xffa5 => b"ACPTR",
        0xffa8 => b"CIOUT",
        0xffab => b"UNTLK",
        0xffae => b"UNLSN",
        0xffb1 => b"LISTEN",
        0xffb4 => b"TALK",
        0xffb7 => b"READST",
        0xffba => b"SETLFS",
        0xffbd => b"SETNAM",
        0xffc0 => b"OPEN",
        0xffc3 => b"CLOSE",
        0xffc6 => b"CHKIN",
        0xffc9 => b"CHKOUT",
        0xffcc => b"CLRCHN",
        0xffcf => b"CHRIN",
        0xffd2 => b"CHROUT",
        0xffd5 => b"LOAD",
        0xffd8 => b"SAVE",
        0xffdb => b"SETTIM",
        0xffde => b"RDTIM",
        0xffe1 => b"STOP",
        0xffe4 => b"GETIN",
        0xffe7 => b"CLALL",
        0xffea => b"UDTIM",
        0xffed => b"SCREEN",
        0xfff0 => b"PLOT",
        0xfff3 => b"IOBASE",
        _ => b"",
    }
}

/// Whether a mnemonic is that of a jump: JMP or JSR.
pub fn is_jump(mnemonic: Mnemonic) -> bool
    ensures { result ≡ services.is_jump mnemonic }
{
    matches!(mnemonic, Mnemonic::Jmp | Mnemonic::Jsr)
}

// Whether an item jumps to an address by its number.
fn jumps_to(at: u16, item: &Item) -> bool
    ensures { result ≡ services.jumps_to at (entry_of item.now) }
{
    match item {
        Item::Instr(mnemonic, Mode::Absolute, Operand::Word(to)) => {
            is_jump(*mnemonic) && *to == at
        }
        _ => false,
    }
}

// Whether one of these items jumps to an address by its number.
fn any_jumps_to(at: u16, items: &[Item]) -> bool
    ensures { result ≡ services.any_jumps_to at (map entry_of items.now) }
{
    for item in items {
        if jumps_to(at, item) {
            return true;
        }
    }
    false
}

/// Appends a line for each service that items jump to: its name and its address.
pub fn push_services(text: &mut Vec<u8>, items: &[Item]) -> Result<(), AllocError>
    ensures { AppendsBytes result text.old text.new (services.services_text (map entry_of items.now)) }
{
    'services: for index in 0..COUNT {
        push_service(text, FIRST + SIZE * index, items)?;
    }
    Ok(())
}

// Appends the line of a service, if items jump to it.
fn push_service(text: &mut Vec<u8>, at: u16, items: &[Item]) -> Result<(), AllocError>
    ensures { AppendsBytes result text.old text.new (services.service_text (map entry_of items.now) at) }
{
    if !any_jumps_to(at, items) {
        return Ok(());
    }
    text.extend_from_slice(service_name(at))?;
    write_word(text, b" = $", at, b"\n")
}
