//! Small pieces of code, as items of the assembler.
ghost use Rattle.std.specs.Prelude.{◌≡◌, ◌+◌, ◌<◌, [], ◌∷◌, OnOk, vec_capacity, vec_len};
ghost use Rattle.tb_asm.specs.Layout.{entry_of};
ghost use Rattle.tb_compiler_templates.specs.Putting.{Puts};
ghost use Rattle.tb_compiler_templates.specs.Masks as masks;
ghost use Rattle.tb_compiler_templates.specs.Templates as templates;
ghost use Rattle.tb_runtime16.specs.Addresses as places;

use crate::labels::{Target, label};
use std::alloc::AllocError;
use tb_asm::{Item, Operand};
use tb_compiled_kept::{LEFT, RESULT};
use tb_opcodes::{Mnemonic, Mode};
use tb_runtime16::{Routine, entry};

/// One more item.
// A push that may fail hands the item back, and so copies it once more.
pub fn put(items: &mut Vec<Item>, item: Item) -> Result<(), AllocError>
    ensures { Puts result items.old items.new (entry_of item ∷ []) }
{
    make_room(items)?;
    items.push_reserved(item);
    Ok(())
}

// Makes room for one more item, which is mostly there.
#[inline(always)]
fn make_room(items: &mut Vec<Item>) -> Result<(), AllocError>
    ensures items { OnOk result (items.new.items ≡ items.old.items) }
    ensures room { OnOk result (vec_len items.new < vec_capacity items.new) }
{
    if items.len() < items.capacity() {
        return Ok(());
    }
    items.reserve(1)
}

/// An instruction on the byte at an address.
pub fn put_at(items: &mut Vec<Item>, mnemonic: Mnemonic, address: u16) -> Result<(), AllocError>
    ensures { Puts result items.old items.new (templates.at mnemonic address ∷ []) }
{
    put(
        items,
        Item::Instr(mnemonic, Mode::Absolute, Operand::Word(address)),
    )
}

/// An instruction on the byte at an address, in the mode of page zero if it is there.
pub fn put_on(items: &mut Vec<Item>, mnemonic: Mnemonic, address: u16) -> Result<(), AllocError>
    ensures { Puts result items.old items.new (templates.on mnemonic address ∷ []) }
{
    if address < 256 {
        let operand = Operand::Byte(address as u8);
        put(items, Item::Instr(mnemonic, Mode::ZeroPage, operand))
    } else {
        put_at(items, mnemonic, address)
    }
}

/// An instruction on the byte X after an address.
pub fn put_by_x(items: &mut Vec<Item>, mnemonic: Mnemonic, address: u16) -> Result<(), AllocError>
    ensures { Puts result items.old items.new (templates.by_x mnemonic address ∷ []) }
{
    put(
        items,
        Item::Instr(mnemonic, Mode::AbsoluteX, Operand::Word(address)),
    )
}

/// A load of the low byte of a label's address.
pub fn put_low_part(items: &mut Vec<Item>, of: Target) -> Result<(), AllocError>
    ensures { Puts result items.old items.new (templates.low_part of ∷ []) }
{
    put(
        items,
        Item::Instr(Mnemonic::Lda, Mode::Immediate, Operand::LowOf(label(of))),
    )
}

/// A load of the high byte of a label's address.
pub fn put_high_part(items: &mut Vec<Item>, of: Target) -> Result<(), AllocError>
    ensures { Puts result items.old items.new (templates.high_part of ∷ []) }
{
    put(
        items,
        Item::Instr(Mnemonic::Lda, Mode::Immediate, Operand::HighOf(label(of))),
    )
}

/// An instruction on a constant.
pub fn put_const(items: &mut Vec<Item>, mnemonic: Mnemonic, byte: u8) -> Result<(), AllocError>
    ensures { Puts result items.old items.new (templates.const mnemonic byte ∷ []) }
{
    put(
        items,
        Item::Instr(mnemonic, Mode::Immediate, Operand::Byte(byte)),
    )
}

/// An instruction without an operand.
pub fn put_alone(items: &mut Vec<Item>, mnemonic: Mnemonic) -> Result<(), AllocError>
    ensures { Puts result items.old items.new (templates.alone mnemonic ∷ []) }
{
    put(
        items,
        Item::Instr(mnemonic, Mode::Implied, Operand::Nothing),
    )
}

/// A branch to a label.
pub fn put_branch(items: &mut Vec<Item>, mnemonic: Mnemonic, to: Target) -> Result<(), AllocError>
    ensures { Puts result items.old items.new (templates.branch mnemonic to ∷ []) }
{
    put(
        items,
        Item::Instr(mnemonic, Mode::Relative, Operand::Label(label(to))),
    )
}

/// A label.
pub fn put_here(items: &mut Vec<Item>, target: Target) -> Result<(), AllocError>
    ensures { Puts result items.old items.new (templates.here target ∷ []) }
{
    put(items, Item::Label(label(target)))
}

/// A jump to a label.
pub fn put_jump(items: &mut Vec<Item>, to: Target) -> Result<(), AllocError>
    ensures { Puts result items.old items.new (templates.jump to ∷ []) }
{
    put(
        items,
        Item::Instr(Mnemonic::Jmp, Mode::Absolute, Operand::Label(label(to))),
    )
}

/// A call of a routine of the block.
pub fn put_call(items: &mut Vec<Item>, routine: Routine) -> Result<(), AllocError>
    ensures { Puts result items.old items.new (templates.call (places.entry_of routine) ∷ []) }
{
    put_at(items, Mnemonic::Jsr, entry(routine))
}

/// Copies a word to an address above page zero.
pub fn put_copied(items: &mut Vec<Item>, from: u16, to: u16) -> Result<(), AllocError>
    requires { (from < 65535) × (to < 65535) }
    ensures { Puts result items.old items.new (templates.copied from to) }
{
    put_on(items, Mnemonic::Lda, from)?;
    put_at(items, Mnemonic::Sta, to)?;
    put_on(items, Mnemonic::Lda, from + 1)?;
    put_at(items, Mnemonic::Sta, to + 1)
}

/// Stores a constant word.
pub fn put_constant(items: &mut Vec<Item>, word: u16, to: u16) -> Result<(), AllocError>
    requires { to < 65535 }
    ensures { Puts result items.old items.new (templates.constant word to) }
{
    put_const(items, Mnemonic::Lda, (word % 256) as u8)?;
    put_at(items, Mnemonic::Sta, to)?;
    put_const(items, Mnemonic::Lda, (word / 256) as u8)?;
    put_at(items, Mnemonic::Sta, to + 1)
}

/// Stores the address of a label in page zero.
pub fn put_address(items: &mut Vec<Item>, of: Target, to: u8) -> Result<(), AllocError>
    requires { to < 255 }
    ensures { Puts result items.old items.new (templates.address of to) }
{
    put_low_part(items, of)?;
    put(
        items,
        Item::Instr(Mnemonic::Sta, Mode::ZeroPage, Operand::Byte(to)),
    )?;
    put_high_part(items, of)?;
    put(
        items,
        Item::Instr(Mnemonic::Sta, Mode::ZeroPage, Operand::Byte(to + 1)),
    )
}

/// Puts the return to the next line on the return list.
pub fn put_return(items: &mut Vec<Item>, next: Target) -> Result<(), AllocError>
    ensures { Puts result items.old items.new (templates.return_address next) }
{
    put_address(items, next, LEFT as u8)?;
    put_call(items, Routine::Push)
}

/// Calls the search in the line table.
pub fn put_find(items: &mut Vec<Item>) -> Result<(), AllocError>
    ensures { Puts result items.old items.new (templates.find ∷ []) }
{
    put(
        items,
        Item::Instr(
            Mnemonic::Jsr,
            Mode::Absolute,
            Operand::Label(label(Target::Find)),
        ),
    )
}

/// Goes on at the address that stands at a place.
pub fn put_jump_by(items: &mut Vec<Item>, place: u16) -> Result<(), AllocError>
    ensures { Puts result items.old items.new (templates.jump_by place) }
{
    put(
        items,
        Item::Instr(Mnemonic::Jmp, Mode::Indirect, Operand::Word(place)),
    )
}

/// Goes on at the address in the result: a return or the search's answer.
pub fn put_jump_through(items: &mut Vec<Item>) -> Result<(), AllocError>
    ensures { Puts result items.old items.new templates.jump_through }
{
    put_jump_by(items, RESULT)
}

/// A fault of a line, by its number.
pub fn put_faulted(items: &mut Vec<Item>, line: u16, number: u8) -> Result<(), AllocError>
    ensures { Puts result items.old items.new (templates.faulted line number) }
{
    put_const(items, Mnemonic::Ldx, (line % 256) as u8)?;
    put_const(items, Mnemonic::Ldy, (line / 256) as u8)?;
    put_const(items, Mnemonic::Lda, number)?;
    put_at(items, Mnemonic::Jmp, entry(Routine::FaultLine))
}

/// A word in A and X to an address.
pub fn put_both_stored(items: &mut Vec<Item>, to: u16) -> Result<(), AllocError>
    requires { to < 65535 }
    ensures { Puts result items.old items.new (masks.both_stored to) }
{
    put_at(items, Mnemonic::Sta, to)?;
    put_at(items, Mnemonic::Stx, to + 1)
}
