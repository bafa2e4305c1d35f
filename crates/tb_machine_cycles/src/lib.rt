//! The cycles of instructions of the NMOS 6502, as the MCS6500 Programming Manual gives them.
//!
//! The definition is `specs/Cycles.antt`. There is a base by kind and mode, and one more for a page that a reading
//! instruction's index crosses. A branch that is taken costs one more, or two if it leads into another page. `base` is
//! the base by opcode. `cycles` is the value for the instruction at PC. The code has tables of its own, in the order
//! of the opcodes, and the proof compares them with it. No call takes memory. That sim65 counts the same cycles is
//! tried (`tools/try/cycles.sh`).
#![tactic(auto)]

ghost use Rattle.std.specs.Prelude.{◌≡◌, ◌+◌, ◌≤◌, ◌%◌, ◌<◌, true};
ghost use Rattle.tb_opcodes.specs.Opcodes.{decoded};
ghost use Rattle.tb_memmap.specs.Bytes.{at};
ghost use Rattle.tb_cpu.specs.declared.registers.Regs.{Regs};
ghost use Rattle.tb_cpu.specs.Operands.{Reader, reading};
ghost use Rattle.tb_cpu.specs.Instructions.{branch_target};
ghost use Rattle.tb_machine_cycles.specs.Cycles.{base_by, reads_indexed, crosses_page, index_extra, is_taken, taken_extra};
ghost use Rattle.tb_machine_cycles.specs.Cycles.{branch_by, extra_of, extra_by, same_page, cycles_at};

use tb_cpu::{Flags, Regs, operand_address};
use tb_memmap::Memory;
use tb_opcodes::{Mnemonic, Mode, decode};

/// The base cycles of each opcode: 16 rows of 16, by the high hexadecimal digit. 0 for a byte that is no opcode.
static BASE: [u8; 256] = [
    7, 6, 0, 0, 0, 3, 5, 0, 3, 2, 2, 0, 0, 4, 6, 0, //
    2, 5, 0, 0, 0, 4, 6, 0, 2, 4, 0, 0, 0, 4, 7, 0, //
    6, 6, 0, 0, 3, 3, 5, 0, 4, 2, 2, 0, 4, 4, 6, 0, //
    2, 5, 0, 0, 0, 4, 6, 0, 2, 4, 0, 0, 0, 4, 7, 0, //
    6, 6, 0, 0, 0, 3, 5, 0, 3, 2, 2, 0, 3, 4, 6, 0, //
    2, 5, 0, 0, 0, 4, 6, 0, 2, 4, 0, 0, 0, 4, 7, 0, //
    6, 6, 0, 0, 0, 3, 5, 0, 4, 2, 2, 0, 5, 4, 6, 0, //
    2, 5, 0, 0, 0, 4, 6, 0, 2, 4, 0, 0, 0, 4, 7, 0, //
    0, 6, 0, 0, 3, 3, 3, 0, 2, 0, 2, 0, 4, 4, 4, 0, //
    2, 6, 0, 0, 4, 4, 4, 0, 2, 5, 2, 0, 0, 5, 0, 0, //
    2, 6, 2, 0, 3, 3, 3, 0, 2, 2, 2, 0, 4, 4, 4, 0, //
    2, 5, 0, 0, 4, 4, 4, 0, 2, 4, 2, 0, 4, 4, 4, 0, //
    2, 6, 0, 0, 3, 3, 5, 0, 2, 2, 2, 0, 4, 4, 6, 0, //
    2, 5, 0, 0, 0, 4, 6, 0, 2, 4, 0, 0, 0, 4, 7, 0, //
    2, 6, 0, 0, 3, 3, 5, 0, 2, 2, 2, 0, 4, 4, 6, 0, //
    2, 5, 0, 0, 0, 4, 6, 0, 2, 4, 0, 0, 0, 4, 7, 0, //
];

/// The most cycles that come on top of an opcode's base, in the same order: 1 where an index may lead out of a page, 2 where
/// a branch may be taken, else 0.
static MOST_EXTRA: [u8; 256] = [
    0, 0, 0, 0, 0, 0, 0, 0, 0, 0, 0, 0, 0, 0, 0, 0, //
    2, 1, 0, 0, 0, 0, 0, 0, 0, 1, 0, 0, 0, 1, 0, 0, //
    0, 0, 0, 0, 0, 0, 0, 0, 0, 0, 0, 0, 0, 0, 0, 0, //
    2, 1, 0, 0, 0, 0, 0, 0, 0, 1, 0, 0, 0, 1, 0, 0, //
    0, 0, 0, 0, 0, 0, 0, 0, 0, 0, 0, 0, 0, 0, 0, 0, //
    2, 1, 0, 0, 0, 0, 0, 0, 0, 1, 0, 0, 0, 1, 0, 0, //
    0, 0, 0, 0, 0, 0, 0, 0, 0, 0, 0, 0, 0, 0, 0, 0, //
    2, 1, 0, 0, 0, 0, 0, 0, 0, 1, 0, 0, 0, 1, 0, 0, //
    0, 0, 0, 0, 0, 0, 0, 0, 0, 0, 0, 0, 0, 0, 0, 0, //
    2, 0, 0, 0, 0, 0, 0, 0, 0, 0, 0, 0, 0, 0, 0, 0, //
    0, 0, 0, 0, 0, 0, 0, 0, 0, 0, 0, 0, 0, 0, 0, 0, //
    2, 1, 0, 0, 0, 0, 0, 0, 0, 1, 0, 0, 1, 1, 1, 0, //
    0, 0, 0, 0, 0, 0, 0, 0, 0, 0, 0, 0, 0, 0, 0, 0, //
    2, 1, 0, 0, 0, 0, 0, 0, 0, 1, 0, 0, 0, 1, 0, 0, //
    0, 0, 0, 0, 0, 0, 0, 0, 0, 0, 0, 0, 0, 0, 0, 0, //
    2, 1, 0, 0, 0, 0, 0, 0, 0, 1, 0, 0, 0, 1, 0, 0, //
];

/// The cycles of an opcode if no page is crossed and no branch taken, from 2 to 7; 0 if the byte is no opcode.
pub fn base(opcode: u8) -> u8
    ensures value { result ≡ base_by (decoded opcode) }
    ensures few { result ≤ 7 }
{
    BASE[opcode as usize]
}

// Whether two addresses lie in one page.
fn is_same_page(a: u16, b: u16) -> bool
    ensures { result ≡ same_page a b }
{
    a / 256 == b / 256
}

// Whether an instruction reads its operand and has an indexed mode.
fn reads_indexed(mnemonic: Mnemonic) -> bool
    ensures { result ≡ reads_indexed mnemonic }
{
    matches!(
        mnemonic,
        Mnemonic::Adc
            | Mnemonic::And
            | Mnemonic::Cmp
            | Mnemonic::Eor
            | Mnemonic::Lda
            | Mnemonic::Ldx
            | Mnemonic::Ldy
            | Mnemonic::Ora
            | Mnemonic::Sbc
    )
}

// Whether the index of the instruction at PC leads out of the page.
fn crosses_page(regs: &Regs, memory: &Memory) -> bool
    ensures { result ≡ crosses_page regs.now (reading (at memory.now)) }
{
    let unindexed = Regs {
        x: 0,
        y: 0,
        ..*regs
    };
    !is_same_page(
        operand_address(regs, memory),
        operand_address(&unindexed, memory),
    )
}

// The cycles that a crossed page adds: 0 or 1.
fn index_extra(mnemonic: Mnemonic, regs: &Regs, memory: &Memory) -> u8
    ensures value { result ≡ index_extra mnemonic regs.now (reading (at memory.now)) }
    ensures few { result ≤ 1 }
{
    if reads_indexed(mnemonic) && crosses_page(regs, memory) {
        1
    } else {
        0
    }
}

// Whether a branch is taken.
fn is_taken(mnemonic: Mnemonic, flags: Flags) -> bool
    ensures { result ≡ is_taken mnemonic flags }
{
    match mnemonic {
        Mnemonic::Bpl => !flags.n,
        Mnemonic::Bmi => flags.n,
        Mnemonic::Bvc => !flags.v,
        Mnemonic::Bvs => flags.v,
        Mnemonic::Bcc => !flags.c,
        Mnemonic::Bcs => flags.c,
        Mnemonic::Bne => !flags.z,
        Mnemonic::Beq => flags.z,
        _ => false,
    }
}

// The cycles that a taken branch adds, 1 or 2, by its distance; PC is already at the next instruction.
fn taken_extra(next: &Regs, distance: u8) -> u8
    ensures value { result ≡ taken_extra next.now.pc (branch_target next.now distance) }
    ensures few { result ≤ 2 }
{
    let offset = if distance & 0x80 != 0 {
        0xff00 | u16::from(distance)
    } else {
        u16::from(distance)
    };
    if is_same_page(next.pc, next.pc.wrapping_add(offset)) {
        1
    } else {
        2
    }
}

// The cycles that a branch at PC adds, by whether it is taken: 0 to 2.
fn branch_extra(taken: bool, regs: &Regs, memory: &Memory) -> u8
    ensures value { result ≡ branch_by taken regs.now (reading (at memory.now)) }
    ensures few { result ≤ 2 }
{
    if !taken {
        return 0;
    }
    match memory.read(regs.pc.wrapping_add(1)) {
        Ok(distance) => {
            let next = Regs {
                pc: regs.pc.wrapping_add(2),
                ..*regs
            };
            taken_extra(&next, distance)
        }
        Err(_) => 0,
    }
}

// The cycles that come on top of the base, by mnemonic and mode: 0 to 2.
fn extra(mnemonic: Mnemonic, mode: Mode, regs: &Regs, memory: &Memory) -> u8
    ensures value { result ≡ extra_of mnemonic mode regs.now (reading (at memory.now)) }
    ensures few { result ≤ 2 }
{
    match mode {
        Mode::AbsoluteX | Mode::AbsoluteY | Mode::IndirectY => index_extra(mnemonic, regs, memory),
        Mode::Relative => branch_extra(is_taken(mnemonic, regs.flags), regs, memory),
        _ => 0,
    }
}

// Whether nothing comes on top of an opcode's base, whatever registers and memory hold. If false, it says nothing.
#[inline(always)]
fn has_no_extra(opcode: u8) -> bool
    ensures { result ≡ true → (r : Regs) (read : Reader) → extra_by (decoded opcode) r read ≡ 0 }
{
    MOST_EXTRA[opcode as usize] == 0
}

// The cycles that come on top of the base of an opcode at PC: 0 to 2.
// Few opcodes take any, and most of those are branches, so that the rest alone is decoded.
#[tactic(auto, unfolding(tb_opcodes::specs::Opcodes::decoded))]
#[inline(always)]
fn extra_at(opcode: u8, regs: &Regs, memory: &Memory) -> u8
    ensures value { result ≡ extra_by (decoded opcode) regs.now (reading (at memory.now)) }
    ensures few { result ≤ 2 }
{
    if has_no_extra(opcode) {
        return 0;
    }
    match opcode {
        0x10 => branch_extra(!regs.flags.n, regs, memory),
        0x30 => branch_extra(regs.flags.n, regs, memory),
        0x90 => branch_extra(!regs.flags.c, regs, memory),
        0xb0 => branch_extra(regs.flags.c, regs, memory),
        0xd0 => branch_extra(!regs.flags.z, regs, memory),
        0xf0 => branch_extra(regs.flags.z, regs, memory),
        _ => decoded_extra(opcode, regs, memory),
    }
}

// The cycles on top of an opcode's base, found by decoding it.
#[inline(never)]
fn decoded_extra(opcode: u8, regs: &Regs, memory: &Memory) -> u8
    ensures value { result ≡ extra_by (decoded opcode) regs.now (reading (at memory.now)) }
    ensures few { result ≤ 2 }
{
    match decode(opcode) {
        None => 0,
        Some((mnemonic, mode)) => extra(mnemonic, mode, regs, memory),
    }
}

/// The cycles of the instruction at PC, at most 9; 0 if there is none.
#[inline(always)]
pub fn cycles(regs: &Regs, memory: &Memory) -> u8
    ensures value { result ≡ cycles_at regs.now (reading (at memory.now)) }
    ensures few { result ≤ 9 }
{
    let Ok(opcode) = memory.read(regs.pc) else {
        return 0;
    };
    base(opcode) + extra_at(opcode, regs, memory)
}
