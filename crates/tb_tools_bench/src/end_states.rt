//! Runs records by the processor's `step` alone. The line of each has the registers and a digest of the memory when its
//! program came to `$A100`, or says why it didn't; `tools/try/foreign_machines.sh` compares it with what another processor
//! does.
use crate::failure::Failure;
use md5::{Digest, Md5};
use std::alloc::{AllocError, Global};
use tb_cpu::{Flags, Regs, Wrong, step};
use tb_memmap::Memory;
use tb_opcodes::{Mnemonic, Mode, decode};

/// The bytes of a record: a seed, and a PRG file of 64 bytes.
const RECORD: usize = 65;

/// A program has ended when it comes to this address, which is closed.
const END: u16 = 0xa100;

/// The most instructions that a program may take.
const MOST_STEPS: u32 = 1000;

/// The stack pointer at the start.
const START_S: u8 = 0xf0;

/// How a program ended.
#[derive(Clone, Copy, Drop)]
enum Ending {
    /// It came to `END`.
    There,
    Wrong(Wrong),
    StepLimit,
}

/// What a program did that another processor may do differently.
#[derive(Clone, Copy, Drop)]
struct Marks {
    /// `ROL` of an absolute address and X.
    rotates_by_x: bool,
    /// `ADC` with D set.
    adds_decimals: bool,
    /// `SBC` with D set.
    subtracts_decimals: bool,
    /// An index that leads past `$FFFF`.
    wraps: bool,
}

// The word at an address, if both its bytes are open.
fn word_at(memory: &Memory, address: u16) -> Option<u16> {
    let low = memory.read(address).ok()?;
    let high = memory.read(address.wrapping_add(1)).ok()?;
    Some(u16::from_le_bytes([low, high]))
}

// Whether the operand's index leads past `$FFFF`.
fn is_past_end(regs: &Regs, memory: &Memory, mode: Mode) -> Option<bool> {
    let operand = regs.pc.wrapping_add(1);
    let (base, index) = match mode {
        Mode::AbsoluteX => (word_at(memory, operand)?, regs.x),
        Mode::AbsoluteY => (word_at(memory, operand)?, regs.y),
        Mode::IndirectY => {
            let pointer = memory.read(operand).ok()?;
            (word_at(memory, u16::from(pointer))?, regs.y)
        }
        _ => return None,
    };
    Some(base.checked_add(u16::from(index)).is_none())
}

impl Marks {
    // Marks what the instruction at PC does.
    fn mark(&mut self, regs: &Regs, memory: &Memory) {
        let Ok(opcode) = memory.read(regs.pc) else {
            return;
        };
        if let Some((_, mode)) = decode(opcode) {
            self.wraps |= is_past_end(regs, memory, mode) == Some(true);
        }
        match decode(opcode) {
            Some((Mnemonic::Rol, Mode::AbsoluteX)) => self.rotates_by_x = true,
            Some((Mnemonic::Adc, _)) => self.adds_decimals |= regs.flags.d,
            Some((Mnemonic::Sbc, _)) => self.subtracts_decimals |= regs.flags.d,
            _ => {}
        }
    }
}

// Bytes from a seed in all open memory, and the 0 that the other machine's start leaves on the stack.
fn fill(memory: &mut Memory, seed: u8) {
    let mut state = u16::from(seed);
    for address in 0..=u16::MAX {
        state = state.wrapping_mul(25173).wrapping_add(13849);
        // A closed address holds nothing.
        let _ = memory.write(address, (state / 256) as u8);
    }
    let _ = memory.write(0x0100 + u16::from(START_S), 0);
}

// The memory and the registers at the start.
fn start(alloc: Global, record: &[u8]) -> Result<(Regs, Memory), Failure> {
    let [seed, low, high, program @ ..] = record else {
        return Err(Failure::Input);
    };
    let pc = u16::from_le_bytes([*low, *high]);
    let regs = Regs {
        a: 0,
        x: 0,
        y: 0,
        s: START_S,
        pc,
        flags: Flags::from_byte(0),
    };
    Ok((regs, filled(alloc, *seed, pc, program)?))
}

fn filled(alloc: Global, seed: u8, at: u16, program: &[u8]) -> Result<Memory, Failure> {
    let mut memory = Memory::new(alloc)?;
    fill(&mut memory, seed);
    memory.load(at, program).map_err(|_| Failure::Input)?;
    Ok(memory)
}

fn run(regs: &mut Regs, memory: &mut Memory, marks: &mut Marks) -> Ending {
    for _ in 0..MOST_STEPS {
        if regs.pc == END {
            return Ending::There;
        }
        marks.mark(regs, memory);
        if let Err(wrong) = step(regs, memory) {
            return Ending::Wrong(wrong);
        }
    }
    Ending::StepLimit
}

// The digest of all open memory, address by address.
fn digest(alloc: Global, memory: &Memory) -> Result<[u8; 16], AllocError> {
    let mut bytes = Vec::new(alloc);
    for address in 0..=u16::MAX {
        if let Ok(byte) = memory.read(address) {
            bytes.push(byte)?;
        }
    }
    Ok(Md5::digest(bytes.as_slice()))
}

fn append_state(
    alloc: Global,
    regs: &Regs,
    memory: &Memory,
    text: &mut String,
) -> Result<(), Failure> {
    write!(
        text,
        "A={:02X} X={:02X} Y={:02X} S={:02X} ",
        regs.a, regs.x, regs.y, regs.s
    )?;
    for byte in &digest(alloc, memory)? {
        write!(text, "{byte:02x}")?;
    }
    Ok(())
}

fn append_wrong(wrong: Wrong, text: &mut String) -> Result<(), Failure> {
    text.push_str(match wrong {
        Wrong::UnknownOpcode => "unknown opcode",
        Wrong::BadDecimal => "bad decimal",
        Wrong::Closed(_) => "closed address",
        Wrong::Brk => "brk",
    })?;
    Ok(())
}

fn append_marks(marks: &Marks, text: &mut String) -> Result<(), Failure> {
    if marks.rotates_by_x {
        text.push_str(", ROL abs,X")?;
    }
    if marks.adds_decimals {
        text.push_str(", decimal ADC")?;
    }
    if marks.subtracts_decimals {
        text.push_str(", decimal SBC")?;
    }
    if marks.wraps {
        text.push_str(", past $FFFF")?;
    }
    Ok(())
}

// Appends a record's line.
fn append_line(alloc: Global, record: &[u8], text: &mut String) -> Result<(), Failure> {
    let (mut regs, mut memory) = start(alloc, record)?;
    let mut marks = Marks {
        rotates_by_x: false,
        adds_decimals: false,
        subtracts_decimals: false,
        wraps: false,
    };
    match run(&mut regs, &mut memory, &mut marks) {
        Ending::There => append_state(alloc, &regs, &memory, text)?,
        Ending::Wrong(wrong) => append_wrong(wrong, text)?,
        Ending::StepLimit => text.push_str("step limit")?,
    }
    append_marks(&marks, text)?;
    text.push('\n')?;
    Ok(())
}

/// Appends the line of each record of an input. Refused if the input is empty or not a whole number of records.
pub fn append_lines(alloc: Global, input: &[u8], text: &mut String) -> Result<(), Failure> {
    if input.is_empty() || input.len() % RECORD != 0 {
        return Err(Failure::Input);
    }
    for record in input.chunks(RECORD) {
        append_line(alloc, record, text)?;
    }
    Ok(())
}
