//! The machine with a program loaded, before its first event.
ghost use Rattle.std.specs.Prelude.{◌≡◌, ◌+◌, ◌≤◌, length, MatchResult};
ghost use Rattle.tb_memmap.specs.Bytes.{IsOpenRange};
ghost use Rattle.tb_engines.specs.Programs.{start_regs, start_memory, start, IsUnloadable, StartsPrg};

use crate::delivery::NoText;
use crate::outcome::Refusal;
use std::alloc::Global;
use tb_cpu::{Flags, Regs};
use tb_kernal::{Keyboard, Machine};
use tb_memmap::{BASIC_START, CODE_START, LoadError, Memory};
use tb_prg::Loaded;

/// The stack pointer at the start.
const START_S: u8 = 0xf0;

/// Where the return address lies.
const RETURN_AT: u16 = 0x01f1;

/// The return address, low byte first, so that the program returns to `$A100`.
const RETURN: [u8; 2] = [0xff, 0xa0];

/// The registers where a program starts that is loaded at an address.
pub fn start_regs(at: u16) -> Regs
    ensures { result ≡ start_regs at }
{
    Regs {
        a: 0,
        x: 0,
        y: 0,
        s: START_S,
        pc: if at == BASIC_START { CODE_START } else { at },
        flags: Flags::from_byte(0),
    }
}

// The memory at the start.
fn start_memory(alloc: Global, program: Loaded<'_>) -> Result<Memory, NoText>
    requires { program.at + length program.bytes.now ≤ 65536 }
    ensures { MatchResult result
        (λ m. IsOpenRange program.entry.at (length program.entry.bytes.now)
        × (m ≡ start_memory program.entry.at program.entry.bytes.now))
        (IsUnloadable program.entry.at program.entry.bytes.now) }
{
    let mut memory = Memory::new(alloc)?;
    match memory.load(program.at, program.bytes) {
        Ok(()) => {}
        Err(LoadError::RunsPast) => unreachable!(),
        Err(LoadError::NotRam) => return Err(NoText::Refused(Refusal::NotRam)),
    }
    match memory.load(RETURN_AT, &RETURN) {
        Ok(()) => Ok(memory),
        Err(_) => unreachable!(),
    }
}

/// The machine at the start of a program, with the keyboard that it is given.
pub fn start_machine(
    alloc: Global,
    program: Loaded<'_>,
    keyboard: Keyboard,
) -> Result<Machine, NoText>
    requires { program.at + length program.bytes.now ≤ 65536 }
    ensures { MatchResult result
        (λ m. IsOpenRange program.entry.at (length program.entry.bytes.now)
        × (m ≡ start program.entry.at program.entry.bytes.now
        keyboard.text.items keyboard.answers.items))
        (IsUnloadable program.entry.at program.entry.bytes.now) }
{
    let memory = start_memory(alloc, program)?;
    match Machine::enter(alloc, memory, start_regs(program.at), keyboard) {
        Ok(machine) => Ok(machine),
        Err(_) => unreachable!(),
    }
}

/// The machine at the start of a PRG file, with the keyboard that it is given.
pub fn start_file(alloc: Global, file: &[u8], keyboard: Keyboard) -> Result<Machine, NoText>
    ensures { StartsPrg keyboard.text.items keyboard.answers.items file.now result }
{
    match tb_prg::read(file) {
        Ok(program) => start_machine(alloc, program, keyboard),
        Err(error) => Err(NoText::Refused(Refusal::Prg(error))),
    }
}
