//! In which line a machine is.
ghost use Rattle.std.specs.Prelude.{◌≡◌, ◌+◌, ◌<◌, ◌≤◌};
ghost use Rattle.tb_memmap.specs.Bytes.{at};
ghost use Rattle.tb_cpu.specs.Operands.{word_from, word_in};
ghost use Rattle.tb_kernal.specs.Machine.{state_of};
ghost use Rattle.tb_compiled.specs.Compiled.{starts_of, table_of};
ghost use Rattle.tb_engine_sources.specs.Places.{called_from, line_of};

use tb_compiled::Compiled;
use tb_compiled_kept::HOME_S;
use tb_kernal::Machine;
use tb_memmap::Memory;

/// Where the stack begins.
const STACK: u16 = 0x0100;

// The byte at an address of the stack.
fn stack_byte(memory: &Memory, address: u16) -> u8
    requires { (0x0100 ≤ address) × (address < 0x0200) }
    ensures { result ≡ at memory.now address }
{
    match memory.read(address) {
        Ok(byte) => byte,
        Err(_) => unreachable!(),
    }
}

// The byte at an address among a program's data.
fn data_byte(memory: &Memory, address: u16) -> u8
    requires { (0xc000 ≤ address) × (address < 0xd000) }
    ensures { result ≡ at memory.now address }
{
    match memory.read(address) {
        Ok(byte) => byte,
        Err(_) => unreachable!(),
    }
}

// A word from its bytes.
fn word_from(low: u8, high: u8) -> u16
    ensures { result ≡ word_from low high }
{
    u16::from(high) << 8 | u16::from(low)
}

/// The word at an address among a program's data, low byte first.
pub fn data_word(memory: &Memory, address: u16) -> u16
    requires { (0xc000 ≤ address) × (address < 0xcfff) }
    ensures { result ≡ word_in (at memory.now) address }
{
    word_from(data_byte(memory, address), data_byte(memory, address + 1))
}

// The line whose code called the routine that runs: the return address lies under what the stack held at the start.
fn called_from(program: &Compiled, memory: &Memory, stack: u8) -> Option<u16>
    ensures { result ≡ called_from (starts_of program.now) (table_of program.now) (at memory.now) stack }
{
    let home = data_byte(memory, HOME_S);
    if home < 2 || home - 2 < stack {
        return None;
    }
    let low = stack_byte(memory, STACK + u16::from(home) - 1);
    let high = stack_byte(memory, STACK + u16::from(home));
    program.line_at(word_from(low, high))
}

/// The line that a machine does: that in whose code it is, or that whose code called the routine in which it is. None
/// before the first line.
pub fn line_of(machine: &Machine, program: &Compiled) -> Option<u16>
    ensures { result ≡ line_of (starts_of program.now) (table_of program.now) (state_of machine.now) }
{
    let regs = machine.regs();
    match program.line_at(regs.pc) {
        Some(line) => Some(line),
        None => called_from(program, machine.memory(), regs.s),
    }
}
