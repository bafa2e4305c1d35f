//! Machines with a program in their memory.
use crate::failure::Failure;
use std::alloc::Global;
use tb_cpu::Regs;
use tb_kernal::{Keyboard, Machine};
use tb_memmap::Memory;

// The address of the return address that a machine starts with; below, that return address less 1.
const RETURN_PLACE: u16 = 0x01f1;

const RETURN_ADDRESS: [u8; 2] = [0xff, 0xa0];

// A keyboard on which nothing is typed, and that answers no poll.
fn no_keys(alloc: Global) -> Keyboard {
    Keyboard {
        text: Vec::new(alloc),
        answers: Vec::new(alloc),
    }
}

fn load(memory: &mut Memory, at: u16, bytes: &[u8]) -> Result<(), Failure> {
    memory.load(at, bytes)?;
    memory.load(RETURN_PLACE, &RETURN_ADDRESS)?;
    Ok(())
}

/// A memory with bytes at an address, and a return to $A100.
pub fn memory_with(alloc: Global, at: u16, bytes: &[u8]) -> Result<Memory, Failure> {
    let mut memory = Memory::new(alloc)?;
    load(&mut memory, at, bytes)?;
    Ok(memory)
}

/// A machine with such a memory and no keys.
pub fn machine_with(alloc: Global, at: u16, bytes: &[u8], regs: Regs) -> Result<Machine, Failure> {
    let memory = memory_with(alloc, at, bytes)?;
    Machine::enter(alloc, memory, regs, no_keys(alloc)).map_err(|_| Failure::Refused)
}
