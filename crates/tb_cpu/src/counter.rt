//! Whoever counts the instructions of a run.
ghost use Rattle.std.specs.Prelude.{◌≡◌, ◌+◌, ◌<◌, ◌≤◌, ℕ};
ghost use Rattle.tb_memmap.specs.Bytes.{at};
ghost use Rattle.tb_cpu.specs.declared.registers.Regs.{Regs};
ghost use Rattle.tb_cpu.specs.Operands.{Reader, reading};
ghost use Rattle.tb_cpu.specs.Counting.{most_cost};

use crate::registers::Regs;
use tb_memmap::Memory;

/// Whoever counts the instructions of a run: it hears of each that was done, in their order.
pub trait Counter {
    // what an instruction costs, by the registers and the memory before it
    ghost cost_of: { Regs → Reader → ℕ };

    // a counter before it hears of an instruction, by its address and its cost, and after it
    ghost counts: { Self → ℕ → ℕ → Self → Type 0 };

    // how many instructions it may still hear of
    ghost room: { Self → ℕ };

    /// What the instruction at PC costs. It is asked before the instruction is done.
    fn look(&self, regs: &Regs, memory: &Memory) -> u8
        ensures value { result ≡ cost_of regs.now (reading (at memory.now)) }
        ensures few { result ≤ most_cost };

    /// Hears that an instruction was done.
    fn hear(&mut self, pc: u16, cost: u8)
        requires few { cost ≤ most_cost }
        requires room { 0 < room self.old }
        ensures counted { counts self.old pc cost self.new }
        ensures left { room self.new + 1 ≡ room self.old };
}
