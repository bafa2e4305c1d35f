//! What is counted, by address.
ghost use Rattle.std.specs.Prelude.{◌≡◌, ◌<◌, ◌≤◌, ◌+◌, ◌*◌, ◌^◌, ◌||◌, ℕ, [], length, slice_index, slice_index_or};
ghost use Rattle.std.specs.Prelude.{vec_len, IfOk, false, replicate};
ghost use Rattle.tb_machine_profile.specs.Steps.{begins_line};
ghost use Rattle.tb_machine_profile.specs.Tallies.{IsTally, with_more, after_step, most_cycles};

use std::alloc::{AllocError, Global};
use std::marker::Model;
use tb_cpu::{Counter, Regs};
use tb_machine_cycles::cycles;
use tb_memmap::Memory;

/// The number of addresses.
const ADDRESSES: usize = 65_536;

/// The steps of a run, counted by the addresses where lines begin.
#[derive(Drop)]
pub struct Tally {
    begins: Vec<bool>,
    times: Vec<u64>,
    instructions: Vec<u64>,
    cycles: Vec<u64>,
    line: u16,
    taken: u64,
    spent: u64,
}

impl Model for Tally {
    ghost use Rattle.std.specs.Prelude.{◌≡◌, ◌≤◌, ◌*◌, vec_len};
    ghost use Rattle.tb_machine_profile.specs.Tallies.{Counted, AreAtMost, most_cycles};

    ghost Value = { Counted };

    ghost view = { λ t. record {
      begins = t.begins.items;
      times = t.times.items;
      instructions = t.instructions.items;
      cycles = t.cycles.items;
      line = t.line;
      taken = t.taken;
      spent = t.spent;
    } };

    ghost invariant = { λ t. (vec_len t.begins ≡ 65536) × (vec_len t.times ≡ 65536)
        × (vec_len t.instructions ≡ 65536) × (vec_len t.cycles ≡ 65536)
        × AreAtMost t.taken t.times.items × AreAtMost t.taken t.instructions.items
        × AreAtMost (most_cycles * t.taken) t.cycles.items × (t.spent ≤ most_cycles * t.taken) };
}

impl Tally {
    /// The tally of no steps, of a program whose lines begin at these addresses. Fails only if memory runs out.
    pub fn new(alloc: Global, starts: &[u16]) -> Result<Tally, AllocError>
        ensures { IfOk result (λ t. IsTally starts.now [] t) }
    {
        Ok(Tally {
            begins: marks(alloc, starts)?,
            times: zeros(alloc)?,
            instructions: zeros(alloc)?,
            cycles: zeros(alloc)?,
            line: 0,
            taken: 0,
            spent: 0,
        })
    }

    /// Counts a step at an address.
    #[inline(always)]
    pub(crate) fn count(&mut self, pc: u16, cycles: u8)
        requires few { cycles ≤ most_cycles }
        requires taken { self.old.taken < 2 ^ 32 }
        ensures { self.new ≡ after_step self.old pc cycles }
    {
        if self.begins[pc as usize] {
            self.line = pc;
        }
        add(&mut self.times, pc, 1);
        add(&mut self.instructions, self.line, 1);
        add(&mut self.cycles, self.line, u64::from(cycles));
        self.taken += 1;
        self.spent += u64::from(cycles);
    }

    /// How often a step began at an address.
    pub fn times(&self, address: u16) -> u64
        ensures { result ≡ slice_index self.now.times address }
    {
        self.times[address as usize]
    }

    /// How many steps belong to the line that begins at an address; at 0 those before the first line.
    pub fn instructions(&self, address: u16) -> u64
        ensures { result ≡ slice_index self.now.instructions address }
    {
        self.instructions[address as usize]
    }

    /// The cycles of the steps that belong to the line that begins at an address.
    pub fn cycles(&self, address: u16) -> u64
        ensures { result ≡ slice_index self.now.cycles address }
    {
        self.cycles[address as usize]
    }

    /// How many steps were counted in all.
    pub fn taken(&self) -> u64
        ensures { result ≡ self.now.taken }
    {
        self.taken
    }

    /// The cycles of all steps.
    pub fn spent(&self) -> u64
        ensures { result ≡ self.now.spent }
    {
        self.spent
    }
}

impl Counter for Tally {
    ghost use Rattle.std.specs.Prelude.{◌≡◌, ◌<◌, ◌-◌, ◌^◌};
    ghost use Rattle.tb_machine_cycles.specs.Cycles.{cycles_at};
    ghost use Rattle.tb_machine_profile.specs.Tallies.{after_step};

    ghost cost_of = { cycles_at };

    ghost counts = { λ t pc cycles u. (pc < 65536) × (u ≡ after_step t pc cycles) };

    ghost room = { λ t. 2 ^ 32 - t.taken };

    #[inline(always)]
    fn look(&self, regs: &Regs, memory: &Memory) -> u8 {
        cycles(regs, memory)
    }

    #[inline(always)]
    fn hear(&mut self, pc: u16, cost: u8) {
        self.count(pc, cost);
    }
}

fn zeros(alloc: Global) -> Result<Vec<u64>, AllocError>
    ensures { IfOk result (λ v. v.items ≡ replicate 65536 0) }
{
    let counts = vec![in alloc; 0u64; ADDRESSES]?;
    Ok(counts)
}

fn no_marks(alloc: Global) -> Result<Vec<bool>, AllocError>
    ensures { IfOk result (λ v. v.items ≡ replicate 65536 false) }
{
    let begins = vec![in alloc; false; ADDRESSES]?;
    Ok(begins)
}

// For each address, whether a line begins there.
fn marks(alloc: Global, starts: &[u16]) -> Result<Vec<bool>, AllocError>
    ensures { IfOk result (λ v. (vec_len v ≡ 65536)
        × ((a : ℕ) → a < 65536 → slice_index_or v.items a false ≡ begins_line starts.now a)) }
{
    let mut begins = no_marks(alloc)?;
    for address in starts {
        begins[*address as usize] = true;
    }
    Ok(begins)
}

#[inline(always)]
fn add(counts: &mut Vec<u64>, address: u16, more: u64)
    requires length { vec_len counts.old ≡ 65536 }
    requires fits { slice_index counts.old.items address + more < 2 ^ 64 }
    ensures { counts.new.items ≡ with_more counts.old.items address more }
{
    counts[address as usize] += more;
}
