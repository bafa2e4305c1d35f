//! Where lines begin.
ghost use Rattle.std.specs.Prelude.{◌≡◌, ◌<◌, ℕ, false, true, length, map, replicate, vec_len, IfOk};
ghost use Rattle.tb_compiled.specs.Compiled.{pair_of};
ghost use Rattle.tb_debug.specs.Debuggees.{begins_in};
ghost use Rattle.tb_debug.specs.Runs.{begins_at, is_marked};

use crate::debuggee::Debuggee;
use std::alloc::{AllocError, Global};
use std::marker::Model;
use tb_compiled::LineStart;

/// How many addresses there are.
const ADDRESSES: usize = 65_536;

/// The addresses where the lines of what is debugged begin.
#[derive(Drop)]
pub struct Starts {
    begins: Vec<bool>,
}

impl Model for Starts {
    ghost use Rattle.std.specs.Prelude.{◌≡◌, List, Bool, vec_len};

    ghost Value = { List Bool };

    ghost view = { λ s. s.begins.items };

    ghost invariant = { λ s. vec_len s.begins ≡ 65536 };
}

impl Starts {
    /// The addresses where the lines of a debuggee begin.
    pub fn new(alloc: Global, debuggee: Debuggee<'_>) -> Result<Starts, AllocError>
        ensures { IfOk result (λ s. (a : ℕ) → is_marked s a ≡ begins_in debuggee.entry a) }
    {
        match debuggee {
            Debuggee::Source(program) => Ok(Starts {
                begins: marks(alloc, program.starts())?,
            }),
            Debuggee::Prg => Ok(Starts {
                begins: all_marks(alloc)?,
            }),
        }
    }

    /// For each address, whether a line begins there.
    pub fn marks(&self) -> &[bool]
        ensures marks { result.now ≡ self.now }
        ensures all { length result.now ≡ 65536 }
    {
        self.begins.as_slice()
    }

    /// Whether a line begins at an address.
    pub fn begins(&self, address: u16) -> bool
        ensures { result ≡ is_marked self.now address }
    {
        self.begins[address as usize]
    }
}

fn no_marks(alloc: Global) -> Result<Vec<bool>, AllocError>
    ensures { IfOk result (λ v. v.items ≡ replicate 65536 false) }
{
    let begins = vec![in alloc; false; ADDRESSES]?;
    Ok(begins)
}

// A mark at each address.
fn all_marks(alloc: Global) -> Result<Vec<bool>, AllocError>
    ensures { IfOk result (λ v. v.items ≡ replicate 65536 true) }
{
    let begins = vec![in alloc; true; ADDRESSES]?;
    Ok(begins)
}

// Whether a line begins, address by address.
fn marks(alloc: Global, starts: &[LineStart]) -> Result<Vec<bool>, AllocError>
    ensures { IfOk result (λ v. (vec_len v ≡ 65536)
        × ((a : ℕ) → is_marked v.items a ≡ begins_at (map pair_of starts.now) a)) }
{
    let mut begins = no_marks(alloc)?;
    for start in starts {
        begins[start.at as usize] = true;
    }
    Ok(begins)
}
