//! What is debugged.
ghost use Rattle.std.specs.Prelude.{◌≡◌, ◌≤◌, IfOk};
ghost use Rattle.tb_basic_meaning.specs.Control.{deepest};
ghost use Rattle.tb_memmap.specs.Bytes.{at};
ghost use Rattle.tb_debug.specs.Debuggees.{code_line_of, depth_from, has_no_source, line_from, returns_from, start_from};

use crate::readings::{depth_in, line_from, returns};
use std::alloc::{AllocError, Global};
use tb_compiled::Compiled;
use tb_memmap::Memory;

/// What is debugged.
#[derive(Clone, Copy, Drop)]
pub enum Debuggee<'a> {
    /// The program of a source.
    Source(&'a Compiled),
    /// A program without a source: each address is a line, and its number is the address.
    Prg,
}

impl<'a> Debuggee<'a> {
    /// Whether there is no source.
    pub fn has_no_source(self) -> bool
        ensures { result ≡ has_no_source self.entry }
    {
        match self {
            Debuggee::Source(_) => false,
            Debuggee::Prg => true,
        }
    }

    /// The line that begins at an address.
    pub fn line_from(self, address: u16) -> Option<u16>
        ensures { result ≡ line_from self.entry address }
    {
        match self {
            Debuggee::Source(program) => line_from(program, address),
            Debuggee::Prg => Some(address),
        }
    }

    /// The address where a line begins.
    pub fn start_of(self, line: u16) -> Option<u16>
        ensures { result ≡ start_from self.entry line }
    {
        match self {
            Debuggee::Source(program) => program.start_of(line),
            Debuggee::Prg => Some(line),
        }
    }

    /// The lines to return to, the newest first; none for a return past the last line.
    pub fn returns(self, alloc: Global, memory: &Memory) -> Result<Vec<Option<u16>>, AllocError>
        ensures { IfOk result (λ lines. lines.items ≡ returns_from self.entry (at memory.now)) }
    {
        match self {
            Debuggee::Source(program) => returns(alloc, memory, program),
            Debuggee::Prg => Ok(Vec::new(alloc)),
        }
    }

    /// How many lines there are to return to.
    #[tactic(auto, using(crate::proofs::Returns::many_told))]
    pub fn depth(self, memory: &Memory) -> u16
        ensures depth { result ≡ depth_from self.entry (at memory.now) }
        ensures few { result ≤ deepest }
    {
        match self {
            Debuggee::Source(_) => depth_in(memory),
            Debuggee::Prg => 0,
        }
    }

    /// The line of the source in whose code an address lies.
    pub fn code_line_at(self, address: u16) -> Option<u16>
        ensures { result ≡ code_line_of self.entry address }
    {
        match self {
            Debuggee::Source(program) => program.line_at(address),
            Debuggee::Prg => None,
        }
    }
}
