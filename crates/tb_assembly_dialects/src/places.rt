//! Which lines of a listing have labels: those that others jump to.
ghost use Rattle.std.specs.Prelude.{◌≡◌, map, IfOk};
ghost use Rattle.tb_disasm.specs.Lines.{entry_of, shown};
ghost use Rattle.tb_assembly_dialects.specs.Places as places;

use crate::kernal::is_jump;
use std::alloc::{AllocError, Global};
use tb_asm::Operand;
use tb_disasm::{Content, Line};
use tb_opcodes::Mode;

/// For each address whether a line begins there, and whether one jumps there.
#[derive(Drop)]
pub struct Places {
    starts: Vec<bool>,
    targets: Vec<bool>,
}

// The address that an instruction jumps or branches to, if it does.
fn target(content: &Content) -> Option<u16>
    ensures { result ≡ places.target_of (entry_of content.now) }
{
    match content {
        Content::Instr(_, Mode::Relative, Operand::Word(to)) => Some(*to),
        Content::Instr(mnemonic, Mode::Absolute, Operand::Word(to)) if is_jump(*mnemonic) => {
            Some(*to)
        }
        _ => None,
    }
}

/// The address whose name a line may show: that to which it jumps or branches.
pub fn target_of(line: &Line) -> Option<u16>
    ensures { result ≡ places.target_of (shown line.now).1 }
{
    target(&line.content)
}

// Marks an address, if there is one and the table has it.
fn mark(table: &mut Vec<bool>, address: Option<u16>)
    ensures { table.new.items ≡ places.marked address table.old.items }
{
    if let Some(address) = address {
        let index = usize::from(address);
        if index < table.len() {
            table[index] = true;
        }
    }
}

fn is_marked(table: &[bool], address: u16) -> bool
    ensures { result ≡ places.is_marked table.now address }
{
    let index = usize::from(address);
    index < table.len() && table[index]
}

impl Places {
    /// The places of lines whose addresses lie below `end`.
    pub fn of_lines(alloc: Global, end: usize, lines: &[Line]) -> Result<Places, AllocError>
        ensures { IfOk result (λ p. places.view_of p ≡ places.view_below end (map shown lines.now)) }
    {
        let mut starts = Vec::from_elem(alloc, false, end)?;
        let mut targets = Vec::from_elem(alloc, false, end)?;
        for line in lines {
            mark(&mut starts, Some(line.address));
            mark(&mut targets, target_of(line));
        }
        Ok(Places { starts, targets })
    }

    /// Whether the line at an address has a label: a line begins there, and one jumps there.
    pub fn has_label(&self, address: u16) -> bool
        ensures { result ≡ places.has_label (places.view_of self.now) address }
    {
        is_marked(self.starts.as_slice(), address) && is_marked(self.targets.as_slice(), address)
    }
}
