//! Instructions and events of the machine, its ROMs, its assembler and its listings.
ghost use Rattle.std.specs.Prelude.{◌≡◌, None, IfOk, IfErr, drop, map};
ghost use Rattle.tb_memmap.specs.Bytes.{at};
ghost use Rattle.tb_cpu.specs.Instructions.{Stepped, next};
ghost use Rattle.tb_kernal.specs.Machine.{Happened};
ghost use Rattle.tb_kernal.specs.Outsides.{turn};
ghost use Rattle.tb_kernal.specs.Runs.{is_quiet};
ghost use Rattle.tb_asm.specs.Assembled.{RefusesAt, refusal};
ghost use Rattle.tb_asm.specs.Layout.{entry_of, image_of, labels_from};
ghost use Rattle.tb_asm.specs.Suited.{BytesStand, Decodes, LabelsStand, Suited};
ghost use Rattle.tb_disasm.specs.Back.{GivesBack};
ghost use Rattle.tb_disasm.specs.Lines.{Lists, written};

use std::alloc::Global;
use tb_asm::{AsmError, Image, Item, assemble};
use tb_cpu::{Regs, Wrong, step};
use tb_disasm::{ListError, Listing, disassemble};
use tb_kernal::{Event, EventError, Machine, Outside, Quiet, Recorded, Status};
use tb_memmap::Memory;

/// Calls `step`.
pub fn stepped(regs: &mut Regs, memory: &mut Memory) -> Result<(), Wrong>
    ensures { Stepped (next regs.old (at memory.old)) (regs.old, at memory.old) result (regs.new, at memory.new) }
{
    step(regs, memory)
}

/// Calls `Machine::event`.
pub fn event_taken(machine: &mut Machine, event: Event) -> Result<Status, EventError>
    ensures { Happened machine.old event result machine.new }
{
    machine.event(event)
}

/// Calls `Recorded::next`.
pub fn recorded_event(recorded: &mut Recorded, machine: &Machine) -> Event
    ensures { (result ≡ turn recorded.old machine.now) × (recorded.new ≡ drop 1 recorded.old) }
{
    recorded.next(machine)
}

/// Calls `Quiet::next`.
pub fn quiet_event(machine: &Machine) -> Event
    ensures { is_quiet machine.now result }
{
    Quiet.next(machine)
}

/// Calls `assemble`.
pub fn assembled(alloc: Global, at: u16, items: &[Item]) -> Result<Image, AsmError>
    ensures laid { IfOk result (λ image. (refusal at (map entry_of items.now) ≡ None) × (image.at ≡ at)
        × (image.bytes.items ≡ image_of at (map entry_of items.now)) × (image.labels.entries
        ≡ labels_from at (map entry_of items.now))) }
    ensures refused { IfErr result (λ e. RefusesAt (refusal at (map entry_of items.now)) e.kind e.item) }
    ensures bytes { IfOk result (λ image. BytesStand at (map entry_of items.now) image.bytes.items image.labels.entries) }
    ensures opcodes { IfOk result (λ image. Decodes (map entry_of items.now) image.bytes.items) }
    ensures labels { IfOk result (λ image. LabelsStand at (map entry_of items.now) image.labels.entries) }
    ensures suited { Suited at (map entry_of items.now) → refusal at (map entry_of items.now) ≡ None }
{
    assemble(alloc, at, items)
}

/// Calls `disassemble`.
pub fn listed(alloc: Global, at: u16, bytes: &[u8]) -> Result<Listing, ListError>
    ensures lines { Lists at bytes.now result }
    ensures back { IfOk result (λ listing. GivesBack at (written listing) bytes.now) }
{
    disassemble(alloc, at, bytes)
}
