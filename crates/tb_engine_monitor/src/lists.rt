//! The checkpoints of a program.
ghost use Rattle.std.specs.Prelude.{◌≡◌, ◌+◌, ◌≤◌, ◌<◌, ◌++◌, IfOk, OnOk};
ghost use Rattle.tb_engine_monitor.specs.Files.{all_entries, behind, checkpoints, entries, runs, stack_writes, writes};

use crate::checkpoints::Checkpoint;
use std::alloc::{AllocError, Global};
use tb_kernal::{CHRIN, CHROUT, GETIN};
use tb_memmap::PROGRAM_END;

/// Where the Commodore's ROM takes interrupts.
const IRQ: u16 = 0xff48;

/// Where it takes those that can't be masked.
const NMI: u16 = 0xfe43;

/// The bytes of the stack that the routines of a program take at most, and one more.
const DEPTHS: u8 = 14;

/// How many bytes an interrupt pushes.
const PUSHED: u8 = 3;

// Appends the checkpoints of an entry of the ROM.
fn push_entries(
    list: &mut Vec<Checkpoint>,
    at: u16,
    pushed: u8,
    least: u8,
) -> Result<(), AllocError>
    requires pushed { pushed ≤ 3 }
    requires least { least ≤ 14 }
    ensures { OnOk result (list.new.items ≡ list.old.items ++ entries at pushed least) }
{
    'depths: for depth in least..DEPTHS {
        list.push(Checkpoint::Enters {
            at,
            below: depth + pushed,
            note: depth + 1,
        })?;
    }
    Ok(())
}

// Appends those of the services and the interrupts.
fn push_all_entries(list: &mut Vec<Checkpoint>) -> Result<(), AllocError>
    ensures { OnOk result (list.new.items ≡ list.old.items ++ all_entries) }
{
    push_entries(list, CHROUT, 0, 2)?;
    push_entries(list, CHRIN, 0, 2)?;
    push_entries(list, GETIN, 0, 2)?;
    push_entries(list, IRQ, PUSHED, 0)?;
    push_entries(list, NMI, PUSHED, 0)
}

// Appends those of what is the program's besides the stack.
fn push_writes(list: &mut Vec<Checkpoint>) -> Result<(), AllocError>
    ensures { OnOk result (list.new.items ≡ list.old.items ++ writes) }
{
    list.push(Checkpoint::Writes {
        first: 0x00fb,
        last: 0x00fe,
    })?;
    list.push(Checkpoint::Writes {
        first: 0x0800,
        last: 0x9fff,
    })?;
    list.push(Checkpoint::Writes {
        first: 0xc000,
        last: 0xcfff,
    })?;
    Ok(())
}

// Appends those of the stack.
fn push_stack_writes(list: &mut Vec<Checkpoint>) -> Result<(), AllocError>
    ensures { OnOk result (list.new.items ≡ list.old.items ++ stack_writes) }
{
    'places: for at in 0x0153..0x0200_u16 {
        list.push(Checkpoint::WritesToStack { at })?;
    }
    Ok(())
}

// Appends that of what lies behind a program, if it doesn't fill its region.
fn push_behind(list: &mut Vec<Checkpoint>, end: usize) -> Result<(), AllocError>
    ensures { OnOk result (list.new.items ≡ list.old.items ++ behind end) }
{
    if end < usize::from(PROGRAM_END) {
        list.push(Checkpoint::Runs {
            first: end,
            last: usize::from(PROGRAM_END) - 1,
        })?;
    }
    Ok(())
}

// Appends those of where a program has no code.
fn push_runs(list: &mut Vec<Checkpoint>, end: usize) -> Result<(), AllocError>
    ensures { OnOk result (list.new.items ≡ list.old.items ++ runs end) }
{
    list.push(Checkpoint::Runs {
        first: 0x0002,
        last: 0x080c,
    })?;
    list.push(Checkpoint::Runs {
        first: 0xc000,
        last: 0xdfff,
    })?;
    push_behind(list, end)
}

/// The checkpoints of a program that ends before an address.
pub fn checkpoints(alloc: Global, end: usize) -> Result<Vec<Checkpoint>, AllocError>
    requires { 1 ≤ end }
    ensures { IfOk result (λ list. list.items ≡ checkpoints end) }
{
    let mut list = Vec::new(alloc);
    list.push(Checkpoint::Starts)?;
    list.push(Checkpoint::Resets)?;
    list.push(Checkpoint::Elsewhere)?;
    list.push(Checkpoint::Leaves { last: end - 1 })?;
    push_all_entries(&mut list)?;
    list.push(Checkpoint::Pulls)?;
    list.push(Checkpoint::Ends)?;
    push_writes(&mut list)?;
    push_runs(&mut list, end)?;
    push_stack_writes(&mut list)?;
    Ok(list)
}
