//! The STOP key: it is asked for at the beginning of each line, and what is done for it belongs to the line.
ghost use Rattle.std.specs.Prelude.{◌≡◌, map};
ghost use Rattle.tb_lower.specs.PlainData.{instr_of};
ghost use Rattle.tb_compiler_selection.specs.PlainData.{group_of};
ghost use Rattle.tb_compiler_templates.specs.Putting.{Puts};
ghost use Rattle.tb_compiler_templates.specs.Breaks as breaks;

use crate::labels::Target;
use crate::pieces::{put_at, put_branch, put_const, put_faulted, put_here};
use std::alloc::AllocError;
use tb_asm::Item;
use tb_compiler_selection::{Group, Usage};
use tb_kernal::GETIN;
use tb_lower::SlotInstr;
use tb_opcodes::Mnemonic;

// What GETIN gives for the STOP key.
const STOP: u8 = 3;

// The fault of the STOP key.
const BREAK: u8 = 0;

/// Takes an answer at the beginning of a line. If the line goes on, what is done for the STOP key is in line.
pub fn put_polled(items: &mut Vec<Item>, away: bool, line: u16) -> Result<(), AllocError>
    ensures { Puts result items.old items.new (breaks.polled away line) }
{
    put_at(items, Mnemonic::Jsr, GETIN)?;
    put_const(items, Mnemonic::Cmp, STOP)?;
    put_branch(items, asking(away), Target::Polled(line))?;
    put_in_line(items, away, line)?;
    Ok(())
}

// The branch after a line's poll, by whether the line ends away.
fn asking(away: bool) -> Mnemonic
    ensures { result ≡ breaks.asking away }
{
    if away { Mnemonic::Beq } else { Mnemonic::Bne }
}

// What is done for the STOP key before the groups of a line that goes on, which are at its branch's target.
fn put_in_line(items: &mut Vec<Item>, away: bool, line: u16) -> Result<(), AllocError>
    ensures { Puts result items.old items.new (breaks.in_line away line) }
{
    if !away {
        put_faulted(items, line, BREAK)?;
        put_here(items, Target::Polled(line))?;
    }
    Ok(())
}

/// What is done for the STOP key behind the groups of a line that ends away.
pub fn put_behind(items: &mut Vec<Item>, away: bool, line: u16) -> Result<(), AllocError>
    ensures { Puts result items.old items.new (breaks.behind away line) }
{
    if away {
        put_here(items, Target::Polled(line))?;
        put_faulted(items, line, BREAK)?;
    }
    Ok(())
}

/// Whether one of these groups leaves the line in any case.
pub fn some_leaves(groups: &[Group<'_>]) -> bool
    ensures { result ≡ breaks.some_leaves (map group_of groups.now) }
{
    match groups {
        [] => false,
        [first, rest @ ..] => leaves(*first) || some_leaves(rest),
    }
}

// Whether a group leaves the line in any case: a test doesn't.
fn leaves(group: Group<'_>) -> bool
    ensures { result ≡ breaks.leaves (group_of group.entry) }
{
    match group {
        Group::Use(how, _) => !matches!(how, Usage::AsNumber),
        Group::Single(instruction) => always_leaves(instruction),
        _ => false,
    }
}

// Whether an instruction leaves the line in any case.
fn always_leaves(instruction: &SlotInstr) -> bool
    ensures { result ≡ breaks.always_leaves (instr_of instruction.now) }
{
    matches!(
        instruction,
        SlotInstr::JumpTo(_) | SlotInstr::CallTo(_) | SlotInstr::Return | SlotInstr::End
    )
}
