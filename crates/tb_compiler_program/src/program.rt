//! The code of a whole program.
ghost use Rattle.std.specs.Prelude.{◌≡◌, ◌-◌, ◌<◌, IfOk, [], ◌∷◌, map, length, replicate};
ghost use Rattle.tb_asm.specs.Layout.{word};
ghost use Rattle.tb_asm.specs.declared.items.Operand.TheVariants as operand;
ghost use Rattle.tb_compiler_templates.specs.Putting.{Puts};
ghost use Rattle.tb_compiler_templates.specs.Labels.{label_of};
ghost use Rattle.tb_asm.specs.Layout.{entry_of};
ghost use Rattle.tb_basic_syntax.specs.Source.{numbers, Rises};
ghost use Rattle.tb_basic_meaning.specs.Control.{highest};
ghost use Rattle.tb_lower.specs.Ranges.{AreInRange};
ghost use Rattle.tb_lower.specs.PlainData.{instr_of, slot_line_of, code_of};
ghost use Rattle.tb_compiler_selection.specs.Groups.{expand_all};
ghost use Rattle.tb_compiler_selection.specs.PlainData.{group_of};
ghost use Rattle.tb_compiler_program.specs.Program as program;
ghost use Rattle.tb_compiler_program.specs.Program.{AreCodable, AreInTurn, first_of, program_code};
ghost use Rattle.tb_compiler_templates.specs.Templates as templates;

use crate::search::{compares, put_find};
use std::alloc::{AllocError, Global};
use tb_asm::{Item, Operand};
use tb_compiled_kept::LINES_AT;
use tb_compiler_selection::{Group, Placed, select_in};
use tb_compiler_templates::{
    Spot, Target, label, put, put_behind, put_faulted, put_group, put_here, put_polled, some_leaves,
};
use tb_lower::{SlotCode, SlotInstr, SlotLine};
use tb_runtime16::{BLOCK_AT, block};

// A rough mean of the number of items that a line has; it only affects speed.
const ITEMS_IN_A_LINE: usize = 32;

// The fault of a program that runs past its last line.
const RUN_PAST: u8 = 7;

/// The items of a program, from the block's address on; the seed is the option's RND state. Fails if memory runs out.
pub fn program_items(alloc: Global, seed: u16, code: &SlotCode) -> Result<Vec<Item>, AllocError>
    requires lists { AreCodable (code_of code.now) }
    requires lines { length (code_of code.now) < 65536 }
    requires rising { Rises 0 65536 (numbers (code_of code.now)) }
    ensures { IfOk result (λ items. map entry_of items.items ≡ program_code seed (code_of code.now)) }
{
    let numbers = line_numbers(alloc, code.lines())?;
    let mut items = Vec::with_capacity(alloc, ITEMS_IN_A_LINE * numbers.len())?;
    put_block(&mut items)?;
    put_lines(&mut items, &numbers, seed, code.lines())?;
    put_past(&mut items, &numbers)?;
    put_find(&mut items, compares(code.lines()), &numbers)?;
    put_table(&mut items, &numbers)?;
    Ok(items)
}

// The numbers of lines.
fn line_numbers(alloc: Global, lines: &[SlotLine]) -> Result<Vec<u16>, AllocError>
    ensures { IfOk result (λ ns. ns.items ≡ numbers (code_of lines.now)) }
{
    let mut numbers = Vec::new(alloc);
    for line in lines {
        numbers.push(line.number)?;
    }
    Ok(numbers)
}

// The block, and zero bytes up to the lines.
fn put_block(items: &mut Vec<Item>) -> Result<(), AllocError>
    ensures { Puts result items.old items.new program.block_code }
{
    let alloc = *items.allocator();
    let block = block();
    let gap = usize::from(LINES_AT - BLOCK_AT) - block.len();
    put(items, Item::Bytes(block.to_vec(alloc)?))?;
    put(items, Item::Bytes(zeros(alloc, gap)?))
}

// This many zero bytes.
fn zeros(alloc: Global, count: usize) -> Result<Vec<u8>, AllocError>
    ensures { IfOk result (λ v. v.items ≡ replicate count 0) }
{
    Vec::from_elem(alloc, 0u8, count)
}

// The lines in order.
fn put_lines(
    items: &mut Vec<Item>,
    numbers: &[u16],
    seed: u16,
    lines: &[SlotLine],
) -> Result<(), AllocError>
    requires rising { Rises 0 65536 numbers.now }
    requires lists { AreCodable (code_of lines.now) }
    requires in_turn { AreInTurn numbers.now (code_of lines.now) }
    ensures { Puts result items.old items.new (program.lines_code numbers.now seed (code_of lines.now)) }
{
    let alloc = *items.allocator();
    let mut room = Room {
        placed: Vec::new(alloc),
        groups: Vec::new(alloc),
    };
    let mut rest = lines;
    while let [line, behind @ ..] = rest {
        put_line(items, numbers, seed, line, first_of(behind), &mut room)?;
        rest = behind;
    }
    Ok(())
}

// The label of the first of these lines, or of what follows the last line.
fn first_of(lines: &[SlotLine]) -> Target
    ensures { result ≡ first_of (code_of lines.now) }
{
    match lines {
        [] => Target::Past,
        [first, ..] => Target::Line(first.number),
    }
}

// The lists in which the groups of a line are chosen; they lend their room to the next line.
#[derive(Drop)]
struct Room<'a> {
    placed: Vec<Placed<'a>>,
    groups: Vec<Group<'a>>,
}

// A line at its label: it takes an answer and then does its groups.
fn put_line<'a>(
    items: &mut Vec<Item>,
    numbers: &[u16],
    seed: u16,
    line: &'a SlotLine,
    next: Target,
    room: &mut Room<'a>,
) -> Result<(), AllocError>
    requires rising { Rises 0 65536 numbers.now }
    requires lists { AreInRange 256 (map instr_of line.now.code.items) × (length line.now.code.items < 65536) }
    requires next { next ≡ templates.next_line numbers.now line.now.number }
    ensures { Puts result items.old items.new (program.line_code numbers.now seed (slot_line_of line.now)) }
{
    let number = line.number;
    put_here(items, Target::Line(number))?;
    match line.code.as_slice() {
        [SlotInstr::Poll, behind @ ..] => {
            select_in(&mut room.placed, &mut room.groups, behind)?;
            let away = some_leaves(&room.groups);
            put_polled(items, away, number)?;
            put_groups(items, numbers, seed, number, next, &room.groups)?;
            put_behind(items, away, number)
        }
        list => {
            select_in(&mut room.placed, &mut room.groups, list)?;
            put_groups(items, numbers, seed, number, next, &room.groups)
        }
    }
}

// The groups of a line.
fn put_groups(
    items: &mut Vec<Item>,
    numbers: &[u16],
    seed: u16,
    line: u16,
    next: Target,
    groups: &[Group<'_>],
) -> Result<(), AllocError>
    requires rising { Rises 0 65536 numbers.now }
    requires groups { AreInRange 256 (expand_all (map group_of groups.now)) × (length groups.now < 65536) }
    requires next { next ≡ templates.next_line numbers.now line }
    ensures { Puts result items.old items.new (program.rest_code numbers.now seed line 1 (map group_of groups.now)) }
{
    let mut index = 0;
    for group in groups {
        index += 1;
        put_group(items, numbers, seed, Spot { line, index, next }, *group)?;
    }
    Ok(())
}

// Fault 7, at the highest line.
fn put_past(items: &mut Vec<Item>, numbers: &[u16]) -> Result<(), AllocError>
    ensures { Puts result items.old items.new (program.past_code numbers.now) }
{
    put_here(items, Target::Past)?;
    put_faulted(items, last(numbers), RUN_PAST)?;
    Ok(())
}

// The last number; 0 if there is none.
#[tactic(auto, using(tb_compiler_templates::proofs::Searched::last_is))]
fn last(numbers: &[u16]) -> u16
    ensures { result ≡ highest numbers.now }
{
    numbers.last().copied().unwrap_or(0)
}

// The line table.
fn put_table(items: &mut Vec<Item>, numbers: &[u16]) -> Result<(), AllocError>
    ensures { Puts result items.old items.new (program.table_code numbers.now) }
{
    put_here(items, Target::Table)?;
    put_rows(items, numbers)?;
    Ok(())
}

// An entry for each line: its number and the address of its code.
fn put_rows(items: &mut Vec<Item>, numbers: &[u16]) -> Result<(), AllocError>
    ensures { Puts result items.old items.new (program.rows_code numbers.now) }
{
    for number in numbers {
        put_row(items, *number)?;
    }
    Ok(())
}

fn put_row(items: &mut Vec<Item>, number: u16) -> Result<(), AllocError>
    ensures { Puts result items.old items.new (program.row_code number) }
{
    put(items, Item::Word(Operand::Word(number)))?;
    put_address_word(items, Target::Line(number))?;
    Ok(())
}

// The address of a label as a word.
fn put_address_word(items: &mut Vec<Item>, of: Target) -> Result<(), AllocError>
    ensures { Puts result items.old items.new (word (operand.Label (label_of of)) ∷ []) }
{
    put(items, Item::Word(Operand::Label(label(of))))
}
