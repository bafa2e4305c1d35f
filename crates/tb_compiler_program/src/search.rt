//! The search for the line of a computed GOTO or GOSUB.
ghost use Rattle.std.specs.Prelude.{◌≡◌, ◌-◌, ◌<◌, ◌≤◌, ◌∷◌, [], map, length};
ghost use Rattle.tb_asm.specs.Layout.{bytes};
ghost use Rattle.tb_lower.specs.PlainData.{instr_of, code_of};
ghost use Rattle.tb_opcodes.specs.declared.Mnemonic.TheVariants.{Jmp};
ghost use Rattle.tb_runtime16.specs.Addresses as places;
ghost use Rattle.tb_compiler_templates.specs.Putting.{Puts};
ghost use Rattle.tb_compiler_program.specs.Search as search;
ghost use Rattle.tb_compiler_program.specs.Sizes.{room, list_room, lines_room, price, list_price, lines_price};
ghost use Rattle.tb_compiler_templates.specs.Templates as templates;

use std::alloc::AllocError;
use tb_asm::Item;
use tb_compiled_kept::{COUNT, LINES_AT, RESULT, TABLE, WANTED};
use tb_compiler_templates::{
    Target, put, put_address, put_alone, put_at, put_const, put_constant, put_here, put_high_part,
    put_low_part,
};
use tb_lower::{SlotInstr, SlotLine};
use tb_opcodes::Mnemonic;
use tb_runtime16::{Routine, entry};

// Programs with fewer lines have their numbers compared.
const TOO_MANY_LINES: usize = 64;

// The bytes from the lines' address up to `$9FFF`.
const CODE_SPACE: usize = 0xA000 - LINES_AT as usize;

// What fault 7 and the search in the line table take at most.
const REST_ROOM: usize = 32;

// What a program's cost has besides its lines.
const REST_PRICE: usize = 64;

// The opcode of BNE.
const BNE: u8 = 0xd0;

// How far the two branches of a comparison lead: to the next one.
const FROM_LOW: u8 = 15;

const FROM_HIGH: u8 = 11;

/// Whether the search compares numbers: few lines, of which one needs it; and there is room for it, by the memory and by
/// the cost.
pub fn compares(lines: &[SlotLine]) -> bool
    ensures { result ≡ search.compares (code_of lines.now) }
{
    let count = lines.len();
    if count >= TOO_MANY_LINES || !has_computed(lines) {
        return false;
    }
    let size = comparisons_size(count);
    let left = left_by_lines(lines, CODE_SPACE - REST_ROOM);
    size <= left
        && unpaid_by_lines(
            lines,
            (size + (CODE_SPACE - left)).saturating_sub(REST_PRICE),
        ) == 0
}

// How many bytes the comparisons with so many numbers take.
fn comparisons_size(count: usize) -> usize
    requires { count < search.too_many_lines }
    ensures { result ≡ search.comparisons_size count }
{
    6 + 19 * count
}

// Whether one of a program's instructions goes to a line that slot 0 names.
fn has_computed(lines: &[SlotLine]) -> bool
    ensures { result ≡ search.has_computed (code_of lines.now) }
{
    match lines {
        [] => false,
        [first, rest @ ..] => some_computed(&first.code) || has_computed(rest),
    }
}

// Whether one of these instructions does.
fn some_computed(list: &[SlotInstr]) -> bool
    ensures { result ≡ search.some_computed (map instr_of list.now) }
{
    match list {
        [] => false,
        [first, rest @ ..] => is_computed(first) || some_computed(rest),
    }
}

fn is_computed(instruction: &SlotInstr) -> bool
    ensures { result ≡ search.is_computed (instr_of instruction.now) }
{
    matches!(instruction, SlotInstr::Jump | SlotInstr::Call)
}

// What is left of so many bytes when the lines have theirs, whatever their code takes.
fn left_by_lines(lines: &[SlotLine], space: usize) -> usize
    ensures result { result ≡ space - lines_room (code_of lines.now) }
    ensures less { result ≤ space }
{
    match lines {
        [] => space,
        [first, rest @ ..] => {
            left_by_lines(rest, left_by_list(&first.code, space.saturating_sub(13)))
        }
    }
}

// What is left when a list's instructions have theirs.
fn left_by_list(list: &[SlotInstr], space: usize) -> usize
    ensures result { result ≡ space - list_room (map instr_of list.now) }
    ensures less { result ≤ space }
{
    match list {
        [] => space,
        [first, rest @ ..] => left_by_list(rest, space.saturating_sub(room(first))),
    }
}

// What an instruction adds at most to the code of its group.
fn room(instruction: &SlotInstr) -> usize
    ensures { result ≡ room (instr_of instruction.now) }
{
    match instruction {
        SlotInstr::Put(..) | SlotInstr::SendNewline => 10,
        SlotInstr::Load(..) | SlotInstr::Store(_) | SlotInstr::Hold => 12,
        SlotInstr::Negate(_) => 17,
        SlotInstr::Compute(..) => 76,
        SlotInstr::Random(_) => 43,
        SlotInstr::SendText(text) => 19 + text.len(),
        SlotInstr::SendNumber | SlotInstr::Poll => 13,
        SlotInstr::SendZone => 3,
        SlotInstr::Input(_) => 25,
        SlotInstr::LeaveUnless(_) => 24,
        SlotInstr::Jump => 28,
        SlotInstr::Call => 39,
        SlotInstr::JumpTo(_) => 9,
        SlotInstr::CallTo(_) => 59,
        SlotInstr::Return => 49,
        SlotInstr::End => 1,
    }
}

// What of so many bytes is more than the lines cost at least.
fn unpaid_by_lines(lines: &[SlotLine], bytes: usize) -> usize
    ensures { result ≡ bytes - lines_price (code_of lines.now) }
{
    match lines {
        [] => bytes,
        [first, rest @ ..] => {
            unpaid_by_lines(rest, unpaid_by_list(&first.code, bytes.saturating_sub(36)))
        }
    }
}

// What of them is more than a list's instructions cost at least.
fn unpaid_by_list(list: &[SlotInstr], bytes: usize) -> usize
    ensures { result ≡ bytes - list_price (map instr_of list.now) }
{
    match list {
        [] => bytes,
        [first, rest @ ..] => unpaid_by_list(rest, bytes.saturating_sub(price(first))),
    }
}

// What a program's cost has for an instruction at least.
fn price(instruction: &SlotInstr) -> usize
    ensures { result ≡ price (instr_of instruction.now) }
{
    match instruction {
        SlotInstr::Put(..)
        | SlotInstr::Load(..)
        | SlotInstr::Negate(_)
        | SlotInstr::Compute(..)
        | SlotInstr::Random(_)
        | SlotInstr::Jump
        | SlotInstr::Call
        | SlotInstr::Return => 48,
        SlotInstr::SendText(text) => 24 + text.len(),
        SlotInstr::SendNumber => 24,
        SlotInstr::Input(_) => 32,
        SlotInstr::LeaveUnless(_) => 64,
        SlotInstr::JumpTo(_) | SlotInstr::CallTo(_) => 96,
        SlotInstr::Store(_)
        | SlotInstr::SendZone
        | SlotInstr::SendNewline
        | SlotInstr::Poll
        | SlotInstr::Hold
        | SlotInstr::End => 0,
    }
}

/// The search for a line.
pub fn put_find(items: &mut Vec<Item>, by_number: bool, numbers: &[u16]) -> Result<(), AllocError>
    requires { length numbers.now < 65536 }
    ensures { Puts result items.old items.new (search.find_code by_number numbers.now) }
{
    put_here(items, Target::Find)?;
    put_comparisons(items, by_number, numbers)?;
    put_looked_up(items, numbers.len() as u16)?;
    Ok(())
}

// The search in the line table.
fn put_looked_up(items: &mut Vec<Item>, count: u16) -> Result<(), AllocError>
    ensures { Puts result items.old items.new (search.looked_up count) }
{
    put_address(items, Target::Table, TABLE as u8)?;
    put_constant(items, count, COUNT)?;
    put_jump_to_routine(items, Routine::Search)?;
    Ok(())
}

// A jump to a routine of the block.
fn put_jump_to_routine(items: &mut Vec<Item>, routine: Routine) -> Result<(), AllocError>
    ensures { Puts result items.old items.new (templates.at Jmp (places.entry_of routine) ∷ []) }
{
    put_at(items, Mnemonic::Jmp, entry(routine))
}

// The comparisons, if there are any.
fn put_comparisons(
    items: &mut Vec<Item>,
    by_number: bool,
    numbers: &[u16],
) -> Result<(), AllocError>
    ensures { Puts result items.old items.new (search.comparisons by_number numbers.now) }
{
    if !by_number {
        return Ok(());
    }
    put_at(items, Mnemonic::Lda, WANTED)?;
    put_at(items, Mnemonic::Ldx, WANTED + 1)?;
    put_all_compared(items, numbers)?;
    Ok(())
}

// A comparison for each of these lines.
fn put_all_compared(items: &mut Vec<Item>, numbers: &[u16]) -> Result<(), AllocError>
    ensures { Puts result items.old items.new (search.all_compared numbers.now) }
{
    for number in numbers {
        put_compared(items, *number)?;
    }
    Ok(())
}

// If the number in A and X is that of this line, the line's address goes to the result.
fn put_compared(items: &mut Vec<Item>, number: u16) -> Result<(), AllocError>
    ensures { Puts result items.old items.new (search.compared number) }
{
    put_const(items, Mnemonic::Cmp, (number % 256) as u8)?;
    put_unless_equal(items, FROM_LOW)?;
    put_const(items, Mnemonic::Cpx, (number / 256) as u8)?;
    put_unless_equal(items, FROM_HIGH)?;
    put_low_part(items, Target::Line(number))?;
    put_at(items, Mnemonic::Sta, RESULT)?;
    put_high_part(items, Target::Line(number))?;
    put_at(items, Mnemonic::Sta, RESULT + 1)?;
    put_alone(items, Mnemonic::Rts)?;
    Ok(())
}

// A branch over so many bytes unless two bytes are equal. Where it leads never changes, so it needs no label.
fn put_unless_equal(items: &mut Vec<Item>, over: u8) -> Result<(), AllocError>
    ensures { Puts result items.old items.new (bytes (0xD0 ∷ over ∷ []) ∷ []) }
{
    let alloc = *items.allocator();
    put(items, Item::Bytes([BNE, over].to_vec(alloc)?))
}
