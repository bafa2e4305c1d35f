//! The code of single slot instructions.
ghost use Rattle.std.specs.Prelude.{◌≡◌, ◌+◌, ◌<◌, [], ◌∷◌, ◌++◌, length};
ghost use Rattle.tb_basic_syntax.specs.Source.{Rises};
ghost use Rattle.tb_asm.specs.Layout as layout;
ghost use Rattle.tb_basic_meaning.specs.Control.{has_line};
ghost use Rattle.tb_lower.specs.Ranges.{IsInRange};
ghost use Rattle.tb_lower.specs.PlainData.{instr_of};
ghost use Rattle.tb_compiler_templates.specs.Putting.{Puts};
ghost use Rattle.tb_compiler_templates.specs.declared.labels.Inner.TheVariants as inner;
ghost use Rattle.tb_compiler_templates.specs.declared.labels.Target.TheVariants as target;
ghost use Rattle.tb_compiler_templates.specs.Templates as templates;
ghost use Rattle.tb_compiler_templates.specs.Templates.{template};
ghost use Rattle.tb_compiled_kept.specs.Addresses as kept;
ghost use Rattle.tb_runtime16.specs.Addresses as places;

use crate::labels::{Inner, Target};
use crate::pieces::{
    put, put_address, put_alone, put_at, put_branch, put_by_x, put_call, put_const, put_constant,
    put_copied, put_faulted, put_here, put_high_part, put_jump, put_jump_by, put_jump_through,
    put_low_part, put_on, put_return,
};
use crate::sources::{slot_address, variable_at};
use std::alloc::AllocError;
use tb_asm::Item;
use tb_compiled_kept::{
    COLUMN, LEFT, LENGTH, LINE, NOTES, POINTER, RESULT, RETURN_HIGH, RETURN_LOW,
};
use tb_kernal::CHROUT;
use tb_lower::SlotInstr;
use tb_opcodes::Mnemonic;
use tb_runtime16::{Routine, SEND_AT};

/// The fault of a line that does not exist.
pub const NO_LINE: u8 = 1;

/// Where a group is: its line, its index in the line, from 1 on, and the label of the next line.
#[derive(Clone, Copy, Debug, Drop)]
pub struct Spot {
    pub line: u16,
    pub index: u16,
    pub next: Target,
}

impl Spot {
    /// What a branch of its group skips to.
    pub fn skip(self) -> Target
        ensures { result ≡ target.Inside inner.Skip self.line self.index }
    {
        Target::Inside(Inner::Skip, self.line, self.index)
    }

    /// What a second branch of its group skips to.
    pub fn behind(self) -> Target
        ensures { result ≡ target.Inside inner.Behind self.line self.index }
    {
        Target::Inside(Inner::Behind, self.line, self.index)
    }
}

// A 13 is sent, after which the column is 0.
fn put_newline(items: &mut Vec<Item>) -> Result<(), AllocError>
    ensures { Puts result items.old items.new templates.newline }
{
    put_const(items, Mnemonic::Lda, 0)?;
    put_at(items, Mnemonic::Sta, COLUMN)?;
    put_const(items, Mnemonic::Lda, b'\r')?;
    put_at(items, Mnemonic::Jsr, CHROUT)
}

// A text inside the code, and the jump over it.
fn put_text(
    items: &mut Vec<Item>,
    of: Target,
    behind: Target,
    text: &[u8],
) -> Result<(), AllocError>
    requires { length text.now < 256 }
    ensures { Puts result items.old items.new (templates.text of behind text.now) }
{
    put_address(items, of, POINTER)?;
    put_text_call(items, text.len() as u8)?;
    put_inline(items, of, behind, text)?;
    Ok(())
}

// A byte in line, sent.
fn put_byte_sent(items: &mut Vec<Item>, byte: u8) -> Result<(), AllocError>
    ensures { Puts result items.old items.new (templates.byte_sent byte) }
{
    put_const(items, Mnemonic::Lda, byte)?;
    put_at(items, Mnemonic::Jsr, SEND_AT)
}

// A text, sent: its only byte in line, or all of it by the call.
fn put_sent(
    items: &mut Vec<Item>,
    of: Target,
    behind: Target,
    text: &[u8],
) -> Result<(), AllocError>
    requires { length text.now < 256 }
    ensures { Puts result items.old items.new (templates.sent (templates.only_byte text.now) of behind text.now) }
{
    match text {
        [byte] => put_byte_sent(items, *byte),
        _ => put_text(items, of, behind, text),
    }
}

// The call that sends a text of that length.
fn put_text_call(items: &mut Vec<Item>, length: u8) -> Result<(), AllocError>
    ensures { Puts result items.old items.new (templates.text_call length) }
{
    put_const(items, Mnemonic::Lda, length)?;
    put_at(items, Mnemonic::Sta, LENGTH)?;
    put_call(items, Routine::Text)
}

// A text as it is, jumped over.
fn put_inline(
    items: &mut Vec<Item>,
    of: Target,
    behind: Target,
    text: &[u8],
) -> Result<(), AllocError>
    ensures { Puts result items.old items.new (templates.inline of behind text.now) }
{
    put_jump(items, behind)?;
    put_here(items, of)?;
    put_bytes(items, text)?;
    put_here(items, behind)
}

// Bytes as they are.
fn put_bytes(items: &mut Vec<Item>, bytes: &[u8]) -> Result<(), AllocError>
    ensures { Puts result items.old items.new (layout.bytes bytes.now ∷ []) }
{
    put(items, Item::Bytes(bytes.to_vec(*items.allocator())?))
}

/// Whether a program with these numbers has a line.
pub fn has_number(numbers: &[u16], line: u16) -> bool
    requires rising { Rises 0 65536 numbers.now }
    ensures { result ≡ has_line numbers.now line }
{
    numbers.binary_search(&line).is_ok()
}

fn put_jump_to(items: &mut Vec<Item>, numbers: &[u16], line: u16, to: u16) -> Result<(), AllocError>
    requires rising { Rises 0 65536 numbers.now }
    ensures { Puts result items.old items.new (templates.jump_to numbers.now line to) }
{
    if has_number(numbers, to) {
        put_jump(items, Target::Line(to))
    } else {
        put_faulted(items, line, NO_LINE)
    }
}

// A branch by whether a byte is 0, which stays in X.
fn put_by_zero(
    items: &mut Vec<Item>,
    mnemonic: Mnemonic,
    place: u16,
    to: Target,
) -> Result<(), AllocError>
    ensures { Puts result items.old items.new (templates.by_zero mnemonic place to) }
{
    put_at(items, Mnemonic::Ldx, place)?;
    put_branch(items, mnemonic, to)
}

// A return's two bytes go after the others, and the low byte of their count goes up.
fn put_return_stored(items: &mut Vec<Item>, next: Target) -> Result<(), AllocError>
    ensures { Puts result items.old items.new (templates.return_stored next) }
{
    put_at(items, Mnemonic::Ldx, NOTES)?;
    put_low_part(items, next)?;
    put_by_x(items, Mnemonic::Sta, RETURN_LOW)?;
    put_high_part(items, next)?;
    put_by_x(items, Mnemonic::Sta, RETURN_HIGH)?;
    put_at(items, Mnemonic::Inc, NOTES)
}

// A carry goes to the count's high byte.
fn put_carried(items: &mut Vec<Item>, skip: Target) -> Result<(), AllocError>
    ensures { Puts result items.old items.new (templates.carried skip) }
{
    put_branch(items, Mnemonic::Bne, skip)?;
    put_at(items, Mnemonic::Inc, NOTES + 1)?;
    put_here(items, skip)
}

// Puts the return to the next line on the list in line, if the count of returns fits in its low byte.
fn put_returned_to(
    items: &mut Vec<Item>,
    next: Target,
    skip: Target,
    over: Target,
) -> Result<(), AllocError>
    ensures { Puts result items.old items.new (templates.held next skip over) }
{
    put_by_zero(items, Mnemonic::Bne, NOTES + 1, over)?;
    put_return_stored(items, next)?;
    put_carried(items, skip)?;
    Ok(())
}

// X is the low byte of the count of returns: it goes down, and the newest return's two bytes go to page zero.
fn put_return_taken(items: &mut Vec<Item>) -> Result<(), AllocError>
    ensures { Puts result items.old items.new templates.return_taken }
{
    put_alone(items, Mnemonic::Dex)?;
    put_at(items, Mnemonic::Stx, NOTES)?;
    put_by_x(items, Mnemonic::Lda, RETURN_LOW)?;
    put_on(items, Mnemonic::Sta, LEFT)?;
    put_by_x(items, Mnemonic::Lda, RETURN_HIGH)?;
    put_on(items, Mnemonic::Sta, LEFT + 1)
}

// Takes the newest return in line and goes on there, if it is one of the first 255.
fn put_taken_back(items: &mut Vec<Item>, over: Target) -> Result<(), AllocError>
    ensures { Puts result items.old items.new (templates.taken_back over) }
{
    put_by_zero(items, Mnemonic::Bne, NOTES + 1, over)?;
    put_by_zero(items, Mnemonic::Beq, NOTES, over)?;
    put_return_taken(items)?;
    put_jump_by(items, LEFT)?;
    Ok(())
}

// Puts the return on the list by the routine and goes from a line to another.
fn put_line_called_by_routine(
    items: &mut Vec<Item>,
    line: u16,
    to: u16,
    next: Target,
) -> Result<(), AllocError>
    ensures { Puts result items.old items.new (templates.constant line kept.LINE
        ++ (templates.return_address next ++ (templates.jump (target.Line to) ∷ []))) }
{
    put_constant(items, line, LINE)?;
    put_return(items, next)?;
    put_jump(items, Target::Line(to))?;
    Ok(())
}

// Puts the return on the list and goes from a line to another.
fn put_line_called(
    items: &mut Vec<Item>,
    line: u16,
    to: u16,
    next: Target,
    skip: Target,
    over: Target,
) -> Result<(), AllocError>
    ensures { Puts result items.old items.new (templates.called line to next skip over) }
{
    put_returned_to(items, next, skip, over)?;
    put_jump(items, Target::Line(to))?;
    put_here(items, over)?;
    put_line_called_by_routine(items, line, to, next)?;
    Ok(())
}

fn put_call_to(
    items: &mut Vec<Item>,
    numbers: &[u16],
    spot: Spot,
    to: u16,
) -> Result<(), AllocError>
    requires rising { Rises 0 65536 numbers.now }
    ensures { Puts result items.old items.new (templates.call_to numbers.now spot.line spot.index to spot.next) }
{
    if has_number(numbers, to) {
        let skip = Target::Inside(Inner::Skip, spot.line, spot.index);
        let over = Target::Inside(Inner::Behind, spot.line, spot.index);
        put_line_called(items, spot.line, to, spot.next, skip, over)
    } else {
        put_faulted(items, spot.line, NO_LINE)
    }
}

// Takes the newest return by the routine and goes on there.
fn put_returned_by_routine(items: &mut Vec<Item>, line: u16) -> Result<(), AllocError>
    ensures { Puts result items.old items.new (templates.constant line kept.LINE
        ++ (templates.call places.POP_AT ∷ templates.jump_through)) }
{
    put_constant(items, line, LINE)?;
    put_call(items, Routine::Pop)?;
    put_jump_through(items)?;
    Ok(())
}

// Goes from a line to the newest return.
fn put_returned(items: &mut Vec<Item>, line: u16, over: Target) -> Result<(), AllocError>
    ensures { Puts result items.old items.new (templates.returned line over) }
{
    put_taken_back(items, over)?;
    put_here(items, over)?;
    put_returned_by_routine(items, line)?;
    Ok(())
}

/// The code of a single instruction of a program with these numbers. For an instruction of another kind of group nothing
/// is written.
pub fn put_instruction(
    items: &mut Vec<Item>,
    numbers: &[u16],
    spot: Spot,
    instruction: &SlotInstr,
) -> Result<(), AllocError>
    requires rising { Rises 0 65536 numbers.now }
    requires in_range { IsInRange 256 (instr_of instruction.now) }
    requires next { spot.next ≡ templates.next_line numbers.now spot.line }
    ensures { Puts result items.old items.new (template numbers.now spot.line spot.index (instr_of instruction.now)) }
{
    match instruction {
        SlotInstr::Put(slot, word) => put_constant(items, *word, slot_address(*slot)),
        SlotInstr::Load(slot, letter) => put_copied(
            items,
            variable_at(*letter),
            slot_address(*slot),
        ),
        SlotInstr::SendText(text) => {
            let of = Target::Inside(Inner::Text, spot.line, spot.index);
            let behind = Target::Inside(Inner::Behind, spot.line, spot.index);
            put_sent(items, of, behind, text)
        }
        SlotInstr::SendZone => put_call(items, Routine::Zone),
        SlotInstr::SendNewline => put_newline(items),
        SlotInstr::Input(letter) => {
            put_call(items, Routine::Input)?;
            put_copied(items, RESULT, variable_at(*letter))
        }
        SlotInstr::Poll => put_call(items, Routine::Poll),
        SlotInstr::JumpTo(to) => put_jump_to(items, numbers, spot.line, *to),
        SlotInstr::CallTo(to) => put_call_to(items, numbers, spot, *to),
        SlotInstr::Return => {
            let over = Target::Inside(Inner::Behind, spot.line, spot.index);
            put_returned(items, spot.line, over)
        }
        SlotInstr::End => put_alone(items, Mnemonic::Rts),
        SlotInstr::Store(_)
        | SlotInstr::Negate(_)
        | SlotInstr::Compute(_, _)
        | SlotInstr::Random(_)
        | SlotInstr::SendNumber
        | SlotInstr::Hold
        | SlotInstr::LeaveUnless(_)
        | SlotInstr::Jump
        | SlotInstr::Call => Ok(()),
    }
}
