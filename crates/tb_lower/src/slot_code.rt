//! Slot code: words in 16 numbered slots and one held word.
ghost use Rattle.std.specs.Prelude.{◌≡◌, List};
ghost use Rattle.std.specs.Coded.{codes};
ghost use Rattle.tb_lower.specs.declared.slot_code.SlotLine.{SlotLine};
ghost use Rattle.tb_lower.specs.contracts.slot_code.SlotLine as line;

use std::marker::Model;
use tb_basic_syntax::Operator;
use tb_words::{Letter, Rel};

/// An instruction. Slots are 0 to 15.
#[derive(Debug, Drop)]
pub enum SlotInstr {
    /// Puts a constant into a slot.
    Put(u8, u16),
    /// Copies a variable into a slot.
    Load(u8, Letter),
    /// Stores slot 0 in a variable.
    Store(Letter),
    /// Negates a slot.
    Negate(u8),
    /// Combines a slot with the next one, into the first; or fault 2.
    Compute(Operator, u8),
    /// Replaces a slot, which is the bound, by a random number; or fault 3.
    Random(u8),
    /// Sends a text.
    SendText(Vec<u8>),
    /// Sends slot 0 in decimal.
    SendNumber,
    /// Sends spaces up to the next zone of eight columns.
    SendZone,
    /// Sends a carriage return.
    SendNewline,
    /// Reads a number into a variable; or fault 6, or waits.
    Input(Letter),
    /// Takes an answer, which may be a break: fault 0.
    Poll,
    /// Holds slot 0.
    Hold,
    /// Leaves the line unless the held word and slot 0 are in this relation.
    LeaveUnless(Rel),
    /// Goes to the line that slot 0 names; or fault 1.
    Jump,
    /// Puts a return to the next line on the return list and goes to the line that slot 0 names; or fault 1 or 4.
    Call,
    /// Goes to this line; or fault 1.
    JumpTo(u16),
    /// Puts a return to the next line on the return list and goes to this line; or fault 1 or 4.
    CallTo(u16),
    /// Goes to the line of the newest return; or fault 5.
    Return,
    /// Ends the run.
    End,
}

/// The slot code of the line of this number. At its end the run goes on to the next line.
#[derive(Debug, Drop)]
pub struct SlotLine {
    pub number: u16,
    pub code: Vec<SlotInstr>,
}

/// Slot code: a list of instructions for each line, in rising order.
#[derive(Drop)]
pub struct SlotCode {
    lines: Vec<SlotLine>,
}

impl Model for SlotCode {
    ghost Value = { List SlotLine };

    ghost coded = { Prim.hlevel (codes, line.the_row.coded) };

    ghost view = { λ c. c.lines.items };
}

impl SlotCode {
    /// Slot code of these lines.
    pub(crate) fn new(lines: Vec<SlotLine>) -> SlotCode
        ensures { result ≡ lines.items }
    {
        SlotCode { lines }
    }

    /// The lines, in rising order of their numbers.
    pub fn lines(&self) -> &[SlotLine]
        ensures { result.now ≡ self.now }
    {
        &self.lines
    }

    /// Consumes self and returns the lines.
    pub fn into_lines(self) -> Vec<SlotLine>
        ensures { result.items ≡ self }
    {
        self.lines
    }
}
