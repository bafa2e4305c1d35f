//! What the rest of a list reads.
ghost use Rattle.std.specs.Prelude.{◌≡◌};
ghost use Rattle.tb_lower.specs.PlainData.{instr_of};
ghost use Rattle.tb_compiler_selection.specs.Liveness.{live_before, nothing_live};

use tb_lower::SlotInstr;

/// How many slots are read before they are written, and whether the held word is too.
#[derive(Clone, Copy, Drop)]
pub struct Live {
    /// The slots below this one may be read.
    pub slots: u16,
    /// Whether the held word is read.
    pub held: bool,
}

impl Live {
    /// After a line's list nothing is read.
    pub const NOTHING: Live = Live {
        slots: 0,
        held: false,
    };

    fn written(self, slot: u8) -> Live
        ensures { result ≡ Rattle.tb_compiler_selection.specs.Liveness.written slot self }
    {
        let slot = u16::from(slot);
        let slots = if self.slots == slot + 1 {
            slot
        } else {
            self.slots
        };
        Live { slots, ..self }
    }

    fn read(self, below: u16) -> Live
        ensures { result ≡ Rattle.tb_compiler_selection.specs.Liveness.read below self }
    {
        Live {
            slots: self.slots.max(below),
            ..self
        }
    }
}

/// What is live before an instruction, by what is live after it.
pub fn live_before(instr: &SlotInstr, behind: Live) -> Live
    ensures { result ≡ live_before (instr_of instr.now) behind }
{
    match instr {
        SlotInstr::Put(slot, _) | SlotInstr::Load(slot, _) => behind.written(*slot),
        SlotInstr::Negate(slot) | SlotInstr::Random(slot) => behind.read(u16::from(*slot) + 1),
        SlotInstr::Compute(_, slot) => behind.read(u16::from(*slot) + 2),
        SlotInstr::Store(_) | SlotInstr::SendNumber | SlotInstr::Jump | SlotInstr::Call => {
            behind.read(1)
        }
        SlotInstr::Hold => Live {
            held: false,
            ..behind.read(1)
        },
        SlotInstr::LeaveUnless(_) => Live {
            held: true,
            ..behind.read(1)
        },
        _ => behind,
    }
}
