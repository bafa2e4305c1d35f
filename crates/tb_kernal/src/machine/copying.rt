//! A copy of a machine.
ghost use Rattle.std.specs.Prelude.{◌≡◌, IfOk};

use crate::machine::{Keyboard, Machine};
use std::alloc::{AllocError, Global};

impl Machine {
    /// A new machine in the state of this one, but with these bytes sent, and no room. Fails with AllocError only if
    /// the allocator refuses.
    pub fn copied(&self, alloc: Global, sent: &[u8]) -> Result<Machine, AllocError>
        ensures { IfOk result (λ m. m ≡ record self.now { sent = sent.now; room = 0 }) }
    {
        Ok(Machine {
            regs: self.regs,
            memory: self.memory.copied(alloc)?,
            keyboard: self.keyboard.copied(alloc)?,
            text_taken: self.text_taken,
            answers_taken: self.answers_taken,
            sent: Vec::from_slice(alloc, sent)?,
            room: 0,
            wrong: self.wrong,
            home: self.home,
            home_s: self.home_s,
        })
    }
}

impl Keyboard {
    // A new keyboard that gives the same bytes.
    fn copied(&self, alloc: Global) -> Result<Keyboard, AllocError>
        ensures text { IfOk result (λ k. k.text.items ≡ self.now.text.items) }
        ensures answers { IfOk result (λ k. k.answers.items ≡ self.now.answers.items) }
    {
        Ok(Keyboard {
            text: Vec::from_slice(alloc, self.text.as_slice())?,
            answers: Vec::from_slice(alloc, self.answers.as_slice())?,
        })
    }
}
