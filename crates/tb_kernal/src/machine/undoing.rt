//! Undoing the newest event.
ghost use Rattle.std.specs.Prelude.{◌≡◌, ◌+◌, take, length};
ghost use Rattle.tb_memmap.specs.Bytes.{at};
ghost use Rattle.tb_kernal.specs.Rom.{old_of};
ghost use Rattle.tb_kernal.specs.Undoing.{Undone, IsFormer, TakesBack, back_to, addresses_of, addresses_of_step};

use crate::events::{Event, Writes};
use crate::machine::Machine;
use crate::rom::{old_bytes, put_back, service_of};
use arrayvec::ArrayVec;
use std::marker::Model;
use tb_cpu::{Regs, Wrong, operand_address};

/// What an event may change, as it was before the event.
#[derive(Drop)]
pub struct Undo {
    regs: Regs,
    wrong: Option<Wrong>,
    text_taken: usize,
    answers_taken: usize,
    sent: usize,
    bytes: Writes,
}

impl Model for Undo {
    ghost use Rattle.tb_kernal.specs.Former.{Former};

    ghost Value = { Former };

    ghost view = { λ u. record {
      regs = u.regs;
      wrong = u.wrong;
      text_taken = u.text_taken;
      answers_taken = u.answers_taken;
      sent = u.sent;
      bytes = u.bytes.items;
    } };
}

impl Machine {
    /// What an event may change, to be handed to `undo` after it: registers, the refusal, how much
    /// was taken and sent, and the bytes at the addresses that the event can write.
    pub fn note(&self, event: &Event) -> Undo
        ensures { IsFormer result self.now event.now }
    {
        Undo {
            regs: self.regs(),
            wrong: self.wrong,
            text_taken: self.text_taken,
            answers_taken: self.answers_taken,
            sent: self.sent.len(),
            bytes: self.bytes_before(event),
        }
    }

    // The bytes at the addresses that an event may write.
    fn bytes_before(&self, event: &Event) -> Writes
        ensures { result.items ≡ old_of (at self.now.memory) (addresses_of event.now self.now) }
    {
        match event {
            Event::Interrupt(writes) => old_bytes(&self.memory, writes),
            Event::Go(clobber) => {
                if service_of(self.regs.pc).is_some() {
                    old_bytes(&self.memory, &clobber.writes)
                } else {
                    self.bytes_before_step()
                }
            }
        }
    }

    fn bytes_before_step(&self) -> Writes
        ensures { result.items ≡ old_of (at self.now.memory) (addresses_of_step self.now) }
    {
        let mut places = ArrayVec::new();
        places.push((operand_address(&self.regs, &self.memory), 0));
        places.push((0x0100 + u16::from(self.regs.s), 0));
        places.push((0x0100 + u16::from(self.regs.s.wrapping_sub(1)), 0));
        old_bytes(&self.memory, &places)
    }

    /// Takes back the newest event, by the undo that was made just before it.
    ///
    /// On a machine that differs at most in room from what that event came to, this restores
    /// registers, memory, sent bytes, keyboard and status, and raises the room by the count of
    /// bytes that the event sent.
    pub fn undo(&mut self, undo: &Undo)
        ensures restored { Undone undo.now self.old self.new }
        ensures taken_back { TakesBack undo.now self.old self.new }
    {
        self.give_back_keys(undo);
        self.forget(undo.sent);
        put_back(&mut self.memory, &undo.bytes);
        self.regs = undo.regs;
        self.wrong = undo.wrong;
    }

    // The keys taken since the undo count as not taken.
    fn give_back_keys(&mut self, undo: &Undo)
        ensures { self.new ≡ record self.old {
          text_taken = back_to undo.now.text_taken self.old.text_taken (length self.old.all_text);
          answers_taken =
              back_to undo.now.answers_taken self.old.answers_taken (length self.old.all_answers);
        } }
    {
        if undo.text_taken <= self.keyboard.text.len() {
            self.text_taken = undo.text_taken;
        }
        if undo.answers_taken <= self.keyboard.answers.len() {
            self.answers_taken = undo.answers_taken;
        }
    }

    // Keeps the first `n` of the bytes sent; the others become room.
    fn forget(&mut self, n: usize)
        ensures rest { self.new ≡
            record self.old { sent = take n self.old.sent; room = self.new.room } }
        ensures room { self.new.room + length self.new.sent
            ≡ self.old.room + length self.old.sent }
    {
        if n < self.sent.len() {
            self.room += self.sent.len() - n;
            self.sent.truncate(n);
        }
    }
}
