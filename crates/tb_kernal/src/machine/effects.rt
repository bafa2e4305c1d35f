//! What events do to a machine.
ghost use Rattle.std.specs.Prelude.{◌≡◌, ◌≢◌, ◌<◌, ◌+◌, true, false, [], length, Some};
ghost use Rattle.tb_memmap.specs.Bytes.{at, written};
ghost use Rattle.tb_cpu.specs.Instructions.{next};
ghost use Rattle.tb_kernal.specs.Machine.{state_of, SameKeyboard, text_left, is_lawful_go, waits_for, gone_at, stepped};
ghost use Rattle.tb_kernal.specs.Machine.{served, after_service};
ghost use Rattle.tb_kernal.specs.Rom.{all_writable, service_at};
ghost use Rattle.tb_kernal.specs.declared.rom.Service.TheVariants.{Chrout, Chrin, Getin};

use crate::events::{Clobber, Writes};
use crate::machine::Machine;
use crate::rom::{Service, service_of, write_all};
use crate::services::{clobber_registers, return_to_program};
use tb_cpu::step;

impl Machine {
    // The ROM's writes.
    pub(super) fn rewrite(&mut self, writes: &Writes)
        requires { all_writable self.old.regs.s writes.now.items ≡ true }
        ensures state { state_of self.new ≡
            record (state_of self.old) { mem = written (at self.old.memory) writes.now.items } }
        ensures keyboard { SameKeyboard self.old self.new }
        ensures room { self.new.room ≡ self.old.room }
    {
        write_all(self.regs.s, &mut self.memory, writes);
    }

    // A Go in a running machine.
    pub(super) fn go(&mut self, clobber: &Clobber)
        requires lawful { is_lawful_go (service_at self.old.regs.pc) self.old.regs.s
            clobber.now.writes.items ≡ true }
        requires room { service_at self.old.regs.pc ≡ Some Chrout → 0 < self.old.room }
        requires text { waits_for (service_at self.old.regs.pc) (text_left self.old) ≡ false }
        ensures state { state_of self.new ≡
            gone_at (service_at self.old.regs.pc) clobber.now (state_of self.old) }
        ensures keyboard { SameKeyboard self.old self.new }
        ensures room { self.new.room + length self.new.sent
            ≡ self.old.room + length self.old.sent }
    {
        match service_of(self.regs.pc) {
            None => self.step(),
            Some(Service::Chrout) => self.send(clobber),
            Some(Service::Chrin) => self.give_text(clobber),
            Some(Service::Getin) => self.give_answer(clobber),
        }
    }

    // An instruction of the program.
    #[inline(always)]
    pub(super) fn step(&mut self)
        ensures state { state_of self.new ≡
            stepped (state_of self.old) (next self.old.regs (at self.old.memory)) }
        ensures keyboard { SameKeyboard self.old self.new }
        ensures room { self.new.room ≡ self.old.room }
        ensures sent { self.new.sent ≡ self.old.sent }
    {
        if let Err(wrong) = step(&mut self.regs, &mut self.memory) {
            self.wrong = Some(wrong);
        }
    }

    // CHROUT.
    fn send(&mut self, clobber: &Clobber)
        requires lawful { all_writable self.old.regs.s clobber.now.writes.items ≡ true }
        requires room { 0 < self.old.room }
        ensures state { state_of self.new ≡ served Chrout clobber.now (state_of self.old) }
        ensures keyboard { SameKeyboard self.old self.new }
        ensures room { self.new.room + 1 ≡ self.old.room }
    {
        match self.sent.push(self.regs.a) {
            Ok(()) => self.room -= 1,
            Err(_) => unreachable!(),
        }
        self.leave(clobber, clobber.a);
    }

    // CHRIN.
    fn give_text(&mut self, clobber: &Clobber)
        requires lawful { all_writable self.old.regs.s clobber.now.writes.items ≡ true }
        requires text { text_left self.old ≢ [] }
        ensures state { state_of self.new ≡ served Chrin clobber.now (state_of self.old) }
        ensures keyboard { SameKeyboard self.old self.new }
        ensures room { self.new.room ≡ self.old.room }
    {
        let byte = self.keyboard.text[self.text_taken];
        self.text_taken += 1;
        self.leave(clobber, byte);
    }

    // GETIN.
    fn give_answer(&mut self, clobber: &Clobber)
        requires lawful { all_writable self.old.regs.s clobber.now.writes.items ≡ true }
        ensures state { state_of self.new ≡ served Getin clobber.now (state_of self.old) }
        ensures keyboard { SameKeyboard self.old self.new }
        ensures room { self.new.room ≡ self.old.room }
    {
        let answer = if self.answers_taken < self.keyboard.answers.len() {
            let answer = self.keyboard.answers[self.answers_taken];
            self.answers_taken += 1;
            answer
        } else {
            0
        };
        self.leave(clobber, answer);
    }

    // What a service leaves, with A, and its return.
    fn leave(&mut self, clobber: &Clobber, a: u8)
        requires { all_writable self.old.regs.s clobber.now.writes.items ≡ true }
        ensures state { state_of self.new ≡ after_service clobber.now a (state_of self.old) }
        ensures keyboard { SameKeyboard self.old self.new }
        ensures room { self.new.room ≡ self.old.room }
    {
        write_all(self.regs.s, &mut self.memory, &clobber.writes);
        self.regs = return_to_program(clobber_registers(self.regs, clobber, a), &self.memory);
    }
}
