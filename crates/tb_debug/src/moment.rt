//! A moment of a run: a machine, and how much of the run lies before it.
ghost use Rattle.std.specs.Prelude.{◌≡◌, ◌<◌, ◌≤◌, ◌+◌, ◌==◌, ◌&&◌, if◌then◌else◌, List, Bool, IfOk, IsTrue, ◌↔◌, OnOk, false, true};
ghost use Rattle.tb_kernal.specs.Machine.{state_of, status};
ghost use Rattle.tb_kernal.specs.declared.status.Status.TheVariants as status;
ghost use Rattle.tb_debug.specs.Begins.{Advances, EndsAt, GoesBetween, IsLimited, StandsBy, StepsBy, at_limit, own_at, standing_of};
ghost use Rattle.tb_debug_inspection.specs.Readings.{values_in};
ghost use Rattle.tb_debug.specs.Runs.{Point, IsOfRun, IsTyped, StaysOnRun, first_point, is_marked};

use crate::events::take_quickly;
use crate::readings::variables_in;
use crate::rom::Rom;
use crate::starts::Starts;
use std::alloc::{AllocError, Global};
use tb_debug_inspection::Variables;
use tb_kernal::{Machine, Status};
use tb_memmap::PROGRAM_END;

/// Where a way along the run ended.
#[derive(Clone, Copy, PartialEq, Eq, Debug, Drop)]
pub enum Reached {
    /// A line begins here.
    Line,
    /// A line was begun, and isn't done; or none was begun.
    Within,
    /// The machine isn't Running; this is how it stands.
    Ended(Status),
    /// As many events as the limit were taken.
    Limit,
}

/// The most events that are counted.
const MOST_EVENTS: u64 = u64::MAX;

/// A moment of a run: its machine, and how much of the run came before.
#[derive(Drop)]
pub struct Moment {
    pub machine: Machine,
    /// Its ROM.
    pub rom: Rom,
    /// How many events came before it.
    pub events: u64,
    /// How many of them began a line.
    pub begun: u64,
    /// Where the line that was begun last begins; 0 if none was.
    pub last: u16,
    /// The variables as that line began; as the run did where none was.
    pub opened: Variables,
}

impl Moment {
    /// The first moment of a run.
    pub fn first(machine: Machine, rom: Rom) -> Moment
        ensures run { (marks : List Bool) → IsOfRun marks (first_point (state_of machine) rom) result }
        ensures events { result.events ≡ 0 }
    {
        let opened = variables_in(&machine);
        Moment {
            machine,
            rom,
            events: 0,
            begun: 0,
            last: 0,
            opened,
        }
    }

    /// A copy of the moment, with these bytes as what was sent.
    pub fn copied(&self, alloc: Global, sent: &[u8]) -> Result<Moment, AllocError>
        ensures { IfOk result (λ m. m ≡ record self.now { machine = record self.now.machine { sent = sent.now; room = 0 } }) }
    {
        Ok(Moment {
            machine: self.machine.copied(alloc, sent)?,
            rom: self.rom,
            events: self.events,
            begun: self.begun,
            last: self.last,
            opened: self.opened,
        })
    }

    /// Whether a line begins here.
    pub fn begins(&self, starts: &Starts) -> bool
        ensures { result ≡ is_marked starts.now self.now.machine.regs.pc }
    {
        starts.begins(self.machine.regs().pc)
    }

    /// Whether this is the beginning of a line at a time.
    pub fn is_at(&self, starts: &Starts, time: u64) -> bool
        ensures { result ≡ (self.now.begun == time && is_marked starts.now self.now.machine.regs.pc) }
    {
        self.begun == time && self.begins(starts)
    }

    /// How many events came before it.
    pub fn events(&self) -> u64
        ensures { result ≡ self.now.events }
    {
        self.events
    }

    /// Adds bytes to the end of the keyboard's text.
    pub fn type_text(&mut self, bytes: &[u8]) -> Result<(), AllocError>
        ensures { OnOk result (IsTyped bytes.now self.old self.new) }
    {
        self.machine.type_text(bytes)
    }

    /// How it stands.
    pub fn standing(&self, starts: &Starts) -> Reached
        ensures { result ≡ standing_of starts.now self.now }
    {
        match self.machine.status() {
            Status::Running if self.begins(starts) => Reached::Line,
            Status::Running => Reached::Within,
            status => Reached::Ended(status),
        }
    }

    // Counts the line that begins at an address, with the variables there, if one does.
    #[inline(always)]
    fn begin_line(&mut self, begins: bool, pc: u16, here: &Variables)
        requires { self.old.begun < 18446744073709551615 }
        ensures begun { self.new.begun ≡ self.old.begun + (if begins then 1 else 0) }
        ensures last { self.new.last ≡ (if begins then pc else self.old.last) }
        ensures opened { self.new.opened ≡ (if begins then here.now else self.old.opened) }
        ensures rest { self.new ≡ record self.old { begun = self.new.begun; last = self.new.last; opened = self.new.opened } }
    {
        if begins {
            self.begun += 1;
            self.last = pc;
            self.opened = *here;
        }
    }

    // Takes the next event of a machine that runs: whether it was the program's own.
    fn take_event(&mut self, starts: &Starts) -> Result<bool, AllocError>
        requires countable { (self.old.events < 18446744073709551615) × (self.old.begun < 18446744073709551615) }
        requires runs { status (state_of self.old.machine) ≡ status.Running }
        ensures run { OnOk result (StaysOnRun starts.now self.old self.new) }
        ensures one { OnOk result (self.new.events ≡ self.old.events + 1) }
        ensures own { IfOk result (λ own. (start : Point) → IsOfRun starts.now start self.old
            → own ≡ own_at starts.now start self.old.events) }
        ensures begun { IfOk result (λ own. self.new.begun ≡ self.old.begun
            + (if own && is_marked starts.now self.old.machine.regs.pc then 1 else 0)) }
        ensures interrupted { IfOk result (λ own. own ≡ false → self.new.machine.regs.pc ≡ self.old.machine.regs.pc) }
    {
        let pc = self.machine.regs().pc;
        if !starts.begins(pc) {
            let own = take_quickly(&mut self.machine, &mut self.rom)?;
            self.events += 1;
            return Ok(own);
        }
        // The variables are read where a line begins alone.
        let here = variables_in(&self.machine);
        let is_own = take_quickly(&mut self.machine, &mut self.rom)?;
        self.events += 1;
        self.begin_line(is_own, pc, &here);
        Ok(is_own)
    }

    // Goes on quickly beside a quiet ROM, by at most `limit` events, as long as no line begins: whether that led to a
    // line's beginning.
    fn go_between(&mut self, starts: &Starts, limit: u64) -> bool
        requires countable { self.old.events + limit ≤ 18446744073709551615 }
        ensures run { StaysOnRun starts.now self.old self.new }
        ensures few { self.new.events ≤ self.old.events + limit }
        ensures begun { self.new.begun ≡ self.old.begun }
        ensures between { (start : Point) → IsOfRun starts.now start self.old → GoesBetween starts.now start self.old result self.new }
        ensures led { IsTrue result ↔ ((self.old.events < self.new.events) × (is_marked starts.now self.new.machine.regs.pc ≡ true)) }
        ensures stays { self.new.events ≡ self.old.events → self.new.machine.regs.pc ≡ self.old.machine.regs.pc }
    {
        if self.rom != Rom::Quiet {
            return false;
        }
        // A service of the ROM is no instruction that is gone over.
        if PROGRAM_END <= self.machine.regs().pc {
            return false;
        }
        let went = self.machine.go_to_mark(starts.marks(), limit);
        self.events += went;
        0 < went && self.begins(starts)
    }

    /// Runs on until a line begins or the machine doesn't run, by at most `limit` events.
    pub fn to_next_start(&mut self, starts: &Starts, limit: u64) -> Result<Reached, AllocError>
        ensures run { OnOk result (StaysOnRun starts.now self.old self.new) }
        ensures within { OnOk result (self.new.events ≤ self.old.events + limit) }
        ensures advances { IfOk result (λ reached. Advances reached self.old self.new) }
        ensures begun { OnOk result (self.new.begun ≤ self.old.begun + (if is_marked starts.now self.old.machine.regs.pc then 1 else 0)) }
        ensures stands { IfOk result (λ reached. StandsBy starts.now reached self.new) }
        ensures limited { IfOk result (λ reached. IsLimited limit reached self.old self.new) }
        ensures ends { IfOk result (λ reached. (start : Point) → IsOfRun starts.now start self.old
            → EndsAt starts.now start limit self.old reached self.new) }
    {
        let last = self.events.saturating_add(limit);
        while self.events < last {
            match self.machine.status() {
                Status::Running => {}
                status => return Ok(Reached::Ended(status)),
            }
            if self.begun == MOST_EVENTS {
                return Ok(Reached::Limit);
            }
            let own = self.take_event(starts)?;
            let marked = self.begins(starts);
            if both(own, marked) {
                return Ok(Reached::Line);
            }
            if self.go_between(starts, last - self.events) {
                return Ok(Reached::Line);
            }
        }
        Ok(self.at_limit())
    }

    // How it stands after the last event that it may take.
    fn at_limit(&self) -> Reached
        ensures { result ≡ at_limit (status (state_of self.now.machine)) }
    {
        match self.machine.status() {
            Status::Running => Reached::Limit,
            status => Reached::Ended(status),
        }
    }

    /// Takes `count` events, or fewer if the machine doesn't run then.
    pub fn step(&mut self, starts: &Starts, count: u64) -> Result<(), AllocError>
        ensures run { OnOk result (StaysOnRun starts.now self.old self.new) }
        ensures steps { OnOk result (StepsBy count self.old self.new) }
    {
        for taken in 0..count {
            if self.machine.status() != Status::Running {
                return Ok(());
            }
            if self.events == MOST_EVENTS || self.begun == MOST_EVENTS {
                return Ok(());
            }
            self.take_event(starts)?;
        }
        Ok(())
    }
}

fn both(left: bool, right: bool) -> bool
    ensures { result ≡ (left && right) }
{
    left && right
}
