//! A machine, with undos that take its last steps back.
ghost use Rattle.std.specs.Prelude.{◌≡◌, ◌≤◌, ◌+◌, ◌<◌, ◌++◌, [], ◌∷◌, true, length, nat_lt, is_some, Some, None, OnOk, OnErr, IfOk, IfErr, MatchResult};
ghost use Rattle.tb_kernal.specs.Machine.{state_of, is_stopped, SameKeyboard};
ghost use Rattle.tb_stepper.specs.Holding.{EachFollows};
ghost use Rattle.tb_stepper.specs.History.{Holds, machines, Moved, Stepped, Reaches, ReachesLine, begins_at, end_at, line_of};

use crate::reached::{Reached, StepError};
use circular_buffer::HeapCircularBuffer;
use std::alloc::{AllocError, Global};
use std::marker::Model;
use tb_compiled::Compiled;
use tb_kernal::{Machine, Outside, Status, Undo};

/// How many steps can be taken back.
const KEPT: usize = 1000;

/// Memory ran out before a history was made of a machine and an outside.
#[derive(Drop)]
pub struct Refused<O: Outside + Drop> {
    /// The machine that was handed in.
    pub machine: Machine,
    /// The outside that was handed in.
    pub outside: O,
}

/// No step is noted that could be taken back.
#[derive(Clone, Copy, PartialEq, Eq, Debug, Drop)]
pub struct NothingBack;

// Whether nothing can change any more.
fn has_stopped(status: Status) -> bool
    ensures { result ≡ is_stopped status }
{
    matches!(status, Status::Returned | Status::Wrong(_))
}

/// A machine with its outside, and the last 1,000 machines before it; and the compiled program that it runs, if there is
/// a source.
#[derive(Drop)]
pub struct Stepper<'a, O: Outside + Drop> {
    machine: Machine,
    outside: O,
    undos: HeapCircularBuffer<Undo>,
    program: Option<&'a Compiled>,
}

impl<'a, O: Outside + Drop> Model for Stepper<'a, O> {
    ghost use Rattle.std.specs.Prelude.{◌≡◌, ◌≤◌, true, length, option_map};
    ghost use Rattle.tb_stepper.specs.Holding.{Holds, machines, all_fit, EachFollows};

    ghost Value = { Holds O };

    ghost view = { λ h. record { machine = h.machine; outside = h.outside; undos = h.undos.items; program = option_map (λ p. p.now) h.program } };

    ghost invariant = { λ h. (h.undos.capacity ≡ 1000)
        × (all_fit h.machine.all_text h.machine.all_answers h.undos.items ≡ true)
        × EachFollows (machines (record { machine = h.machine; outside = h.outside; undos = h.undos.items; program = option_map (λ p. p.now) h.program }))
        × (length h.undos.items ≤ 1000) };
}

impl<'a, O: Outside + Drop> Stepper<'a, O> {
    /// The history that holds the machine of a compiled program alone.
    pub fn new(
        alloc: Global,
        machine: Machine,
        program: &'a Compiled,
        outside: O,
    ) -> Result<Stepper<'a, O>, Refused<O>>
        ensures held { IfOk result (λ h. h ≡ record { machine = machine; outside = outside; undos = []; program = Some program.now }) }
        ensures handed_back { IfErr result (λ e. (e.machine ≡ machine) × (e.outside ≡ outside)) }
    {
        match HeapCircularBuffer::with_capacity(alloc, KEPT) {
            Ok(undos) => Ok(Stepper {
                machine,
                outside,
                undos,
                program: Some(program),
            }),
            Err(_) => Err(Refused { machine, outside }),
        }
    }

    /// The history that holds a machine alone, of which there is no source.
    pub fn without_source(
        alloc: Global,
        machine: Machine,
        outside: O,
    ) -> Result<Stepper<'a, O>, Refused<O>>
        ensures held { IfOk result (λ h. h ≡ record { machine = machine; outside = outside; undos = []; program = None }) }
        ensures handed_back { IfErr result (λ e. (e.machine ≡ machine) × (e.outside ≡ outside)) }
    {
        match HeapCircularBuffer::with_capacity(alloc, KEPT) {
            Ok(undos) => Ok(Stepper {
                machine,
                outside,
                undos,
                program: None,
            }),
            Err(_) => Err(Refused { machine, outside }),
        }
    }

    /// Whether there is a source.
    pub fn has_source(&self) -> bool
        ensures { result ≡ is_some self.now.program }
    {
        self.program.is_some()
    }

    /// The present machine. Each machine that is held comes from the one before it by one event.
    #[tactic(auto, using(crate::proofs::GivingBack::few_machines))]
    pub fn machine(&self) -> &Machine
        ensures present { result.now ≡ self.now.machine }
        ensures each_follows { EachFollows (machines self.now) }
        ensures few { length (machines self.now) ≤ 1001 }
    {
        &self.machine
    }

    /// Lets the outside's next event happen, and answers how the machine then stands. A stopped
    /// machine stays as it is, and the outside isn't asked. AllocError changes nothing.
    pub fn step(&mut self) -> Result<Status, AllocError>
        ensures { Stepped O.gives self.old result self.new }
    {
        let status = self.machine.status();
        if has_stopped(status) {
            return Ok(status);
        }
        self.take_event()
    }

    // A step of a machine that isn't stopped.
    fn take_event(&mut self) -> Result<Status, AllocError>
        ensures { Moved O.gives self.old result self.new }
    {
        if self.machine.reserve(1).is_err() {
            return Err(AllocError);
        }
        let event = self.outside.next(&self.machine);
        let undo = self.machine.note(&event);
        match self.machine.event(event) {
            Ok(status) => {
                self.undos.push_back(undo);
                Ok(status)
            }
            Err(_) => unreachable!(),
        }
    }

    /// Takes the newest noted step of the machine back, and nothing of the outside. Refused exactly
    /// if no step is noted.
    pub fn back(&mut self) -> Result<(), NothingBack>
        ensures restored { OnOk result (machines self.old
            ≡ machines self.new ++ state_of self.old.machine ∷ []) }
        ensures rest { (self.new.outside ≡ self.old.outside) × (self.new.program ≡ self.old.program)
            × SameKeyboard self.old.machine self.new.machine }
        ensures refused { OnErr result ((self.old.undos ≡ []) × (self.new ≡ self.old)) }
    {
        match self.undos.pop_back() {
            Some(undo) => {
                self.machine.undo(&undo);
                Ok(())
            }
            None => Err(NothingBack),
        }
    }

    // Takes steps until PC is at an address after at least one step, or the machine isn't Running,
    // or `limit` steps were taken; before each step this is looked at in this order. After
    // AllocError the machine is as after the steps so far.
    fn to_address(&mut self, address: u16, limit: u64) -> Result<Reached, AllocError>
        ensures { Reaches O.gives address limit self.old result self.new }
    {
        for taken in 0..limit {
            if let Some(reached) = self.end(address, taken > 0) {
                return Ok(reached);
            }
            self.step()?;
        }
        Ok(self.end(address, limit > 0).unwrap_or(Reached::Limit))
    }

    // Why a walk to an address ends here, if it isn't for its limit. `moved` says that a step
    // was taken.
    fn end(&self, address: u16, moved: bool) -> Option<Reached>
        ensures { result ≡ end_at address moved (state_of self.now.machine) }
    {
        if moved && self.machine.regs().pc == address {
            return Some(Reached::There);
        }
        match self.machine.status() {
            Status::Running => None,
            status => Some(Reached::Stopped(status)),
        }
    }

    /// The line in whose code PC lies.
    pub fn line(&self) -> Option<u16>
        ensures { result ≡ line_of self.now.program self.now.machine.regs.pc }
    {
        match self.program {
            Some(program) => program.line_at(self.machine.regs().pc),
            None => None,
        }
    }

    /// Takes steps until PC is where the code of a line begins, after at least one step, or the
    /// machine isn't Running, or `limit` steps were taken; before each step this is looked at in
    /// this order.
    ///
    /// Refused as NoSuchLine if there is no source or the program has no such line; then nothing
    /// changes. After NoMemory the machine is as after the steps so far.
    pub fn to_line(&mut self, line: u16, limit: u64) -> Result<Reached, StepError>
        ensures { ReachesLine O.gives (begins_at self.old.program line) limit self.old result self.new }
    {
        let Some(program) = self.program else {
            return Err(StepError::NoSuchLine);
        };
        let Some(address) = program.start_of(line) else {
            return Err(StepError::NoSuchLine);
        };
        match self.to_address(address, limit) {
            Ok(reached) => Ok(reached),
            Err(AllocError) => Err(StepError::NoMemory),
        }
    }
}
