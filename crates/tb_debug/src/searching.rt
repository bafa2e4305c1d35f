//! Going on and back to a breakpoint or a watch.
ghost use Rattle.std.specs.Prelude.{◌≡◌, ◌⊎◌, ◌≤◌, IfOk, OnOk};
ghost use Rattle.tb_basic_meaning.specs.Control.{deepest};
ghost use Rattle.tb_debug.specs.Debuggers.{KeepsRun, OnRun, StandsAt};
ghost use Rattle.tb_debug.specs.Begins.{StandsBy};
ghost use Rattle.tb_debug.specs.Leading.{Continues, GoesOn, GoesOut, GoesOver, ReverseContinues, RunsUntil, depth_here};
ghost use Rattle.tb_debug.specs.declared.searching.Destination.TheVariants as destination;
ghost use Rattle.tb_debug.specs.Runs.{Point, IsCheckpoint, IsOfRun, shown};
ghost use Rattle.tb_debug.specs.Searching.{KnowsAfter, NewestBetween};
ghost use Rattle.tb_debug.specs.Stopping.{IsNewest, IsThere, breaks_at, changes, has_faulted, is_above, is_sought, is_stop};
ghost use Rattle.tb_debug.specs.Stopping.{leads_back, stops_by_fault};

use crate::debugger::Debugger;
use crate::history::Checkpoint;
use crate::moment::{Moment, Reached};
use crate::readings::variables_in;
use std::alloc::{AllocError, Global};
use tb_debug_inspection::fault_in;
use tb_kernal::{Status, Watch};

/// What a run goes on to.
#[derive(Clone, Copy, Debug, Drop)]
pub enum Destination {
    /// A breakpoint or a watch.
    Stop,
    /// A line with fewer lines to return to than these, or a breakpoint or a watch.
    Above(u16),
    /// The line at an address.
    Address(u16),
}

impl<'a> Debugger<'a> {
    /// Runs on to the next line with a breakpoint, or to the end of the next line that gives a watched variable another
    /// value, by at most `limit` events. If faults stop the run, and the program ends by one, it stops at the beginning of
    /// the line that faults, unless the run was there already.
    pub fn continue_<W: Watch>(
        &mut self,
        alloc: Global,
        limit: u64,
        watch: &mut W,
    ) -> Result<Reached, AllocError>
        ensures run { OnOk result (KeepsRun self.old self.new) }
        ensures stop { IfOk result (λ reached. Continues limit self.old reached self.new.present) }
        ensures stands { IfOk result (λ reached. StandsBy self.old.starts reached self.new.present) }
        ensures shown { OnOk result (self.new.shown ≡ self.old.shown) }
        ensures stops { OnOk result (self.new.stops ≡ self.old.stops) }
    {
        self.go_on(alloc, Destination::Stop, limit, watch)
    }

    /// Runs on over a GOSUB: to the next line at which there are no more lines to return to than here, or to where
    /// `continue_` stops before.
    pub fn over<W: Watch>(
        &mut self,
        alloc: Global,
        limit: u64,
        watch: &mut W,
    ) -> Result<Reached, AllocError>
        ensures run { OnOk result (KeepsRun self.old self.new) }
        ensures stop { IfOk result (λ reached. GoesOver limit self.old reached self.new.present) }
        ensures stands { IfOk result (λ reached. StandsBy self.old.starts reached self.new.present) }
        ensures shown { OnOk result (self.new.shown ≡ self.old.shown) }
        ensures stops { OnOk result (self.new.stops ≡ self.old.stops) }
    {
        let depth = self.depth();
        self.go_on(alloc, Destination::Above(depth + 1), limit, watch)
    }

    /// Runs on out of a subroutine: to the next line at which there are fewer lines to return to than here, or to where
    /// `continue_` stops before.
    pub fn finish<W: Watch>(
        &mut self,
        alloc: Global,
        limit: u64,
        watch: &mut W,
    ) -> Result<Reached, AllocError>
        ensures run { OnOk result (KeepsRun self.old self.new) }
        ensures stop { IfOk result (λ reached. GoesOut limit self.old reached self.new.present) }
        ensures stands { IfOk result (λ reached. StandsBy self.old.starts reached self.new.present) }
        ensures shown { OnOk result (self.new.shown ≡ self.old.shown) }
        ensures stops { OnOk result (self.new.stops ≡ self.old.stops) }
    {
        let depth = self.depth();
        self.go_on(alloc, Destination::Above(depth), limit, watch)
    }

    /// How many lines there are to return to.
    pub fn depth(&self) -> u16
        ensures depth { result ≡ depth_here self.now }
        ensures few { result ≤ deepest }
    {
        self.debuggee.depth(self.present.machine.memory())
    }

    // Runs on to the next line that is looked for, by at most `limit` events. If faults stop the run, and the program ends
    // by one, it stops at the beginning of the line that faults, unless the run was there already.
    fn go_on<W: Watch>(
        &mut self,
        alloc: Global,
        to: Destination,
        limit: u64,
        watch: &mut W,
    ) -> Result<Reached, AllocError>
        ensures run { OnOk result (KeepsRun self.old self.new) }
        ensures stop { IfOk result (λ reached. GoesOn to limit self.old reached self.new.present) }
        ensures stands { IfOk result (λ reached. StandsBy self.old.starts reached self.new.present) }
        ensures shown { OnOk result (self.new.shown ≡ self.old.shown) }
        ensures stops { OnOk result (self.new.stops ≡ self.old.stops) }
    {
        let begun = self.present.begun;
        let begins = self.present.begins(&self.starts);
        let way = self.run_until(alloc, to, limit, watch)?;
        let stops = self.stops_by_fault(alloc, begun, begins, way)?;
        if !stops {
            return Ok(way);
        }
        let reached = self.rewind_to(alloc, self.present.begun.saturating_sub(1))?;
        Ok(reached)
    }

    // Whether a way to here ended by a fault that stops it, in a line that was begun on the way: `begun` lines were begun
    // where it came from, and `begins` tells whether a line begins there.
    fn stops_by_fault(
        &self,
        alloc: Global,
        begun: u64,
        begins: bool,
        way: Reached,
    ) -> Result<bool, AllocError>
        ensures { IfOk result (λ stops. stops ≡ stops_by_fault self.now.stops begun begins way self.now.present) }
    {
        if !self.stops.stops_at_faults() {
            return Ok(false);
        }
        let faulted = has_faulted(way, &self.present);
        if !faulted {
            return Ok(false);
        }
        if begins {
            Ok(begun < self.present.begun.saturating_sub(1))
        } else {
            Ok(begun < self.present.begun)
        }
    }

    /// Runs on to the beginning of the line at an address, by at most `limit` events.
    pub fn run_to_line<W: Watch>(
        &mut self,
        alloc: Global,
        address: u16,
        limit: u64,
        watch: &mut W,
    ) -> Result<Reached, AllocError>
        ensures run { OnOk result (KeepsRun self.old self.new) }
        ensures there { IfOk result (λ reached. StandsAt address reached self.new.present) }
        ensures line { IfOk result (λ reached. RunsUntil (destination.Address address) limit self.old reached self.new.present) }
        ensures stands { IfOk result (λ reached. StandsBy self.old.starts reached self.new.present) }
        ensures shown { OnOk result (self.new.shown ≡ self.old.shown) }
        ensures stops { OnOk result (self.new.stops ≡ self.old.stops) }
    {
        self.run_until(alloc, Destination::Address(address), limit, watch)
    }

    // Runs on to the next line that is looked for, by at most `limit` events.
    fn run_until<W: Watch>(
        &mut self,
        alloc: Global,
        to: Destination,
        limit: u64,
        watch: &mut W,
    ) -> Result<Reached, AllocError>
        ensures run { OnOk result (KeepsRun self.old self.new) }
        ensures there { IfOk result (λ reached. IsThere to reached self.new) }
        ensures leads { IfOk result (λ reached. RunsUntil to limit self.old reached self.new.present) }
        ensures stands { IfOk result (λ reached. StandsBy self.old.starts reached self.new.present) }
        ensures shown { OnOk result (self.new.shown ≡ self.old.shown) }
        ensures stops { OnOk result (self.new.stops ≡ self.old.stops) }
    {
        let last = self.present.events.saturating_add(limit);
        for done in 0..u64::MAX {
            self.tell_watch(watch, done, limit, last);
            match self.next_line(alloc, self.left(last))? {
                Reached::Line => {}
                reached => return Ok(reached),
            }
            if self.is_sought(to) {
                return Ok(Reached::Line);
            }
        }
        Ok(Reached::Limit)
    }

    // Whether the present point is looked for.
    fn is_sought(&self, to: Destination) -> bool
        ensures { result ≡ is_sought to self.now (shown self.now.present) }
    {
        match to {
            Destination::Stop => self.is_stop(),
            Destination::Above(depth) => self.is_above(depth) || self.is_stop(),
            Destination::Address(address) => self.present.machine.regs().pc == address,
        }
    }

    // Whether a breakpoint or a watch stops a way here.
    fn is_stop(&self) -> bool
        ensures { result ≡ is_stop self.now (shown self.now.present) }
    {
        self.has_breakpoint(&self.present) || self.has_changed(&self.present)
    }

    // Whether there are fewer lines to return to than these.
    fn is_above(&self, depth: u16) -> bool
        ensures { result ≡ is_above self.now.debuggee depth (shown self.now.present) }
    {
        self.debuggee.depth(self.present.machine.memory()) < depth
    }

    /// Goes back to the newest line before with a breakpoint, or that gave a watched variable another value; to the first
    /// line if there is none.
    pub fn reverse_continue(&mut self, alloc: Global) -> Result<Reached, AllocError>
        ensures run { OnOk result (KeepsRun self.old self.new) }
        ensures stop { IfOk result (λ reached. ReverseContinues self.old reached self.new.present) }
        ensures stands { IfOk result (λ reached. StandsBy self.old.starts reached self.new.present) }
        ensures shown { OnOk result (self.new.shown ≡ self.old.shown) }
        ensures stops { OnOk result (self.new.stops ≡ self.old.stops) }
    {
        if self.present.begun == 0 {
            return Ok(self.standing());
        }
        let time = self.newest_stop(alloc)?;
        let reached = self.rewind_to(alloc, time)?;
        Ok(reached)
    }

    // The newest time to which going back leads.
    fn newest_stop(&self, alloc: Global) -> Result<u64, AllocError>
        ensures { IfOk result (λ time. (start : Point) → start.begun ≡ 0 → OnRun start self.now → IsNewest self.now start time) }
    {
        let mut newest = self.leads_back(&self.present);
        let mut last = self.present.events;
        for index in (0..self.history.len()).rev() {
            if let Some(checkpoint) = self.history.get(index) {
                newest = self.with_checkpoint(alloc, checkpoint, last, newest)?;
                if checkpoint.moment.begun <= newest {
                    return Ok(newest);
                }
                last = checkpoint.moment.events;
            }
        }
        let found = self.with_checkpoint(alloc, &self.history.first, last, newest)?;
        Ok(found)
    }

    // The newest time to which going back leads from after a checkpoint, if it is known from after `last` events.
    fn with_checkpoint(
        &self,
        alloc: Global,
        checkpoint: &Checkpoint,
        last: u64,
        newest: u64,
    ) -> Result<u64, AllocError>
        ensures { IfOk result (λ time. (start : Point) → start.begun ≡ 0 → OnRun start self.now
            → IsCheckpoint self.now.starts start checkpoint.now
            → checkpoint.now.moment.events ≤ self.now.present.events
            → last ≤ self.now.present.events → KnowsAfter self.now start last newest
            → KnowsAfter self.now start checkpoint.now.moment.events time) }
    {
        if last <= checkpoint.moment.events {
            return Ok(newest);
        }
        let moment = checkpoint.again(alloc, self.present.machine.sent())?;
        let found = self.newest_between(moment, last)?;
        Ok(later(newest, found))
    }

    // The newest time to which the lines lead back that begin after a moment and up to `last` events.
    fn newest_between(&self, from: Moment, last: u64) -> Result<u64, AllocError>
        ensures { IfOk result (λ time. (start : Point) → start.begun ≡ 0 → OnRun start self.now → IsOfRun self.now.starts start from
            → last ≤ self.now.present.events → NewestBetween self.now start from.events last time) }
    {
        let mut moment = from;
        let mut newest = 0;
        while moment.events < last {
            let left = last - moment.events;
            match moment.to_next_start(&self.starts, left)? {
                Reached::Line => {
                    let time = self.leads_back(&moment);
                    newest = later(newest, time);
                }
                _ => return Ok(newest),
            }
        }
        Ok(newest)
    }

    // The time to which a moment leads back: its own if a line with a breakpoint begins there, else that of the line before
    // it if that line changed a watched variable; 0 for none.
    fn leads_back(&self, moment: &Moment) -> u64
        ensures { result ≡ leads_back self.now.debuggee self.now.stops self.now.present.begun (shown moment.now) }
    {
        if moment.begun < self.present.begun && self.has_breakpoint(moment) {
            moment.begun
        } else if self.has_changed(moment) {
            moment.begun.saturating_sub(1)
        } else {
            0
        }
    }

    // Whether a moment begins a line with a breakpoint.
    fn has_breakpoint(&self, moment: &Moment) -> bool
        ensures { result ≡ breaks_at self.now.debuggee self.now.stops (shown moment.now) }
    {
        if self.stops.breaks_nowhere() {
            return false;
        }
        self.stops
            .breaks(self.debuggee.line_from(moment.machine.regs().pc))
    }

    // Whether the line that was begun last at a moment has given a watched variable another value.
    fn has_changed(&self, moment: &Moment) -> bool
        ensures { result ≡ changes self.now.stops (shown moment.now) }
    {
        if self.stops.watches_none() {
            return false;
        }
        let values = variables_in(&moment.machine);
        self.stops.differ(&moment.opened, &values)
    }
}

// Whether a way ended where the program returned by a fault.
fn has_faulted(way: Reached, moment: &Moment) -> bool
    ensures { result ≡ has_faulted way moment.now }
{
    match way {
        Reached::Ended(Status::Returned) => fault_in(&moment.machine).is_some(),
        Reached::Ended(Status::Running | Status::Waits | Status::Wrong(_)) => false,
        Reached::Line | Reached::Within | Reached::Limit => false,
    }
}

// The later of two times.
fn later(one: u64, other: u64) -> u64
    ensures one { one ≤ result }
    ensures other { other ≤ result }
    ensures which { (result ≡ one) ⊎ (result ≡ other) }
{
    if one < other { other } else { one }
}
