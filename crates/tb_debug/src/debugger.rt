//! A run that can be walked both ways.
ghost use Rattle.std.specs.Prelude.{◌≡◌, Some, true, ◌+◌, ◌-◌, ◌<◌, ◌≤◌, ℕ, if◌then◌else◌, vec_len, IfOk, OnOk};
ghost use Rattle.tb_kernal.specs.Machine.{state_of};
ghost use Rattle.tb_debug.specs.Begins.{Advances, BeginsThere, EndsAt, GoesBy, IsLimited, StandsBy, StepsBy, standing_of};
ghost use Rattle.tb_debug_inspection.specs.Readings.{values_in};
ghost use Rattle.tb_debug.specs.Debuggees.{has_no_source, line_from, program_of};
ghost use Rattle.tb_debug.specs.Runs.{Point, IsOfRun, first_point, is_marked, newest_events};
ghost use Rattle.tb_debug.specs.Searching.{IsUntil};
ghost use Rattle.tb_debug.specs.Sources.{ShowsSource};
ghost use Rattle.tb_debug.specs.declared.moment.Reached.TheVariants.{Line};
ghost use Rattle.tb_debug.specs.Debuggers.{GoesToTime, IsAtStart, IsAtTime, IsOpening, IsShort, KeepsRun, KeepsRunTyped, OnRun};
ghost use Rattle.tb_debug.specs.Debuggers.{RewindsBy, begun_by};

use crate::breakpoints::StopPoints;
use crate::debuggee::Debuggee;
use crate::history::{Checkpoint, History};
use crate::moment::{Moment, Reached};
use crate::readings::variables_in;
use crate::rom::Rom;
use crate::starts::Starts;
use std::alloc::{AllocError, Global};
use tb_compiled::Compiled;
use tb_debug_inspection::Variables;
use tb_kernal::{Machine, Unwatched, Watch};

/// The most events that come before the first line.
pub const MOST_OPENING: u64 = 1_000_000;

/// After how many lines a watch hears again how far a way is.
const TOLD_LINES: u64 = 1 << 15;

/// A run of a program, at one of its moments.
#[derive(Drop)]
pub struct Debugger<'a> {
    pub(crate) debuggee: Debuggee<'a>,
    pub(crate) starts: Starts,
    pub(crate) history: History,
    pub(crate) present: Moment,
    pub(crate) stops: StopPoints,
    /// How many of the sent bytes were shown.
    pub(crate) shown: usize,
}

impl<'a> Debugger<'a> {
    /// The run of a program from a machine that has not moved, at the beginning of its first line.
    pub fn new(
        alloc: Global,
        program: &'a Compiled,
        machine: Machine,
        rom: Rom,
    ) -> Result<Debugger<'a>, AllocError>
        ensures run { IfOk result (λ d. (program_of d.debuggee ≡ Some program.now) × OnRun (first_point (state_of machine) rom) d) }
        // It is at its first line, if it comes to one within `MOST_OPENING` events, with nothing shown, set or watched.
        ensures opens { IfOk result (λ d. IsOpening (first_point (state_of machine) rom) d) }
    {
        let mut debugger = Debugger::at_start(alloc, Debuggee::Source(program), machine, rom)?;
        debugger.next_line(alloc, MOST_OPENING)?;
        Ok(debugger)
    }

    /// The run of a program without a source from a machine that has not moved, at its first instruction.
    pub fn of_prg(alloc: Global, machine: Machine, rom: Rom) -> Result<Debugger<'a>, AllocError>
        ensures run { IfOk result (λ d. (has_no_source d.debuggee ≡ true) × OnRun (first_point (state_of machine) rom) d) }
        ensures start { IfOk result (λ d. IsAtStart d) }
    {
        Debugger::at_start(alloc, Debuggee::Prg, machine, rom)
    }

    // The run of what is debugged from a machine that has not moved, before its first event.
    fn at_start(
        alloc: Global,
        debuggee: Debuggee<'a>,
        machine: Machine,
        rom: Rom,
    ) -> Result<Debugger<'a>, AllocError>
        ensures run { IfOk result (λ d. (d.debuggee ≡ debuggee.entry) × OnRun (first_point (state_of machine) rom) d) }
        ensures start { IfOk result (λ d. IsAtStart d) }
    {
        let starts = Starts::new(alloc, debuggee)?;
        let present = Moment::first(machine, rom);
        let first = Checkpoint::of(alloc, &present)?;
        Ok(Debugger {
            debuggee,
            starts,
            history: History::new(alloc, first),
            present,
            stops: StopPoints::new(alloc),
            shown: 0,
        })
    }

    /// Whether there is no source.
    pub fn has_no_source(&self) -> bool
        ensures { result ≡ has_no_source self.now.debuggee }
    {
        self.debuggee.has_no_source()
    }

    /// The present machine.
    pub fn machine(&self) -> &Machine
        ensures { result.now ≡ self.now.present.machine }
    {
        &self.present.machine
    }

    /// The line that begins here.
    pub fn line_here(&self) -> Option<u16>
        ensures line { result ≡ line_from self.now.debuggee self.now.present.machine.regs.pc }
        // If a compiler made the program, and the run is one from its start, the source goes on at that line after as many
        // lines as were begun, with what the machine holds.
        ensures source { ShowsSource self.now result }
    {
        self.debuggee.line_from(self.present.machine.regs().pc)
    }

    /// How many lines were begun; at the beginning of a line that is the time.
    pub fn begun(&self) -> u64
        ensures { result ≡ begun_by self.now }
    {
        self.present.begun
    }

    /// The values of A to Z.
    pub fn variables(&self) -> Variables
        ensures { result ≡ values_in (state_of self.now.present.machine).mem }
    {
        variables_in(&self.present.machine)
    }

    /// How it stands.
    pub fn standing(&self) -> Reached
        ensures { result ≡ standing_of self.now.starts self.now.present }
    {
        self.present.standing(&self.starts)
    }

    // Runs to the next beginning of a line, by at most `limit` events.
    pub(crate) fn next_line(&mut self, alloc: Global, limit: u64) -> Result<Reached, AllocError>
        ensures run { OnOk result (KeepsRun self.old self.new) }
        ensures stops { OnOk result (self.new.stops ≡ self.old.stops) }
        ensures ends { IfOk result (λ reached. (start : Point) → IsOfRun self.old.starts start self.old.present
            → EndsAt self.old.starts start limit self.old.present reached self.new.present) }
        ensures shown { OnOk result (self.new.shown ≡ self.old.shown) }
        ensures advances { IfOk result (λ reached. Advances reached self.old.present self.new.present) }
        ensures within { OnOk result ((self.old.present.events ≤ self.new.present.events)
            × (self.new.present.events ≤ self.old.present.events + limit)) }
        ensures begun { OnOk result (self.new.present.begun ≤ self.old.present.begun
            + (if is_marked self.old.starts self.old.present.machine.regs.pc then 1 else 0)) }
        ensures stands { IfOk result (λ reached. StandsBy self.old.starts reached self.new.present) }
        ensures limited { IfOk result (λ reached. IsLimited limit reached self.old.present self.new.present) }
    {
        let reached = self.present.to_next_start(&self.starts, limit)?;
        if let Reached::Line = reached {
            self.history.keep(alloc, &self.present)?;
        }
        Ok(reached)
    }

    // How many events are left up to the count `last`.
    pub(crate) fn left(&self, last: u64) -> u64
        ensures { result ≡ last - self.now.present.events }
    {
        last.saturating_sub(self.present.events)
    }

    // Tells a watch now and then how many of `limit` events were taken, if those up to the count `last` are left.
    pub(crate) fn tell_watch<W: Watch>(&self, watch: &mut W, done: u64, limit: u64, last: u64) {
        if done % TOLD_LINES == 0 {
            watch.took(limit.saturating_sub(self.left(last)));
        }
    }

    /// Runs on by `lines` lines, and takes at most `limit` events.
    pub fn next<W: Watch>(
        &mut self,
        alloc: Global,
        lines: u64,
        limit: u64,
        watch: &mut W,
    ) -> Result<Reached, AllocError>
        ensures run { OnOk result (KeepsRun self.old self.new) }
        ensures shown { OnOk result (self.new.shown ≡ self.old.shown) }
        ensures stops { OnOk result (self.new.stops ≡ self.old.stops) }
        ensures lines { IfOk result (λ reached. (start : Point) → OnRun start self.old
            → GoesBy lines self.old.starts start limit reached self.old.present self.new.present) }
        ensures stands { IfOk result (λ reached. StandsBy self.old.starts reached self.new.present) }
    {
        let last = self.present.events.saturating_add(limit);
        for done in 0..lines {
            self.tell_watch(watch, done, limit, last);
            match self.next_line(alloc, self.left(last))? {
                Reached::Line => {}
                reached => return Ok(reached),
            }
        }
        Ok(self.standing())
    }

    /// Goes to a time, on by at most `limit` events, or back.
    pub fn to_time<W: Watch>(
        &mut self,
        alloc: Global,
        time: u64,
        limit: u64,
        watch: &mut W,
    ) -> Result<Reached, AllocError>
        ensures run { OnOk result (KeepsRun self.old self.new) }
        ensures time { IfOk result (λ reached. GoesToTime time limit self.old reached self.new.present) }
        ensures stands { IfOk result (λ reached. StandsBy self.old.starts reached self.new.present) }
        ensures shown { OnOk result (self.new.shown ≡ self.old.shown) }
        ensures stops { OnOk result (self.new.stops ≡ self.old.stops) }
    {
        if time < self.present.begun {
            self.rewind_to(alloc, time)
        } else {
            self.run_to_time(alloc, time, limit, watch)
        }
    }

    // Runs on to a time that has not passed, by at most `limit` events.
    fn run_to_time<W: Watch>(
        &mut self,
        alloc: Global,
        time: u64,
        limit: u64,
        watch: &mut W,
    ) -> Result<Reached, AllocError>
        ensures run { OnOk result (KeepsRun self.old self.new) }
        ensures time { IfOk result (λ reached. IsAtTime time self.old.starts reached self.new.present) }
        ensures few { OnOk result (begun_by self.old ≤ time → begun_by self.new ≤ time) }
        ensures begins { IfOk result (λ reached. (start : Point) → OnRun start self.old
            → BeginsThere self.old.starts start reached self.old.present self.new.present) }
        ensures stands { IfOk result (λ reached. StandsBy self.old.starts reached self.new.present) }
        ensures limited { IfOk result (λ reached. IsLimited limit reached self.old.present self.new.present) }
        ensures shown { OnOk result (self.new.shown ≡ self.old.shown) }
        ensures stops { OnOk result (self.new.stops ≡ self.old.stops) }
    {
        let last = self.present.events.saturating_add(limit);
        for done in 0..u64::MAX {
            if self.present.is_at(&self.starts, time) {
                return Ok(Reached::Line);
            }
            self.tell_watch(watch, done, limit, last);
            match self.next_line(alloc, self.left(last))? {
                Reached::Line => {}
                reached => return Ok(reached),
            }
        }
        Ok(Reached::Limit)
    }

    /// Back to a time that has passed: the run is run again from the newest moment that is kept of before.
    pub fn rewind_to(&mut self, alloc: Global, time: u64) -> Result<Reached, AllocError>
        ensures run { OnOk result (KeepsRun self.old self.new) }
        ensures time { IfOk result (λ reached. IsAtTime time self.old.starts reached self.new.present) }
        ensures back { IfOk result (λ reached. (start : Point) → start.begun ≡ 0 → OnRun start self.old
            → time < begun_by self.old → reached ≡ Line) }
        // From the newest checkpoint it takes few events.
        ensures short { OnOk result (IsShort time self.old self.new.present) }
        ensures stands { IfOk result (λ reached. StandsBy self.old.starts reached self.new.present) }
        ensures shown { OnOk result (self.new.shown ≡ self.old.shown) }
        ensures stops { OnOk result (self.new.stops ≡ self.old.stops) }
    {
        // It is run again no farther than to here.
        let most = self.present.events();
        let newest = self.history.newest_until(time);
        self.rewind_to_checkpoint(alloc, newest)?;
        let reached = self.run_to_time(alloc, time, most, &mut Unwatched)?;
        Ok(reached)
    }

    // Goes back to a checkpoint, by its index; later ones are forgotten.
    fn rewind_to_checkpoint(&mut self, alloc: Global, index: usize) -> Result<(), AllocError>
        ensures run { OnOk result (KeepsRun self.old self.new) }
        ensures shown { OnOk result (self.new.shown ≡ self.old.shown) }
        ensures stops { OnOk result (self.new.stops ≡ self.old.stops) }
        ensures before { OnOk result ((time : ℕ) (start : Point) → IsUntil time self.old.history.later.items
            (vec_len self.old.history.later) index → start.begun ≡ 0 → OnRun start self.old
            → begun_by self.new ≤ time) }
        ensures newest { OnOk result (index ≡ vec_len self.old.history.later
            → self.new.present.events ≡ newest_events self.old.history.first self.old.history.later.items) }
    {
        let Some(checkpoint) = self.history.get(index) else {
            return Ok(());
        };
        let moment = checkpoint.again(alloc, self.present.machine.sent())?;
        self.history.forget_after(index);
        self.present = moment;
        Ok(())
    }

    /// Goes back by `lines` lines. From within a line the first one back is its beginning.
    pub fn previous(&mut self, alloc: Global, lines: u64) -> Result<Reached, AllocError>
        ensures run { OnOk result (KeepsRun self.old self.new) }
        ensures lines { IfOk result (λ reached. RewindsBy lines self.old reached self.new.present) }
        ensures stands { IfOk result (λ reached. StandsBy self.old.starts reached self.new.present) }
        ensures shown { OnOk result (self.new.shown ≡ self.old.shown) }
        ensures stops { OnOk result (self.new.stops ≡ self.old.stops) }
    {
        if lines == 0 || self.present.begun == 0 {
            return Ok(self.standing());
        }
        self.rewind_to(alloc, self.present.begun.saturating_sub(lines))
    }

    /// Runs on by `events` events.
    pub fn step(&mut self, alloc: Global, events: u64) -> Result<Reached, AllocError>
        ensures run { OnOk result (KeepsRun self.old self.new) }
        ensures steps { OnOk result (StepsBy events self.old.present self.new.present) }
        ensures stands { IfOk result (λ reached. reached ≡ standing_of self.old.starts self.new.present) }
        ensures shown { OnOk result (self.new.shown ≡ self.old.shown) }
        ensures stops { OnOk result (self.new.stops ≡ self.old.stops) }
    {
        self.present.step(&self.starts, events)?;
        self.history.keep(alloc, &self.present)?;
        Ok(self.standing())
    }

    /// Adds bytes to the end of the keyboard's text, in each moment of the run.
    pub fn type_text(&mut self, bytes: &[u8]) -> Result<(), AllocError>
        ensures run { OnOk result (KeepsRunTyped bytes.now self.old self.new) }
        ensures shown { self.new.shown ≡ self.old.shown }
        ensures stops { self.new.stops ≡ self.old.stops }
        // The run stays where it is.
        ensures point { OnOk result (self.new.present.events ≡ self.old.present.events) }
    {
        self.present.type_text(bytes)?;
        self.history.type_text(bytes)?;
        Ok(())
    }
}
