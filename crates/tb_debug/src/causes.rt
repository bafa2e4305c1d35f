//! Why a way stops, stops that are replaced as a whole, and output that is told once.
ghost use Rattle.std.specs.Prelude.{◌≡◌, drop, length, max, IfOk, OnErr, OnOk};
ghost use Rattle.std.specs.Option.{is_some};
ghost use Rattle.tb_debug.specs.Debuggers.{KeepsRun};
ghost use Rattle.tb_debug.specs.Leaving.{SetsBreakpoints, SetsWatches};
ghost use Rattle.tb_debug.specs.Runs.{shown};
ghost use Rattle.tb_debug.specs.Stopping.{cause_at, cause_by, is_stop};

use crate::debugger::Debugger;
use crate::respond::since;
use std::alloc::{AllocError, Global};
use tb_words::Letter;

/// Why a way on stops at the beginning of a line.
#[derive(Clone, Copy, Debug, PartialEq, Eq, Drop)]
pub enum Cause {
    /// The line has a breakpoint.
    Breakpoint(u16),
    /// The line before it changed a watched variable, this one before all others.
    Watch(Letter),
}

// A breakpoint, or else a watched variable.
fn cause_by(line: Option<u16>, changed: Option<Letter>) -> Option<Cause>
    ensures { result ≡ cause_by line changed }
{
    match (line, changed) {
        (Some(line), _) => Some(Cause::Breakpoint(line)),
        (None, Some(letter)) => Some(Cause::Watch(letter)),
        (None, None) => None,
    }
}

impl<'a> Debugger<'a> {
    /// Why a way on stops here, if it does.
    pub fn cause(&self) -> Option<Cause>
        ensures cause { result ≡ cause_at self.now.debuggee self.now.stops (shown self.now.present) }
        // It is told just where a way on to a breakpoint or a watch stops.
        ensures stop { is_some result ≡ is_stop self.now (shown self.now.present) }
    {
        let values = self.variables();
        cause_by(
            self.stops.broken(self.line_here()),
            self.stops.first_changed(&self.present.opened, &values),
        )
    }

    /// Sets the breakpoints of these lines, and clears all others.
    pub fn set_breakpoints(&mut self, alloc: Global, lines: &[u16]) -> Result<(), AllocError>
        ensures run { KeepsRun self.old self.new }
        ensures set { OnOk result (SetsBreakpoints lines.now self.old self.new) }
        ensures refused { OnErr result (self.new ≡ self.old) }
    {
        self.stops.set_breakpoints(alloc, lines)
    }

    /// Watches these variables, and no others.
    pub fn set_watches(&mut self, alloc: Global, letters: &[Letter]) -> Result<(), AllocError>
        ensures run { KeepsRun self.old self.new }
        ensures set { OnOk result (SetsWatches letters.now self.old self.new) }
        ensures refused { OnErr result (self.new ≡ self.old) }
    {
        self.stops.set_watches(alloc, letters)
    }

    /// What was sent and was never shown before: after going back what is sent again isn't shown again.
    pub fn fresh_output(&mut self, alloc: Global) -> Result<Vec<u8>, AllocError>
        ensures fresh { IfOk result (λ sent. sent.items ≡ drop self.old.shown self.old.present.machine.sent) }
        ensures shown { OnOk result (self.new
            ≡ record self.old { shown = max self.old.shown (length self.old.present.machine.sent) }) }
        ensures refused { OnErr result (self.new ≡ self.old) }
    {
        let sent = self.present.machine.sent();
        let fresh = Vec::from_slice(alloc, since(sent, self.shown))?;
        self.shown = self.shown.max(sent.len());
        Ok(fresh)
    }
}
