//! By which fault a program ended.
ghost use Rattle.std.specs.Prelude.{◌≡◌, ◌++◌, ℕ, List, Some};
ghost use Rattle.tb_kernal.specs.Sending.{KnowsLast};
ghost use Rattle.tb_debug_inspection.specs.Faults.{longest_fault};
ghost use Rattle.tb_memmap.specs.Bytes.{at};
ghost use Rattle.tb_compiled.specs.Compiled.{warnings_of};
ghost use Rattle.tb_engine_sources.specs.Faults.{fault_note_text, fault_of, missing_line, wanted_line};

use crate::places::data_word;
use std::fmt;
use tb_basic_meaning::Warning;
use tb_compiled::Compiled;
use tb_compiled_kept::WANTED;
use tb_debug_inspection::{FaultKind, fault_in, fault_line};
use tb_kernal::Machine;

/// A fault by which a program ended, at a line.
#[derive(Clone, Copy, PartialEq, Eq, Debug, Drop)]
pub struct Fault {
    pub kind: FaultKind,
    pub line: u16,
    /// The line that a jump looked for last.
    pub wanted: i16,
}

impl fmt::Display for Fault {
    ghost output = { λ f. Some (fault_note_text f) };

    fn fmt<W: fmt::Write>(&self, f: &mut fmt::Formatter<W>) -> fmt::Result {
        match self.kind {
            FaultKind::NoSuchLine => {
                write!(f, "fault 1 at line {}: no line {}", self.line, self.wanted)
            }
            kind => write!(
                f,
                "fault {} at line {}: {}",
                kind.number(),
                self.line,
                kind.meaning()
            ),
        }
    }
}

// The line that a jump at a line goes to, if it always goes to one that is missing.
fn missing_line(warnings: &[Warning], line: u16) -> Option<i16>
    ensures { result ≡ missing_line line warnings.now }
{
    match warnings {
        [] => None,
        [first, rest @ ..] => if first.line == line {
            Some(first.target)
        } else {
            missing_line(rest, line)
        },
    }
}

// The line that a jump at a line looked for: by the program, or else by what the search was given last.
fn wanted_line(machine: &Machine, warnings: &[Warning], line: u16) -> i16
    ensures { result ≡ wanted_line warnings.now line (at machine.now.memory) }
{
    match missing_line(warnings, line) {
        Some(target) => target,
        None => data_word(machine.memory(), WANTED).cast_signed(),
    }
}

/// The fault by which a program ended, if it ended by one: its text is what was sent last, with the line that the machine
/// holds. The end of what was sent tells it.
pub fn fault_of(machine: &Machine, program: &Compiled) -> Option<Fault>
    ensures fault { result ≡ fault_of (warnings_of program.now) machine.now.sent (at machine.now.memory) }
    ensures earlier { (earlier : List ℕ) → KnowsLast longest_fault earlier machine.now.sent
        → result ≡ fault_of (warnings_of program.now) (earlier ++ machine.now.sent) (at machine.now.memory) }
{
    let line = fault_line(machine);
    match fault_in(machine) {
        Some(kind) => Some(Fault {
            kind,
            line,
            wanted: wanted_line(machine, program.warnings(), line),
        }),
        None => None,
    }
}
