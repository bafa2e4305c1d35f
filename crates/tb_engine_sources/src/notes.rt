//! What the machine tells at the end of a run.
ghost use Rattle.std.specs.Prelude.{◌≡◌, ℕ, List, Some};
ghost use Rattle.tb_kernal.specs.Machine.{state_of, status};
ghost use Rattle.tb_kernal.specs.Sending.{KnowsLast, with_earlier};
ghost use Rattle.tb_debug_inspection.specs.Faults.{longest_fault};
ghost use Rattle.tb_engine_sources.specs.Notes.{end_note, note_text};

use crate::faults::{Fault, fault_of};
use crate::places::line_of;
use std::fmt;
use tb_compiled::Compiled;
use tb_kernal::{Machine, Status};

// What is said, text by text.
const MORE_EVENTS: &str = "--limit N allows more events";

const PLAY: &str = "tbc play takes keys from the keyboard";

/// What there is to say of the end of a run.
#[derive(Clone, Copy, PartialEq, Eq, Debug, Drop)]
pub enum EndNote {
    /// The program was still running, in this line.
    Running(Option<u16>),
    /// It waits for a key, in this line.
    Waits(Option<u16>),
    /// It ended by a fault.
    Fault(Fault),
}

impl fmt::Display for EndNote {
    ghost output = { λ n. Some (note_text n) };

    fn fmt<W: fmt::Write>(&self, f: &mut fmt::Formatter<W>) -> fmt::Result {
        match self {
            EndNote::Running(Some(line)) => write!(
                f,
                "line {line} was begun last; --limit N allows more events"
            ),
            EndNote::Running(None) => f.write_str(MORE_EVENTS),
            EndNote::Waits(Some(line)) => {
                write!(
                    f,
                    "line {line} waits; tbc play takes keys from the keyboard"
                )
            }
            EndNote::Waits(None) => f.write_str(PLAY),
            EndNote::Fault(fault) => write!(f, "{fault}"),
        }
    }
}

/// What a machine tells that ran a program. Nothing if the program returned without a fault or went wrong. Of what was sent
/// the end is enough.
pub fn end_note(machine: &Machine, program: &Compiled) -> Option<EndNote>
    ensures told { result ≡ end_note program.now (status (state_of machine.now)) machine.now }
    ensures earlier { (earlier : List ℕ) → KnowsLast longest_fault earlier machine.now.sent
        → result ≡ end_note program.now (status (state_of machine.now)) (with_earlier earlier machine.now) }
{
    match machine.status() {
        Status::Running => Some(EndNote::Running(line_of(machine, program))),
        Status::Waits => Some(EndNote::Waits(line_of(machine, program))),
        Status::Returned => fault_of(machine, program).map(EndNote::Fault),
        Status::Wrong(_) => None,
    }
}
