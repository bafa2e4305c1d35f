//! A debugger over the run of a program, which goes both ways.
//!
//! Time M is the number of lines that are done. A run is a function of its events, so going back is running again,
//! from the start or from one of the checkpoints that are kept meanwhile.
//!
//! *Runs.* A run with a ROM is a function of its start (`point_at`). A moment is of the run if it shows the point
//! after as many events as it counts (`IsOfRun`). A debugger is on a run if the present moment and all checkpoints are
//! of it (`OnRun`). `Debugger::new` is on the run from its machine, and each command and walk keeps it. Typing keeps
//! it with the same bytes appended to the start's text. A new debugger is at its first line, or has come to none in a
//! million events (`IsOpening`); one without a source has taken no event (`IsAtStart`).
//!
//! *What is debugged* (`specs/Debuggees`) is a program that was compiled, with the lines of its source; or a program
//! without a source, in which each address is a line. What follows is said of both. Without a source, a command that
//! only a source answers (`needs_source`) tells just that, and changes nothing.
//!
//! *Lines.* `line_here` (clause `source`) is about a program that a compiler made, on a run from its start. The line
//! that begins here is the one at which the source goes on after as many lines as were begun, with exactly its output
//! sent. Variables and the lines to return to are the source's (`ShowsLine`).
//!
//! *Stops.* `turn_breakpoint` and `turn_watch` set what was clear and clear what was set, and nothing else, and answer
//! which it was; a growth that is refused changes nothing. Breakpoints are kept in rising order, in which `b` lists
//! them. `set_breakpoints` and `set_watches` replace all of them. `turn_faults` does the same for whether faults stop
//! `c`, which they don't at first. `cause` tells why a way on stops here: the line's breakpoint, or otherwise the
//! first watched variable that the line before changed. `fresh_output` is what was sent beyond all that it ever told.
//!
//! *Where commands lead* (`specs/Begins`, `specs/Stopping`, `specs/Leading`). After each the debugger is in the state
//! that the answer tells (`StandsBy`).
//!
//! - `continue_` (`c`) stops at the first line after the present point that has a breakpoint, or before which a line
//!   gave a watched variable another value. `run_to_line` (`g`) stops at the next beginning of its line. `next` (`n`)
//!   passes as many beginnings as it says.
//! - If faults stop `c` and its way ended by a fault of a line that was begun on it, it goes back to that line's
//!   beginning (`Continues`).
//! - `over` (`j`) also stops at the first line with no more lines to return to than at the present point, and `finish`
//!   (`u`) at the first with fewer (`GoesOver`, `GoesOut`).
//! - Where one of them answers an end or the limit, it has passed no such line, or fewer lines; at an end, `next` may
//!   have passed as many as it says. At the limit, the limit is used up, or 2^64 - 1 events or lines were counted.
//! - `reverse_continue` (`rc`) goes to the newest time to which the present point, or an earlier line's beginning,
//!   leads back. A point leads back to its own time if a breakpoint is there. Otherwise it leads to the time of the
//!   line before it, if that line changed a watched variable. If there is no such time, `rc` goes to 0.
//! - `to_time` and `previous` (`t`, `p`) end at the line at that time, if they end at a line; a way back always does.
//!   `step` (`s`) takes as many events as it says, or fewer if the machine stops.
//!
//! *What commands tell* (`specs/Telling`). One that moves the run tells where it led, what was sent after the bytes
//! that count as shown, whether the limit ended it, and the location. A stop counts everything as shown. `v`, `r`,
//! `o`, `x`, `m` and `i` tell what is in the machine, and `e` the value of an expression over the variables. `f`, `b`
//! and `w` tell what is set now. `b`, `g` and `l` tell that there is no such line exactly if the program has none.
//!
//! *What commands leave* (`specs/Leaving`). What a command does not ask for stays. The state of the debugger after
//! want of memory is only tested.
//!
//! *Checkpoints.* A moment offered at least 131,072 events after the newest checkpoint is kept, an earlier one is not
//! (`History::keep`). There are at most 32, each at least 131,072 events after those before it (`StandsOn`). Each line
//! that begins up to the present begins fewer than 131,072 events after the newest one (`near`). So going back to a
//! time that does not come before the newest checkpoint ends fewer than 131,072 events after it (`rewind_to`, clause
//! `short`). This holds after each walk that answers. When a checkpoint is kept, all others stay, except for one if
//! there are 32 already; which one is not promised. That a step farther back is short is measured.
#![tactic(auto)]

mod answer;
mod breakpoints;
mod causes;
mod debuggee;
mod debugger;
mod events;
mod history;
mod moment;
mod readings;
mod respond;
mod rom;
mod searching;
mod starts;

pub use answer::{Answer, Location, Stand};
pub use breakpoints::StopPoints;
pub use causes::Cause;
pub use debuggee::Debuggee;
pub use debugger::{Debugger, MOST_OPENING};
pub use history::{MOST_CHECKPOINTS, SPACING};
pub use moment::Reached;
pub use rom::Rom;
pub use tb_debug_commands::{Command, last_move, read_after, read_without_source};
pub use tb_debug_inspection::{Value, Variables};
