//! The engines of sources, over any compiler, reader and writer: each reads its input to the end. What a run sends is
//! written as it comes; all else is made first, and then written.
//!
//! - `compile_source` answers the source with the program that the compiler makes of it by the given settings, or its
//!   refusal. `read_source` does so with all that its reader had. That program keeps the source, and begins its lines
//!   where it says (`IsCompilation`: `keeps`, `marks`).
//! - `start_program` is the start machine of a program. Any PRG file may be refused (`prg`), and none is that the
//!   compiler made (`loadable`).
//! - `build_within`, `run_within` and `step_within` have the relation of tb_engines (`answers`, `faults`), over what
//!   comes of a source. All refuse exactly when the compiler does, with its refusal, and show its warnings
//!   (`Compiles`). At a read fault there are no warnings (`warned`).
//! - `build_within` writes exactly the PRG that the compiler answers.
//! - `run_within` writes the host form of what the machine's run of that PRG sent. That is the source's whole output if
//!   the run returned or waits for a key, and a prefix of it at the step limit; the run never goes wrong (`output`).
//!   That clause says of the source alone why it is refused (`IsRefused`); `refusals_are_answers` says that this is
//!   what the compiler answers.
//! - `run_noted`, of which `run_within` is an instance, also tells how the run ended: the line that was running, the line
//!   that called the running routine, or the fault that was sent last (`TellsSource`, `end_note`). It is told wherever
//!   the run's text was written.
//! - `step_within` writes the answers to its commands over the history that begins with that PRG's start machine. It
//!   reads the commands to their end, even if the source is refused. `step_prg` does so for any PRG file that lies in
//!   RAM, with no source, and refuses any other (`StepsPrg`).
//! - `play_compiled` plays the program that `read_source` answers. What was written is the source's output on what was
//!   typed (`output`): all of it if the program returned or waits, and a prefix at the limit. `play_noted` also tells how
//!   the program ended, as `run_noted` does (`TellsPlay`).
//! - `strict_status` is the exit status 8 where a fault is told, and else that of the outcome (`specs/Strictness`).
//! - `bytes_to_fit` answers how many bytes a source takes that compiles where the memory is the limit (`FitsWith`).
#![tactic(auto)]

mod faults;
mod fitting;
mod notes;
mod places;
mod playing;
mod reading;
mod runs;
mod sources;
mod starting;
mod stepping;
mod strictness;

pub use faults::Fault;
pub use fitting::bytes_to_fit;
pub use notes::{EndNote, end_note};
pub use playing::{NotedPlay, play_compiled, play_noted};
pub use reading::{CompiledSource, compile_source, read_source, refusals_are_answers, stop_of};
pub use runs::{NotedRun, SourceRun};
pub use sources::{are_bytes, build_within};
pub use starting::start_program;
pub use stepping::step_prg;
pub use strictness::{FAULTED, faulted_is_number, strict_status};
