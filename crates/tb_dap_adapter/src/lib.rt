//! A debug adapter that goes both ways: its life, and the dialogue with an editor, with any compiler, over any
//! sources, reader and writer.
//!
//! - `serve` answers frames one after the other, each before the next one is read (`Serves`). Up to a launch it goes
//!   by `Waits`, and then with the program by `Debugs`, until a frame ends the dialogue or the streams do. What was
//!   launched is a debugger on the run of the program from the machine that was started (`IsSession`).
//! - Each request is answered as `Answers` names it, by the stage in which it comes (`barred`). A movement keeps the
//!   run and ends where the debugger's walks do. Typed keys make it the run on all keys so far. What is told of the
//!   program's output is what was sent beyond what was ever told.
//! - Messages have rising numbers from 1 on. If there is no memory for a session, nothing is read or written after the
//!   launch.
//!
//! What editors make of it is tried (`tools/try/adapters.sh`).
#![tactic(auto)]

mod dialogue;
mod greeting;
mod outcome;
mod session;
mod talking;
mod waiting;

pub use dialogue::{Debugging, serve};
pub use outcome::AdapterOutcome;
pub use session::{Session, Stage};
pub use tb_dap_requests::{Plan, Said, Stop, Usual};
