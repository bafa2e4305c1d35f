//! The debugger's dialogue: each command is a line, and its answer is written and flushed before the next one is read.
//!
//! - `debug` is such a dialogue (`Debugs`). A debugger is at the beginning of the run of a source's program, from the
//!   machine that `run` starts, and its first stop is told. Each line is answered as `respond` answers the command
//!   that it spells after the last move, which an empty line repeats. The answer's text is to the letter
//!   (`specs/Texts`, `specs/Lists`), and lines of the source are shown as they were written. Nothing after the end of
//!   a line is read.
//! - The dialogue ends at `q`, when no line is left, or after 2^64 - 1 lines. A read fault comes only if the reader
//!   failed or a line was too long. A write fault comes only if the writer failed, and then a prefix of the text is
//!   written.
//! - From that machine, `line_here` knows the source's lines, for each program that a compiler made. If no debugger
//!   can be made, nothing is done: memory was wanting, or the program can't be started, and no compiler makes such a
//!   program.
//! - `debug_prg` is such a dialogue over the run of a PRG file (`DebugsPrg`). If the file can't be loaded, nothing is
//!   done. A label's name after `b`, `g` or `m` is taken for its address (`translated`), and an answer ends with the
//!   place by a label (`place_line`).
//! - Both tell a watch how far a way is. No clause speaks of that.
#![tactic(auto)]

mod dialogue;
mod labels;
mod lists;
mod sources;
mod texts;

pub use dialogue::{NamedPrg, Setting, Streams, debug, debug_prg};
pub use tb_debug::Rom;
