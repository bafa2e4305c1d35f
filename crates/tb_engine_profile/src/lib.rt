//! Profiles of sources: a source is compiled and run, and what each of its lines took is written as a table and as a
//! page. And of PRG files: what the instruction at each address took, as a table.
//!
//! - `profile_source` runs the source's program from its start machine. The table is that of this run, with a row for
//!   each of the program's lines in order. The page is of the same run, and says with what it was called
//!   (`MakesProfile`, `Profiles`, `facts_on`). Rows and what came before the first line are the whole run, since no
//!   two lines of a program begin at one place. A source is refused as `compile_source` refuses it.
//! - `profile_prg` is the table by address of the run that `run_prg` does of a PRG file, which it refuses as `run_prg`
//!   does (`ProfilesPrg`).
#![tactic(auto)]

mod engine;
mod prgs;
mod running;

pub use engine::{Named, Profiled, profile_source};
pub use prgs::profile_prg;
pub use running::Run;
