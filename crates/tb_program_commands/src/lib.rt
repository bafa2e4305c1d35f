//! The commands, over the files of the system and the standard streams, and what is said to a person at a terminal of how
//! each ended.
//!
//! All is safe and total. Which file is opened, which engine is called and that the note is said that helps, only tests
//! show (`tools/try/command_line.sh`). What is said, each exit status and which note helps is promised below, by
//! tb_program_endings, tb_program_jobs and tb_program_reasons.
#![tactic(auto)]

mod assembling;
mod building;
mod checking;
mod debugging;
mod file_notes;
mod finding;
mod formatting;
mod helping;
mod keys;
mod labels;
mod paging;
mod playing;
mod profiling;
mod reading;
mod refusal_notes;
mod renumbering;
mod running;
mod saying;
mod serving;
mod testing;

pub use assembling::assemble;
pub use building::{assemble_at, build};
pub use checking::check_files;
pub use debugging::debug;
pub use formatting::format_file;
pub use helping::{note_seed, say_help};
pub use paging::page;
pub use playing::play;
pub use profiling::profile;
pub use renumbering::renumber_file;
pub use running::{run, step};
pub use saying::say;
pub use serving::{serve_debugger, serve_editor};
pub use testing::test;
