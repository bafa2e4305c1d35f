//! The command line of `tbc`: its words become a job.
//!
//! - Each command is found by its name, and by no other (`rows`, `command_named`). The help says the numbers of events
//!   that `Limit` allows (`proofs/Numbers`).
//! - Which job a command gives is a table, by cases (`IsJob` of `specs/Asked`). Each part of a job is the value of an
//!   argument that is named there, or else the usual one, in what the library clap found in the words (`job_of`,
//!   `with_matches`). A run has exactly one of SOURCE and PRG, by its type. For `--seed time` the seed is the one that the
//!   caller has of the clock (`ReadsSeed`).
//! - A first word that is the name of a command but for two neighbours that changed places has that name for a tip
//!   (`swapped_command`); of others clap says what is near.
//! - That clap finds in the words what they say is not said here: its clauses speak of parsers no value of which may
//!   begin with a hyphen, as one of `--type` may. So `job`, which is given the words alone, promises no more than the
//!   limit. The rest only tests show.
#![tactic(auto)]

mod arguments;
mod commands;
mod parser;
mod swaps;
mod taken;
mod values;
mod words;

pub use parser::VERSION;
pub use tb_program_jobs::{
    Asked, BuildExtras, Dialect, DisJob, DiskJob, Failure, FormatTarget, Job, JobError, Limit,
    Notation, Runnable, Settings, TestForm, Typed, USUAL_SEED, room_for_screen, typed_keys,
};
pub use words::job;
