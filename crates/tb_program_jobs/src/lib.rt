//! What the program `tbc` is asked to do, and why words lead to nothing that it can do.
//!
//! `Job::kept` and `Job::written` are the files of a job (`specs/Files`). `Limit::new` has a limit of 1 to
//! 1,000,000,000 events. `Failure::status` is 4 for want of memory, 3 if a key file, a label file or the clock cannot be
//! read, 1 if a label file has a bad line, and otherwise 2. `room_for_screen` says where the screen can be shown.
//! `clock_seed` is a seed of 1 to 65,535, and another one a millisecond later (`specs/Seeds`). `Job::runs` and
//! `Job::compiles` are what a job runs and compiles, `Job::seed` is the seed of the words (`specs/Sources`), and
//! `Job::is_strict` says whether a fault has a status of its own. `Failure` takes in the errors of what is read before an
//! engine is called (`specs/Failures`). `run_options` and `source_options` are the options of a transcript, both ways, and
//! `settings_of` says how a source is compiled, by the words and by its own (`specs/Settings`).
#![tactic(auto)]

mod failure;
mod files;
mod jobs;
mod numbers;
mod seeds;
mod settings;
mod sources;
mod strictness;
mod terminals;
mod transcripts;
mod typing;

pub use failure::Failure;
pub use jobs::{
    Asked, AsmJob, AssembleJob, BuildExtras, BuildJob, CheckJob, DebugJob, DisJob, DiskJob,
    FormatJob, FormatTarget, Job, JobError, Limit, PageJob, PlayJob, ProfileJob, RenumberJob,
    RunJob, Runnable, Settings, SourceOptions, StepJob, TestJob, Typed, USUAL_STEP,
};
pub use numbers::constants_are_numbers;
pub use seeds::{CLOCK_SEEDS, clock_seed};
pub use settings::{settings_of, size_limit};
pub use sources::Compiles;
pub use tb_assembly_dialects::Dialect;
pub use tb_basic_text::Notation;
pub use tb_compiled::USUAL_SEED;
pub use tb_engine_transcripts::TestForm;
pub use tb_engines::{MOST_EVENTS, USUAL_EVENTS};
pub use terminals::room_for_screen;
pub use transcripts::{is_transcript, run_options, source_of, source_options, transcript_of};
pub use typing::typed_keys;
