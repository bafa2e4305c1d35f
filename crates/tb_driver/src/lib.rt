//! The engines of `tbc` with its own compiler, in calls that take no settings but a first state of RND.
//!
//! `build`, `run_text` and `step_text` are `build_within`, `run_within` and `step_within` of tb_engine_sources at the
//! limit of the cost, and say what these say. So `build` writes exactly the PRG that `compile` answers for the source
//! and seed. The other calls are those of tb_engines and tb_engine_streams.
#![tactic(auto)]

mod engines;

pub use engines::{build, run_text, step_text};
pub use tb_engine_streams::{
    InputError, KeyError, KeyFileError, MOST_INPUT, StreamFailure, Tracked, address, host_form,
    key_list, read_input, read_key_file, write_output,
};
pub use tb_engines::{
    End, Failure, Outcome, Refusal, Report, Warnings, asm_text, dis_text, run_prg,
};
