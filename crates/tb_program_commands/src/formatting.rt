//! Formatting a source: its tidy text goes to standard output, or takes the source's place.
use crate::reading::notation_at;
use std::rt::Files;
use tb_program_files::{FormatOutcome, check_format, format_in_place};
use tb_program_host::Host;
use tb_program_jobs::{FormatJob, FormatTarget};

/// Formats a source's file. Its texts are read as the words ask for, or as its own do.
pub fn format_file<R: Files + Print + Eprint + Input + AllocGlobal>(
    host: &mut Host<'_, R>,
    job: &FormatJob,
) -> FormatOutcome {
    let alloc = host.rt.alloc();
    let path = job.source.as_str();
    let notation = notation_at(host, path, job.notation);
    match job.target {
        FormatTarget::Output => tb_program_files::format_file(alloc, host, path, notation),
        FormatTarget::InPlace => format_in_place(alloc, host, path, notation),
        FormatTarget::Check => check_format(alloc, host, path, notation),
    }
}
