//! Renumbering a source: its new text goes to standard output, or takes the source's place.
use crate::reading::notation_at;
use std::rt::Files;
use tb_program_files::{Numbering, RenumberOutcome, renumber_in_place};
use tb_program_host::Host;
use tb_program_jobs::RenumberJob;

/// Renumbers a source's file. Its texts are read as the words ask for, or as its own do.
pub fn renumber_file<R: Files + Print + Eprint + Input + AllocGlobal>(
    host: &mut Host<'_, R>,
    job: &RenumberJob,
) -> RenumberOutcome {
    let alloc = host.rt.alloc();
    let path = job.source.as_str();
    let notation = notation_at(host, path, job.notation);
    let numbering = Numbering {
        first: job.first,
        step: job.step,
    };
    if job.in_place {
        renumber_in_place(alloc, host, path, notation, numbering)
    } else {
        tb_program_files::renumber_file(alloc, host, path, notation, numbering)
    }
}
