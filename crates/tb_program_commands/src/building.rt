//! Building a source, with all that is written of it, and assembling a text at an address.
use crate::reading::settings_for;
use std::rt::Files;
use std::time::Clock;
use tb_engine_streams::address;
use tb_engines::{Outcome, Report};
use tb_program_files::{BuildNames, assemble_file, build_file};
use tb_program_host::Host;
use tb_program_jobs::{AsmJob, BuildJob, Failure};

/// Builds a source's file.
pub fn build<R: Files + Clock + Print + Eprint + Input + AllocGlobal>(
    host: &mut Host<'_, R>,
    job: &BuildJob,
) -> Report {
    let source = job.source.as_str();
    let settings = settings_for(host, source, job.options);
    let names = BuildNames {
        out: job.out.as_str(),
        labels: job.beside.labels.as_deref(),
        listing: job.beside.listing.as_deref(),
        dialect: job.beside.dialect,
        map: job.beside.map.as_deref(),
        watch: job.beside.watch.as_deref(),
    };
    build_file(host.rt.alloc(), host, source, settings, names)
}

/// Assembles a text's file at an address.
pub fn assemble_at<R: Files + Print + Input + AllocGlobal>(
    host: &mut Host<'_, R>,
    job: &AsmJob,
) -> Result<Outcome, Failure> {
    let Some(at) = address(&job.at) else {
        return Err(Failure::BadAddress);
    };
    Ok(assemble_file(host.rt.alloc(), host, &job.text, &job.out, at))
}
