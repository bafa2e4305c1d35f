//! Checking sources: each is opened when its turn comes, and what there is to say of it is written before the next one.
use std::io;
use std::rt::Files;
use tb_codegen::TinyBasic;
use tb_engine_check::{CheckOutcome, CheckSettings, check_sources};
use tb_engine_streams::Tracked;
use tb_program_files::FileSources;
use tb_program_host::Host;
use tb_program_jobs::{CheckJob, size_limit};

/// The sources that are files of the system. What is read of them is noted in no other host.
pub fn sources_of<'a, R>(host: &Host<'a, R>) -> FileSources<Host<'a, R>> {
    FileSources(Host::new(host.rt, host.notes, host.shows))
}

/// Checks sources, and writes what there is to say of them.
pub fn check_files<R: Files + Print + Input + AllocGlobal>(
    host: &Host<'_, R>,
    job: &CheckJob,
) -> CheckOutcome {
    let rt = host.rt;
    let settings = CheckSettings {
        size: size_limit(job.fit),
        notation: job.notation,
    };
    let mut screen = Tracked::new(io::writer(rt));
    let mut sources = sources_of(host);
    check_sources(
        &TinyBasic,
        rt.alloc(),
        &mut sources,
        job.sources.as_slice(),
        &mut screen,
        settings,
    )
}
