//! Web pages of sources and of PRG files.
use crate::reading::settings_for;
use std::rt::Files;
use std::time::Clock;
use tb_engines::Report;
use tb_program_files::{page_file, page_prg_file, title_of};
use tb_program_host::Host;
use tb_program_jobs::{PageJob, Runnable};

/// Writes the page of a source or of a PRG file, under the title that is asked for, or else the file's own.
pub fn page<R: Files + Clock + Print + Eprint + Input + AllocGlobal>(
    host: &mut Host<'_, R>,
    job: &PageJob,
) -> Report {
    let alloc = host.rt.alloc();
    let title = job.title.as_deref();
    let out = job.out.as_str();
    match &job.what {
        Runnable::Source(source) => {
            let title = title_of(title, source.as_str());
            let settings = settings_for(host, source.as_str(), job.options);
            page_file(alloc, host, source.as_str(), out, title, settings)
        }
        Runnable::Prg(prg) => {
            let title = title_of(title, prg.as_str());
            Report::new(alloc, page_prg_file(alloc, host, prg.as_str(), out, title))
        }
    }
}
