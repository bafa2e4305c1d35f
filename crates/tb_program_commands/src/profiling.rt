//! Profiles of sources and of PRG files.
use crate::keys::keyboard;
use crate::reading::settings_for;
use std::rt::Files;
use std::time::Clock;
use tb_engine_profile::{Named, Run};
use tb_engines::Report;
use tb_kernal::{Keyboard, Outside, Quiet, Rude};
use tb_program_files::{profile_file, profile_prg_file};
use tb_program_host::{Host, Progress};
use tb_program_jobs::{Failure, ProfileJob, Runnable, Settings};

/// Profiles a source or a PRG file, beside a rude ROM if one is asked for.
pub fn profile<R: Files + Clock + Print + Eprint + Input + AllocGlobal>(
    host: &mut Host<'_, R>,
    job: &ProfileJob,
) -> Result<Report, Failure> {
    let keyboard = keyboard(host, &job.settings)?;
    Ok(match job.rude {
        Some(seed) => {
            let run = run_of(host, &job.settings, keyboard, Rude::new(seed));
            profile_by(host, job, run)
        }
        None => {
            let run = run_of(host, &job.settings, keyboard, Quiet);
            profile_by(host, job, run)
        }
    })
}

fn run_of<'a, R: Clock + Eprint, O: Outside>(
    host: &Host<'a, R>,
    settings: &Settings,
    keyboard: Keyboard,
    outside: O,
) -> Run<O, Progress<'a, R>> {
    let limit = settings.limit.events;
    Run {
        keyboard,
        limit,
        outside,
        watch: Progress::new(host.rt, u64::from(limit), host.notes),
    }
}

fn profile_by<R: Files + Clock + Print + Eprint + Input + AllocGlobal, O: Outside + Drop>(
    host: &mut Host<'_, R>,
    job: &ProfileJob,
    run: Run<O, Progress<'_, R>>,
) -> Report {
    let alloc = host.rt.alloc();
    match &job.what {
        Runnable::Source(source) => {
            let named = Named {
                name: source.as_str(),
                rude: job.rude,
            };
            let settings = settings_for(host, source.as_str(), job.settings.options);
            profile_file(alloc, host, named, job.html.as_deref(), settings, run)
        }
        Runnable::Prg(prg) => {
            let outcome = profile_prg_file(alloc, host, prg.as_str(), run);
            Report::new(alloc, outcome)
        }
    }
}
