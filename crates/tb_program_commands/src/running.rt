//! Running and stepping: standard output shows what a program sends, or answers the commands of standard input.
use crate::keys::keyboard;
use crate::labels::{labels_in, named_place};
use crate::reading::settings_for;
use std::io;
use std::rt::Files;
use std::time::Clock;
use tb_assembly_labels::Label;
use tb_codegen::TinyBasic;
use tb_engine_sources::{SourceRun, step_prg};
use tb_engine_streams::Tracked;
use tb_engines::{Outcome, PrgRun, Report, RunSettings, run_prg_watched};
use tb_kernal::{Outside, Quiet, Rude};
use tb_program_endings::Ran;
use tb_program_files::opened;
use tb_program_host::{Host, Progress};
use tb_program_jobs::{Failure, RunJob, Runnable, Settings, SourceOptions, StepJob};

/// Runs a source, or a PRG file with a label file, beside a rude ROM if one is asked for.
pub fn run<R: Files + Clock + Print + Eprint + Input + AllocGlobal>(
    host: &mut Host<'_, R>,
    job: &RunJob,
) -> Result<Ran, Failure> {
    let run = run_settings(host, &job.settings)?;
    let labels = labels_in(host, job.labels.as_deref())?;
    let labels = labels.as_slice();
    Ok(match job.rude {
        Some(rude) => run_beside(host, job, run, &mut Rude::new(rude), labels),
        None => run_beside(host, job, run, &mut Quiet, labels),
    })
}

// With what the program of a job is run.
fn run_settings<R: Files + Print + Input + AllocGlobal>(
    host: &mut Host<'_, R>,
    settings: &Settings,
) -> Result<RunSettings, Failure> {
    Ok(RunSettings {
        keyboard: keyboard(host, settings)?,
        limit: u64::from(settings.limit.events),
    })
}

fn run_beside<R: Files + Clock + Print + Eprint + Input + AllocGlobal, O: Outside>(
    host: &mut Host<'_, R>,
    job: &RunJob,
    run: RunSettings,
    outside: &mut O,
    labels: &[Label],
) -> Ran {
    match &job.what {
        Runnable::Source(path) => {
            run_source(host, path.as_str(), job.settings.options, run, outside)
        }
        Runnable::Prg(path) => run_prg(host, path.as_str(), run, outside, labels),
    }
}

fn run_source<R: Files + Clock + Print + Eprint + Input + AllocGlobal, O: Outside>(
    host: &mut Host<'_, R>,
    path: &str,
    options: SourceOptions,
    run: RunSettings,
    outside: &mut O,
) -> Ran {
    let rt = host.rt;
    let settings = settings_for(host, path, options);
    let mut file = match opened(host, path) {
        Ok(file) => file,
        Err(outcome) => return Ran::Plain(outcome, None),
    };
    let mut progress = Progress::new(rt, run.limit, host.tells_progress());
    Ran::Source(SourceRun { settings, run }.run_noted(
        &TinyBasic,
        rt.alloc(),
        &mut file,
        &mut Tracked::new(io::writer(rt)),
        outside,
        &mut progress,
    ))
}

fn run_prg<R: Files + Clock + Print + Eprint + Input + AllocGlobal, O: Outside>(
    host: &mut Host<'_, R>,
    path: &str,
    run: RunSettings,
    outside: &mut O,
    labels: &[Label],
) -> Ran {
    let rt = host.rt;
    let mut file = match opened(host, path) {
        Ok(file) => file,
        Err(outcome) => return Ran::Plain(outcome, None),
    };
    let mut progress = Progress::new(rt, run.limit, host.tells_progress());
    let PrgRun { outcome, place } = run_prg_watched(
        rt.alloc(),
        &mut file,
        &mut Tracked::new(io::writer(rt)),
        run,
        outside,
        &mut progress,
    );
    let place = match place {
        Some(address) => named_place(rt, labels, address),
        None => None,
    };
    Ran::Plain(outcome, place)
}

/// Steps through a source or a PRG file by commands from standard input.
pub fn step<R: Files + Print + Eprint + Input + AllocGlobal>(
    host: &mut Host<'_, R>,
    job: &StepJob,
) -> Result<Report, Failure> {
    let run = run_settings(host, &job.settings)?;
    Ok(match &job.what {
        Runnable::Source(path) => step_source(host, path.as_str(), job.settings.options, run),
        Runnable::Prg(path) => {
            let outcome = step_file(host, path.as_str(), run);
            Report::new(host.rt.alloc(), outcome)
        }
    })
}

fn step_source<R: Files + Print + Eprint + Input + AllocGlobal>(
    host: &mut Host<'_, R>,
    path: &str,
    options: SourceOptions,
    run: RunSettings,
) -> Report {
    let rt = host.rt;
    let settings = settings_for(host, path, options);
    let mut file = match opened(host, path) {
        Ok(file) => file,
        Err(outcome) => return Report::new(rt.alloc(), outcome),
    };
    SourceRun { settings, run }.step_within(
        &TinyBasic,
        rt.alloc(),
        &mut file,
        &mut Tracked::new(rt.reader()),
        &mut Tracked::new(io::writer(rt)),
    )
}

fn step_file<R: Files + Print + Input + AllocGlobal>(
    host: &mut Host<'_, R>,
    path: &str,
    run: RunSettings,
) -> Outcome {
    let rt = host.rt;
    let mut file = match opened(host, path) {
        Ok(file) => file,
        Err(outcome) => return outcome,
    };
    step_prg(
        rt.alloc(),
        &mut file,
        &mut Tracked::new(rt.reader()),
        &mut Tracked::new(io::writer(rt)),
        run.keyboard,
        run.limit,
    )
}
