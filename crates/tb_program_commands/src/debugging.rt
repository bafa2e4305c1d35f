//! Debugging: commands come from standard input, and each is answered on standard output before the next one is read.
use crate::keys::keyboard;
use crate::labels::labels_in;
use crate::reading::read_warned;
use std::io;
use std::rt::Files;
use std::time::Clock;
use tb_assembly_labels::Label;
use tb_debug_engine::{NamedPrg, Rom, Setting, Streams, debug_prg};
use tb_engine_streams::{Tracked, read_input};
use tb_engines::Outcome;
use tb_kernal::Keyboard;
use tb_program_files::opened;
use tb_program_host::{Host, Progress};
use tb_program_jobs::{DebugJob, Failure, Runnable, Settings};

// How a program is debugged.
fn setting_of(job: &DebugJob, prompts: bool) -> Setting {
    Setting {
        rom: match job.rude {
            Some(seed) => Rom::Rude(seed),
            None => Rom::Quiet,
        },
        limit: u64::from(job.settings.limit.events),
        prompts,
    }
}

/// Debugs a source, or a PRG file with a label file. A prompt is shown before each command where that is wanted.
pub fn debug<R: Files + Clock + Print + Eprint + Input + AllocGlobal>(
    host: &mut Host<'_, R>,
    job: &DebugJob,
    prompts: bool,
) -> Result<Outcome, Failure> {
    let settings = &job.settings;
    let setting = setting_of(job, prompts);
    let keyboard = keyboard(host, settings)?;
    let labels = labels_in(host, job.labels.as_deref())?;
    Ok(match &job.what {
        Runnable::Source(path) => debug_source(host, path.as_str(), settings, keyboard, setting),
        Runnable::Prg(path) => {
            debug_file(host, path.as_str(), labels.as_slice(), keyboard, setting)
        }
    })
}

// Debugs a source. Its warnings come before the first stop.
fn debug_source<R: Files + Clock + Print + Eprint + Input + AllocGlobal>(
    host: &mut Host<'_, R>,
    path: &str,
    settings: &Settings,
    keyboard: Keyboard,
    setting: Setting,
) -> Outcome {
    let rt = host.rt;
    match read_warned(host, path, settings.options) {
        Ok(source) => tb_debug_engine::debug(
            rt.alloc(),
            &source,
            keyboard,
            setting,
            &mut Streams {
                commands: Tracked::new(rt.reader()),
                writer: Tracked::new(io::writer(rt)),
            },
            &mut Progress::new(rt, setting.limit, host.notes),
        ),
        Err(outcome) => outcome,
    }
}

// Debugs a PRG file, with these labels.
fn debug_file<R: Files + Clock + Print + Eprint + Input + AllocGlobal>(
    host: &mut Host<'_, R>,
    path: &str,
    labels: &[Label],
    keyboard: Keyboard,
    setting: Setting,
) -> Outcome {
    let rt = host.rt;
    let mut file = match opened(host, path) {
        Ok(file) => file,
        Err(outcome) => return outcome,
    };
    match read_input(rt.alloc(), &mut file) {
        Ok(prg) => debug_prg(
            rt.alloc(),
            NamedPrg {
                file: prg.as_slice(),
                labels,
            },
            keyboard,
            setting,
            &mut Streams {
                commands: Tracked::new(rt.reader()),
                writer: Tracked::new(io::writer(rt)),
            },
            &mut Progress::new(rt, setting.limit, host.notes),
        ),
        Err(error) => Outcome::from(error),
    }
}
