//! Which file could not be read or written, and why.
use crate::saying::say;
use std::alloc::AllocError;
use std::rt::Files;
use tb_engine_files::{FileSystem, Named, STANDARD};
use tb_program_host::{Asked, Host, told_of};
use tb_program_jobs::Job;
use tb_program_reasons::{FileNote, FileReason, Purpose, Told, file_reason, first_clash};

/// Says why the file that was asked for last could not be read or written. Nothing if that is not known.
pub fn file_note<R: Files + Eprint>(host: &Host<'_, R>) {
    if let Some(file) = &host.last {
        note_file(host.rt, file);
    }
}

fn note_file<R: Files + Eprint>(rt: &R, file: &Asked) {
    let told = match file.error {
        Some(error) => Told::failed(error),
        None if file.purpose == Purpose::Output => return,
        None => told_of(rt, file.path.as_str()),
    };
    note_told(rt, file.path.as_str(), file.purpose, told);
    if file.is_kept {
        let path = file.path.as_str();
        let reason = FileReason::Kept;
        say(rt, FileNote { path, reason });
    }
}

// Of standard input and standard output nothing is known.
fn note_told<R: Eprint>(rt: &R, path: &str, purpose: Purpose, told: Told) {
    if path == STANDARD {
        return;
    }
    if let Some(reason) = file_reason(purpose, told) {
        say(rt, FileNote { path, reason });
    }
}

/// Says of each source that is checked why it can't be read.
pub fn noted_sources<R: Files + Eprint>(host: &Host<'_, R>, job: &Job) {
    if let Job::Check(job) = job {
        for path in &job.sources {
            let told = told_of(host.rt, path.as_str());
            note_told(host.rt, path.as_str(), Purpose::Input, told);
        }
    }
}

/// Says which two files are one.
pub fn clash<R: Files + Print + Eprint + Input + AllocGlobal>(host: &Host<'_, R>, job: &Job) {
    // Without memory there is no note.
    let _ = say_clash(host, job);
}

fn say_clash<R: Files + Print + Eprint + Input + AllocGlobal>(
    host: &Host<'_, R>,
    job: &Job,
) -> Result<(), AllocError> {
    let alloc = host.rt.alloc();
    let kept = named(host, job.kept(alloc)?)?;
    let mut paths = Vec::new(alloc);
    for output in job.written(alloc)? {
        paths.push(output.path)?;
    }
    let written = named(host, paths)?;
    if let Some(clash) = first_clash(kept.as_slice(), written.as_slice()) {
        say(host.rt, clash);
    }
    Ok(())
}

fn named<'a, R: Files + Print + Input + AllocGlobal>(
    host: &Host<'_, R>,
    paths: Vec<&'a str>,
) -> Result<Vec<Named<'a>>, AllocError> {
    let alloc = host.rt.alloc();
    let mut named = Vec::new(alloc);
    for path in paths {
        let place = host.place(alloc, path)?;
        named.push(Named { path, place })?;
    }
    Ok(named)
}
