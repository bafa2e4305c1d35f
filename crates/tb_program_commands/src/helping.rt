//! What helps with how a job ended, as it is said. Which help that is, `help_for` of tb_program_endings says.
use crate::file_notes::{clash, file_note, noted_sources};
use crate::refusal_notes::{note_source, note_text};
use crate::saying::say;
use std::rt::Files;
use tb_engine_disk::DiskRefusal;
use tb_engines::Refusal;
use tb_program_endings::{Ending, Help, Note, Ran, help_for};
use tb_program_host::Host;
use tb_program_jobs::{Failure, Job};
use tb_program_reasons::{FileNote, FileReason, disk_note, prg_reason};

/// Says what helps with how a job ended, and where a PRG file stopped, if the place has a name.
pub fn say_help<R: Files + Print + Eprint + Input + AllocGlobal>(
    host: &mut Host<'_, R>,
    job: &Job,
    done: &Result<Ending, Failure>,
) {
    match help_for(job, done) {
        Help::Nothing => {}
        Help::File => file_note(host),
        Help::Sources => noted_sources(host, job),
        Help::Clash => clash(host, job),
        Help::Labels(line) => note_labels(host, line),
        Help::Source(error) => note_source(host, job, error),
        Help::Text(refusal) => note_text(host, job, refusal),
        Help::Prg(refusal) => note_prg(host, refusal),
        Help::Disk(refusal) => note_disk(host, job, refusal),
        Help::Replaced => note_replaced(host),
        Help::End(note) => say(host.rt, note),
    }
    if let Ok(Ending::Run(Ran::Plain(_, Some(place)))) = done {
        say(host.rt, Note::Stopped(place.as_str()));
    }
}

/// Says which seed the clock gave, for a job that compiles a source by it.
pub fn note_seed<R: Eprint>(rt: &R, job: &Job) {
    if let Some(seed) = job.seed() {
        say(rt, Note::Seed(seed));
    }
}

// Of the label file, which was read last.
fn note_labels<R: Eprint>(host: &Host<'_, R>, line: usize) {
    if let Some(file) = &host.last {
        say(host.rt, Note::BadLabel(file.path.as_str(), line));
    }
}

// Of the file that was read last.
fn note_prg<R: Eprint>(host: &Host<'_, R>, refusal: Refusal) {
    if let (Some(file), Some(reason)) = (&host.last, prg_reason(refusal)) {
        let path = file.path.as_str();
        say(host.rt, FileNote { path, reason });
    }
}

// Of the files of a disk that was not made.
fn note_disk<R: Eprint>(host: &Host<'_, R>, job: &Job, refusal: DiskRefusal) {
    if let Job::Disk(job) = job {
        if let Some(note) = disk_note(&job.out, job.files.as_slice(), host.opened, refusal) {
            say(host.rt, note);
        }
    }
}

// Of the file that was written last.
fn note_replaced<R: Eprint>(host: &Host<'_, R>) {
    if let Some(file) = host.last.as_ref().filter(|file| file.is_replaced) {
        let path = file.path.as_str();
        let reason = FileReason::Replaced;
        say(host.rt, FileNote { path, reason });
    }
}
