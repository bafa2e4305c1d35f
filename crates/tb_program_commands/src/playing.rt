//! Playing: standard input is the keyboard, and standard output shows what the program sends.
use crate::reading::read_warned;
use std::alloc::Global;
use std::env::VarError;
use std::rt::{Env, Files};
use std::{env, io};
use tb_basic_options::own_options;
use tb_codegen::TinyBasic;
use tb_compiled::CompileSettings;
use tb_engine_play::{Played, play_file};
use tb_engine_screen::play_file_on_screen;
use tb_engine_sources::{CompiledSource, NotedPlay, NotedRun, play_noted};
use tb_engine_streams::{Tracked, read_input};
use tb_engine_test::{Play, record};
use tb_engine_transcripts::{RunEnd, RunOptions, Transcript, transcript_text};
use tb_engines::{Outcome, Report};
use tb_program_endings::{Ran, shown_fault};
use tb_program_files::{opened, save};
use tb_program_host::Host;
use tb_program_jobs::{
    Failure, MOST_EVENTS, PlayJob, Runnable, USUAL_EVENTS, room_for_screen, run_options,
    settings_of,
};

/// Plays a source or a PRG file, and records what was typed in a key file, and in a transcript what was sent too, where
/// that is wanted.
pub fn play<R: Files + Env + Print + Eprint + Input + AllocGlobal>(
    host: &mut Host<'_, R>,
    job: &PlayJob,
) -> Result<Ran, Failure> {
    if job.screen {
        look_at_terminal(host)?;
    }
    let played = match &job.what {
        Runnable::Source(source) => play_source(host, source.as_str(), job),
        Runnable::Prg(prg) => play_prg(host, prg.as_str(), job).map(unnoted),
    };
    let (outcome, note) = match played {
        Ok((NotedPlay { played, note }, source)) => {
            let outcome = match write_records(host, job, &played, source) {
                Ok(()) => played.outcome,
                Err(outcome) => outcome,
            };
            (outcome, shown_fault(outcome, note))
        }
        Err(outcome) => (outcome, None),
    };
    Ok(Ran::Source(NotedRun {
        report: Report::new(host.rt.alloc(), outcome),
        note,
    }))
}

// A program that was played, and its source's text, if that is needed once more.
type Done = (NotedPlay, Option<Vec<u8>>);

// Of a machine that was played without a source nothing is told.
fn unnoted(played: Played) -> Done {
    (NotedPlay { played, note: None }, None)
}

// Whether the machine's screen can be shown. The size of the terminal is what the environment tells of it.
fn look_at_terminal<R: Env + AllocGlobal>(host: &Host<'_, R>) -> Result<(), Failure> {
    let columns = number_told(host.rt, "COLUMNS")?;
    let lines = number_told(host.rt, "LINES")?;
    room_for_screen(host.shows, columns, lines)
}

// A number that the environment tells, if it does.
fn number_told<R: Env + AllocGlobal>(rt: &R, name: &str) -> Result<Option<usize>, Failure> {
    match env::var(rt, name) {
        Ok(text) => Ok(text.as_str().parse::<usize>().ok()),
        Err(VarError::OutOfMemory) => Err(Failure::NoMemory),
        Err(VarError::NotPresent | VarError::NotUnicode) => Ok(None),
    }
}

// The warnings come before the program starts.
fn play_source<R: Files + Print + Eprint + Input + AllocGlobal>(
    host: &mut Host<'_, R>,
    path: &str,
    job: &PlayJob,
) -> Result<Done, Outcome> {
    let rt = host.rt;
    let limit = u64::from(job.limit.events);
    let CompiledSource { text, program } = read_warned(host, path, job.options)?;
    let source = job.transcript.as_ref().map(|_| text);
    if job.screen {
        let (played, _) = unnoted(shown(rt, program.prg(), limit));
        return Ok((played, source));
    }
    let mut keys = Tracked::new(rt.reader());
    let mut writer = Tracked::new(io::writer(rt));
    let played = play_noted(rt.alloc(), &program, &mut keys, &mut writer, limit);
    Ok((played, source))
}

fn play_prg<R: Files + Print + Input + AllocGlobal>(
    host: &mut Host<'_, R>,
    path: &str,
    job: &PlayJob,
) -> Result<Played, Outcome> {
    let rt = host.rt;
    let limit = u64::from(job.limit.events);
    let prg = read_input(rt.alloc(), &mut opened(host, path)?)?;
    if job.screen {
        return Ok(shown(rt, prg.as_slice(), limit));
    }
    let mut keys = Tracked::new(rt.reader());
    let mut writer = Tracked::new(io::writer(rt));
    Ok(play_file(rt.alloc(), prg.as_slice(), &mut keys, &mut writer, limit))
}

// Plays a PRG file on the machine's screen.
fn shown<R: Print + Input + AllocGlobal>(rt: &R, file: &[u8], limit: u64) -> Played {
    let mut keys = Tracked::new(rt.reader());
    let mut writer = Tracked::new(io::writer(rt));
    play_file_on_screen(rt.alloc(), file, &mut keys, &mut writer, limit)
}

// Writes the files that are asked for: what was typed, and a transcript.
fn write_records<R: Files + Print + Input + AllocGlobal>(
    host: &mut Host<'_, R>,
    job: &PlayJob,
    played: &Played,
    source: Option<Vec<u8>>,
) -> Result<(), Outcome> {
    if let Some(path) = job.recording.as_deref() {
        write_record(host, path, played)?;
    }
    match (job.transcript.as_deref(), source) {
        (Some(path), Some(source)) => write_transcript(host, path, job, played, source),
        _ => Ok(()),
    }
}

// Where there is nothing to record, the file is not opened.
fn write_record<R: Files + Print + Input + AllocGlobal>(
    host: &mut Host<'_, R>,
    path: &str,
    played: &Played,
) -> Result<(), Outcome> {
    match played.recorded(host.rt.alloc())? {
        Some(text) => saved(host, path, text.as_slice()),
        None => Ok(()),
    }
}

fn saved<R: Files + Print + Input + AllocGlobal>(
    host: &mut Host<'_, R>,
    path: &str,
    text: &[u8],
) -> Result<(), Outcome> {
    match save(host, path, text) {
        Outcome::Ended(_) => Ok(()),
        outcome => Err(outcome),
    }
}

// Writes the transcript of a play that ended: what was typed is typed once more. If the program took more than is usual
// from one line to the next, the transcript allows as much.
fn write_transcript<R: Files + Print + Input + AllocGlobal>(
    host: &mut Host<'_, R>,
    path: &str,
    job: &PlayJob,
    played: &Played,
    source: Vec<u8>,
) -> Result<(), Outcome> {
    let Outcome::Ended(_) = played.outcome else {
        return Ok(());
    };
    let alloc = host.rt.alloc();
    let settings = settings_of(job.options, own_options(source.as_slice()));
    let copy = Vec::from_slice(alloc, source.as_slice())?;
    let options = run_options(job);
    let mut transcript = recorded(alloc, copy, settings, played, options)?;
    if transcript.end == RunEnd::Runs && options.limit.is_none() {
        let limit = Some(MOST_EVENTS);
        transcript = recorded(
            alloc,
            source,
            settings,
            played,
            RunOptions { limit, ..options },
        )?;
    }
    let text = transcript_text(alloc, &transcript)?;
    saved(host, path, text.as_slice())
}

fn recorded(
    alloc: Global,
    source: Vec<u8>,
    settings: CompileSettings,
    played: &Played,
    options: RunOptions,
) -> Result<Transcript, Outcome> {
    let play = Play {
        typed: played.typed.as_slice(),
        options,
        limit: options.limit.unwrap_or(USUAL_EVENTS),
    };
    match record(&TinyBasic, alloc, source, settings, play) {
        Ok(transcript) => Ok(transcript),
        Err(failure) => Err(Outcome::of(Err(failure))),
    }
}
