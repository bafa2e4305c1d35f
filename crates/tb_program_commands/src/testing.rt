//! Testing: transcripts are run one after the other, and it is told which of them passed.
use crate::finding::{Case, cases_of};
use crate::reading::settings_for;
use std::alloc::{AllocError, Global};
use std::rt::Files;
use std::{fmt, io};
use tb_codegen::TinyBasic;
use tb_engine_streams::{Tracked, read_input, write_output};
use tb_engine_test::{
    Counting, Coverage, Differs, Tested, coverage_page, coverage_text, opening, remarks, summary,
    test_source, told, updated,
};
use tb_engine_transcripts::{
    BadLine, RunOptions, Transcript, Unread, read_transcript, transcript_text,
};
use tb_engines::Outcome;
use tb_program_endings::{TestEnd, TestOutcome};
use tb_program_files::{opened, save};
use tb_program_host::Host;
use tb_program_jobs::{TestForm, TestJob, USUAL_EVENTS, source_options};

// No more transcripts than so many are told of at the end.
const MOST_COUNTED: usize = 1_000_000_000;

// Why a transcript is not run, or not written anew.
#[derive(Drop)]
enum Untested {
    /// There is none.
    Nothing,
    /// The first of its lines that is no line of a transcript.
    Bad(BadLine),
    /// How the reading or compiling of its source ended, or the reading or writing of its own file.
    Stopped(Outcome),
}

impl From<Outcome> for Untested {
    fn from(outcome: Outcome) -> Untested {
        Untested::Stopped(outcome)
    }
}

impl From<AllocError> for Untested {
    fn from(_error: AllocError) -> Untested {
        Untested::Stopped(Outcome::NoMemory)
    }
}

impl fmt::Display for Untested {
    fn fmt<W: fmt::Write>(&self, f: &mut fmt::Formatter<W>) -> fmt::Result {
        match self {
            Untested::Nothing => f.write_str("no transcript"),
            Untested::Bad(bad) => bad.fmt(f),
            Untested::Stopped(outcome) => outcome.fmt(f),
        }
    }
}

// What came of the transcripts up to now.
#[derive(Drop)]
struct Tally {
    form: TestForm,
    passed: usize,
    failed: usize,
    has_fault: bool,
    coverage: Vec<Coverage>,
}

impl Tally {
    fn new(alloc: Global, form: TestForm) -> Tally {
        Tally {
            form,
            passed: 0,
            failed: 0,
            has_fault: false,
            coverage: Vec::new(alloc),
        }
    }

    // The number of the next transcript, from 1.
    fn number(&self) -> usize {
        self.passed.saturating_add(self.failed).saturating_add(1)
    }

    fn end(&self) -> TestEnd {
        TestEnd::of(self.failed, self.has_fault)
    }
}

// A text for standard output.
fn show<R: Print>(rt: &R, text: &[u8]) -> Result<(), TestOutcome> {
    match write_output(&mut Tracked::new(io::writer(rt)), text) {
        Ok(()) => Ok(()),
        Err(_) => Err(TestOutcome::WriteFault),
    }
}

// What a file holds.
fn read<R: Files + Print + Input + AllocGlobal>(
    host: &mut Host<'_, R>,
    path: &str,
) -> Result<Vec<u8>, Outcome> {
    let alloc = host.rt.alloc();
    let mut file = opened(host, path)?;
    Ok(read_input(alloc, &mut file)?)
}

fn transcript_at<R: Files + Print + Input + AllocGlobal>(
    host: &mut Host<'_, R>,
    path: &str,
) -> Result<Transcript, Untested> {
    let text = read(host, path)?;
    match read_transcript(host.rt.alloc(), text.as_slice()) {
        Ok(transcript) => Ok(transcript),
        Err(Unread::Bad(bad)) => Err(Untested::Bad(bad)),
        Err(Unread::NoMemory) => Err(Untested::Stopped(Outcome::NoMemory)),
    }
}

// Runs a transcript on a source. The answer has the source's text too, if its lines are counted.
fn source_tested<R: Files + Print + Eprint + Input + AllocGlobal>(
    host: &mut Host<'_, R>,
    source: &str,
    wanted: &Transcript,
    counts_lines: bool,
) -> Result<(Tested, Vec<u8>), Untested> {
    let alloc = host.rt.alloc();
    let settings = settings_for(host, source, source_options(wanted.options));
    let text = read(host, source)?;
    let kept = if counts_lines {
        Vec::from_slice(alloc, text.as_slice())?
    } else {
        Vec::new(alloc)
    };
    let counting = Counting {
        limit: wanted.options.limit.unwrap_or(USUAL_EVENTS),
        counts_lines,
    };
    match test_source(&TinyBasic, alloc, text, settings, wanted, counting) {
        Ok(tested) => Ok((tested, kept)),
        Err(failure) => Err(Untested::Stopped(Outcome::of(Err(failure)))),
    }
}

// Why a transcript is not run, which is told.
#[derive(Clone, Copy, Drop)]
enum Missed {
    /// An input is refused.
    Refused,
    /// A file could not be read or written.
    Fault,
    NoMemory,
}

// Tells why the transcript or the source at a path is not run. Nobody can be told that standard error fails.
fn tell_why<R: Eprint>(rt: &R, path: &str, why: &Untested) -> Missed {
    let missed = match why {
        Untested::Stopped(Outcome::NoMemory) => return Missed::NoMemory,
        Untested::Nothing | Untested::Stopped(Outcome::ReadFault | Outcome::WriteFault) => {
            Missed::Fault
        }
        Untested::Bad(_) | Untested::Stopped(Outcome::Refused(_) | Outcome::Ended(_)) => {
            Missed::Refused
        }
    };
    let _ = eprintln!(rt; "tbc: {path}: {why}");
    missed
}

// Runs the transcript at a path.
fn tested<R: Files + Print + Eprint + Input + AllocGlobal>(
    host: &mut Host<'_, R>,
    transcript: &str,
    source: &str,
    counts_lines: bool,
) -> Result<(Tested, Vec<u8>), Missed> {
    let rt = host.rt;
    let wanted = match transcript_at(host, transcript) {
        Ok(wanted) => wanted,
        Err(why) => return Err(tell_why(rt, transcript, &why)),
    };
    match source_tested(host, source, &wanted, counts_lines) {
        Ok(tested) => Ok(tested),
        Err(why) => Err(tell_why(rt, source, &why)),
    }
}

// Writes a transcript anew, as it ran.
fn update<R: Files + Print + Eprint + Input + AllocGlobal>(
    host: &mut Host<'_, R>,
    path: &str,
    ran: &Transcript,
) -> Result<(), Missed> {
    let rt = host.rt;
    let Ok(text) = transcript_text(rt.alloc(), ran) else {
        return Err(Missed::NoMemory);
    };
    match save(host, path, text.as_slice()) {
        Outcome::Ended(_) => Ok(()),
        outcome => Err(tell_why(rt, path, &Untested::Stopped(outcome))),
    }
}

// Counts how often the lines of a source ran, over all its transcripts.
fn count(
    alloc: Global,
    coverage: &mut Vec<Coverage>,
    source: &str,
    (tested, text): (&Tested, Vec<u8>),
) -> Result<(), AllocError> {
    for counted in coverage.iter_mut() {
        if counted.name.as_str() == source {
            return counted.add(alloc, tested.reached.as_slice());
        }
    }
    let mut counted = Coverage {
        name: String::from_str(alloc, source)?,
        source: text,
        lines: Vec::new(alloc),
    };
    counted.add(alloc, tested.reached.as_slice())?;
    coverage.push(counted)?;
    Ok(())
}

// Tells that a transcript failed.
fn fails<R: Print + AllocGlobal>(
    rt: &R,
    tally: &mut Tally,
    name: &str,
    differs: &Differs,
) -> Result<(), TestOutcome> {
    let text = told(rt.alloc(), tally.form, tally.number(), name, Some(differs))?;
    tally.failed = tally.failed.saturating_add(1);
    show(rt, text.as_slice())
}

// Tells that a transcript passed, or that it was written anew.
fn passes<R: Print + AllocGlobal>(
    rt: &R,
    tally: &mut Tally,
    name: &str,
    is_updated: bool,
) -> Result<(), TestOutcome> {
    let alloc = rt.alloc();
    let number = tally.number();
    tally.passed = tally.passed.saturating_add(1);
    if is_updated {
        return show(rt, updated(alloc, tally.form, number, name)?.as_bytes());
    }
    show(rt, told(alloc, tally.form, number, name, None)?.as_slice())
}

// Tells that a transcript was not run, or not written; why is told already.
fn misses<R: Print + AllocGlobal>(
    rt: &R,
    tally: &mut Tally,
    name: &str,
    missed: Missed,
) -> Result<(), TestOutcome> {
    match missed {
        Missed::NoMemory => return Err(TestOutcome::NoMemory),
        Missed::Fault => tally.has_fault = true,
        Missed::Refused => {}
    }
    let nothing = Differs {
        text: Vec::new(rt.alloc()),
        line: None,
    };
    fails(rt, tally, name, &nothing)
}

// Runs a transcript, and tells what came of it.
fn try_transcript<R: Files + Print + Eprint + Input + AllocGlobal>(
    host: &mut Host<'_, R>,
    job: &TestJob,
    tally: &mut Tally,
    transcript: &str,
    source: &str,
) -> Result<(), TestOutcome> {
    let rt = host.rt;
    let (tested, text) = match tested(host, transcript, source, job.counts_lines) {
        Ok(found) => found,
        Err(missed) => return misses(rt, tally, transcript, missed),
    };
    if job.counts_lines {
        count(rt.alloc(), &mut tally.coverage, source, (&tested, text))?;
    }
    match &tested.differs {
        None => passes(rt, tally, transcript, false),
        Some(_) if job.updates => {
            match update(host, transcript, &tested.ran) {
                Ok(()) => passes(rt, tally, transcript, true),
                Err(missed) => misses(rt, tally, transcript, missed),
            }
        }
        Some(differs) => fails(rt, tally, transcript, differs),
    }
}

fn try_case<R: Files + Print + Eprint + Input + AllocGlobal>(
    host: &mut Host<'_, R>,
    job: &TestJob,
    tally: &mut Tally,
    case: &Case,
) -> Result<(), TestOutcome> {
    let rt = host.rt;
    match case {
        Case::Transcript(transcript, source) => {
            try_transcript(host, job, tally, transcript.as_str(), source.as_str())
        }
        Case::Nothing(path) => {
            let missed = tell_why(rt, path.as_str(), &Untested::Nothing);
            misses(rt, tally, path.as_str(), missed)
        }
        Case::Unread(path) => {
            let missed = tell_why(rt, path.as_str(), &Untested::Stopped(Outcome::ReadFault));
            misses(rt, tally, path.as_str(), missed)
        }
    }
}

// A text of lines; to other programs they are remarks.
fn show_lines<R: Print + AllocGlobal>(
    rt: &R,
    form: TestForm,
    text: &[u8],
) -> Result<(), TestOutcome> {
    match form {
        TestForm::Text => show(rt, text),
        TestForm::Tap => show(rt, remarks(rt.alloc(), text)?.as_slice()),
    }
}

// Tells which lines no transcript reached.
fn tell_lines<R: Files + Print + Eprint + Input + AllocGlobal>(
    host: &mut Host<'_, R>,
    job: &TestJob,
    tally: &mut Tally,
) -> Result<(), TestOutcome> {
    let rt = host.rt;
    if job.counts_lines {
        let text = coverage_text(rt.alloc(), tally.coverage.as_slice())?;
        show_lines(rt, tally.form, text.as_slice())?;
    }
    if let Some(path) = job.page.as_deref() {
        let page = coverage_page(rt.alloc(), tally.coverage.as_slice())?;
        match save(host, path, page.as_slice()) {
            Outcome::Ended(_) => {}
            Outcome::NoMemory => return Err(TestOutcome::NoMemory),
            _ => return Err(TestOutcome::WriteFault),
        }
    }
    Ok(())
}

fn try_all<R: Files + Print + Eprint + Input + AllocGlobal + Clone + Drop>(
    host: &mut Host<'_, R>,
    job: &TestJob,
) -> Result<TestEnd, TestOutcome> {
    let rt = host.rt;
    let cases = cases_of(rt, job.files.as_slice())?;
    let mut tally = Tally::new(rt.alloc(), job.form);
    show(rt, opening(tally.form).as_bytes())?;
    for case in &cases {
        try_case(host, job, &mut tally, case)?;
    }
    tell_lines(host, job, &mut tally)?;
    let passed = tally.passed.min(MOST_COUNTED);
    let failed = tally.failed.min(MOST_COUNTED);
    show(
        rt,
        summary(rt.alloc(), tally.form, passed, failed)?.as_bytes(),
    )?;
    Ok(tally.end())
}

/// Runs the transcripts to which files lead, in order, and tells of each whether it passed; or writes those anew that
/// did not.
pub fn test<R: Files + Print + Eprint + Input + AllocGlobal + Clone + Drop>(
    host: &mut Host<'_, R>,
    job: &TestJob,
) -> TestOutcome {
    match try_all(host, job) {
        Ok(end) => TestOutcome::Ended(end),
        Err(outcome) => outcome,
    }
}
