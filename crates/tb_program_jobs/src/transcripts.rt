//! The names of transcripts: each is beside its source, and has its name. And their options, by those of jobs.
ghost use Rattle.std.specs.Char.{is_ascii_digit};
ghost use Rattle.std.specs.List.{list_all};
ghost use Rattle.std.specs.Prelude.{◌≡◌, ◌++◌, IfOk, codes, string_bytes};
ghost use Rattle.tb_program_jobs.specs.Transcripts as transcripts;
ghost use Rattle.tb_program_jobs.specs.Transcripts.{EndsAs, IsSourceOf, IsStem, IsTranscriptOf, IsUnnumbered, ending_of, is_number};

use crate::jobs::{PlayJob, SourceOptions};
use std::alloc::{AllocError, Global};
use tb_basic_text::Notation;
use tb_engine_transcripts::RunOptions;
use tb_engines::MOST_EVENTS;

// What the name of a transcript ends in.
const ENDING: &str = ".transcript";

// What the name of a source ends in that has transcripts.
const SOURCE_ENDING: &str = ".bas";

/// Whether a path ends as that of a transcript.
pub fn is_transcript(path: &str) -> bool
    ensures { EndsAs (codes ".transcript") path.now result }
{
    match path.strip_suffix(".transcript") {
        Some(_) => true,
        None => false,
    }
}

// A path without this ending, if it has that.
fn stem_of<'a>(path: &'a str, ending: &str) -> &'a str
    ensures { IsStem ending.now path.now result.now }
{
    path.strip_suffix(ending).unwrap_or(path)
}

// Whether all bytes are digits.
fn are_digits(bytes: &[u8]) -> bool
    ensures { result ≡ list_all is_ascii_digit bytes.now }
{
    bytes.iter().all(|byte| byte.is_ascii_digit())
}

// Whether a text is a number: digits alone, at least one.
fn is_number(text: &str) -> bool
    ensures { result ≡ is_number text.now }
{
    !text.is_empty() && are_digits(text.as_bytes())
}

// A name without the number behind a dot at its end, if it has one.
fn unnumbered(name: &str) -> &str
    ensures { IsUnnumbered name.now result.now }
{
    match name.rsplit_once(".") {
        Some((front, number)) => if is_number(number) { front } else { name },
        None => name,
    }
}

/// The path of the source of a transcript.
pub fn source_of(alloc: Global, transcript: &str) -> Result<String, AllocError>
    ensures { IfOk result (λ source. IsSourceOf transcript.now (string_bytes source)) }
{
    let mut source = String::from_str(alloc, unnumbered(stem_of(transcript, ENDING)))?;
    source.push_str(SOURCE_ENDING)?;
    Ok(source)
}

/// The path of a transcript of a source: of its only one, which has the number 0, or of a further one.
pub fn transcript_of(alloc: Global, source: &str, number: u16) -> Result<String, AllocError>
    ensures { IfOk result (λ name. IsTranscriptOf source.now number (string_bytes name)) }
{
    numbered(alloc, stem_of(source, SOURCE_ENDING), number)
}

// A name with the ending of the transcript of a number.
fn numbered(alloc: Global, stem: &str, number: u16) -> Result<String, AllocError>
    ensures { IfOk result (λ name. string_bytes name ≡ stem.now ++ ending_of number) }
{
    if number == 0 {
        format!(in alloc; "{stem}.transcript")
    } else {
        format!(in alloc; "{stem}.{number}.transcript")
    }
}

/// What the transcript of a play asks for beside what its source does, so that the program is played once more.
pub fn run_options(job: &PlayJob) -> RunOptions
    ensures { result ≡ transcripts.run_options job.now }
{
    RunOptions {
        seed: job.options.seed,
        fits: job.options.fit,
        signs: match job.options.notation {
            Notation::Signs => true,
            Notation::Plain => false,
        },
        limit: if job.limit.events == MOST_EVENTS {
            None
        } else {
            Some(job.limit.events)
        },
        rude: None,
    }
}

/// How a source is compiled by the options of a transcript, as if they stood on the command line.
pub fn source_options(options: RunOptions) -> SourceOptions
    ensures { result ≡ transcripts.source_options options }
{
    SourceOptions {
        seed: options.seed,
        fit: options.fits,
        notation: if options.signs {
            Notation::Signs
        } else {
            Notation::Plain
        },
    }
}
