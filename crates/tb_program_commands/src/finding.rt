//! The transcripts that are tried, by the files that the words name.
use std::alloc::AllocError;
use std::io;
use std::rt::Files;
use tb_program_host::{Kept, kept_at, transcripts_in};
use tb_program_jobs::{is_transcript, source_of, transcript_of};

/// The highest number that a transcript beside a source may have.
const MOST_NUMBER: u16 = 9999;

/// What is tried.
#[derive(Debug, Drop)]
pub enum Case {
    /// A transcript, and its source.
    Transcript(String, String),
    /// Nothing: this file leads to no transcript.
    Nothing(String),
    /// Nothing: this folder can't be read.
    Unread(String),
}

// One more transcript, of this source.
fn push_case<R: AllocGlobal>(
    rt: &R,
    cases: &mut Vec<Case>,
    transcript: String,
    source: &str,
) -> Result<(), AllocError> {
    let source = String::from_str(rt.alloc(), source)?;
    cases.push(Case::Transcript(transcript, source))?;
    Ok(())
}

// One more transcript, of the source that its name says.
fn push_named<R: AllocGlobal>(
    rt: &R,
    cases: &mut Vec<Case>,
    transcript: String,
) -> Result<(), AllocError> {
    let source = source_of(rt.alloc(), transcript.as_str())?;
    push_case(rt, cases, transcript, source.as_str())
}

// Those that are beside a source: its only one, and the numbered ones up to the first that is not there.
fn push_beside<R: Files + AllocGlobal>(
    rt: &R,
    cases: &mut Vec<Case>,
    source: &str,
) -> Result<(), AllocError> {
    for number in 0..=MOST_NUMBER {
        let transcript = transcript_of(rt.alloc(), source, number)?;
        if kept_at(rt, transcript.as_str())? != Kept::Nothing {
            push_case(rt, cases, transcript, source)?;
        } else if 0 < number {
            return Ok(());
        }
    }
    Ok(())
}

// The transcripts of a folder and of the folders in it.
fn push_folder<R: Files + AllocGlobal + Clone + Drop>(
    rt: &R,
    cases: &mut Vec<Case>,
    folder: &str,
) -> Result<(), AllocError> {
    match transcripts_in(rt, folder) {
        Ok(found) => {
            for transcript in found {
                push_named(rt, cases, transcript)?;
            }
            Ok(())
        }
        Err(error) if error.kind() == io::ErrorKind::OutOfMemory => Err(AllocError),
        Err(_) => {
            cases.push(Case::Unread(String::from_str(rt.alloc(), folder)?))?;
            Ok(())
        }
    }
}

// Those to which one file leads.
fn push_cases<R: Files + AllocGlobal + Clone + Drop>(
    rt: &R,
    cases: &mut Vec<Case>,
    file: &str,
) -> Result<(), AllocError> {
    let before = cases.len();
    if kept_at(rt, file)? == Kept::Folder {
        push_folder(rt, cases, file)?;
    } else if is_transcript(file) {
        push_named(rt, cases, String::from_str(rt.alloc(), file)?)?;
    } else {
        push_beside(rt, cases, file)?;
    }
    if cases.len() == before {
        cases.push(Case::Nothing(String::from_str(rt.alloc(), file)?))?;
    }
    Ok(())
}

/// What files lead to, in order.
pub fn cases_of<R: Files + AllocGlobal + Clone + Drop>(
    rt: &R,
    files: &[String],
) -> Result<Vec<Case>, AllocError> {
    let mut cases = Vec::new(rt.alloc());
    for file in files {
        push_cases(rt, &mut cases, file.as_str())?;
    }
    Ok(cases)
}
