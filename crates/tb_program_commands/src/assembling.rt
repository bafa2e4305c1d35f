//! Assembling a text as people write it. All that is wrong with it goes to standard output.
use std::io;
use std::rt::Files;
use tb_assembly_engine::{
    Manner, TextFailure, TextNames, TextOutcome, TextRefusal, assemble_source,
};
use tb_engine_streams::{Done, Tracked, address, write_output};
use tb_program_host::Host;
use tb_program_jobs::{AssembleJob, Failure};

/// The address of the first byte, if neither the words nor the text say it.
const USUAL_ADDRESS: u16 = 0xc000;

/// Assembles a text's file, with long branches where they are wanted. Answers how that ended, if it is not told
/// otherwise.
pub fn assemble<R: Files + Print + Input + AllocGlobal>(
    host: &mut Host<'_, R>,
    job: &AssembleJob,
) -> Result<TextOutcome, Failure> {
    let at = match job.at.as_deref() {
        Some(at) => address(at).ok_or(Failure::BadAddress)?,
        None => USUAL_ADDRESS,
    };
    let names = TextNames {
        out: job.out.as_str(),
        labels: job.labels.as_deref(),
        listing: job.listing.as_deref(),
        is_forced: job.force,
    };
    let manner = Manner { at, long: job.long };
    match assemble_source(host.rt.alloc(), host, job.text.as_str(), manner, names) {
        Ok(()) => Ok(TextOutcome::Ended(Done)),
        Err(TextFailure::Refused(TextRefusal::SameFile)) => Err(Failure::SameFile),
        Err(TextFailure::Refused(TextRefusal::IsSource(path))) => Err(Failure::IsSource(path)),
        Err(TextFailure::Refused(TextRefusal::Unlike(path, kind))) => {
            Err(Failure::Unlike(path, kind))
        }
        Err(failure) => Ok(told(host, failure)),
    }
}

// Writes all that is wrong.
fn told<R: Print>(host: &Host<'_, R>, failure: TextFailure) -> TextOutcome {
    if let TextFailure::Refused(TextRefusal::Said(said)) = &failure {
        if write_output(&mut Tracked::new(io::writer(host.rt)), said).is_err() {
            return TextOutcome::WriteFault;
        }
    }
    TextOutcome::of(Err(failure))
}
