//! The program `tbc`: its words become a job, and an engine does it over files and standard streams.
//!
//! All is safe and total. Which command is called for a job, and the texts on standard error, only tests show
//! (`tools/try/command_line.sh`). The status of each ending is promised (`Ending::status` of tb_program_endings).
#![tactic(auto)]

mod hinting;
mod noting;
mod tasks;

use hinting::hint;
use noting::{note_after, note_before};
use std::io::IsTerminal;
use std::process::ExitCode;
use std::rt::{Env, Files};
use std::time::Clock;
use std::{env, io};
use tb_program_command_line::{Asked, Failure, job};
use tb_program_commands::say_help;
use tb_program_endings::Ending;
use tb_program_host::{Host, drawn_seed};

// The words after the program's own name.
pub fn words<R: Env + AllocGlobal>(rt: &R) -> Result<Vec<String>, Failure> {
    match env::args(rt) {
        Ok(args) => Ok(args.skip(1).collect(rt.alloc())?),
        Err(error) if error.kind() == io::ErrorKind::OutOfMemory => Err(Failure::NoMemory),
        Err(_) => Err(Failure::NotUtf8),
    }
}

fn job_of_words<R: Env + Clock + AllocGlobal>(rt: &R) -> Result<Asked, Failure> {
    let words = words(rt)?;
    Ok(job(rt.alloc(), words.as_slice(), drawn_seed(rt))?)
}

// Which of the standard streams are terminals.
#[derive(Clone, Copy)]
struct Terminals {
    input: bool,
    output: bool,
    errors: bool,
}

// Does what the words ask for, and says how it ended: the exit status.
fn start<R: Files + Env + Clock + Print + Eprint + Input + AllocGlobal + Clone + Drop>(
    rt: &R,
    terminals: Terminals,
) -> u8 {
    let notes = terminals.errors;
    let asked = match job_of_words(rt) {
        Ok(asked) => asked,
        Err(failure) => return refused(rt, failure, notes),
    };
    let job = &asked.job;
    let mut host = Host::new(rt, notes, terminals.output);
    if notes {
        note_before(rt, &asked);
    }
    let done = tasks::perform(&mut host, job, terminals.input && terminals.output);
    let status = told(rt, &done, job.is_strict());
    if notes {
        say_help(&mut host, job, &done);
        note_after(rt, &asked);
    }
    status
}

// Says why there is no job, and what may have been meant.
fn refused<R: Env + Eprint + AllocGlobal>(rt: &R, failure: Failure, notes: bool) -> u8 {
    let _ = eprint!(rt; "{failure}");
    if notes {
        hint(rt, &failure);
    }
    failure.status()
}

// Says how a job ended. Nobody can be told that standard error fails.
fn told<R: Eprint>(rt: &R, done: &Result<Ending, Failure>, is_strict: bool) -> u8 {
    match done {
        Ok(ending) => {
            let _ = eprint!(rt; "{ending}");
            ending.status(is_strict)
        }
        Err(failure) => {
            let _ = eprint!(rt; "{failure}");
            failure.status()
        }
    }
}

fn main(rt: HostRuntime) -> ExitCode {
    let terminals = Terminals {
        input: rt.stdin().is_terminal(),
        output: rt.stdout().is_terminal(),
        errors: rt.stderr().is_terminal(),
    };
    ExitCode::from(start(&rt, terminals))
}
