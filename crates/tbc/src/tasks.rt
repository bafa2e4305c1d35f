//! The commands. Key lists, key files and addresses are looked at before any other file is opened.
use std::io;
use std::rt::{Env, Files};
use std::time::Clock;
use tb_engine_disk::DiskOutcome;
use tb_engine_files::{Barred, Output, may_write};
use tb_engine_streams::{Tracked, write_output};
use tb_engines::{End, Outcome, Report};
use tb_program_command_line::{DisJob, DiskJob, Failure, Job, VERSION};
use tb_program_commands::{
    assemble, assemble_at, build, check_files, debug, format_file, page, play, profile,
    renumber_file, run, serve_debugger, serve_editor, step, test,
};
use tb_program_endings::Ending;
use tb_program_files::{disk_file, list_file};
use tb_program_host::Host;

/// Does what the words ask for, if the files that are to be written may be. A prompt is shown before a debugger's command
/// where that is wanted.
pub fn perform<R: Files + Env + Clock + Print + Eprint + Input + AllocGlobal + Clone + Drop>(
    host: &mut Host<'_, R>,
    job: &Job,
    prompts: bool,
) -> Result<Ending, Failure> {
    look_at_files(host, job)?;
    let rt = host.rt;
    match job {
        Job::Build(job) => Ok(Ending::Report(build(host, job))),
        Job::Run(job) => Ok(Ending::Run(run(host, job)?)),
        Job::Play(job) => Ok(Ending::Run(play(host, job)?)),
        Job::Test(job) => Ok(Ending::Test(test(host, job))),
        Job::Asm(job) => Ok(plain_ending(rt, assemble_at(host, job)?)),
        Job::Assemble(job) => Ok(Ending::Text(assemble(host, job)?)),
        Job::Dis(job) => Ok(plain_ending(rt, list(host, job))),
        Job::Step(job) => Ok(Ending::Report(step(host, job)?)),
        Job::Debug(job) => Ok(plain_ending(rt, debug(host, job, prompts)?)),
        Job::Profile(job) => Ok(Ending::Report(profile(host, job)?)),
        Job::Page(job) => Ok(Ending::Report(page(host, job))),
        Job::Disk(job) => Ok(Ending::Disk(make_disk(host, job))),
        Job::Check(job) => Ok(Ending::Check(check_files(host, job))),
        Job::Format(job) => Ok(Ending::Format(format_file(host, job))),
        Job::Renumber(job) => Ok(Ending::Renumber(renumber_file(host, job))),
        Job::Lsp(notation) => Ok(Ending::Server(serve_editor(rt, VERSION, *notation))),
        Job::Dap(notation) => Ok(Ending::Adapter(serve_debugger(host, *notation))),
        Job::Show(text) => Ok(plain_ending(rt, show(rt, text))),
    }
}

// Whether the files that a job writes may be written, by where they lead and what they look like.
fn look_at_files<R: Files + Print + Input + AllocGlobal>(
    host: &Host<'_, R>,
    job: &Job,
) -> Result<(), Failure> {
    let alloc = host.rt.alloc();
    let written = job.written(alloc)?;
    if written.is_empty() {
        return Ok(());
    }
    let kept = job.kept(alloc)?;
    match may_write(
        alloc,
        host,
        kept.as_slice(),
        written.as_slice(),
        job.is_forced(),
    ) {
        Ok(()) => Ok(()),
        Err(Barred::SameFile) => Err(Failure::SameFile),
        Err(Barred::Source(path)) => Err(Failure::IsSource(String::from_str(alloc, path)?)),
        Err(Barred::Unlike(Output { path, kind })) => {
            Err(Failure::Unlike(String::from_str(alloc, path)?, kind))
        }
        Err(Barred::NoMemory) => Err(Failure::NoMemory),
    }
}

fn list<R: Files + Print + Input + AllocGlobal>(host: &mut Host<'_, R>, job: &DisJob) -> Outcome {
    list_file(host.rt.alloc(), host, &job.prg, job.dialect)
}

fn make_disk<R: Files + Print + Input + AllocGlobal>(
    host: &mut Host<'_, R>,
    job: &DiskJob,
) -> DiskOutcome {
    disk_file(host.rt.alloc(), host, &job.out, job.files.as_slice())
}

// An outcome with no warnings.
fn plain<R: AllocGlobal>(rt: &R, outcome: Outcome) -> Report {
    Report::new(rt.alloc(), outcome)
}

fn plain_ending<R: AllocGlobal>(rt: &R, outcome: Outcome) -> Ending {
    Ending::Report(plain(rt, outcome))
}

fn show<R: Print>(rt: &R, text: &str) -> Outcome {
    match write_output(&mut Tracked::new(io::writer(rt)), text.as_bytes()) {
        Ok(()) => Outcome::Ended(End::Done),
        Err(_) => Outcome::WriteFault,
    }
}
