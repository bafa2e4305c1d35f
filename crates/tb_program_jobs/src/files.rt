//! The files of a job: those that must be kept, and those that it writes.
ghost use Rattle.std.specs.Prelude.{◌≡◌, ◌++◌, ◌∷◌, [], IfOk, map, string_bytes};
ghost use Rattle.tb_engine_files.specs.Checks.{put_of};
ghost use Rattle.tb_engine_files.specs.declared.looks.Kind.TheVariants as Kind;
ghost use Rattle.tb_program_jobs.specs.Files.{input_path, is_forced, kept_of, keys_of, output_path, path_of, wanted, wanted_beside, Writes};

use crate::jobs::{BuildExtras, Job, Runnable, Settings, Typed};
use std::alloc::{AllocError, Global};
use tb_engine_files::{Kind, Output, code_kind};
use tb_engine_streams::address;

/// Where standard input is found as a file.
pub const STANDARD_INPUT: &str = "/dev/stdin";

/// Where standard output is found as a file.
pub const STANDARD_OUTPUT: &str = "/dev/stdout";

// What the path of an input stands for.
fn input_path(path: &str) -> &str
    ensures { result.now ≡ input_path path.now }
{
    if path == "-" { STANDARD_INPUT } else { path }
}

// What the path of an output stands for.
fn output_path(path: &str) -> &str
    ensures { result.now ≡ output_path path.now }
{
    if path == "-" { STANDARD_OUTPUT } else { path }
}

// Outputs, and one of a kind behind them, if it is wanted.
fn with_wanted<'a>(
    mut outputs: Vec<Output<'a>>,
    kind: Kind,
    path: &'a Option<String>,
) -> Result<Vec<Output<'a>>, AllocError>
    ensures { IfOk result (λ r. map put_of r.items ≡ map put_of outputs.entry.items ++ wanted kind path.now) }
{
    if let Some(path) = path {
        let path = output_path(path.as_str());
        outputs.push(Output { path, kind })?;
    }
    Ok(outputs)
}

// Paths, and that of a key file behind them, if there is one.
fn with_keys<'a>(mut paths: Vec<&'a str>, keys: &'a Typed) -> Result<Vec<&'a str>, AllocError>
    ensures { IfOk result (λ r. map (λ p. p.now) r.items ≡ map (λ p. p.now) paths.entry.items ++ keys_of keys.now) }
{
    if let Typed::File(file) = keys {
        paths.push(input_path(file.as_str()))?;
    }
    Ok(paths)
}

// The files of a build that are written.
fn written_by_build<'a>(
    alloc: Global,
    out: &'a str,
    beside: &'a BuildExtras,
) -> Result<Vec<Output<'a>>, AllocError>
    ensures { IfOk result (λ r. map put_of r.items ≡ (output_path out.now, Kind.Program) ∷ wanted_beside beside.now) }
{
    let outputs = only(alloc, Kind::Program, out)?;
    let outputs = with_wanted(outputs, Kind::Labels, &beside.labels)?;
    let outputs = with_wanted(outputs, Kind::Listing, &beside.listing)?;
    let outputs = with_wanted(outputs, Kind::Map, &beside.map)?;
    with_wanted(outputs, Kind::Watch, &beside.watch)
}

// Paths, and those of inputs behind them.
fn with_inputs<'a>(mut paths: Vec<&'a str>, files: &'a [String]) -> Result<Vec<&'a str>, AllocError>
    ensures { IfOk result (λ r. map (λ p. p.now) r.items
        ≡ map (λ p. p.now) paths.entry.items ++ map (λ f. input_path (string_bytes f)) files.now) }
{
    for file in files {
        paths.push(input_path(file.as_str()))?;
    }
    Ok(paths)
}

fn one<'a>(alloc: Global, path: &'a str) -> Result<Vec<&'a str>, AllocError>
    ensures { IfOk result (λ r. map (λ p. p.now) r.items ≡ path.entry.now ∷ []) }
{
    let mut paths = Vec::new(alloc);
    paths.push(path)?;
    Ok(paths)
}

// One output of a kind.
fn only<'a>(alloc: Global, kind: Kind, path: &'a str) -> Result<Vec<Output<'a>>, AllocError>
    ensures { IfOk result (λ r. map put_of r.items ≡ (output_path path.entry.now, kind) ∷ []) }
{
    let mut outputs = Vec::new(alloc);
    let path = output_path(path);
    outputs.push(Output { path, kind })?;
    Ok(outputs)
}

// The path of what is run, played, profiled or made a page of.
fn path_of(what: &Runnable) -> &str
    ensures { result.now ≡ input_path (path_of what.now) }
{
    let (Runnable::Source(program) | Runnable::Prg(program)) = what;
    input_path(program.as_str())
}

impl Job {
    /// The paths of the files that the job reads, and of the streams that it uses, if it writes files: none of these may
    /// be one that must be kept.
    pub fn kept(&self, alloc: Global) -> Result<Vec<&str>, AllocError>
        ensures { IfOk result (λ r. map (λ p. p.now) r.items ≡ kept_of self.now) }
    {
        match self {
            Job::Build(job) => one(alloc, input_path(job.source.as_str())),
            Job::Asm(job) => one(alloc, input_path(job.text.as_str())),
            Job::Assemble(job) => one(alloc, input_path(job.text.as_str())),
            Job::Page(job) => one(alloc, path_of(&job.what)),
            Job::Disk(job) => with_inputs(Vec::new(alloc), job.files.as_slice()),
            Job::Test(job) => with_inputs(one(alloc, STANDARD_OUTPUT)?, job.files.as_slice()),
            Job::Play(job) => {
                let mut paths = one(alloc, path_of(&job.what))?;
                paths.push(STANDARD_INPUT)?;
                paths.push(STANDARD_OUTPUT)?;
                Ok(paths)
            }
            Job::Profile(job) => {
                let mut paths = one(alloc, path_of(&job.what))?;
                paths.push(STANDARD_OUTPUT)?;
                with_keys(paths, &job.settings.keys)
            }
            _ => Ok(Vec::new(alloc)),
        }
    }

    /// The files that the job writes.
    pub fn written(&self, alloc: Global) -> Result<Vec<Output<'_>>, AllocError>
        ensures { IfOk result (λ r. Writes self.now (map put_of r.items)) }
    {
        match self {
            Job::Build(job) => written_by_build(alloc, job.out.as_str(), &job.beside),
            Job::Asm(job) => {
                let kind = code_kind(job.out.as_str(), address(&job.at));
                only(alloc, kind, job.out.as_str())
            }
            Job::Page(job) => only(alloc, Kind::Page, job.out.as_str()),
            Job::Disk(job) => only(alloc, Kind::Image, job.out.as_str()),
            Job::Assemble(job) => {
                let outputs = only(alloc, Kind::Code(None), job.out.as_str())?;
                let outputs = with_wanted(outputs, Kind::Labels, &job.labels)?;
                with_wanted(outputs, Kind::Listing, &job.listing)
            }
            Job::Play(job) => {
                let outputs = with_wanted(Vec::new(alloc), Kind::Keys, &job.recording)?;
                with_wanted(outputs, Kind::Transcript, &job.transcript)
            }
            Job::Test(job) => with_wanted(Vec::new(alloc), Kind::Page, &job.page),
            Job::Profile(job) => with_wanted(Vec::new(alloc), Kind::Page, &job.html),
            _ => Ok(Vec::new(alloc)),
        }
    }

    /// Whether a file is replaced that looks like something else.
    pub fn is_forced(&self) -> bool
        ensures { result ≡ is_forced self.now }
    {
        match self {
            Job::Build(job) => job.force,
            Job::Play(job) => job.force,
            Job::Test(job) => job.force,
            Job::Asm(job) => job.force,
            Job::Assemble(job) => job.force,
            Job::Profile(job) => job.force,
            Job::Page(job) => job.force,
            Job::Disk(job) => job.force,
            _ => false,
        }
    }
}
