//! What jobs run and compile.
ghost use Rattle.std.specs.Prelude.{◌≡◌, option_map};
ghost use Rattle.tb_program_jobs.specs.Sources as sources;

use crate::jobs::{Job, Runnable, SourceOptions};

/// A source, by its path, and how it is compiled.
#[derive(Clone, Copy, Debug, Drop)]
pub struct Compiles<'a> {
    pub source: &'a str,
    pub options: SourceOptions,
}

// What is compiled of what a job takes, if that is a source.
fn compiled_of(what: &Runnable, options: SourceOptions) -> Option<Compiles<'_>>
    ensures { option_map sources.pair_of result ≡ sources.compiled_of what.now options }
{
    match what {
        Runnable::Source(source) => Some(Compiles {
            source: source.as_str(),
            options,
        }),
        Runnable::Prg(_) => None,
    }
}

impl Job {
    /// What the job runs, plays, steps through, debugs or profiles, if it does.
    pub fn runs(&self) -> Option<&Runnable>
        ensures { option_map (λ r. r.now) result ≡ sources.runs self.now }
    {
        match self {
            Job::Run(job) => Some(&job.what),
            Job::Play(job) => Some(&job.what),
            Job::Step(job) => Some(&job.what),
            Job::Debug(job) => Some(&job.what),
            Job::Profile(job) => Some(&job.what),
            Job::Build(_)
            | Job::Test(_)
            | Job::Asm(_)
            | Job::Assemble(_)
            | Job::Dis(_)
            | Job::Page(_)
            | Job::Disk(_)
            | Job::Check(_)
            | Job::Format(_)
            | Job::Renumber(_)
            | Job::Lsp(_)
            | Job::Dap(_)
            | Job::Show(_) => None,
        }
    }

    /// What the job compiles, and how, if it does. What a source costs doesn't matter where it is renumbered.
    pub fn compiles(&self) -> Option<Compiles<'_>>
        ensures { option_map sources.pair_of result ≡ sources.compiles self.now }
    {
        match self {
            Job::Build(job) => Some(Compiles {
                source: job.source.as_str(),
                options: job.options,
            }),
            Job::Renumber(job) => Some(Compiles {
                source: job.source.as_str(),
                options: SourceOptions {
                    seed: None,
                    fit: true,
                    notation: job.notation,
                },
            }),
            Job::Play(job) => compiled_of(&job.what, job.options),
            Job::Page(job) => compiled_of(&job.what, job.options),
            Job::Run(job) => compiled_of(&job.what, job.settings.options),
            Job::Step(job) => compiled_of(&job.what, job.settings.options),
            Job::Debug(job) => compiled_of(&job.what, job.settings.options),
            Job::Profile(job) => compiled_of(&job.what, job.settings.options),
            Job::Test(_)
            | Job::Asm(_)
            | Job::Assemble(_)
            | Job::Dis(_)
            | Job::Disk(_)
            | Job::Check(_)
            | Job::Format(_)
            | Job::Lsp(_)
            | Job::Dap(_)
            | Job::Show(_) => None,
        }
    }

    /// The seed by which the job compiles a source, if it does and the words say one.
    pub fn seed(&self) -> Option<u16>
        ensures { result ≡ sources.seed_of self.now }
    {
        match self.compiles() {
            Some(compiles) => compiles.options.seed,
            None => None,
        }
    }

    /// Whether the job plays a program.
    pub fn is_played(&self) -> bool
        ensures { result ≡ sources.is_played self.now }
    {
        match self {
            Job::Play(_) => true,
            Job::Build(_)
            | Job::Run(_)
            | Job::Test(_)
            | Job::Asm(_)
            | Job::Assemble(_)
            | Job::Dis(_)
            | Job::Step(_)
            | Job::Debug(_)
            | Job::Profile(_)
            | Job::Page(_)
            | Job::Disk(_)
            | Job::Check(_)
            | Job::Format(_)
            | Job::Renumber(_)
            | Job::Lsp(_)
            | Job::Dap(_)
            | Job::Show(_) => false,
        }
    }
}
