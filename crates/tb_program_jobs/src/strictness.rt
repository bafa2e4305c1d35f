//! Which jobs are strict.
ghost use Rattle.std.specs.Prelude.{◌≡◌};
ghost use Rattle.tb_program_jobs.specs.Strictness.{is_strict};

use crate::jobs::Job;

impl Job {
    /// Whether a fault of the program that it runs has a status of its own.
    pub fn is_strict(&self) -> bool
        ensures { result ≡ is_strict self.now }
    {
        match self {
            Job::Run(job) => job.strict,
            Job::Play(job) => job.strict,
            Job::Build(_)
            | Job::Test(_)
            | Job::Asm(_)
            | Job::Assemble(_)
            | Job::Dis(_)
            | Job::Step(_)
            | Job::Debug(_)
            | Job::Profile(_)
            | Job::Page(_)
            | Job::Disk(_)
            | Job::Check(_)
            | Job::Format(_)
            | Job::Renumber(_)
            | Job::Lsp(_)
            | Job::Dap(_)
            | Job::Show(_) => false,
        }
    }
}
