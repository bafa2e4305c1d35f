//! What the words of the command line ask for.
ghost use Rattle.std.specs.Prelude.{◌≡◌, ◌≤◌, ◌↔◌, IsSome, IfSome};
ghost use Rattle.tb_engines.specs.Numbers.{MOST_EVENTS, USUAL_EVENTS};

use std::alloc::AllocError;
use tb_assembly_dialects::Dialect;
use tb_basic_text::Notation;
use tb_engine_transcripts::TestForm;
use tb_engines::{MOST_EVENTS, USUAL_EVENTS};

/// The first new line number, and the step to the next one, if the words don't say.
pub const USUAL_STEP: u16 = 10;

/// How many events a run may take: 1 to `MOST_EVENTS`.
#[derive(Clone, Copy, Debug, PartialEq, Eq)]
pub struct Limit {
    pub events: u32,
    ghost at_least_one: { 1 ≤ events },
    ghost at_most: { events ≤ MOST_EVENTS },
}

impl Limit {
    /// What a run may take if the words don't say.
    pub fn default_limit() -> Limit
        ensures { result.events ≡ USUAL_EVENTS }
    {
        Limit {
            events: USUAL_EVENTS,
        }
    }

    /// What a program that is played may take if the words don't say.
    pub fn most() -> Limit
        ensures { result.events ≡ MOST_EVENTS }
    {
        Limit {
            events: MOST_EVENTS,
        }
    }

    /// A limit of `events` events; `None` for 0 and for more than `MOST_EVENTS`.
    pub fn new(events: u32) -> Option<Limit>
        ensures found { IsSome result ↔ ((1 ≤ events) × (events ≤ MOST_EVENTS)) }
        ensures value { IfSome result (λ limit. limit.events ≡ events) }
    {
        if 1 <= events && events <= MOST_EVENTS {
            Some(Limit { events })
        } else {
            None
        }
    }
}

/// What is run: a source file, or a PRG file.
#[derive(Debug, Drop)]
pub enum Runnable {
    /// A Tiny BASIC source, by its file's name.
    Source(String),
    /// A PRG file, by its name.
    Prg(String),
}

/// What is typed: the keyboard text for CHRIN.
#[derive(Debug, Drop)]
pub enum Typed {
    /// Hexadecimal digits.
    Digits(String),
    /// A file of them, by its name.
    File(String),
    /// A text, in which `\n` is a return.
    Text(String),
}

/// How a source is compiled, as far as the words say.
#[derive(Clone, Copy, Debug, Drop)]
pub struct SourceOptions {
    /// The first state of RND, if the words say it.
    pub seed: Option<u16>,
    /// Whether it is refused as too large only if it doesn't fit the memory.
    pub fit: bool,
    /// How its texts are read.
    pub notation: Notation,
}

/// How a program is run.
#[derive(Debug, Drop)]
pub struct Settings {
    pub options: SourceOptions,
    pub keys: Typed,
    /// The answers for GETIN.
    pub answers: String,
    pub limit: Limit,
}

/// The files that a build writes besides the PRG file, if they are wanted.
#[derive(Debug, Drop)]
pub struct BuildExtras {
    /// The label file.
    pub labels: Option<String>,
    /// The listing.
    pub listing: Option<String>,
    /// The assembler that the listing is for, if it isn't `tbc asm`.
    pub dialect: Option<Dialect>,
    /// The map.
    pub map: Option<String>,
    /// The watch file.
    pub watch: Option<String>,
}

/// Where the tidy text of a source goes.
#[derive(Clone, Copy, Debug, PartialEq, Eq)]
pub enum FormatTarget {
    /// To standard output.
    Output,
    /// Into the file of the source, in place of the source.
    InPlace,
    /// Nowhere: only the name of a source that isn't tidy is shown.
    Check,
}

/// A source that is compiled to a PRG file, and what else is written of it.
#[derive(Debug, Drop)]
pub struct BuildJob {
    pub source: String,
    pub out: String,
    pub options: SourceOptions,
    /// The files of the texts that tell of it.
    pub beside: BuildExtras,
    /// Whether a file is replaced that looks like something else.
    pub force: bool,
}

/// A program that is run, and what it sends shown.
#[derive(Debug, Drop)]
pub struct RunJob {
    pub what: Runnable,
    pub settings: Settings,
    /// The seed of rude events, where they are wanted.
    pub rude: Option<u16>,
    /// The label file that names addresses of a PRG file, if there is one.
    pub labels: Option<String>,
    /// Whether a fault of the program has a status of its own.
    pub strict: bool,
}

/// A program that is played: standard input is its keyboard.
#[derive(Debug, Drop)]
pub struct PlayJob {
    pub what: Runnable,
    pub options: SourceOptions,
    /// How many events it may take between two lines.
    pub limit: Limit,
    /// The key file that is written of all that was typed, if it is wanted.
    pub recording: Option<String>,
    /// The transcript that is written of what was typed and sent, if it is wanted. A PRG file has none.
    pub transcript: Option<String>,
    /// Whether the machine's screen is shown, in place of the host form of what is sent.
    pub screen: bool,
    /// Whether a file is replaced that looks like something else.
    pub force: bool,
    /// Whether a fault of the program has a status of its own.
    pub strict: bool,
}

/// Transcripts that are tried.
#[derive(Debug, Drop)]
pub struct TestJob {
    /// Sources, transcripts and folders, in order.
    pub files: Vec<String>,
    /// Whether the transcripts are written anew.
    pub updates: bool,
    /// Whether the lines are shown that no transcript reaches.
    pub counts_lines: bool,
    /// The page that is written of how often each line ran, if it is wanted.
    pub page: Option<String>,
    /// In which form it is told which of them passed.
    pub form: TestForm,
    /// Whether a file is replaced that looks like something else.
    pub force: bool,
}

/// A text that is assembled to a PRG file.
#[derive(Debug, Drop)]
pub struct AsmJob {
    pub text: String,
    pub out: String,
    /// The address of the first byte.
    pub at: String,
    /// Whether a file is replaced that looks like something else.
    pub force: bool,
}

/// A text as people write it that is assembled to a PRG file, and what else is written of it.
#[derive(Debug, Drop)]
pub struct AssembleJob {
    pub text: String,
    pub out: String,
    /// The address of the first byte, if the words say it.
    pub at: Option<String>,
    /// Whether branches that don't reach are made long.
    pub long: bool,
    /// The label file.
    pub labels: Option<String>,
    /// The listing.
    pub listing: Option<String>,
    /// Whether a file is replaced that looks like something else.
    pub force: bool,
}

/// A PRG file that is listed.
#[derive(Debug, Drop)]
pub struct DisJob {
    pub prg: String,
    /// The assembler that the listing is for, if it isn't `tbc asm`.
    pub dialect: Option<Dialect>,
}

/// A program that is stepped through by commands from standard input.
#[derive(Debug, Drop)]
pub struct StepJob {
    pub what: Runnable,
    pub settings: Settings,
}

/// A program that is debugged by commands from standard input.
#[derive(Debug, Drop)]
pub struct DebugJob {
    pub what: Runnable,
    pub settings: Settings,
    /// The seed of rude events, where they are wanted.
    pub rude: Option<u16>,
    /// The label file that names addresses of a PRG file, if there is one.
    pub labels: Option<String>,
}

/// A program that is run, and what its lines took shown, or the instructions of a PRG file.
#[derive(Debug, Drop)]
pub struct ProfileJob {
    pub what: Runnable,
    pub settings: Settings,
    /// The seed of rude events, where they are wanted.
    pub rude: Option<u16>,
    /// The page that is written, if it is wanted. A PRG file has none.
    pub html: Option<String>,
    /// Whether a file is replaced that looks like something else.
    pub force: bool,
}

/// A program whose web page is written.
#[derive(Debug, Drop)]
pub struct PageJob {
    pub what: Runnable,
    pub out: String,
    pub options: SourceOptions,
    /// The page's title, if the words say it.
    pub title: Option<String>,
    /// Whether a file is replaced that looks like something else.
    pub force: bool,
}

/// A disk image that is written.
#[derive(Debug, Drop)]
pub struct DiskJob {
    pub out: String,
    /// The PRG files, in order.
    pub files: Vec<String>,
    /// Whether a file is replaced that looks like something else.
    pub force: bool,
}

/// Sources of which everything that is wrong is shown.
#[derive(Debug, Drop)]
pub struct CheckJob {
    /// The sources, in order.
    pub sources: Vec<String>,
    /// Whether a source is refused as too large only if it doesn't fit the memory.
    pub fit: bool,
    /// How the texts of sources are read.
    pub notation: Notation,
}

/// A source whose tidy text is written.
#[derive(Debug, Drop)]
pub struct FormatJob {
    pub source: String,
    /// How its texts are read.
    pub notation: Notation,
    pub target: FormatTarget,
}

/// A source that is written with other line numbers.
#[derive(Debug, Drop)]
pub struct RenumberJob {
    pub source: String,
    /// How its texts are read.
    pub notation: Notation,
    /// The number of the first line.
    pub first: u16,
    /// How much higher each next number is.
    pub step: u16,
    /// Whether the new text takes the source's place.
    pub in_place: bool,
}

/// A command with its words. File names, key lists and addresses are still texts.
#[derive(Debug, Drop)]
pub enum Job {
    Build(BuildJob),
    Run(RunJob),
    Play(PlayJob),
    Test(TestJob),
    Asm(AsmJob),
    Assemble(AssembleJob),
    Dis(DisJob),
    Step(StepJob),
    Debug(DebugJob),
    Profile(ProfileJob),
    Page(PageJob),
    Disk(DiskJob),
    Check(CheckJob),
    Format(FormatJob),
    Renumber(RenumberJob),
    /// Serves an editor as its language server, by which the texts of sources are read so.
    Lsp(Notation),
    /// Serves an editor as its debug adapter, by which the texts of sources are read so.
    Dap(Notation),
    /// A help text or the version, to be shown.
    Show(String),
}

/// What the words ask for.
#[derive(Debug, Drop)]
pub struct Asked {
    pub job: Job,
    /// Whether its seed is the clock's.
    pub is_by_clock: bool,
}

/// Why there is no job.
#[derive(Debug, Drop)]
pub enum JobError {
    /// What the parser says of the words.
    Words(String),
    /// The words ask for a seed that is made of the clock, and no clock can be read.
    NoClock,
    /// A growth was refused.
    NoMemory,
}

impl From<AllocError> for JobError {
    ghost use Rattle.tb_program_jobs.specs.declared.jobs.JobError.TheVariants.{NoMemory};

    ghost from_gives = { λ _ error. error ≡ NoMemory };

    fn from(_error: AllocError) -> JobError {
        JobError::NoMemory
    }
}
