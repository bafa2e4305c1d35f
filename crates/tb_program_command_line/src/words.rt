//! The words of the command line, read with `clap`: they become a job.
ghost use Rattle.std.specs.Prelude.{ℕ, ◌≡◌, ◌∷◌, IfOk, Option, codes, string_bytes};
ghost use Rattle.clap.specs.Words.{found_of};
ghost use Rattle.tb_program_jobs.specs.Limits.{IsWithinLimit};
ghost use Rattle.tb_program_command_line.specs.Asked.{IsAsked, IsJob, IsPage, IsPageOf, IsStem, IsUsualPage, first_out_in, out_in};
ghost use Rattle.tb_program_command_line.specs.declared.commands.CommandName.TheVariants as command;
ghost use Rattle.clap.specs.declared.parser.matches.Found.{Found};

use crate::arguments::{
    ASSEMBLY_OUT, AT, BUILD_OUT, DISK_OUT, DISK_OUTPUT, FIRST_LINE, LABELS, LINE_STEP, LIST,
    ORIGIN, OUT, OUTPUT, PAGE, PAGE_OUT, PLAY_LIMIT, PRG_FILE, PRG_FILES, PRG_LABELS, REACHED_PAGE,
    RECORD, RECORDED_TRANSCRIPT, SOURCE, SOURCE_OR_PRG, SOURCES, TESTED_FILES, TEXT, TITLE,
};
use crate::commands::{CommandName, command_named, rows};
use crate::parser::{VERSION, parser};
use crate::swaps::swap_text;
use crate::values::{
    dialect_of, extras_of, first_text, fit_of, force_of, form_of, in_place_of, is_by_clock,
    limit_of, line_number_of, lines_of, long_of, notation_of, optional_text, options_of, rude_of,
    runnable_of, screen_of, settings_of, strict_of, target_of, text, texts, update_of,
};
use clap::ArgMatches;
use clap::error::ErrorKind;
use std::alloc::{AllocError, Global};
use std::convert::AsStr;
use tb_engine_files::{STANDARD, usual_out};
use tb_program_jobs::{
    Asked, AsmJob, AssembleJob, BuildJob, CheckJob, DebugJob, DisJob, DiskJob, FormatJob, Job,
    JobError, Limit, PageJob, PlayJob, ProfileJob, RenumberJob, RunJob, Runnable, StepJob, TestJob,
};

// What is said where a page is named twice, in the parser's form.
const TWO_PAGES: &str =
    "error: the argument '[OUT]' cannot be used with '-o <OUT>'\n\nFor more information, try '--help'.\n";

/// Reads the words after the program's own name. The clock's seed is the one that `time` stands for.
pub fn job<S: AsStr>(alloc: Global, words: &[S], clock: Option<u16>) -> Result<Asked, JobError>
    ensures { IfOk result (λ asked. IsWithinLimit asked.job) }
{
    match parser(alloc, words)?.try_get_matches_from(words) {
        Ok(matches) => with_matches(alloc, &matches, clock),
        Err(error) => without_matches(alloc, &error, words),
    }
}

// A name that is in no row of the table is a fault of the words.
fn with_matches(
    alloc: Global,
    matches: &ArgMatches<'_>,
    clock: Option<u16>,
) -> Result<Asked, JobError>
    ensures limit { IfOk result (λ asked. IsWithinLimit asked.job) }
    ensures asked { IfOk result (IsAsked clock matches.now) }
{
    let Some((name, found)) = matches.subcommand() else {
        return Err(JobError::Words(String::new(alloc)));
    };
    let Some(command) = command_named(rows(), name) else {
        return Err(JobError::Words(String::new(alloc)));
    };
    Ok(Asked {
        job: job_of(alloc, command, found, clock)?,
        is_by_clock: is_by_clock(found),
    })
}

// What is said of a first word that is nearly a command.
fn tip_for<S: AsStr>(alloc: Global, words: &[S]) -> Result<Option<String>, AllocError> {
    match words {
        [word, ..] => swap_text(alloc, word.as_str()),
        [] => Ok(None),
    }
}

// A help text is asked for; anything else is a fault.
fn without_matches<S: AsStr>(
    alloc: Global,
    error: &clap::Error,
    words: &[S],
) -> Result<Asked, JobError>
    ensures { IfOk result (λ asked. IsWithinLimit asked.job) }
{
    if error.kind() == ErrorKind::OutOfMemory {
        return Err(JobError::NoMemory);
    }
    if error.kind() == ErrorKind::InvalidSubcommand
        && let Some(text) = tip_for(alloc, words)?
    {
        return Err(JobError::Words(text));
    }
    let text = match format!(in alloc; "{error}") {
        Ok(text) => text,
        Err(_) => return Err(JobError::NoMemory),
    };
    if error.use_stderr() {
        Err(JobError::Words(text))
    } else {
        Ok(Asked {
            job: Job::Show(text),
            is_by_clock: false,
        })
    }
}

fn job_of(
    alloc: Global,
    command: CommandName,
    found: &ArgMatches<'_>,
    clock: Option<u16>,
) -> Result<Job, JobError>
    ensures limit { IfOk result IsWithinLimit }
    ensures asked { IfOk result (IsJob clock command (found_of found.now)) }
{
    match command {
        CommandName::Build => build_job(alloc, found, clock),
        CommandName::Run => run_job(alloc, found, clock),
        CommandName::Play => play_job(alloc, found, clock),
        CommandName::Test => test_job(alloc, found),
        CommandName::Asm => asm_job(alloc, found),
        CommandName::Assemble => assemble_job(alloc, found),
        CommandName::Dis => dis_job(alloc, found),
        CommandName::Step => step_job(alloc, found, clock),
        CommandName::Debug => debug_job(alloc, found, clock),
        CommandName::Profile => profile_job(alloc, found, clock),
        CommandName::Page => page_job(alloc, found, clock),
        CommandName::Disk => disk_job(alloc, found),
        CommandName::Check => check_job(alloc, found),
        CommandName::Format => format_job(alloc, found),
        CommandName::Renumber => renumber_job(alloc, found),
        CommandName::Lsp => Ok(Job::Lsp(notation_of(found))),
        CommandName::Dap => Ok(Job::Dap(notation_of(found))),
        CommandName::Version => version_job(alloc),
    }
}

fn build_job(alloc: Global, found: &ArgMatches<'_>, clock: Option<u16>) -> Result<Job, JobError>
    ensures limit { IfOk result IsWithinLimit }
    ensures asked { IfOk result (IsJob clock command.Build (found_of found.now)) }
{
    let source = text(alloc, found, &SOURCE)?;
    let out = match first_text(alloc, found, &OUTPUT, &BUILD_OUT)? {
        Some(out) => out,
        None => usual_out(alloc, source.as_str())?,
    };
    Ok(Job::Build(BuildJob {
        source,
        out,
        options: options_of(alloc, found, clock)?,
        beside: extras_of(alloc, found)?,
        force: force_of(found),
    }))
}

fn run_job(alloc: Global, found: &ArgMatches<'_>, clock: Option<u16>) -> Result<Job, JobError>
    ensures limit { IfOk result IsWithinLimit }
    ensures asked { IfOk result (IsJob clock command.Run (found_of found.now)) }
{
    Ok(Job::Run(RunJob {
        what: runnable_of(alloc, found)?,
        settings: settings_of(alloc, found, clock)?,
        rude: rude_of(found),
        labels: optional_text(alloc, found, &PRG_LABELS)?,
        strict: strict_of(found),
    }))
}

fn play_job(alloc: Global, found: &ArgMatches<'_>, clock: Option<u16>) -> Result<Job, JobError>
    ensures limit { IfOk result IsWithinLimit }
    ensures asked { IfOk result (IsJob clock command.Play (found_of found.now)) }
{
    Ok(Job::Play(PlayJob {
        what: runnable_of(alloc, found)?,
        options: options_of(alloc, found, clock)?,
        limit: limit_of(found, &PLAY_LIMIT, Limit::most()),
        recording: optional_text(alloc, found, &RECORD)?,
        transcript: optional_text(alloc, found, &RECORDED_TRANSCRIPT)?,
        screen: screen_of(found),
        force: force_of(found),
        strict: strict_of(found),
    }))
}

fn test_job(alloc: Global, found: &ArgMatches<'_>) -> Result<Job, JobError>
    ensures limit { IfOk result IsWithinLimit }
    ensures asked { (clock : Option ℕ) → IfOk result (IsJob clock command.Test (found_of found.now)) }
{
    Ok(Job::Test(TestJob {
        files: texts(alloc, found, &TESTED_FILES)?,
        updates: update_of(found),
        counts_lines: lines_of(found),
        page: optional_text(alloc, found, &REACHED_PAGE)?,
        form: form_of(found),
        force: force_of(found),
    }))
}

fn asm_job(alloc: Global, found: &ArgMatches<'_>) -> Result<Job, JobError>
    ensures limit { IfOk result IsWithinLimit }
    ensures asked { (clock : Option ℕ) → IfOk result (IsJob clock command.Asm (found_of found.now)) }
{
    Ok(Job::Asm(AsmJob {
        text: text(alloc, found, &TEXT)?,
        out: first_text(alloc, found, &OUTPUT, &OUT)?.unwrap_or(String::new(alloc)),
        at: text(alloc, found, &AT)?,
        force: force_of(found),
    }))
}

// A path without this ending.
fn stem_of<'a>(path: &'a str, ending: &str) -> &'a str
    ensures { IsStem ending.now path.now result.now }
{
    path.strip_suffix(ending).unwrap_or(path)
}

fn assemble_job(alloc: Global, found: &ArgMatches<'_>) -> Result<Job, JobError>
    ensures limit { IfOk result IsWithinLimit }
    ensures asked { (clock : Option ℕ) → IfOk result (IsJob clock command.Assemble (found_of found.now)) }
{
    let text = text(alloc, found, &TEXT)?;
    let out = match first_text(alloc, found, &OUTPUT, &ASSEMBLY_OUT)? {
        Some(out) => out,
        None => usual_out(alloc, stem_of(text.as_str(), ".asm"))?,
    };
    Ok(Job::Assemble(AssembleJob {
        text,
        out,
        at: optional_text(alloc, found, &ORIGIN)?,
        long: long_of(found),
        labels: optional_text(alloc, found, &LABELS)?,
        listing: optional_text(alloc, found, &LIST)?,
        force: force_of(found),
    }))
}

fn dis_job(alloc: Global, found: &ArgMatches<'_>) -> Result<Job, JobError>
    ensures limit { IfOk result IsWithinLimit }
    ensures asked { (clock : Option ℕ) → IfOk result (IsJob clock command.Dis (found_of found.now)) }
{
    Ok(Job::Dis(DisJob {
        prg: text(alloc, found, &PRG_FILE)?,
        dialect: dialect_of(found),
    }))
}

fn step_job(alloc: Global, found: &ArgMatches<'_>, clock: Option<u16>) -> Result<Job, JobError>
    ensures limit { IfOk result IsWithinLimit }
    ensures asked { IfOk result (IsJob clock command.Step (found_of found.now)) }
{
    Ok(Job::Step(StepJob {
        what: runnable_of(alloc, found)?,
        settings: settings_of(alloc, found, clock)?,
    }))
}

fn debug_job(alloc: Global, found: &ArgMatches<'_>, clock: Option<u16>) -> Result<Job, JobError>
    ensures limit { IfOk result IsWithinLimit }
    ensures asked { IfOk result (IsJob clock command.Debug (found_of found.now)) }
{
    Ok(Job::Debug(DebugJob {
        what: runnable_of(alloc, found)?,
        settings: settings_of(alloc, found, clock)?,
        rude: rude_of(found),
        labels: optional_text(alloc, found, &PRG_LABELS)?,
    }))
}

fn profile_job(alloc: Global, found: &ArgMatches<'_>, clock: Option<u16>) -> Result<Job, JobError>
    ensures limit { IfOk result IsWithinLimit }
    ensures asked { IfOk result (IsJob clock command.Profile (found_of found.now)) }
{
    Ok(Job::Profile(ProfileJob {
        what: runnable_of(alloc, found)?,
        settings: settings_of(alloc, found, clock)?,
        rude: rude_of(found),
        html: optional_text(alloc, found, &PAGE)?,
        force: force_of(found),
    }))
}

// The page of a file that has this ending, if no other is named.
fn usual_page(alloc: Global, path: &str, ending: &str) -> Result<String, AllocError>
    ensures { IfOk result (λ page. IsUsualPage ending.now path.now (string_bytes page)) }
{
    if path == STANDARD {
        return String::from_str(alloc, STANDARD);
    }
    let mut page = String::from_str(alloc, stem_of(path, ending))?;
    page.push_str(".html")?;
    Ok(page)
}

// The page of a source: by `-o` or OUT, and else the usual one.
fn page_of_source(alloc: Global, found: &ArgMatches<'_>, source: &str) -> Result<String, JobError>
    ensures { IfOk result (λ page. IsPage (out_in (found_of found.now)) (codes ".bas") source.now (string_bytes page)) }
{
    Ok(match first_text(alloc, found, &OUTPUT, &PAGE_OUT)? {
        Some(out) => out,
        None => usual_page(alloc, source, ".bas")?,
    })
}

// The page of a PRG file: by `-o` or the word in the place of SOURCE, and else the usual one. Both at once are refused.
fn page_of_prg(alloc: Global, found: &ArgMatches<'_>, prg: &str) -> Result<String, JobError>
    ensures { IfOk result (λ page. IsPage (first_out_in (found_of found.now)) (codes ".prg") prg.now (string_bytes page)) }
{
    if found.get_str(OUTPUT.name).is_some() && found.get_str(SOURCE_OR_PRG.name).is_some() {
        return Err(JobError::Words(String::from_str(alloc, TWO_PAGES)?));
    }
    Ok(match first_text(alloc, found, &OUTPUT, &SOURCE_OR_PRG)? {
        Some(out) => out,
        None => usual_page(alloc, prg, ".prg")?,
    })
}

// The page of what is played on it.
fn page_out(alloc: Global, found: &ArgMatches<'_>, what: &Runnable) -> Result<String, JobError>
    ensures { IfOk result (IsPageOf (found_of found.now) what.now) }
{
    match what {
        Runnable::Source(source) => page_of_source(alloc, found, source.as_str()),
        Runnable::Prg(prg) => page_of_prg(alloc, found, prg.as_str()),
    }
}

fn page_job(alloc: Global, found: &ArgMatches<'_>, clock: Option<u16>) -> Result<Job, JobError>
    ensures limit { IfOk result IsWithinLimit }
    ensures asked { IfOk result (IsJob clock command.Page (found_of found.now)) }
{
    let what = runnable_of(alloc, found)?;
    let out = page_out(alloc, found, &what)?;
    Ok(Job::Page(PageJob {
        what,
        out,
        options: options_of(alloc, found, clock)?,
        title: optional_text(alloc, found, &TITLE)?,
        force: force_of(found),
    }))
}

// Files, and one before them.
fn with_first(
    alloc: Global,
    first: String,
    mut others: Vec<String>,
) -> Result<Vec<String>, AllocError>
    ensures { IfOk result (λ files. files.items ≡ first ∷ others.items) }
{
    let mut files = Vec::new(alloc);
    files.push(first)?;
    files.append(&mut others)?;
    Ok(files)
}

fn disk_job(alloc: Global, found: &ArgMatches<'_>) -> Result<Job, JobError>
    ensures limit { IfOk result IsWithinLimit }
    ensures asked { (clock : Option ℕ) → IfOk result (IsJob clock command.Disk (found_of found.now)) }
{
    let first = text(alloc, found, &DISK_OUT)?;
    let others = texts(alloc, found, &PRG_FILES)?;
    let force = force_of(found);
    match optional_text(alloc, found, &DISK_OUTPUT)? {
        Some(out) => {
            let files = with_first(alloc, first, others)?;
            Ok(Job::Disk(DiskJob { out, files, force }))
        }
        None => Ok(Job::Disk(DiskJob {
            out: first,
            files: others,
            force,
        })),
    }
}

fn check_job(alloc: Global, found: &ArgMatches<'_>) -> Result<Job, JobError>
    ensures limit { IfOk result IsWithinLimit }
    ensures asked { (clock : Option ℕ) → IfOk result (IsJob clock command.Check (found_of found.now)) }
{
    Ok(Job::Check(CheckJob {
        sources: texts(alloc, found, &SOURCES)?,
        fit: fit_of(found),
        notation: notation_of(found),
    }))
}

fn format_job(alloc: Global, found: &ArgMatches<'_>) -> Result<Job, JobError>
    ensures limit { IfOk result IsWithinLimit }
    ensures asked { (clock : Option ℕ) → IfOk result (IsJob clock command.Format (found_of found.now)) }
{
    Ok(Job::Format(FormatJob {
        source: text(alloc, found, &SOURCE)?,
        notation: notation_of(found),
        target: target_of(found),
    }))
}

fn renumber_job(alloc: Global, found: &ArgMatches<'_>) -> Result<Job, JobError>
    ensures limit { IfOk result IsWithinLimit }
    ensures asked { (clock : Option ℕ) → IfOk result (IsJob clock command.Renumber (found_of found.now)) }
{
    Ok(Job::Renumber(RenumberJob {
        source: text(alloc, found, &SOURCE)?,
        notation: notation_of(found),
        first: line_number_of(found, &FIRST_LINE),
        step: line_number_of(found, &LINE_STEP),
        in_place: in_place_of(found),
    }))
}

fn version_job(alloc: Global) -> Result<Job, JobError>
    ensures limit { IfOk result IsWithinLimit }
    ensures asked { (clock : Option ℕ) (found : Found) → IfOk result (IsJob clock command.Version found) }
{
    let mut text = String::from_str(alloc, "tbc ")?;
    text.push_str(VERSION)?;
    text.push_str("\n")?;
    Ok(Job::Show(text))
}
