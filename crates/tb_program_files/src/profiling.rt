//! Profiles: the table of a run is written on standard output, and then the page to its file. A PRG file has no page.
ghost use Rattle.std.specs.Prelude.{◌≡◌, ◌∷◌, [], IfOk, map, option_map};
ghost use Rattle.tb_engine_files.specs.Deeds.{Makes, OfOne, Refuses, Transfers};
ghost use Rattle.tb_engine_files.specs.Names.{standard};
ghost use Rattle.tb_engine_profile.specs.Running.{given};
ghost use Rattle.tb_program_files.specs.Profiles.{IsReport, MakesPages, MakesTable, ProfilesFile, outputs, pages, wants_page};

use crate::saving::{only, only_text};
use std::alloc::{AllocError, Global};
use tb_basic_meaning::Warning;
use tb_codegen::TinyBasic;
use tb_compiled::CompileSettings;
use tb_engine_files::{FileSystem, Maker, STANDARD, convert};
use tb_engine_profile::{Named, Run, profile_prg, profile_source};
use tb_engine_profile_table::Texts;
use tb_engine_streams::Outcome;
use tb_engines::{End, Failure, Refusal, Report};
use tb_kernal::{Outside, Watch};

/// How making the texts of a source ended that were written, and what there is to warn of.
#[derive(Drop)]
pub struct Told {
    pub end: End,
    pub warnings: Vec<Warning>,
}

// The table, and the page behind it, if it is wanted.
fn pages(alloc: Global, texts: Texts, wants_page: bool) -> Result<Vec<Vec<u8>>, AllocError>
    ensures { IfOk result (λ r. map (λ t. t.items) r.items ≡ pages wants_page texts) }
{
    let mut all = only(alloc, texts.table)?;
    if wants_page {
        all.push(texts.page)?;
    }
    Ok(all)
}

// A source that is profiled.
#[derive(Drop)]
struct SourceProfile<'a, O, W> {
    alloc: Global,
    named: Named<'a>,
    wants_page: bool,
    settings: CompileSettings,
    run: Run<O, W>,
}

// The texts of a source's run.
fn profiled<O: Outside, W: Watch>(
    profile: &mut SourceProfile<'_, O, W>,
    source: Vec<u8>,
) -> Result<(Told, Vec<Vec<u8>>), Failure>
    ensures { Makes (MakesPages profile.old.named (given O.gives profile.old.run) profile.old.settings profile.old.wants_page source.items) result }
{
    let alloc = profile.alloc;
    let made = profile_source(
        &TinyBasic,
        alloc,
        source,
        &profile.named,
        profile.settings,
        &mut profile.run,
    )?;
    let told = Told {
        end: made.end,
        warnings: made.warnings,
    };
    Ok((told, pages(alloc, made.texts, profile.wants_page)?))
}

impl<O: Outside + Drop, W: Watch + Drop> Maker for SourceProfile<'_, O, W> {
    type End = Told;

    type Refusal = Refusal;

    ghost makes = { λ m source product. MakesPages m.named (given O.gives m.run) m.settings m.wants_page source product };

    fn make(&mut self, source: Vec<u8>) -> Result<(Told, Vec<Vec<u8>>), Failure> {
        profiled(self, source)
    }
}

// A PRG file that is profiled.
#[derive(Drop)]
struct PrgProfile<O, W> {
    alloc: Global,
    run: Run<O, W>,
}

// The table of a PRG file's run.
fn tabled<O: Outside, W: Watch>(
    profile: &mut PrgProfile<O, W>,
    file: &[u8],
) -> Result<(End, Vec<Vec<u8>>), Failure>
    ensures { Makes (MakesTable (given O.gives profile.old.run) file.now) result }
{
    let alloc = profile.alloc;
    let text = profile_prg(alloc, file, &mut profile.run)?;
    Ok(only_text(alloc, text)?)
}

impl<O: Outside + Drop, W: Watch + Drop> Maker for PrgProfile<O, W> {
    type End = End;

    type Refusal = Refusal;

    ghost makes = { λ m file product. MakesTable (given O.gives m.run) file product };

    fn make(&mut self, file: Vec<u8>) -> Result<(End, Vec<Vec<u8>>), Failure> {
        tabled(self, file.as_slice())
    }
}

/// What is reported of a source whose texts were made.
pub fn report_of(alloc: Global, ended: Outcome<Told, Refusal>) -> Report
    ensures { IsReport ended result }
{
    match ended {
        Outcome::Ended(told) => Report {
            outcome: Outcome::Ended(told.end),
            warnings: told.warnings,
        },
        Outcome::Refused(refusal) => Report::new(alloc, Outcome::Refused(refusal)),
        Outcome::ReadFault => Report::new(alloc, Outcome::ReadFault),
        Outcome::WriteFault => Report::new(alloc, Outcome::WriteFault),
        Outcome::NoMemory => Report::new(alloc, Outcome::NoMemory),
    }
}

// Whether a page is wanted.
fn wants_page(page: Option<&str>) -> bool
    ensures { result ≡ wants_page (option_map (λ p. p.now) page.entry) }
{
    page.is_some()
}

// Profiles a source's file, and writes what was made.
fn write_profile<F: FileSystem, O: Outside + Drop, W: Watch + Drop>(
    alloc: Global,
    files: &mut F,
    profile: &mut SourceProfile<'_, O, W>,
    page: Option<&str>,
) -> Outcome<Told, Refusal>
    ensures transfers { Transfers F.does F.holds (OfOne (MakesPages profile.old.named (given O.gives profile.old.run) profile.old.settings profile.old.wants_page))
        files.old (profile.old.named.name.now ∷ []) (outputs (option_map (λ p. p.now) page.entry)) result files.new }
    ensures refuses { Refuses F.holds (MakesPages profile.old.named (given O.gives profile.old.run) profile.old.settings profile.old.wants_page)
        files.old profile.old.named.name.now result }
{
    let name = profile.named.name;
    match page {
        Some(page) => convert(alloc, files, profile, name, &[STANDARD, page]),
        None => convert(alloc, files, profile, name, &[STANDARD]),
    }
}

/// Profiles a source's file by one run, and writes the table to standard output and the page to a file, if one is named.
pub fn profile_file<F: FileSystem, O: Outside + Drop, W: Watch + Drop>(
    alloc: Global,
    files: &mut F,
    named: Named<'_>,
    page: Option<&str>,
    settings: CompileSettings,
    run: Run<O, W>,
) -> Report
    ensures { ProfilesFile F.does F.holds files.old named.entry (option_map (λ p. p.now) page.entry) settings (given O.gives run) result files.new }
{
    let mut profile = SourceProfile {
        alloc,
        named,
        wants_page: wants_page(page),
        settings,
        run,
    };
    let ended = write_profile(alloc, files, &mut profile, page);
    report_of(alloc, ended)
}

/// Profiles a PRG file by one run, and writes the table to standard output.
pub fn profile_prg_file<F: FileSystem, O: Outside + Drop, W: Watch + Drop>(
    alloc: Global,
    files: &mut F,
    prg: &str,
    run: Run<O, W>,
) -> Outcome<End, Refusal>
    ensures transfers { Transfers F.does F.holds (OfOne (MakesTable (given O.gives run))) files.old (prg.now ∷ []) (standard ∷ []) result files.new }
    ensures refuses { Refuses F.holds (MakesTable (given O.gives run)) files.old prg.now result }
{
    convert(
        alloc,
        files,
        &mut PrgProfile { alloc, run },
        prg,
        &[STANDARD],
    )
}
