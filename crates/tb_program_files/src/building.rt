//! Building a source's file: the PRG file, and the files of the texts that tell of its program.
ghost use Rattle.std.specs.Prelude.{◌≡◌, ◌++◌, ℕ, IfOk, List, map, option_map};
ghost use Rattle.tb_engine_sources.specs.Reading.{IsCompilation};
ghost use Rattle.tb_codegen.specs.Templates.{templates};
ghost use Rattle.tb_engine_files.specs.Deeds.{Makes};
ghost use Rattle.tb_program_files.specs.Builds.{Builds, Maps, costs_too_much, ends_by};
ghost use Rattle.tb_program_files.specs.Listings.{IsPrg};
ghost use Rattle.tb_program_files.specs.Names.{listing_of, outputs_of, wanted, wants_texts};
ghost use Rattle.tb_program_files.specs.Texts.{AreWanted, IsListing, MakesBuild, MakesMap, Tells, WantedListing, wanted_text};

use crate::listing::spell_listing;
use crate::saving::only;
use std::alloc::{AllocError, Global};
use tb_assembly_dialects::Dialect;
use tb_basic_meaning::Warning;
use tb_codegen::TinyBasic;
use tb_compiled::{CompileError, CompileSettings, SizeLimit};
use tb_engine_files::{FileSystem, Maker, convert};
use tb_engine_listing::{Made, make};
use tb_engine_monitor::watch_file;
use tb_engine_sources::{CompiledSource, compile_source};
use tb_engines::{End, Failure, Outcome, Refusal, Report};

/// What a build writes: the PRG file, and the label file, the listing, the map and the watch file, if they are wanted.
#[derive(Clone, Copy)]
pub struct BuildNames<'a> {
    pub out: &'a str,
    pub labels: Option<&'a str>,
    pub listing: Option<&'a str>,
    /// The assembler that the listing is for, if it isn't `tbc asm`.
    pub dialect: Option<Dialect>,
    pub map: Option<&'a str>,
    pub watch: Option<&'a str>,
}

// Texts, and another one behind them, if its file is wanted.
fn with_text(
    mut texts: Vec<Vec<u8>>,
    file: Option<&str>,
    text: Vec<u8>,
) -> Result<Vec<Vec<u8>>, AllocError>
    ensures { IfOk result (λ r. map (λ t. t.items) r.items ≡ map (λ t. t.items) texts.items ++ wanted_text (option_map (λ p. p.now) file.entry) text.items) }
{
    if file.is_some() {
        texts.push(text)?;
    }
    Ok(texts)
}

// The listing of a PRG file's program as the assembler takes it that it is for.
fn spelled(
    alloc: Global,
    dialect: Option<Dialect>,
    prg: &[u8],
    listing: Vec<u8>,
) -> Result<Vec<u8>, AllocError>
    requires { IsPrg prg.now }
    ensures { IfOk result (λ text. IsListing dialect prg.now listing.items text.items) }
{
    match dialect {
        Some(dialect) => spell_listing(alloc, dialect, prg, listing.as_slice()),
        None => Ok(listing),
    }
}

// Texts, and that listing behind them, if it is wanted.
fn with_listing(
    alloc: Global,
    texts: Vec<Vec<u8>>,
    names: BuildNames<'_>,
    prg: &[u8],
    listing: Vec<u8>,
) -> Result<Vec<Vec<u8>>, AllocError>
    requires { IsPrg prg.now }
    ensures { IfOk result (λ r. (listings : List (List ℕ)) × WantedListing (listing_of names.entry) names.entry.dialect prg.now listing.items listings
        × (map (λ t. t.items) r.items ≡ map (λ t. t.items) texts.items ++ listings)) }
{
    if names.listing.is_none() {
        return Ok(texts);
    }
    let listing = spelled(alloc, names.dialect, prg, listing)?;
    with_text(texts, names.listing, listing)
}

// The PRG file of a program, and the texts that tell of it, as far as they are wanted, in the order in which they are
// written.
fn all_wanted(
    alloc: Global,
    names: BuildNames<'_>,
    prg: &[u8],
    made: Made,
) -> Result<Vec<Vec<u8>>, AllocError>
    requires { IsPrg prg.now }
    ensures { IfOk result (λ texts. AreWanted names.entry prg.now made (map (λ t. t.items) texts.items)) }
{
    let watch = watch_file(alloc, prg)?;
    let texts = only(alloc, Vec::from_slice(alloc, prg)?)?;
    let texts = with_text(texts, names.labels, made.labels)?;
    let texts = with_listing(alloc, texts, names, prg, made.listing)?;
    let texts = with_text(texts, names.map, made.map)?;
    with_text(texts, names.watch, watch)
}

// Whether a text is wanted that tells of the program. Else none is made.
fn wants_texts(names: BuildNames<'_>) -> bool
    ensures { result ≡ wants_texts names.entry }
{
    names.labels.is_some()
        || names.listing.is_some()
        || names.map.is_some()
        || names.watch.is_some()
}

// All that is wanted of a compiled source.
fn texts_of(
    alloc: Global,
    source: &CompiledSource,
    settings: CompileSettings,
    names: BuildNames<'_>,
) -> Result<Vec<Vec<u8>>, AllocError>
    requires { IsCompilation templates settings source.now.text.items source.now.program }
    ensures { IfOk result (λ texts. Tells names.entry settings.notation source.now.text.items source.now.program (map (λ t. t.items) texts.items)) }
{
    let prg = source.program.prg();
    if !wants_texts(names) {
        return only(alloc, Vec::from_slice(alloc, prg)?);
    }
    let made = make(
        alloc,
        source.text.as_slice(),
        settings.notation,
        &source.program,
    )?;
    all_wanted(alloc, names, prg, made)
}

// All that is wanted of a source. The warnings of its program are told.
fn built(
    alloc: Global,
    source: Vec<u8>,
    settings: CompileSettings,
    names: BuildNames<'_>,
    told: &mut Vec<Warning>,
) -> Result<(End, Vec<Vec<u8>>), Failure>
    ensures { Makes (MakesBuild names.entry settings source.items) result }
{
    let source = compile_source(&TinyBasic, alloc, source, settings)?;
    let texts = texts_of(alloc, &source, settings, names)?;
    *told = source.program.into_warnings();
    Ok((End::Done, texts))
}

// A source that is built, and what there is to warn of.
#[derive(Drop)]
struct Build<'a> {
    alloc: Global,
    settings: CompileSettings,
    names: BuildNames<'a>,
    told: Vec<Warning>,
}

impl Maker for Build<'_> {
    type End = End;

    type Refusal = Refusal;

    ghost makes = { λ m source product. MakesBuild m.names m.settings source product };

    fn make(&mut self, source: Vec<u8>) -> Result<(End, Vec<Vec<u8>>), Failure> {
        built(
            self.alloc,
            source,
            self.settings,
            self.names,
            &mut self.told,
        )
    }
}

// The map of a source, as the texts of all outputs.
fn mapped(
    alloc: Global,
    source: Vec<u8>,
    settings: CompileSettings,
) -> Result<(End, Vec<Vec<u8>>), Failure>
    ensures { Makes (MakesMap settings source.items) result }
{
    let source = compile_source(&TinyBasic, alloc, source, settings)?;
    let made = make(
        alloc,
        source.text.as_slice(),
        settings.notation,
        &source.program,
    )?;
    Ok((End::Done, only(alloc, made.map)?))
}

// The map alone of a source that costs too much.
#[derive(Drop)]
struct Map {
    alloc: Global,
    settings: CompileSettings,
}

impl Maker for Map {
    type End = End;

    type Refusal = Refusal;

    ghost makes = { λ m source product. MakesMap m.settings source product };

    fn make(&mut self, source: Vec<u8>) -> Result<(End, Vec<Vec<u8>>), Failure> {
        mapped(self.alloc, source, self.settings)
    }
}

// Writes the map of a source that costs too much, if it is wanted and the source fits the memory. The answer is the
// refusal, unless the map was not made or written.
fn map_refused<F: FileSystem>(
    alloc: Global,
    files: &mut F,
    source: &str,
    settings: CompileSettings,
    map: Option<&str>,
    refusal: Outcome,
) -> Outcome
    ensures { Maps F.does F.holds files.old source.now settings (option_map (λ p. p.now) map.entry) refusal result files.new }
{
    let Some(map) = map else {
        return refusal;
    };
    let settings = CompileSettings {
        size: SizeLimit::Memory,
        ..settings
    };
    ends_by(
        refusal,
        convert(alloc, files, &mut Map { alloc, settings }, source, &[map]),
    )
}

// How a build ends whose source costs too much, by how its map was made and written.
fn ends_by(refusal: Outcome, done: Outcome) -> Outcome
    ensures { result ≡ ends_by refusal done }
{
    match done {
        Outcome::Ended(_) | Outcome::Refused(_) => refusal,
        Outcome::ReadFault | Outcome::WriteFault | Outcome::NoMemory => done,
    }
}

// Whether a source is refused by its cost.
fn costs_too_much(settings: CompileSettings, outcome: Outcome) -> bool
    ensures { result ≡ costs_too_much settings.size outcome }
{
    settings.size == SizeLimit::Cost
        && matches!(
            outcome,
            Outcome::Refused(Refusal::Source(CompileError::TooLarge(_)))
        )
}

// Paths, and another one behind them, if it is wanted.
fn with_wanted<'a>(
    mut paths: Vec<&'a str>,
    path: Option<&'a str>,
) -> Result<Vec<&'a str>, AllocError>
    ensures { IfOk result (λ r. map (λ p. p.now) r.items ≡ map (λ p. p.now) paths.entry.items ++ wanted (option_map (λ p. p.now) path.entry)) }
{
    if let Some(path) = path {
        paths.push(path)?;
    }
    Ok(paths)
}

// The paths that are wanted, in the order in which they are written.
fn paths_of<'a>(alloc: Global, names: BuildNames<'a>) -> Result<Vec<&'a str>, AllocError>
    ensures { IfOk result (λ r. map (λ p. p.now) r.items ≡ outputs_of names.entry) }
{
    let mut paths = Vec::new(alloc);
    paths.push(names.out)?;
    with_wanted(
        with_wanted(
            with_wanted(with_wanted(paths, names.labels)?, names.listing)?,
            names.map,
        )?,
        names.watch,
    )
}

/// Compiles a source's file, makes all that is to be written, and then writes each file whole before the next one. If the
/// source costs too much, only the map of what the memory would take is written.
pub fn build_file<F: FileSystem>(
    alloc: Global,
    files: &mut F,
    source: &str,
    settings: CompileSettings,
    names: BuildNames<'_>,
) -> Report
    ensures { Builds F.does F.holds files.old source.now names.entry settings result.outcome files.new }
{
    let Ok(paths) = paths_of(alloc, names) else {
        return Report::new(alloc, Outcome::NoMemory);
    };
    let mut build = Build {
        alloc,
        settings,
        names,
        told: Vec::new(alloc),
    };
    let outcome = convert(alloc, files, &mut build, source, paths.as_slice());
    if costs_too_much(settings, outcome) {
        let outcome = map_refused(alloc, files, source, settings, names.map, outcome);
        return Report::new(alloc, outcome);
    }
    Report {
        outcome,
        warnings: build.told,
    }
}
