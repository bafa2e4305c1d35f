//! Web pages: the page of a source's program, or of a PRG file.
ghost use Rattle.std.specs.Prelude.{◌≡◌, ◌∷◌, []};
ghost use Rattle.tb_engine_files.specs.Deeds.{Makes, OfOne, Refuses, Transfers};
ghost use Rattle.tb_program_files.specs.Pages.{MakesPrgPage, MakesSourcePage, PagesFile, Starts};

use crate::profiling::{Told, report_of};
use crate::saving::only;
use std::alloc::Global;
use tb_codegen::TinyBasic;
use tb_compiled::CompileSettings;
use tb_engine_files::{FileSystem, Maker, convert};
use tb_engine_page::{prg_page, source_page};
use tb_engine_sources::compile_source;
use tb_engine_streams::Outcome;
use tb_engines::{End, Failure, NoText, Refusal, Report, start_file};
use tb_kernal::Keyboard;

// A source that becomes a page.
#[derive(Drop)]
struct SourcePage<'a> {
    alloc: Global,
    title: &'a str,
    settings: CompileSettings,
}

// The page of a source's program, as the texts of all outputs.
fn source_paged(page: &SourcePage<'_>, source: Vec<u8>) -> Result<(Told, Vec<Vec<u8>>), Failure>
    ensures { Makes (MakesSourcePage page.now.title.now page.now.settings source.items) result }
{
    let alloc = page.alloc;
    let source = compile_source(&TinyBasic, alloc, source, page.settings)?;
    let text = source_page(
        alloc,
        page.title,
        page.settings.seed,
        source.text.as_slice(),
        &source.program,
    )?;
    let told = Told {
        end: End::Done,
        warnings: source.program.into_warnings(),
    };
    Ok((told, only(alloc, text)?))
}

impl Maker for SourcePage<'_> {
    type End = Told;

    type Refusal = Refusal;

    ghost makes = { λ m source product. MakesSourcePage m.title.now m.settings source product };

    fn make(&mut self, source: Vec<u8>) -> Result<(Told, Vec<Vec<u8>>), Failure> {
        source_paged(self, source)
    }
}

// A PRG file that becomes a page.
#[derive(Drop)]
struct PrgPage<'a> {
    alloc: Global,
    title: &'a str,
}

// Whether a PRG file can be started, as running it does.
fn starts(alloc: Global, file: &[u8]) -> Result<(), NoText>
    ensures { Starts file.now result }
{
    let keyboard = Keyboard {
        text: Vec::new(alloc),
        answers: Vec::new(alloc),
    };
    start_file(alloc, file, keyboard)?;
    Ok(())
}

// The page of a PRG file, as the texts of all outputs.
fn prg_paged(page: &PrgPage<'_>, file: &[u8]) -> Result<(End, Vec<Vec<u8>>), Failure>
    ensures { Makes (MakesPrgPage page.now.title.now file.now) result }
{
    starts(page.alloc, file)?;
    let text = prg_page(page.alloc, page.title, file)?;
    Ok((End::Done, only(page.alloc, text)?))
}

impl Maker for PrgPage<'_> {
    type End = End;

    type Refusal = Refusal;

    ghost makes = { λ m file product. MakesPrgPage m.title.now file product };

    fn make(&mut self, file: Vec<u8>) -> Result<(End, Vec<Vec<u8>>), Failure> {
        prg_paged(self, file.as_slice())
    }
}

/// Compiles a source's file, and writes the page of its program to a file.
pub fn page_file<F: FileSystem>(
    alloc: Global,
    files: &mut F,
    source: &str,
    out: &str,
    title: &str,
    settings: CompileSettings,
) -> Report
    ensures { PagesFile F.does F.holds files.old source.now out.now title.now settings result files.new }
{
    let mut page = SourcePage {
        alloc,
        title,
        settings,
    };
    let ended = convert(alloc, files, &mut page, source, &[out]);
    report_of(alloc, ended)
}

/// Writes the page of a PRG file to a file. A PRG file that can't be started is refused as running it does.
pub fn page_prg_file<F: FileSystem>(
    alloc: Global,
    files: &mut F,
    prg: &str,
    out: &str,
    title: &str,
) -> Outcome<End, Refusal>
    ensures transfers { Transfers F.does F.holds (OfOne (MakesPrgPage title.now)) files.old (prg.now ∷ []) (out.now ∷ []) result files.new }
    ensures refuses { Refuses F.holds (MakesPrgPage title.now) files.old prg.now result }
{
    convert(alloc, files, &mut PrgPage { alloc, title }, prg, &[out])
}
