//! Profiling a source.
ghost use Rattle.std.specs.Prelude.{◌≡◌, IfOk, Ok, string_bytes};
ghost use Rattle.tb_compiled.specs.Answers.{HasOutcome};
ghost use Rattle.tb_engine_profile_table.specs.Texts.{Shows};
ghost use Rattle.tb_engine_profile.specs.Facts.{ended_text, fits, facts_of, facts_on};
ghost use Rattle.tb_engine_profile.specs.Profiles.{MakesProfile, MakesTexts, Profiles};
ghost use Rattle.tb_engine_profile.specs.Running.{given};

use crate::running::{Ran, Run, copy_of, profile_program};
use std::alloc::{AllocError, Global};
use tb_basic_meaning::Warning;
use tb_compiled::{Compile, CompileSettings, SizeLimit};
use tb_engine_profile_table::{About, Texts, texts_of};
use tb_engine_sources::{CompiledSource, compile_source};
use tb_engines::{End, Failure, NoText};
use tb_kernal::{Outside, Watch};

/// The table and the page of a run, how it ended, and what the compiler warns of.
#[derive(Drop)]
pub struct Profiled {
    pub texts: Texts,
    pub end: End,
    pub warnings: Vec<Warning>,
}

/// What a page says of a run that no engine can know: how the program was named, and the seed of its ROM if that is rude.
#[derive(Clone, Copy, Drop)]
pub struct Named<'a> {
    pub name: &'a str,
    pub rude: Option<u16>,
}

// Both texts, and how the run ended.
#[derive(Drop)]
struct Made {
    texts: Texts,
    end: End,
}

// Whether the size of a program alone is limited.
fn fits(size: SizeLimit) -> bool
    ensures { result ≡ fits size }
{
    match size {
        SizeLimit::Cost => false,
        SizeLimit::Memory => true,
    }
}

// How a run ended, in words.
fn ended_text(alloc: Global, end: End) -> Result<String, AllocError>
    ensures { IfOk result (λ text. string_bytes text ≡ ended_text end) }
{
    let text = format!(in alloc; "{end}")?;
    if text.as_bytes().is_empty() {
        String::from_str(alloc, "returned")
    } else {
        Ok(text)
    }
}

// What is said of a run.
fn texts_of_run<O, W>(
    alloc: Global,
    source: &[u8],
    named: &Named<'_>,
    settings: CompileSettings,
    run: &Run<O, W>,
    ran: &Ran,
) -> Result<Texts, AllocError>
    ensures { IfOk result (λ texts. Shows (facts_of named.now settings run.now.keyboard.text.items run.now.keyboard.answers.items run.now.limit ran.now.end)
        source.now ran.now.table texts) }
{
    let end = ended_text(alloc, ran.end)?;
    let about = About {
        name: named.name.as_bytes(),
        seed: settings.seed,
        fits: fits(settings.size),
        limit: run.limit,
        keys: run.keyboard.text.as_slice(),
        answers: run.keyboard.answers.as_slice(),
        rude: named.rude,
        end: end.as_bytes(),
    };
    texts_of(alloc, &ran.table, source, &about)
}

// Runs the program of a source, and makes its texts.
fn profile_compiled<K: Compile, O: Outside, W: Watch>(
    alloc: Global,
    source: &CompiledSource,
    named: &Named<'_>,
    settings: CompileSettings,
    run: &mut Run<O, W>,
) -> Result<Made, NoText>
    requires { HasOutcome K.own settings source.now.text.items (Ok source.now.program) }
    ensures { MakesTexts (Profiles (facts_on named.now settings (given O.gives run.old))
        settings.notation (given O.gives run.old) source.now.text.items source.now.program) result }
{
    let keyboard = copy_of(alloc, &run.keyboard)?;
    let ran = profile_program(
        alloc,
        &source.program,
        keyboard,
        run.limit,
        &mut run.outside,
        &mut run.watch,
    )?;
    let texts = texts_of_run(alloc, source.text.as_slice(), named, settings, run, &ran)?;
    Ok(Made {
        texts,
        end: ran.end,
    })
}

/// Compiles a source, runs it as `run_within` of tb_engine_sources does, and makes a table of what its lines took. The
/// page is made with it, and says what the run was given. A watch hears now and then how many events were taken.
pub fn profile_source<K: Compile, O: Outside, W: Watch>(
    compiler: &K,
    alloc: Global,
    source: Vec<u8>,
    named: &Named<'_>,
    settings: CompileSettings,
    run: &mut Run<O, W>,
) -> Result<Profiled, Failure>
    ensures { MakesProfile K.own named.now (given O.gives run.old) settings source.items result }
{
    let source = compile_source(compiler, alloc, source, settings)?;
    let made = profile_compiled::<K, O, W>(alloc, &source, named, settings, run)?;
    Ok(Profiled {
        texts: made.texts,
        end: made.end,
        warnings: source.program.into_warnings(),
    })
}
