//! Programs that are loaded as they are launched.
ghost use Rattle.std.specs.Prelude.{◌≡◌, ◌∷◌, [], IfOk, codes, map, string_bytes};
ghost use Rattle.tb_compiled.specs.declared.settings.CompileSettings.{CompileSettings};
ghost use Rattle.tb_dap_requests.specs.Launching.{asked_of};
ghost use Rattle.tb_dap_requests.specs.Loading as spec;
ghost use Rattle.tb_dap_requests.specs.Loading.{CompilesTo, IsHeld, IsKeyboard, IsReport, IsUnfit, Loads, Reads, Starts};
ghost use Rattle.tb_dap_requests.specs.Said.{seen};

use crate::launching::{Launch, Manner, Plan};
use crate::said::{Said, output};
use std::alloc::{AllocError, Global};
use tb_basic_meaning::LowerError;
use tb_basic_options::{OwnOptions, notation_for, own_options};
use tb_compiled::{Compile, CompileError, CompileSettings, Notation, SizeLimit, USUAL_SEED};
use tb_dap_messages::Refusal;
use tb_debug::Rom;
use tb_editor_navigation::shown;
use tb_engine_check::{CheckOutcome, Sources, check_sources};
use tb_engine_findings::CheckSettings;
use tb_engine_sources::{CompiledSource, start_program};
use tb_engine_streams::{InputError, KeyError, OUT_OF_MEMORY, Tracked, key_list};
use tb_engines::{NoText, TOO_DEEP, TooLarge, source_text};
use tb_kernal::{Keyboard, Machine};
use tb_parser::SourceError;

// What is said, text by text.

/// A program that is loaded.
#[derive(Drop)]
pub struct Loaded {
    pub path: String,
    pub source: CompiledSource,
    /// How the source's texts were read.
    pub notation: Notation,
    /// Its machine, which has not moved.
    pub machine: Machine,
    pub rom: Rom,
    pub plan: Plan,
}

/// What comes of a launch.
#[derive(Drop)]
pub enum Loading {
    Loaded(Loaded),
    /// It is refused, and this is said.
    Unloaded(Vec<Said>),
}

/// What comes of compiling a source.
#[derive(Drop)]
enum Compiling {
    Fit(CompiledSource),
    /// It is refused, and this is said.
    Unfit(Vec<Said>),
}

/// A source that was read.
#[derive(Drop)]
struct Held<'a> {
    text: &'a [u8],
}

impl Sources for Held<'_> {
    ghost reads = { λ old name given new. IsHeld old.text.now given };

    fn read(&mut self, alloc: Global, name: &str) -> Result<Vec<u8>, InputError> {
        match Vec::from_slice(alloc, self.text) {
            Ok(text) => Ok(text),
            Err(_) => Err(InputError::NoMemory),
        }
    }
}

// What `check` says of a source.
fn report<K: Compile>(
    compiler: &K,
    alloc: Global,
    path: &str,
    text: &[u8],
    settings: CheckSettings,
) -> Result<Vec<u8>, AllocError>
    ensures { IfOk result (λ said. IsReport K.own settings path.now text.now said.items) }
{
    let mut names = Vec::new(alloc);
    names.push(String::from_str(alloc, path)?)?;
    let mut held = Held { text };
    let mut writer = Tracked::new(Vec::new(alloc));
    let outcome = check_sources(compiler, alloc, &mut held, &names, &mut writer, settings);
    match outcome {
        CheckOutcome::NoMemory | CheckOutcome::WriteFault => Err(AllocError),
        CheckOutcome::Ended(_) | CheckOutcome::Refused(_) | CheckOutcome::ReadFault => {
            Ok(writer.stream)
        }
    }
}

// Why a line of a source is refused, or the whole of it.
fn source_error_text(alloc: Global, error: SourceError) -> Result<String, AllocError>
    ensures { IfOk result (λ text. string_bytes text ≡ spec.source_error_text error) }
{
    let (line, column) = (error.line, error.column);
    let why = source_text(error.kind);
    if 0 < line {
        format!(in alloc; "{line}:{column}: {why}")
    } else {
        String::from_str(alloc, why)
    }
}

// What is said of an expression that is too deep.
fn too_deep_text(alloc: Global, line: u16) -> Result<String, AllocError>
    ensures { IfOk result (λ text. string_bytes text ≡ spec.too_deep_text line) }
{
    let why = TOO_DEEP;
    format!(in alloc; "line {line}: {why}")
}

// Why a source is refused, as `run` says it.
fn error_text(alloc: Global, error: CompileError) -> Result<String, AllocError>
    ensures { IfOk result (λ text. string_bytes text ≡ spec.error_text error) }
{
    match error {
        CompileError::Source(error) => source_error_text(alloc, error),
        CompileError::Lower(LowerError::TooDeep(line)) => too_deep_text(alloc, line),
        CompileError::TooLarge(cost) => format!(in alloc; "{}", TooLarge(cost)),
        CompileError::Lower(LowerError::NoMemory) | CompileError::NoMemory => {
            String::from_str(alloc, OUT_OF_MEMORY)
        }
    }
}

// What is said of a source that is refused.
fn unfit<K: Compile>(
    compiler: &K,
    alloc: Global,
    path: &str,
    text: &[u8],
    settings: CheckSettings,
    error: CompileError,
) -> Result<Vec<Said>, AllocError>
    ensures { IfOk result (λ said. IsUnfit K.own settings path.now text.now error (map seen said.items)) }
{
    let report = report(compiler, alloc, path, text, settings)?;
    let told = output(alloc, "stderr", shown(&report))?;
    let why = error_text(alloc, error)?;
    let mut said = Vec::new(alloc);
    said.push(told)?;
    said.push(Said::Unfit(why))?;
    Ok(said)
}

// How a source is compiled, by what is asked for and by its own words. A seed that is asked for goes before its own.
fn settings_by(manner: Manner, own: OwnOptions) -> CompileSettings
    ensures { result ≡ spec.settings_by manner own }
{
    CompileSettings {
        seed: manner.seed.or(own.seed).unwrap_or(USUAL_SEED),
        size: if own.fit {
            SizeLimit::Memory
        } else {
            manner.size
        },
        notation: own.notation(manner.notation),
    }
}

// The compiler's settings of a launch by the source's own words.
fn settings_for(manner: Manner, source: &[u8]) -> CompileSettings
    ensures { result ≡ spec.compile_settings manner source.now }
{
    settings_by(manner, own_options(source))
}

// What comes of compiling a source.
fn compiled<K: Compile>(
    compiler: &K,
    alloc: Global,
    path: &str,
    text: Vec<u8>,
    settings: CompileSettings,
) -> Result<Compiling, AllocError>
    ensures { IfOk result (CompilesTo K.own settings path.now text.items) }
{
    match compiler.compile(alloc, &text, settings) {
        Ok(program) => Ok(Compiling::Fit(CompiledSource { text, program })),
        Err(CompileError::NoMemory) => Err(AllocError),
        Err(error) => {
            let checked = CheckSettings {
                size: settings.size,
                notation: settings.notation,
            };
            Ok(Compiling::Unfit(unfit(compiler, alloc, path, &text, checked, error)?))
        }
    }
}

// What a keyboard gives; none where the digits spell nothing.
fn keyboard_of(alloc: Global, keys: &str, answers: &str) -> Result<Option<Keyboard>, AllocError>
    ensures { IfOk result (IsKeyboard keys.now answers.now) }
{
    let text = match key_list(alloc, keys) {
        Ok(text) => text,
        Err(KeyError::BadKeys) => return Ok(None),
        Err(KeyError::NoMemory) => return Err(AllocError),
    };
    match key_list(alloc, answers) {
        Ok(answers) => Ok(Some(Keyboard { text, answers })),
        Err(KeyError::BadKeys) => Ok(None),
        Err(KeyError::NoMemory) => Err(AllocError),
    }
}

// A refusal alone.
fn unloaded(alloc: Global, refusal: Refusal) -> Result<Loading, AllocError>
    ensures { IfOk result (spec.IsRefused refusal) }
{
    let mut said = Vec::new(alloc);
    said.push(Said::Refused(refusal))?;
    Ok(Loading::Unloaded(said))
}

// A program that is compiled is loaded.
fn started(
    alloc: Global,
    launch: &Launch<'_>,
    keyboard: Keyboard,
    source: CompiledSource,
) -> Result<Loading, AllocError>
    ensures { IfOk result (Starts (asked_of launch.now) keyboard.text.items keyboard.answers.items source) }
{
    let path = String::from_str(alloc, launch.path)?;
    let notation = notation_for(launch.manner.notation, &source.text);
    match start_program(alloc, &source.program, keyboard) {
        Ok(machine) => Ok(Loading::Loaded(Loaded {
            path,
            source,
            notation,
            machine,
            rom: launch.rom,
            plan: launch.plan,
        })),
        Err(NoText::Refused(_)) => unloaded(alloc, Refusal::ReadFault),
        Err(NoText::NoMemory) => Err(AllocError),
    }
}

// A source that was read is compiled and loaded.
fn compiled_and_started<K: Compile>(
    compiler: &K,
    alloc: Global,
    launch: &Launch<'_>,
    keyboard: Keyboard,
    text: Vec<u8>,
) -> Result<Loading, AllocError>
    ensures { IfOk result (spec.Compiled K.own (asked_of launch.now) keyboard.text.items keyboard.answers.items text.items) }
{
    let settings = settings_for(launch.manner, &text);
    match compiled(compiler, alloc, launch.path, text, settings)? {
        Compiling::Fit(source) => {
            let loading = started(alloc, launch, keyboard, source)?;
            Ok(loading)
        }
        Compiling::Unfit(said) => Ok(Loading::Unloaded(said)),
    }
}

// A source is read, compiled and loaded.
fn read_and_compiled<K: Compile, S: Sources>(
    compiler: &K,
    alloc: Global,
    sources: &mut S,
    launch: &Launch<'_>,
    keyboard: Keyboard,
) -> Result<Loading, AllocError>
    ensures { IfOk result (λ loading. Reads K.own S.reads (asked_of launch.now) keyboard.text.items keyboard.answers.items sources.old loading sources.new) }
{
    match sources.read(alloc, launch.path) {
        Ok(text) => compiled_and_started(compiler, alloc, launch, keyboard, text),
        Err(InputError::Fault) => unloaded(alloc, Refusal::ReadFault),
        Err(InputError::NoMemory) => Err(AllocError),
    }
}

/// Loads what is launched.
pub fn load<K: Compile, S: Sources>(
    compiler: &K,
    alloc: Global,
    sources: &mut S,
    launch: &Launch<'_>,
) -> Result<Loading, AllocError>
    ensures { IfOk result (λ loading. Loads K.own S.reads (asked_of launch.now) sources.old loading sources.new) }
{
    match keyboard_of(alloc, launch.keys, launch.answers)? {
        Some(keyboard) => {
            let loading = read_and_compiled(compiler, alloc, sources, launch, keyboard)?;
            Ok(loading)
        }
        None => unloaded(alloc, Refusal::BadKeys),
    }
}
