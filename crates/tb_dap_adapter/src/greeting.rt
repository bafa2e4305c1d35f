//! What is said before a program is launched.
ghost use Rattle.std.specs.Prelude.{◌≡◌, IfOk, option_map};
ghost use Rattle.serde_json.specs.View.{view};
ghost use Rattle.tb_dap_adapter.specs.Greeting as spec;
ghost use Rattle.tb_dap_requests.specs.Launching.{asked_of};
ghost use Rattle.tb_dap_requests.specs.Said.{seen};

use crate::session::{alone, refused};
use serde_json::Value;
use std::alloc::{AllocError, Global};
use tb_compiled::Compile;
use tb_dap_messages::Refusal;
use tb_dap_requests::{Launch, Loaded, Loading, Said, Usual, is_understood, launch_in, load};
use tb_dap_values::{Command, capabilities_body};
use tb_engine_check::Sources;

/// What comes of a request before a program is launched.
#[derive(Drop)]
pub enum Greeting {
    Said(Vec<Said>),
    Launched(Loaded),
}

// A refusal alone.
fn unwelcome(alloc: Global, refusal: Refusal) -> Result<Greeting, AllocError>
    ensures { IfOk result (spec.Refuses refusal) }
{
    Ok(Greeting::Said(refused(alloc, refusal)?))
}

// What is said to `initialize`.
fn initialize(alloc: Global, understood: bool) -> Result<Said, AllocError>
    ensures { IfOk result (λ s. seen s ≡ spec.initialized understood) }
{
    if understood {
        Ok(Said::Done(Some(capabilities_body(alloc)?)))
    } else {
        Ok(Said::Refused(Refusal::BadArguments))
    }
}

// What comes of `initialize`: whether it was done.
fn initialize_once(
    alloc: Global,
    initialized: &mut bool,
    understood: bool,
) -> Result<Greeting, AllocError>
    ensures { IfOk result (λ greeting. spec.Initializes initialized.old understood greeting initialized.new) }
{
    if *initialized {
        return unwelcome(alloc, Refusal::Initialized);
    }
    let said = initialize(alloc, understood)?;
    let said = alone(alloc, said)?;
    *initialized = understood;
    Ok(Greeting::Said(said))
}

// What comes of loading.
fn greeted(loading: Loading) -> Greeting
    ensures { result ≡ spec.greeted loading }
{
    match loading {
        Loading::Loaded(loaded) => Greeting::Launched(loaded),
        Loading::Unloaded(said) => Greeting::Said(said),
    }
}

// What comes of `launch`.
fn launch<K: Compile, S: Sources>(
    compiler: &K,
    alloc: Global,
    sources: &mut S,
    launch: Option<Launch<'_>>,
) -> Result<Greeting, AllocError>
    ensures { IfOk result (λ greeting. spec.Launches K.own S.reads (option_map asked_of launch.entry) sources.old greeting sources.new) }
{
    match launch {
        Some(launch) => Ok(greeted(load(compiler, alloc, sources, &launch)?)),
        None => unwelcome(alloc, Refusal::BadArguments),
    }
}

// Why a request comes too early.
fn too_early(initialized: bool) -> Refusal
    ensures { result ≡ spec.too_early initialized }
{
    if initialized {
        Refusal::NotLaunched
    } else {
        Refusal::NotInitialized
    }
}

// That a request is done.
fn done(alloc: Global) -> Result<Greeting, AllocError>
    ensures { IfOk result spec.IsDone }
{
    Ok(Greeting::Said(alone(alloc, Said::Done(None))?))
}

/// What a request asks for: a command, if it is one of the adapter's, and its arguments.
#[derive(Clone, Copy, Drop)]
pub struct Asked<'a> {
    pub command: Option<Command>,
    pub arguments: &'a Value,
}

/// What comes of a request before a program is launched, by whether the adapter was initialized, and by what it has for
/// a launch that asks for nothing else.
pub fn greet<K: Compile, S: Sources>(
    compiler: &K,
    alloc: Global,
    usual: Usual,
    initialized: &mut bool,
    sources: &mut S,
    asked: Asked<'_>,
) -> Result<Greeting, AllocError>
    ensures { IfOk result (λ greeting. spec.Greets K.own S.reads usual asked.entry.command (view asked.entry.arguments.now) initialized.old sources.old greeting initialized.new sources.new) }
{
    match asked.command {
        None => unwelcome(alloc, Refusal::UnknownCommand),
        Some(Command::Disconnect) => done(alloc),
        Some(Command::Initialize) => {
            initialize_once(alloc, initialized, is_understood(asked.arguments))
        }
        Some(Command::Launch) if *initialized => {
            launch(compiler, alloc, sources, launch_in(asked.arguments, usual))
        }
        Some(_) => unwelcome(alloc, too_early(*initialized)),
    }
}
