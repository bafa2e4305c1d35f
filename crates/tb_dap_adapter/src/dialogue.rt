//! The dialogue with an editor: before a program is launched, and then with it.
ghost use Rattle.std.specs.Prelude.{IfOk};
ghost use Rattle.serde_json.specs.View.{view};
ghost use Rattle.tb_dap_messages.specs.Requests.{asked_of};
ghost use Rattle.tb_dap_adapter.specs.Dialogue as spec;
ghost use Rattle.tb_editor_dialogue.specs.Dialogue.{streams};
ghost use Rattle.tb_engine_streams.specs.Failures.{failures_of};

use crate::outcome::AdapterOutcome;
use crate::session::{Session, Stage};
use crate::talking::{complain, end_by, given, say, silence};
use crate::waiting::{Launched, launched_by, wait};
use serde_json::Value;
use std::alloc::{AllocError, Global};
use std::io::{Read, Write};
use tb_basic_names::read_source;
use tb_compiled::{Compile, Notation};
use tb_dap_messages::{Asker, Message, Refusal, message_of};
use tb_dap_requests::{Loaded, Plan, Usual};
use tb_dap_values::command_of;
use tb_dap_views::SourceFile;
use tb_debug::{Debugger, Rom};
use tb_editor_dialogue::{Heard, Talker, Turn, converse, write_frames};
use tb_engine_check::Sources;
use tb_engine_sources::CompiledSource;
use tb_engine_streams::{Done, Tracked};
use tb_kernal::Machine;

/// Who debugs a program.
#[derive(Drop)]
pub struct Debugging<'a> {
    pub session: Session<'a>,
    /// The number of the next message.
    pub next: u64,
}

impl Debugging<'_> {
    // Takes a request.
    fn take_request(
        &mut self,
        alloc: Global,
        asker: Asker<'_>,
        arguments: &Value,
    ) -> Result<Turn<Done>, AllocError>
        ensures { IfOk result (λ turn. spec.TakesRequest asker.entry.seq asker.entry.command.now (view arguments.now) self.old turn self.new) }
    {
        let command = command_of(asker.command);
        let said = self.session.take(alloc, command, arguments)?;
        say(alloc, &mut self.next, asker, said, end_by(command, Done))
    }

    // Takes a message.
    fn take_message(
        &mut self,
        alloc: Global,
        message: Message<'_>,
    ) -> Result<Turn<Done>, AllocError>
        ensures { spec.TakesMessage (asked_of message.entry) self.old result self.new }
    {
        match message {
            Message::Request {
                seq,
                command,
                arguments,
            } => {
                let null = Value::Null;
                let asker = Asker { seq, command };
                self.take_request(alloc, asker, given(arguments, &null))
            }
            Message::Passed => Ok(silence()),
            Message::NoMessage => complain(alloc, &mut self.next, Refusal::NoMessage),
        }
    }
}

impl Talker for Debugging<'_> {
    ghost use Rattle.tb_dap_adapter.specs.Dialogue as spec;

    type End = Done;

    ghost takes = { λ s heard result t. spec.TakesHeard s heard result t };

    ghost ends = { λ s end. spec.IsDone s end };

    fn take(&mut self, alloc: Global, heard: &Heard) -> Result<Turn<Done>, AllocError> {
        match heard {
            Heard::Value(value) => self.take_message(alloc, message_of(value)),
            Heard::NoJson => complain(alloc, &mut self.next, Refusal::NoJson),
            Heard::TooLarge => complain(alloc, &mut self.next, Refusal::TooLarge),
        }
    }

    fn end(&self) -> Done {
        Done
    }
}

// A program at its start: the machine, and the ROM beside it.
#[derive(Drop)]
struct Start {
    machine: Machine,
    rom: Rom,
}

// The session of a program that is loaded.
fn session_of<'a>(
    alloc: Global,
    path: &'a str,
    source: &'a CompiledSource,
    notation: Notation,
    start: Start,
    plan: Plan,
) -> Result<Session<'a>, AllocError>
    ensures { IfOk result (spec.IsSession path.now source.now notation start.machine start.rom plan) }
{
    let lines = read_source(alloc, notation, &source.text)?;
    let debugger = Debugger::new(alloc, &source.program, start.machine, start.rom)?;
    Ok(Session {
        file: SourceFile {
            path,
            source: lines,
            program: &source.program,
        },
        debugger,
        plan,
        stage: Stage::Loaded,
        typed: 0,
        steps: false,
    })
}

// Says what is said as a program is launched.
fn open<W: Write>(
    alloc: Global,
    next: &mut u64,
    session: &Session<'_>,
    asked: u64,
    writer: &mut Tracked<W>,
) -> Result<(), AdapterOutcome>
    ensures { spec.Opens asked session.now next.old result next.new (W.contents writer.old.stream) (W.contents writer.new.stream)
        (failures_of writer.old) (failures_of writer.new) }
{
    let asker = Asker {
        seq: asked,
        command: "launch",
    };
    let said = session.opening(alloc)?;
    let turn: Turn<Done> = say(alloc, next, asker, said, None)?;
    match write_frames(writer, turn.frames) {
        Ok(()) => Ok(()),
        Err(_) => Err(AdapterOutcome::WriteFault),
    }
}

// Answers messages with a program that is loaded.
fn debug<R: Read, W: Write>(
    alloc: Global,
    first: u64,
    launched: Launched,
    reader: &mut Tracked<R>,
    writer: &mut Tracked<W>,
) -> AdapterOutcome
    ensures { spec.Debugs launched first
        (streams (R.remaining reader.old.stream) (failures_of reader.old) (W.contents writer.old.stream) (failures_of writer.old))
        result
        (streams (R.remaining reader.new.stream) (failures_of reader.new) (W.contents writer.new.stream) (failures_of writer.new)) }
{
    let Loaded {
        path,
        source,
        notation,
        machine,
        rom,
        plan,
    } = launched.loaded;
    let start = Start { machine, rom };
    let Ok(session) = session_of(alloc, &path, &source, notation, start, plan) else {
        return AdapterOutcome::NoMemory;
    };
    let mut next = first;
    if let Err(outcome) = open(alloc, &mut next, &session, launched.asked, writer) {
        return outcome;
    }
    let mut debugging = Debugging { session, next };
    converse(alloc, &mut debugging, reader, writer)
}

/// Reads messages and answers each before the next one is read, up to the end. A launch that asks for nothing else has
/// what is usual.
pub fn serve<K: Compile, S: Sources, R: Read, W: Write>(
    compiler: &K,
    alloc: Global,
    usual: Usual,
    sources: &mut S,
    reader: &mut Tracked<R>,
    writer: &mut Tracked<W>,
) -> AdapterOutcome
    ensures { spec.Serves K.own S.reads usual sources.old
        (streams (R.remaining reader.old.stream) (failures_of reader.old) (W.contents writer.old.stream) (failures_of writer.old))
        result sources.new
        (streams (R.remaining reader.new.stream) (failures_of reader.new) (W.contents writer.new.stream) (failures_of writer.new)) }
{
    let (outcome, next) = wait(compiler, alloc, usual, sources, reader, writer);
    match launched_by(outcome) {
        Ok(launched) => debug(alloc, next, launched, reader, writer),
        Err(outcome) => outcome,
    }
}
