//! The dialogue before a program is launched.
ghost use Rattle.std.specs.Prelude.{◌≡◌, IfOk};
ghost use Rattle.serde_json.specs.View.{view};
ghost use Rattle.tb_dap_messages.specs.Requests.{asked_of};
ghost use Rattle.tb_dap_adapter.specs.Waiting as spec;
ghost use Rattle.tb_editor_dialogue.specs.Dialogue.{streams};
ghost use Rattle.tb_engine_streams.specs.Failures.{failures_of};

use crate::greeting::{Asked, Greeting, greet};
use crate::outcome::AdapterOutcome;
use crate::talking::{complain, end_by, given, say, silence};
use serde_json::Value;
use std::alloc::{AllocError, Global};
use std::io::{Read, Write};
use tb_compiled::Compile;
use tb_dap_messages::{Asker, Message, Refusal, message_of};
use tb_dap_requests::{Loaded, Usual};
use tb_dap_values::command_of;
use tb_editor_dialogue::{Heard, Talker, Turn, converse};
use tb_editor_frames::BadFrame;
use tb_engine_check::Sources;
use tb_engine_streams::{Done, Outcome, Tracked};

/// A launch, with the number of its request.
#[derive(Drop)]
pub struct Launched {
    pub loaded: Loaded,
    pub asked: u64,
}

/// How the dialogue before a launch ends.
#[derive(Drop)]
pub enum Waited {
    /// The end was asked for, or the input has ended.
    Done,
    Launched(Launched),
}

/// Who waits for a launch.
#[derive(Drop)]
struct Greeter<'a, K, S> {
    compiler: &'a K,
    usual: Usual,
    sources: &'a mut S,
    initialized: bool,
    /// The number of the next message.
    next: u64,
}

// The turn in which a greeting is said, or a program is launched.
fn say_greeting(
    alloc: Global,
    next: &mut u64,
    asker: Asker<'_>,
    greeting: Greeting,
    end: Option<Waited>,
) -> Result<Turn<Waited>, AllocError>
    ensures { IfOk result (λ turn. spec.SaysGreeting asker.entry.seq asker.entry.command.now greeting end turn next.old next.new) }
{
    match greeting {
        Greeting::Said(said) => say(alloc, next, asker, said, end),
        Greeting::Launched(loaded) => Ok(Turn {
            frames: None,
            end: Some(Waited::Launched(Launched {
                loaded,
                asked: asker.seq,
            })),
        }),
    }
}

impl<K: Compile, S: Sources> Greeter<'_, K, S> {
    // Takes a request.
    fn take_request(
        &mut self,
        alloc: Global,
        asker: Asker<'_>,
        arguments: &Value,
    ) -> Result<Turn<Waited>, AllocError>
        ensures same { spec.IsSame self.old self.new }
        ensures greets { IfOk result (λ turn. spec.GreetsRequest K.own S.reads self.old.usual asker.entry.seq asker.entry.command.now (view arguments.now)
            (spec.early_of self.old) turn (spec.early_of self.new)) }
    {
        let command = command_of(asker.command);
        let greeting = greet(
            self.compiler,
            alloc,
            self.usual,
            &mut self.initialized,
            self.sources,
            Asked { command, arguments },
        )?;
        let end = end_by(command, Waited::Done);
        say_greeting(alloc, &mut self.next, asker, greeting, end)
    }

    // Takes a message.
    fn take_message(
        &mut self,
        alloc: Global,
        message: Message<'_>,
    ) -> Result<Turn<Waited>, AllocError>
        ensures same { spec.IsSame self.old self.new }
        ensures greets { spec.GreetsMessage K.own S.reads self.old.usual (asked_of message.entry) (spec.early_of self.old) result (spec.early_of self.new) }
    {
        match message {
            Message::Request {
                seq,
                command,
                arguments,
            } => {
                let null = Value::Null;
                let asker = Asker { seq, command };
                self.take_request(alloc, asker, given(arguments, &null))
            }
            Message::Passed => Ok(silence()),
            Message::NoMessage => complain(alloc, &mut self.next, Refusal::NoMessage),
        }
    }
}

impl<K: Compile, S: Sources> Talker for Greeter<'_, K, S> {
    ghost use Rattle.tb_dap_adapter.specs.Waiting as spec;

    type End = Waited;

    ghost takes = { λ s heard result t. spec.TakesIt K.own S.reads s heard result t };

    ghost ends = { λ s end. spec.EndsUnlaunched end };

    fn take(&mut self, alloc: Global, heard: &Heard) -> Result<Turn<Waited>, AllocError> {
        match heard {
            Heard::Value(value) => self.take_message(alloc, message_of(value)),
            Heard::NoJson => complain(alloc, &mut self.next, Refusal::NoJson),
            Heard::TooLarge => complain(alloc, &mut self.next, Refusal::TooLarge),
        }
    }

    fn end(&self) -> Waited {
        Waited::Done
    }
}

impl<K: Compile, S: Sources> Greeter<'_, K, S> {
    // Answers messages up to a launch or the end.
    fn lead<R: Read, W: Write>(
        &mut self,
        alloc: Global,
        reader: &mut Tracked<R>,
        writer: &mut Tracked<W>,
    ) -> Outcome<Waited, BadFrame>
        ensures same_reference { self.new.sources.ghost_name ≡ self.old.sources.ghost_name }
        ensures leads { spec.Leads K.own S.reads self.old.usual (spec.early_of self.old)
            (streams (R.remaining reader.old.stream) (failures_of reader.old) (W.contents writer.old.stream) (failures_of writer.old))
            result self.new.sources.now self.new.next
            (streams (R.remaining reader.new.stream) (failures_of reader.new) (W.contents writer.new.stream) (failures_of writer.new)) }
    {
        converse(alloc, self, reader, writer)
    }
}

/// Answers messages up to a launch or the end, and how that ended, with the number of the next message.
pub fn wait<K: Compile, S: Sources, R: Read, W: Write>(
    compiler: &K,
    alloc: Global,
    usual: Usual,
    sources: &mut S,
    reader: &mut Tracked<R>,
    writer: &mut Tracked<W>,
) -> (Outcome<Waited, BadFrame>, u64)
    ensures { spec.Waits K.own S.reads usual sources.old
        (streams (R.remaining reader.old.stream) (failures_of reader.old) (W.contents writer.old.stream) (failures_of writer.old))
        result.0 sources.new result.1
        (streams (R.remaining reader.new.stream) (failures_of reader.new) (W.contents writer.new.stream) (failures_of writer.new)) }
{
    let mut greeter = Greeter {
        compiler,
        usual,
        sources,
        initialized: false,
        next: 1,
    };
    let outcome = greeter.lead(alloc, reader, writer);
    (outcome, greeter.next)
}

/// What was launched, or how the dialogue ended before.
pub fn launched_by(outcome: Outcome<Waited, BadFrame>) -> Result<Launched, AdapterOutcome>
    ensures { result ≡ spec.launched_by outcome }
{
    match outcome {
        Outcome::Ended(Waited::Launched(launched)) => Ok(launched),
        Outcome::Ended(Waited::Done) => Err(Outcome::Ended(Done)),
        Outcome::Refused(bad) => Err(Outcome::Refused(bad)),
        Outcome::ReadFault => Err(Outcome::ReadFault),
        Outcome::WriteFault => Err(Outcome::WriteFault),
        Outcome::NoMemory => Err(Outcome::NoMemory),
    }
}
