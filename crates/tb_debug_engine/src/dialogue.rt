//! The dialogue.
ghost use Rattle.std.specs.Prelude.{◌≡◌, OnErr, OnOk, is_err, option_map};
ghost use Rattle.std.specs.Io.KnownBytes.{Appends};
ghost use Rattle.tb_engine_streams.specs.Failures.{failures_of};
ghost use Rattle.tb_engine_streams.specs.Streams.{AppendsPrefix, counted};
ghost use Rattle.tb_debug_engine.specs.Dialogue.{Asks, Begins, BeginsPrg, Converses, Debugs, DebugsPrg, Exchanges, Opens};
ghost use Rattle.tb_debug_engine.specs.Dialogue.{Says, Talks, prompt, spelled_by};
ghost use Rattle.tb_debug_commands.specs.Commands.{asked_of};
ghost use Rattle.tb_debug_engine.specs.Sources.{shown_of};
ghost use Rattle.tb_debug_engine.specs.Streams.{stream_of, streams_of};

use crate::labels::translated;
use crate::sources::Written;
use crate::texts::push_answer;
use std::alloc::Global;
use std::io::{Read, Write};
use tb_assembly_labels::Label;
use tb_debug::{Answer, Command, Debugger, Rom, last_move, read_after, read_without_source};
use tb_engine_sources::{CompiledSource, are_bytes, start_program};
use tb_engine_streams::{
    MOST_INPUT, StreamFailure, Tracked, read_line, without_return, write_output,
};
use tb_engines::{End, Outcome, start_file};
use tb_kernal::{Keyboard, Watch};

/// What is shown before a command that is typed at a terminal.
const PROMPT: &[u8] = b"> ";

/// How a program is debugged.
#[derive(Clone, Copy, Debug, Drop)]
pub struct Setting {
    pub rom: Rom,
    /// How many events a command that goes on may take.
    pub limit: u64,
    /// Whether a prompt is shown, and after `what?` what helps.
    pub prompts: bool,
}

/// What a dialogue reads and writes: the commands, one on a line, and their answers.
#[derive(Drop)]
pub struct Streams<R: Read, W: Write> {
    pub commands: Tracked<R>,
    pub writer: Tracked<W>,
}

/// A PRG file, and the names of its places.
#[derive(Clone, Copy, Debug, Drop)]
pub struct NamedPrg<'a> {
    pub file: &'a [u8],
    pub labels: &'a [Label],
}

/// A dialogue as far as it has come.
#[derive(Drop)]
pub struct Dialogue<'a> {
    debugger: Debugger<'a>,
    /// The move that an empty line repeats.
    last: Option<Command<'static>>,
}

// Writes the text of an answer, and flushes it.
fn say<W: Write>(
    alloc: Global,
    writer: &mut Tracked<W>,
    source: &Written<'_>,
    hints: bool,
    answer: Answer,
) -> Result<(), Outcome>
    ensures { Says (shown_of hints source.now answer) result (stream_of W.contents writer.old) (stream_of W.contents writer.new) }
{
    let mut text = Vec::new(alloc);
    push_answer(alloc, &mut text, source, hints, answer)?;
    match write_output(writer, text.as_slice()) {
        Ok(()) => Ok(()),
        Err(_) => Err(Outcome::WriteFault),
    }
}

// Writes the prompt, if one is to be shown.
fn prompt<W: Write>(writer: &mut Tracked<W>, prompts: bool) -> Result<(), StreamFailure>
    ensures whole { OnOk result (Appends (W.contents writer.old.stream) (W.contents writer.new.stream) (prompt prompts)) }
    ensures prefix { OnErr result (AppendsPrefix (W.contents writer.old.stream) (W.contents writer.new.stream) (prompt prompts)) }
    ensures noted { failures_of writer.new ≡ counted (failures_of writer.old) (is_err result) }
{
    if prompts {
        write_output(writer, PROMPT)
    } else {
        Ok(())
    }
}

// Reads the next line after the prompt; none if the input has ended.
fn ask<R: Read, W: Write>(
    alloc: Global,
    prompts: bool,
    streams: &mut Streams<R, W>,
) -> Result<Option<Vec<u8>>, Outcome>
    ensures { Asks prompts result
        (streams_of R.remaining streams.old.commands W.contents streams.old.writer) (streams_of R.remaining streams.new.commands W.contents streams.new.writer) }
{
    if prompt(&mut streams.writer, prompts).is_err() {
        return Err(Outcome::WriteFault);
    }
    Ok(read_line(alloc, &mut streams.commands, MOST_INPUT)?)
}

// The command that a line is after a move, with or without a source.
fn read_spelled<'a>(has_no_source: bool, last: Option<Command<'a>>, line: &'a [u8]) -> Command<'a>
    ensures { asked_of result ≡ spelled_by has_no_source (option_map asked_of last.entry) line.now }
{
    if has_no_source {
        read_without_source(last, line)
    } else {
        read_after(last, line)
    }
}

// Answers the next line: whether there was one that isn't the end.
fn answer_line<R: Read, W: Write, V: Watch>(
    alloc: Global,
    dialogue: &mut Dialogue<'_>,
    source: &Written<'_>,
    setting: Setting,
    streams: &mut Streams<R, W>,
    watch: &mut V,
) -> Result<bool, Outcome>
    ensures { Exchanges source.now setting dialogue.old result dialogue.new
        (streams_of R.remaining streams.old.commands W.contents streams.old.writer) (streams_of R.remaining streams.new.commands W.contents streams.new.writer) }
{
    let line = match ask(alloc, setting.prompts, streams) {
        Ok(Some(line)) => line,
        Ok(None) => return Ok(false),
        Err(outcome) => return Err(outcome),
    };
    let Ok(spelled) = translated(alloc, source.labels, without_return(line.as_slice())) else {
        return Err(Outcome::NoMemory);
    };
    let command = read_spelled(
        dialogue.debugger.has_no_source(),
        dialogue.last,
        spelled.as_slice(),
    );
    dialogue.last = last_move(dialogue.last, command);
    match dialogue
        .debugger
        .respond(alloc, command, setting.limit, watch)
    {
        Ok(Some(answer)) => {
            match say(alloc, &mut streams.writer, source, setting.prompts, answer) {
                Ok(()) => Ok(true),
                Err(outcome) => Err(outcome),
            }
        }
        Ok(None) => Ok(false),
        Err(_) => Err(Outcome::NoMemory),
    }
}

// Answers each line after the first stop, until one ends the dialogue or none is left.
fn answer_lines<R: Read, W: Write, V: Watch>(
    alloc: Global,
    dialogue: &mut Dialogue<'_>,
    source: &Written<'_>,
    setting: Setting,
    streams: &mut Streams<R, W>,
    watch: &mut V,
) -> Outcome
    ensures { Talks source.now setting dialogue.old result
        (streams_of R.remaining streams.old.commands W.contents streams.old.writer) (streams_of R.remaining streams.new.commands W.contents streams.new.writer) }
{
    for asked in 0..u64::MAX {
        match answer_line(alloc, dialogue, source, setting, streams, watch) {
            Ok(true) => {}
            Ok(false) => return Outcome::Ended(End::Done),
            Err(outcome) => return outcome,
        }
    }
    Outcome::Ended(End::Done)
}

// The debugger of a program at its first line.
fn debugger_of<'a>(
    alloc: Global,
    source: &'a CompiledSource,
    keyboard: Keyboard,
    rom: Rom,
) -> Result<Debugger<'a>, Outcome>
    ensures { Begins source.now.program keyboard rom result }
{
    are_bytes(source.program.prg());
    are_bytes(keyboard.text.as_slice());
    are_bytes(keyboard.answers.as_slice());
    let machine = match start_program(alloc, &source.program, keyboard) {
        Ok(machine) => machine,
        Err(stop) => return Err(Outcome::from(stop)),
    };
    match Debugger::new(alloc, &source.program, machine, rom) {
        Ok(debugger) => Ok(debugger),
        Err(_) => Err(Outcome::NoMemory),
    }
}

// The first stop is told.
fn open<W: Write>(
    alloc: Global,
    debugger: &mut Debugger<'_>,
    source: &Written<'_>,
    setting: Setting,
    writer: &mut Tracked<W>,
) -> Result<(), Outcome>
    ensures { Opens source.now setting debugger.old result debugger.new (stream_of W.contents writer.old) (stream_of W.contents writer.new) }
{
    let first = debugger.stop(alloc, debugger.standing())?;
    say(alloc, writer, source, setting.prompts, first)
}

/// Debugs a program by commands, one on a line, up to `q` or the end. Each command is answered, and the answer flushed,
/// before the next one is read. A watch hears now and then how far a way is.
pub fn debug<R: Read, W: Write, V: Watch>(
    alloc: Global,
    source: &CompiledSource,
    keyboard: Keyboard,
    setting: Setting,
    streams: &mut Streams<R, W>,
    watch: &mut V,
) -> Outcome
    ensures { Debugs source.now keyboard setting result
        (streams_of R.remaining streams.old.commands W.contents streams.old.writer) (streams_of R.remaining streams.new.commands W.contents streams.new.writer) }
{
    let Ok(written) = Written::new(alloc, source) else {
        return Outcome::NoMemory;
    };
    match debugger_of(alloc, source, keyboard, setting.rom) {
        Ok(debugger) => converse(alloc, debugger, &written, setting, streams, watch),
        Err(outcome) => outcome,
    }
}

// The first stop is told, and then lines are answered.
fn converse<R: Read, W: Write, V: Watch>(
    alloc: Global,
    debugger: Debugger<'_>,
    source: &Written<'_>,
    setting: Setting,
    streams: &mut Streams<R, W>,
    watch: &mut V,
) -> Outcome
    ensures { Converses source.now setting debugger.entry result
        (streams_of R.remaining streams.old.commands W.contents streams.old.writer) (streams_of R.remaining streams.new.commands W.contents streams.new.writer) }
{
    let mut dialogue = Dialogue {
        debugger,
        last: None,
    };
    match open(
        alloc,
        &mut dialogue.debugger,
        source,
        setting,
        &mut streams.writer,
    ) {
        Ok(()) => answer_lines(alloc, &mut dialogue, source, setting, streams, watch),
        Err(outcome) => outcome,
    }
}

// The debugger of a PRG file at its first instruction.
fn debugger_of_prg<'a>(
    alloc: Global,
    prg: &[u8],
    keyboard: Keyboard,
    rom: Rom,
) -> Result<Debugger<'a>, Outcome>
    ensures { BeginsPrg prg.now keyboard rom result }
{
    let machine = match start_file(alloc, prg, keyboard) {
        Ok(machine) => machine,
        Err(stop) => return Err(Outcome::from(stop)),
    };
    match Debugger::of_prg(alloc, machine, rom) {
        Ok(debugger) => Ok(debugger),
        Err(_) => Err(Outcome::NoMemory),
    }
}

/// Debugs a PRG file, of which there is no source, by the same commands: each address is a line, whose number is the
/// address. What only a source answers is `no source`. A command takes a label's name in place of an address, and an answer
/// tells after an instruction at which place it is.
pub fn debug_prg<R: Read, W: Write, V: Watch>(
    alloc: Global,
    prg: NamedPrg<'_>,
    keyboard: Keyboard,
    setting: Setting,
    streams: &mut Streams<R, W>,
    watch: &mut V,
) -> Outcome
    ensures { DebugsPrg prg.entry.file.now prg.entry.labels.now keyboard setting result
        (streams_of R.remaining streams.old.commands W.contents streams.old.writer) (streams_of R.remaining streams.new.commands W.contents streams.new.writer) }
{
    match debugger_of_prg(alloc, prg.file, keyboard, setting.rom) {
        Ok(debugger) => {
            let written = Written::none(alloc, prg.labels);
            converse(alloc, debugger, &written, setting, streams, watch)
        }
        Err(outcome) => outcome,
    }
}
