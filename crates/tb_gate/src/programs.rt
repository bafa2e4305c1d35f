//! Sources that are compiled and run, and steps that are taken back.
ghost use Rattle.std.specs.Prelude.{◌≡◌, IfOk};
ghost use Rattle.tb_parser.specs.Files.{Outcome};
ghost use Rattle.tb_kernal.specs.Machine.{state_of};
ghost use Rattle.tb_compiled.specs.Answers.{HasOutcome, LinesMake, OutcomeAnswer};
ghost use Rattle.tb_compiled.specs.Settings.{by_cost};
ghost use Rattle.tb_compiled.specs.Theorem.{KeepsItsSource, MarksItsLines};
ghost use Rattle.tb_codegen.specs.Templates.{templates};
ghost use Rattle.tb_engine_streams.specs.Uses.{use_of, TakesInput};
ghost use Rattle.tb_engines.specs.Outcomes.{AnswersInput, Faults};
ghost use Rattle.tb_engines.specs.Programs.{plain_settings_of};
ghost use Rattle.tb_engine_sources.specs.Output.{RunsSource};
ghost use Rattle.tb_engine_sources.specs.Sources.{RunsText, WarnsOfRead};

use std::alloc::Global;
use std::io::{Read, Write};
use tb_codegen::{Options, compile};
use tb_compiled::{CompileError, Compiled};
use tb_driver::run_text;
use tb_engine_streams::Tracked;
use tb_engines::Report;
use tb_kernal::{Event, EventError, Keyboard, Machine, Outside, Status};

/// Calls `compile`.
pub fn source_compiled(
    alloc: Global,
    source: &[u8],
    options: Options,
) -> Result<Compiled, CompileError>
    // What the file's lines make is answered,
    ensures found { HasOutcome templates (by_cost options.seed) source.now result }
    // and whatever they make is what is answered.
    ensures only { (outcome : Outcome) → LinesMake source.now outcome → OutcomeAnswer templates (by_cost options.seed) outcome result }
    // A compiled file's code, loaded at $0801, keeps the program that its source makes, whatever the ROM does.
    ensures keeps { IfOk result (KeepsItsSource options.seed source.now) }
    // When it comes to the address that start_of answers for a line, the program begins that line, in the same state.
    ensures marks { IfOk result (MarksItsLines options.seed source.now) }
{
    compile(alloc, source, options)
}

/// A compiled source, of which nothing is said but the theorems: it keeps the program and marks its lines.
pub fn source_kept(alloc: Global, source: &[u8], seed: u16) -> Result<Compiled, CompileError>
    ensures keeps { IfOk result (KeepsItsSource seed source.now) }
    ensures marks { IfOk result (MarksItsLines seed source.now) }
{
    compile(alloc, source, Options { seed })
}

/// Calls `run_text`.
pub fn ran<R: Read, W: Write, O: Outside>(
    alloc: Global,
    reader: &mut Tracked<R>,
    writer: &mut Tracked<W>,
    seed: u16,
    keyboard: Keyboard,
    limit: u64,
    outside: &mut O,
) -> Report
    ensures answers { AnswersInput (RunsText templates (plain_settings_of O.gives outside.old keyboard limit) (by_cost seed) result.warnings.items)
        result.outcome (use_of R.remaining reader.old reader.new) (use_of W.contents writer.old writer.new) }
    ensures output { AnswersInput (RunsSource templates (by_cost seed) keyboard.text.items keyboard.answers.items)
        result.outcome (use_of R.remaining reader.old reader.new) (use_of W.contents writer.old writer.new) }
    ensures warned { WarnsOfRead result.outcome result.warnings.items }
    ensures faults { Faults result.outcome (use_of R.remaining reader.old reader.new) (use_of W.contents writer.old writer.new) }
    ensures taken { TakesInput (use_of R.remaining reader.old reader.new) }
{
    run_text(alloc, reader, writer, seed, keyboard, limit, outside)
}

/// What `Stepper::step` and `Stepper::back` do with their machine: it is noted before an event, and restored after it.
pub fn there_and_back(machine: &mut Machine, event: Event) -> Result<Status, EventError>
    ensures restored { state_of machine.new ≡ state_of machine.old }
{
    let undo = machine.note(&event);
    let status = machine.event(event)?;
    machine.undo(&undo);
    Ok(status)
}
