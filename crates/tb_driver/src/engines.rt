//! The engines of sources that take a first state of RND alone.
ghost use Rattle.tb_engine_streams.specs.Uses.{use_of, TakesInput};
ghost use Rattle.tb_engines.specs.Outcomes.{AnswersInput, Faults};
ghost use Rattle.tb_engines.specs.Programs.{plain_settings_of};
ghost use Rattle.tb_engine_play.specs.Plays.{quietly};
ghost use Rattle.tb_compiled.specs.Settings.{by_cost};
ghost use Rattle.tb_codegen.specs.Templates.{templates};
ghost use Rattle.tb_engine_sources.specs.Sources.{IsFile, FromSource, RunsText, WarnsOfRead};
ghost use Rattle.tb_engine_sources.specs.Output.{RunsSource};
ghost use Rattle.tb_engine_sources.specs.Stepping.{AnswersBoth, FaultsOfBoth, StepsThrough};

use std::alloc::Global;
use std::io::{Read, Write};
use tb_codegen::TinyBasic;
use tb_compiled::CompileSettings;
use tb_engine_sources::{SourceRun, build_within};
use tb_engine_streams::Tracked;
use tb_engines::{Report, RunSettings};
use tb_kernal::{Keyboard, Outside};

/// Compiles a source with a first state of RND, and writes its PRG file. A source is refused by its cost.
pub fn build<R: Read, W: Write>(
    alloc: Global,
    reader: &mut Tracked<R>,
    writer: &mut Tracked<W>,
    seed: u16,
) -> Report
    ensures answers { AnswersInput (FromSource templates (by_cost seed) IsFile result.warnings.items) result.outcome
        (use_of R.remaining reader.old reader.new) (use_of W.contents writer.old writer.new) }
    ensures warned { WarnsOfRead result.outcome result.warnings.items }
    ensures faults { Faults result.outcome (use_of R.remaining reader.old reader.new) (use_of W.contents writer.old writer.new) }
    ensures taken { TakesInput (use_of R.remaining reader.old reader.new) }
{
    build_within(
        &TinyBasic,
        alloc,
        reader,
        writer,
        CompileSettings::by_cost(seed),
    )
}

/// Compiles a source with a first state of RND and runs it, as `run_within` does. A source is refused by its cost.
pub fn run_text<R: Read, W: Write, O: Outside>(
    alloc: Global,
    reader: &mut Tracked<R>,
    writer: &mut Tracked<W>,
    seed: u16,
    keyboard: Keyboard,
    limit: u64,
    outside: &mut O,
) -> Report
    ensures answers { AnswersInput (RunsText templates (plain_settings_of O.gives outside.old keyboard limit) (by_cost seed) result.warnings.items)
        result.outcome (use_of R.remaining reader.old reader.new) (use_of W.contents writer.old writer.new) }
    ensures output { AnswersInput (RunsSource templates (by_cost seed) keyboard.text.items keyboard.answers.items)
        result.outcome (use_of R.remaining reader.old reader.new) (use_of W.contents writer.old writer.new) }
    ensures warned { WarnsOfRead result.outcome result.warnings.items }
    ensures faults { Faults result.outcome (use_of R.remaining reader.old reader.new) (use_of W.contents writer.old writer.new) }
    ensures taken { TakesInput (use_of R.remaining reader.old reader.new) }
{
    let settings = CompileSettings::by_cost(seed);
    let run = RunSettings { keyboard, limit };
    SourceRun { settings, run }.run_within(&TinyBasic, alloc, reader, writer, outside)
}

/// Reads a source and then commands, compiles the source with a first state of RND, and writes the answers to the
/// commands, each a line, up to `q` or the end. The machine is the one that `run_text` starts with, and the outside
/// is `Quiet`. A walk to a line takes at most `limit` steps. A source is refused by its cost.
pub fn step_text<R: Read, C: Read, W: Write>(
    alloc: Global,
    source: &mut Tracked<R>,
    commands: &mut Tracked<C>,
    writer: &mut Tracked<W>,
    seed: u16,
    keyboard: Keyboard,
    limit: u64,
) -> Report
    ensures answers { AnswersBoth
        (StepsThrough templates (quietly keyboard.text.items keyboard.answers.items limit) (by_cost seed) result.warnings.items) result.outcome
        (use_of R.remaining source.old source.new) (use_of C.remaining commands.old commands.new)
        (use_of W.contents writer.old writer.new) }
    ensures warned { WarnsOfRead result.outcome result.warnings.items }
    ensures faults { FaultsOfBoth result.outcome
        (use_of R.remaining source.old source.new) (use_of C.remaining commands.old commands.new)
        (use_of W.contents writer.old writer.new) }
    ensures source_taken { TakesInput (use_of R.remaining source.old source.new) }
    ensures commands_taken { TakesInput (use_of C.remaining commands.old commands.new) }
{
    let settings = CompileSettings::by_cost(seed);
    let run = RunSettings { keyboard, limit };
    SourceRun { settings, run }.step_within(&TinyBasic, alloc, source, commands, writer)
}
