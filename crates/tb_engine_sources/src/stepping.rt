//! Stepping through a source or a PRG file by commands.
ghost use Rattle.tb_engine_streams.specs.Uses.{use_of, TakesInput};
ghost use Rattle.tb_engine_play.specs.Plays.{quietly};
ghost use Rattle.tb_engines.specs.Delivery.{Makes};
ghost use Rattle.tb_engine_sources.specs.Sources.{WarnsOfRead};
ghost use Rattle.tb_engine_sources.specs.Starting.{IsLoadable};
ghost use Rattle.tb_engine_sources.specs.Stepping.{AnswersBoth, FaultsOfBoth, Steps, StepsPrg, StepsThrough};

use crate::reading::compile_source;
use crate::runs::SourceRun;
use crate::starting::start_program;
use std::alloc::Global;
use std::io::{Read, Write};
use tb_compiled::{Compile, Compiled};
use tb_debug_stepping::answers;
use tb_engine_streams::{Tracked, read_input};
use tb_engines::{End, NoText, Outcome, Report, RunSettings, Text, deliver, start_file};
use tb_kernal::{Keyboard, Quiet};
use tb_stepper::Stepper;

// The answers to commands, over a stepper of a program's start machine.
fn step_program(
    alloc: Global,
    program: &Compiled,
    keyboard: Keyboard,
    commands: &[u8],
    limit: u64,
) -> Result<Text, NoText>
    requires { IsLoadable program.now }
    ensures { Makes (Steps (quietly keyboard.text.items keyboard.answers.items limit) program.now commands.now) result }
{
    let machine = start_program(alloc, program, keyboard)?;
    let Ok(mut stepper) = Stepper::new(alloc, machine, program, Quiet) else {
        return Err(NoText::NoMemory);
    };
    Ok(Text {
        bytes: answers(alloc, &mut stepper, commands, limit)?,
        end: End::Done,
    })
}

// The answers to commands, over a stepper of the machine at the start of a PRG file.
fn step_file(
    alloc: Global,
    file: &[u8],
    keyboard: Keyboard,
    commands: &[u8],
    limit: u64,
) -> Result<Text, NoText>
    ensures { Makes (StepsPrg (quietly keyboard.text.items keyboard.answers.items limit) file.now commands.now) result }
{
    let machine = start_file(alloc, file, keyboard)?;
    let Ok(mut stepper) = Stepper::without_source(alloc, machine, Quiet) else {
        return Err(NoText::NoMemory);
    };
    Ok(Text {
        bytes: answers(alloc, &mut stepper, commands, limit)?,
        end: End::Done,
    })
}

impl SourceRun {
    /// Reads a source and then commands, compiles the source, and writes the answers to the commands, each a line, up to
    /// `q` or the end. The machine is the one that `run_within` starts with, and the outside is `Quiet`. A walk to a line
    /// takes at most so many steps as the limit says.
    pub fn step_within<K: Compile, R: Read, C: Read, W: Write>(
        self,
        compiler: &K,
        alloc: Global,
        source: &mut Tracked<R>,
        commands: &mut Tracked<C>,
        writer: &mut Tracked<W>,
    ) -> Report
        ensures answers { AnswersBoth
            (StepsThrough K.own (quietly self.run.keyboard.text.items self.run.keyboard.answers.items self.run.limit) self.settings result.warnings.items) result.outcome
            (use_of R.remaining source.old source.new) (use_of C.remaining commands.old commands.new)
            (use_of W.contents writer.old writer.new) }
        ensures warned { WarnsOfRead result.outcome result.warnings.items }
        ensures faults { FaultsOfBoth result.outcome
            (use_of R.remaining source.old source.new) (use_of C.remaining commands.old commands.new)
            (use_of W.contents writer.old writer.new) }
        ensures source_taken { TakesInput (use_of R.remaining source.old source.new) }
        ensures commands_taken { TakesInput (use_of C.remaining commands.old commands.new) }
    {
        let SourceRun { settings, run } = self;
        let RunSettings { keyboard, limit } = run;
        let text = match read_input(alloc, source) {
            Ok(text) => text,
            Err(error) => return Report::new(alloc, Outcome::from(error)),
        };
        let commands = match read_input(alloc, commands) {
            Ok(commands) => commands,
            Err(error) => return Report::new(alloc, Outcome::from(error)),
        };
        let source = match compile_source(compiler, alloc, text, settings) {
            Ok(source) => source,
            Err(stop) => return Report::new(alloc, Outcome::of(Err(stop))),
        };
        Report {
            outcome: deliver(
                writer,
                step_program(alloc, &source.program, keyboard, commands.as_slice(), limit),
            ),
            warnings: source.program.into_warnings(),
        }
    }
}

/// Reads a PRG file and then commands, and writes the answers to the commands, each a line, up to `q` or the end. The
/// machine is the one that `run_prg` starts with, and the outside is `Quiet`. There is no source.
pub fn step_prg<R: Read, C: Read, W: Write>(
    alloc: Global,
    prg: &mut Tracked<R>,
    commands: &mut Tracked<C>,
    writer: &mut Tracked<W>,
    keyboard: Keyboard,
    limit: u64,
) -> Outcome
    ensures answers { AnswersBoth (StepsPrg (quietly keyboard.text.items keyboard.answers.items limit)) result
        (use_of R.remaining prg.old prg.new) (use_of C.remaining commands.old commands.new)
        (use_of W.contents writer.old writer.new) }
    ensures faults { FaultsOfBoth result
        (use_of R.remaining prg.old prg.new) (use_of C.remaining commands.old commands.new)
        (use_of W.contents writer.old writer.new) }
    ensures prg_taken { TakesInput (use_of R.remaining prg.old prg.new) }
    ensures commands_taken { TakesInput (use_of C.remaining commands.old commands.new) }
{
    let file = match read_input(alloc, prg) {
        Ok(file) => file,
        Err(error) => return Outcome::from(error),
    };
    let commands = match read_input(alloc, commands) {
        Ok(commands) => commands,
        Err(error) => return Outcome::from(error),
    };
    deliver(
        writer,
        step_file(alloc, file.as_slice(), keyboard, commands.as_slice(), limit),
    )
}
