//! Running a source, with what the machine tells at the end.
ghost use Rattle.std.specs.Prelude.{◌≡◌, []};
ghost use Rattle.tb_kernal.specs.Hearing.{hearing_of};
ghost use Rattle.tb_engine_streams.specs.Uses.{use_of, TakesInput};
ghost use Rattle.tb_engines.specs.Outcomes.{Answers, AnswersInput, Faults};
ghost use Rattle.tb_engines.specs.Delivery.{DeliveryFaults};
ghost use Rattle.tb_engines.specs.Ends.{ByOutcome};
ghost use Rattle.tb_engines.specs.Programs.{settings_of, RunsOn};
ghost use Rattle.tb_engine_sources.specs.Sources.{RunsText, WarnsOfRead};
ghost use Rattle.tb_engine_sources.specs.Output.{RunsSource};
ghost use Rattle.tb_engine_sources.specs.Runs.{NotesEnd, NotesRun, TellsSource};

use crate::notes::{EndNote, end_note};
use crate::reading::read_source;
use crate::sources::are_bytes;
use crate::starting::start_program;
use std::alloc::Global;
use std::io::{Read, Write};
use tb_compiled::{Compile, CompileSettings, Compiled};
use tb_engine_streams::Tracked;
use tb_engines::{Outcome, Report, RunSettings, run_machine};
use tb_kernal::{Machine, Outside, Unwatched, Watch};

/// A run of a source: how it ended, and what the machine told then.
#[derive(Debug, Drop)]
pub struct NotedRun {
    pub report: Report,
    pub note: Option<EndNote>,
}

// What the machine tells after its run, where its output was written, or failed to be.
fn note_after(outcome: Outcome, machine: &Machine, program: &Compiled) -> Option<EndNote>
    ensures { NotesRun program.now outcome machine.now result }
{
    match outcome {
        Outcome::Ended(_) | Outcome::WriteFault => end_note(machine, program),
        Outcome::Refused(_) | Outcome::ReadFault | Outcome::NoMemory => None,
    }
}

/// How a source is run: by which settings it is compiled, and with what its program is run.
#[derive(Drop)]
pub struct SourceRun {
    pub settings: CompileSettings,
    pub run: RunSettings,
}

impl SourceRun {
    /// Compiles a source, runs it as `run_prg` does, and writes what it sends as it comes: in host form, or, where its
    /// texts are read with signs, by the names that signs have. That is the source's output: all of it if the program
    /// returned or waits for a key, and a prefix at the step limit. The answer tells at which line it stopped or waits,
    /// or by which fault its program ended. A watch hears meanwhile how many events were taken, which changes nothing.
    pub fn run_noted<K: Compile, R: Read, W: Write, O: Outside, V: Watch>(
        self,
        compiler: &K,
        alloc: Global,
        reader: &mut Tracked<R>,
        writer: &mut Tracked<W>,
        outside: &mut O,
        watch: &mut V,
    ) -> NotedRun
        ensures answers { AnswersInput (RunsText K.own (settings_of O.gives outside.old self.run.keyboard self.run.limit self.settings.notation) self.settings result.report.warnings.items)
            result.report.outcome (use_of R.remaining reader.old reader.new) (use_of W.contents writer.old writer.new) }
        ensures output { AnswersInput (RunsSource K.own self.settings self.run.keyboard.text.items self.run.keyboard.answers.items)
            result.report.outcome (use_of R.remaining reader.old reader.new) (use_of W.contents writer.old writer.new) }
        ensures warned { WarnsOfRead result.report.outcome result.report.warnings.items }
        ensures note { ByOutcome (TellsSource K.own (settings_of O.gives outside.old self.run.keyboard self.run.limit self.settings.notation) (hearing_of V.hears watch.old watch.new) self.settings (use_of R.remaining reader.old reader.new))
            result.report.outcome result.note }
        ensures faults { Faults result.report.outcome (use_of R.remaining reader.old reader.new) (use_of W.contents writer.old writer.new) }
        ensures taken { TakesInput (use_of R.remaining reader.old reader.new) }
    {
        let SourceRun { settings, run } = self;
        let RunSettings { keyboard, limit } = run;
        let source = match read_source(compiler, alloc, reader, settings) {
            Ok(source) => source,
            Err(stop) => return NotedRun {
                report: Report::new(alloc, Outcome::of(Err(stop))),
                note: None,
            },
        };
        are_bytes(source.program.prg());
        are_bytes(keyboard.text.as_slice());
        are_bytes(keyboard.answers.as_slice());
        let mut machine = match start_program(alloc, &source.program, keyboard) {
            Ok(machine) => machine,
            Err(stop) => return NotedRun {
                report: Report {
                    outcome: Outcome::from(stop),
                    warnings: source.program.into_warnings(),
                },
                note: None,
            },
        };
        let notation = settings.notation;
        let outcome = run_machine(&mut machine, limit, outside, writer, watch, notation);
        let note = note_after(outcome, &machine, &source.program);
        NotedRun {
            report: Report {
                outcome,
                warnings: source.program.into_warnings(),
            },
            note,
        }
    }

    /// Compiles a source and runs it, as `run_noted` does, and nobody hears of it.
    pub fn run_within<K: Compile, R: Read, W: Write, O: Outside>(
        self,
        compiler: &K,
        alloc: Global,
        reader: &mut Tracked<R>,
        writer: &mut Tracked<W>,
        outside: &mut O,
    ) -> Report
        ensures answers { AnswersInput (RunsText K.own (settings_of O.gives outside.old self.run.keyboard self.run.limit self.settings.notation) self.settings result.warnings.items)
            result.outcome (use_of R.remaining reader.old reader.new) (use_of W.contents writer.old writer.new) }
        ensures output { AnswersInput (RunsSource K.own self.settings self.run.keyboard.text.items self.run.keyboard.answers.items)
            result.outcome (use_of R.remaining reader.old reader.new) (use_of W.contents writer.old writer.new) }
        ensures warned { WarnsOfRead result.outcome result.warnings.items }
        ensures faults { Faults result.outcome (use_of R.remaining reader.old reader.new) (use_of W.contents writer.old writer.new) }
        ensures taken { TakesInput (use_of R.remaining reader.old reader.new) }
    {
        self.run_noted(compiler, alloc, reader, writer, outside, &mut Unwatched)
            .report
    }
}
