//! Building a source.
ghost use Rattle.tb_opcodes.specs.Bytes.{AreBytes};
ghost use Rattle.tb_engine_streams.specs.Uses.{use_of, TakesInput};
ghost use Rattle.tb_engines.specs.Outcomes.{Answers, AnswersInput, Faults};
ghost use Rattle.tb_engines.specs.Delivery.{DeliveryFaults};
ghost use Rattle.tb_engine_sources.specs.Sources.{IsFile, FromSource, WarnsOfRead};

use crate::reading::read_source;
use std::alloc::Global;
use std::io::{Read, Write};
use tb_compiled::{Compile, CompileSettings, Compiled};
use tb_engine_streams::{Tracked, write_output};
use tb_engines::{End, Outcome, Report};

// Writes a program's PRG file.
fn write_program<W: Write>(writer: &mut Tracked<W>, program: &Compiled) -> Outcome
    ensures answers { Answers (IsFile program.now) result
        (W.contents writer.old.stream) (W.contents writer.new.stream) }
    ensures faults { DeliveryFaults result (use_of W.contents writer.old writer.new) }
{
    match write_output(writer, program.prg()) {
        Ok(()) => Outcome::Ended(End::Done),
        Err(_) => Outcome::WriteFault,
    }
}

/// Compiles a source by any settings, and writes its PRG file.
pub fn build_within<K: Compile, R: Read, W: Write>(
    compiler: &K,
    alloc: Global,
    reader: &mut Tracked<R>,
    writer: &mut Tracked<W>,
    settings: CompileSettings,
) -> Report
    ensures answers { AnswersInput (FromSource K.own settings IsFile result.warnings.items) result.outcome
        (use_of R.remaining reader.old reader.new) (use_of W.contents writer.old writer.new) }
    ensures warned { WarnsOfRead result.outcome result.warnings.items }
    ensures faults { Faults result.outcome (use_of R.remaining reader.old reader.new) (use_of W.contents writer.old writer.new) }
    ensures taken { TakesInput (use_of R.remaining reader.old reader.new) }
{
    let source = match read_source(compiler, alloc, reader, settings) {
        Ok(source) => source,
        Err(stop) => return Report::new(alloc, Outcome::of(Err(stop))),
    };
    Report {
        outcome: write_program(writer, &source.program),
        warnings: source.program.into_warnings(),
    }
}

/// A lemma: bytes are numbers below 256. It does nothing. A proof takes it from here for bytes that are handed on.
pub fn are_bytes(bytes: &[u8])
    ensures { AreBytes bytes.now }
{}
