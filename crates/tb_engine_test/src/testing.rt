//! A source that is tested by a transcript.
ghost use Rattle.std.specs.Prelude.{◌≡◌, IfOk, map, true};
ghost use Rattle.tb_engine_test.specs.Testing.{IsManner, Records, Tests, lines_of};
ghost use Rattle.tb_basic_text.specs.Lines.{lines_of_file};
ghost use Rattle.tb_engine_transcripts.specs.Contents.{content_of, is_writable_end, IsWritable};

use crate::places::{Differs, compare};
use crate::reaching::{Reach, reached};
use crate::running::{Ran, run_beside, starts_of};
use crate::talk::Manner;
use std::alloc::{AllocError, Global};
use tb_basic_meaning::Warning;
use tb_basic_text::{Notation, next_line};
use tb_compiled::{Compile, CompileSettings, Compiled};
use tb_engine_sources::compile_source;
use tb_engine_transcripts::{RunEnd, RunOptions, Transcript};
use tb_engines::Failure;

/// The most events of each stretch of a run, and whether its lines are counted.
#[derive(Clone, Copy, Drop)]
pub struct Counting {
    pub limit: u32,
    pub counts_lines: bool,
}

/// What a transcript's run came to.
#[derive(Drop)]
pub struct Tested {
    /// The run as a transcript, with the options of the one that was wanted.
    pub ran: Transcript,
    /// Where it differs from what was wanted; None if and only if it doesn't.
    pub differs: Option<Differs>,
    /// How often each line of the program was begun, in their order; empty unless it was asked for.
    pub reached: Vec<Reach>,
    pub warnings: Vec<Warning>,
}

// How a program is talked to.
fn manner_of(
    alloc: Global,
    program: &Compiled,
    notation: Notation,
    counting: Counting,
) -> Result<Manner, AllocError>
    ensures { IfOk result (IsManner program.now notation counting) }
{
    let counted = if counting.counts_lines {
        Some(starts_of(alloc, program)?)
    } else {
        None
    };
    Ok(Manner {
        limit: counting.limit,
        notation,
        counted,
    })
}

// The lines that are typed in a transcript.
fn lines_of(alloc: Global, transcript: &Transcript) -> Result<Vec<Vec<u8>>, AllocError>
    ensures { IfOk result (λ lines. map (λ l. l.items) lines.items ≡ lines_of transcript.now) }
{
    let mut lines = Vec::new(alloc);
    for turn in &transcript.turns {
        lines.push(Vec::from_slice(alloc, turn.typed.as_slice())?)?;
    }
    Ok(lines)
}

// A law: an end can be written, for its code is below 256 and its line below 65,536. It does nothing.
fn end_fits(end: RunEnd)
    ensures { is_writable_end end ≡ true }
{}

/// Compiles a source, and runs its program on what is typed in a transcript, beside the ROM that this asks for. The answer
/// has what the run was, where it first differs from the transcript, and which lines it reached.
pub fn test_source<K: Compile>(
    compiler: &K,
    alloc: Global,
    source: Vec<u8>,
    settings: CompileSettings,
    wanted: &Transcript,
    counting: Counting,
) -> Result<Tested, Failure>
    ensures tests { Tests K.own source.items settings wanted.now counting result }
    // The run can be written, if what was wanted can.
    ensures writable { IfOk result (λ t. IsWritable (content_of wanted.now) → IsWritable (content_of t.ran)) }
{
    let source = compile_source(compiler, alloc, source, settings)?;
    let program = &source.program;
    let lines = lines_of(alloc, wanted)?;
    let manner = manner_of(alloc, program, settings.notation, counting)?;
    let Ran {
        turns,
        last,
        end,
        rows,
    } = run_beside(alloc, program, wanted.options.rude, &lines, &manner)?;
    end_fits(end);
    let ran = Transcript {
        options: wanted.options,
        end,
        turns,
        last,
    };
    let differs = compare(alloc, program, wanted, &ran, &lines, &manner)?;
    let reached = reached(alloc, &rows)?;
    Ok(Tested {
        ran,
        differs,
        reached,
        warnings: source.program.into_warnings(),
    })
}

/// A play that is recorded: the keys that were typed, each line with its return, what the transcript is to ask for, and the
/// most events of each stretch.
#[derive(Clone, Copy, Drop)]
pub struct Play<'a> {
    pub typed: &'a [u8],
    pub options: RunOptions,
    pub limit: u32,
}

// The lines that were typed.
fn lines_typed(alloc: Global, typed: &[u8]) -> Result<Vec<Vec<u8>>, AllocError>
    ensures { IfOk result (λ lines. map (λ l. l.items) lines.items ≡ lines_of_file typed.now) }
{
    let mut lines = Vec::new(alloc);
    let mut rest = typed;
    while let Some((line, behind)) = next_line(rest) {
        lines.push(Vec::from_slice(alloc, line)?)?;
        rest = behind;
    }
    Ok(lines)
}

/// The transcript of a play: a source's program is run on what was typed.
pub fn record<K: Compile>(
    compiler: &K,
    alloc: Global,
    source: Vec<u8>,
    settings: CompileSettings,
    play: Play<'_>,
) -> Result<Transcript, Failure>
    ensures { Records K.own source.items settings play.entry result }
{
    let source = compile_source(compiler, alloc, source, settings)?;
    let lines = lines_typed(alloc, play.typed)?;
    let manner = Manner {
        limit: play.limit,
        notation: settings.notation,
        counted: None,
    };
    let ran = run_beside(alloc, &source.program, play.options.rude, &lines, &manner)?;
    Ok(Transcript {
        options: play.options,
        end: ran.end,
        turns: ran.turns,
        last: ran.last,
    })
}
