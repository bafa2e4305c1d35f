//! Running a program on the lines of a transcript.
ghost use Rattle.std.specs.Prelude.{◌≡◌, IfOk, map};
ghost use Rattle.tb_compiled.specs.Compiled.{starts_of};
ghost use Rattle.tb_engine_profile_table.specs.Rows.{start_pair};
ghost use Rattle.tb_engine_sources.specs.Starting.{IsLoadable};
ghost use Rattle.tb_engine_test.specs.Places.{IfCame};
ghost use Rattle.tb_engine_test.specs.Running.{RunsBeside, RunsLines, StartsAlone, run_end};

use crate::talk::{Manner, talk_to};
use std::alloc::{AllocError, Global};
use tb_compiled::Compiled;
use tb_engine_profile_table::{Row, Start};
use tb_engine_sources::{EndNote, end_note, start_program};
use tb_engine_transcripts::{RunEnd, Turn};
use tb_engines::NoText;
use tb_kernal::{Keyboard, Machine, Outside, Quiet, Rude, Status};

/// What a run came to: what was sent before each typed line and at the end, how it ended, and the rows of each stretch.
#[derive(Drop)]
pub struct Ran {
    pub turns: Vec<Turn>,
    pub last: Vec<u8>,
    pub end: RunEnd,
    pub rows: Vec<Vec<Row>>,
}

/// How a run ended, by the machine's status and by what it tells. None of a compiled program goes wrong.
pub fn run_end(status: Status, note: Option<EndNote>) -> RunEnd
    ensures { result ≡ run_end status note }
{
    match (status, note) {
        (Status::Returned, Some(EndNote::Fault(fault))) => {
            RunEnd::Fault(fault.kind.number(), fault.line)
        }
        (Status::Returned, _) => RunEnd::Returned,
        (Status::Waits, _) => RunEnd::Waits,
        (Status::Running | Status::Wrong(_), _) => RunEnd::Runs,
    }
}

/// The lines of a program with the addresses where they begin.
pub fn starts_of(alloc: Global, program: &Compiled) -> Result<Vec<Start>, AllocError>
    ensures { IfOk result (λ starts. map start_pair starts.items ≡ starts_of program.now) }
{
    let given = program.starts();
    let mut starts = Vec::new(alloc);
    for start in given {
        starts.push(Start {
            line: start.number,
            address: start.at,
        })?;
    }
    Ok(starts)
}

/// The machine at the start of a program, with nothing typed.
pub fn start_alone(alloc: Global, program: &Compiled) -> Result<Machine, NoText>
    requires { IsLoadable program.now }
    ensures { StartsAlone program.now result }
{
    let keyboard = Keyboard {
        text: Vec::new(alloc),
        answers: Vec::new(alloc),
    };
    start_program(alloc, program, keyboard)
}

// Runs a program from its start beside an outside.
fn run_lines<O: Outside>(
    alloc: Global,
    program: &Compiled,
    outside: &mut O,
    lines: &[Vec<u8>],
    manner: &Manner,
) -> Result<Ran, NoText>
    requires { IsLoadable program.now }
    ensures { IfCame (RunsLines O.gives outside.old manner.now program.now (map (λ l. l.items) lines.now)) result }
{
    let mut machine = start_alone(alloc, program)?;
    let talk = talk_to(alloc, &mut machine, outside, lines, manner)?;
    let end = run_end(talk.status, end_note(&machine, program));
    Ok(Ran {
        turns: talk.turns,
        last: talk.last,
        end,
        rows: talk.rows,
    })
}

/// Runs a program from its start, beside a quiet ROM or a rude one, and types a line whenever it waits.
pub fn run_beside(
    alloc: Global,
    program: &Compiled,
    rude: Option<u16>,
    lines: &[Vec<u8>],
    manner: &Manner,
) -> Result<Ran, NoText>
    requires { IsLoadable program.now }
    ensures { IfCame (RunsBeside rude manner.now program.now (map (λ l. l.items) lines.now)) result }
{
    match rude {
        Some(seed) => run_lines(alloc, program, &mut Rude::new(seed), lines, manner),
        None => run_lines(alloc, program, &mut Quiet, lines, manner),
    }
}
