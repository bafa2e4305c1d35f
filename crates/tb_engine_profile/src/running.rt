//! Runs of programs that are counted.
ghost use Rattle.std.specs.Prelude.{◌≡◌, IfOk, map};
ghost use Rattle.tb_compiled.specs.Compiled.{starts_of};
ghost use Rattle.tb_engines.specs.Programs.{plain_settings_of};
ghost use Rattle.tb_engine_sources.specs.Starting.{IsLoadable};
ghost use Rattle.tb_engine_profile_table.specs.Rows.{start_pair};
ghost use Rattle.tb_engine_profile.specs.Facts.{IsCopy};
ghost use Rattle.tb_engine_profile.specs.Running.{ComesTo, IsProfile, RunsFrom};

use std::alloc::{AllocError, Global};
use tb_compiled::Compiled;
use tb_engine_profile_table::{Start, Table, profile};
use tb_engine_sources::start_program;
use tb_engines::{End, NoText, end_of};
use tb_kernal::{Keyboard, Machine, Outside, Watch};

/// What a run is given: what is typed and answered, the most events that it may take, what happens outside, and who hears
/// how far it is.
#[derive(Drop)]
pub struct Run<O, W> {
    pub keyboard: Keyboard,
    pub limit: u32,
    pub outside: O,
    pub watch: W,
}

/// What is typed and answered, once more.
pub fn copy_of(alloc: Global, keyboard: &Keyboard) -> Result<Keyboard, AllocError>
    ensures { IfOk result (IsCopy keyboard.now) }
{
    Ok(Keyboard {
        text: Vec::from_slice(alloc, keyboard.text.as_slice())?,
        answers: Vec::from_slice(alloc, keyboard.answers.as_slice())?,
    })
}

/// What a run took, and how it ended.
#[derive(Drop)]
pub struct Ran {
    pub table: Table,
    pub end: End,
}

// The lines of a program with the places where they begin.
fn starts_of(alloc: Global, program: &Compiled) -> Result<Vec<Start>, AllocError>
    ensures { IfOk result (λ starts. map start_pair starts.items ≡ starts_of program.now) }
{
    let given = program.starts();
    let mut starts = Vec::new(alloc);
    for start in given {
        starts.push(Start {
            line: start.number,
            address: start.at,
        })?;
    }
    Ok(starts)
}

// Runs a program's machine.
fn profile_machine<O: Outside, W: Watch>(
    alloc: Global,
    machine: &mut Machine,
    program: &Compiled,
    limit: u32,
    outside: &mut O,
    watch: &mut W,
) -> Result<Ran, NoText>
    ensures { ComesTo (RunsFrom O.gives outside.old limit program.now machine.old) result }
{
    let Ok(starts) = starts_of(alloc, program) else {
        return Err(NoText::NoMemory);
    };
    match profile(alloc, machine, outside, &starts, limit, watch) {
        Ok(table) => Ok(Ran {
            end: end_of(table.status, machine.regs().pc),
            table,
        }),
        Err(_) => Err(NoText::NoMemory),
    }
}

/// Runs a compiled program for at most `limit` events, and counts what its lines take. A watch hears now and then how many
/// events were taken.
pub fn profile_program<O: Outside, W: Watch>(
    alloc: Global,
    program: &Compiled,
    keyboard: Keyboard,
    limit: u32,
    outside: &mut O,
    watch: &mut W,
) -> Result<Ran, NoText>
    requires { IsLoadable program.now }
    ensures { ComesTo (IsProfile (plain_settings_of O.gives outside.old keyboard limit) program.now) result }
{
    let mut machine = start_program(alloc, program, keyboard)?;
    profile_machine(alloc, &mut machine, program, limit, outside, watch)
}
