//! Where a run first differs from what was wanted, and in which line the program was then.
ghost use Rattle.std.specs.Prelude.{◌≡◌, OnOk, map};
ghost use Rattle.tb_engine_sources.specs.Starting.{IsLoadable};
ghost use Rattle.tb_engine_test.specs.Testing.{IsDiffers};
ghost use Rattle.tb_engine_test.specs.Places.{GoesPast, IfCame, LineAt, LineBeside, TypedTo, line_told, start_of};

use crate::running::start_alone;
use crate::talk::{Manner, go_on, sent_after, shown};
use std::alloc::{AllocError, Global};
use tb_compiled::Compiled;
use tb_engine_play::keys_of_text;
use tb_engine_sources::{EndNote, end_note};
use tb_engine_transcripts::{Difference, Transcript, difference};
use tb_engines::NoText;
use tb_kernal::{Machine, Outside, Quiet, Rude, run};

/// Where a run first differs from what was wanted: a small unified difference, and the line of the source that was running.
#[derive(Drop)]
pub struct Differs {
    pub text: Vec<u8>,
    pub line: Option<u16>,
}

// The line that a machine tells.
fn line_told(note: Option<EndNote>) -> Option<u16>
    ensures { result ≡ line_told note }
{
    match note {
        Some(EndNote::Running(line) | EndNote::Waits(line)) => line,
        Some(EndNote::Fault(fault)) => Some(fault.line),
        None => None,
    }
}

// The machine of a program to which these lines were typed, one after the other, each when it waited.
fn machine_after<O: Outside>(
    alloc: Global,
    program: &Compiled,
    outside: &mut O,
    lines: &[Vec<u8>],
    manner: &Manner,
) -> Result<Machine, NoText>
    requires { IsLoadable program.now }
    ensures { IfCame (TypedTo O.gives outside.old (start_of program.now) manner.now (map (λ l. l.items) lines.now) outside.new) result }
{
    let mut machine = start_alone(alloc, program)?;
    for line in lines {
        go_on(alloc, &mut machine, outside, manner)?;
        machine.type_text(keys_of_text(alloc, line)?.as_slice())?;
    }
    Ok(machine)
}

// Lets single events happen until what is sent takes more than `room` bytes as it is shown, or the machine stops.
fn go_past<O: Outside>(
    alloc: Global,
    machine: &mut Machine,
    outside: &mut O,
    manner: &Manner,
    room: usize,
) -> Result<(), AllocError>
    ensures { OnOk result (GoesPast O.gives outside.old machine.old manner.now room outside.new machine.new) }
{
    let mut left = room;
    for _ in 0..manner.limit {
        if !machine.status().is_running() {
            return Ok(());
        }
        let before = machine.sent().len();
        run(machine, outside, 1)?;
        let width = shown(alloc, sent_after(machine, before), manner.notation)?.len();
        if left < width {
            return Ok(());
        }
        left -= width;
    }
    Ok(())
}

// The line that a program is in where it sends what is shown behind `alike` bytes after these lines.
fn line_at<O: Outside>(
    alloc: Global,
    program: &Compiled,
    outside: &mut O,
    lines: &[Vec<u8>],
    manner: &Manner,
    alike: usize,
) -> Result<Option<u16>, NoText>
    requires { IsLoadable program.now }
    ensures { IfCame (LineAt O.gives outside.old program.now (map (λ l. l.items) lines.now) manner.now alike) result }
{
    let mut machine = machine_after(alloc, program, outside, lines, manner)?;
    go_past(alloc, &mut machine, outside, manner, alike)?;
    Ok(line_told(end_note(&machine, program)))
}

// The line where a program sends what is shown behind `alike` bytes, beside the ROM that a transcript asks for.
fn line_beside(
    alloc: Global,
    program: &Compiled,
    rude: Option<u16>,
    lines: &[Vec<u8>],
    manner: &Manner,
    alike: usize,
) -> Result<Option<u16>, NoText>
    requires { IsLoadable program.now }
    ensures { IfCame (LineBeside rude program.now (map (λ l. l.items) lines.now) manner.now alike) result }
{
    match rude {
        Some(seed) => line_at(alloc, program, &mut Rude::new(seed), lines, manner, alike),
        None => line_at(alloc, program, &mut Quiet, lines, manner, alike),
    }
}

/// Where a run differs first from the transcript that was wanted, of which these lines were typed; None if and only if it
/// doesn't.
pub fn compare(
    alloc: Global,
    program: &Compiled,
    wanted: &Transcript,
    ran: &Transcript,
    lines: &[Vec<u8>],
    manner: &Manner,
) -> Result<Option<Differs>, NoText>
    requires { IsLoadable program.now }
    ensures { IfCame (IsDiffers program.now wanted.now ran.now (map (λ l. l.items) lines.now) manner.now) result }
{
    let Some(found) = difference(alloc, wanted, ran)? else {
        return Ok(None);
    };
    let typed = &lines[..found.turn.min(lines.len())];
    let rude = wanted.options.rude;
    let line = line_beside(alloc, program, rude, typed, manner, found.alike)?;
    Ok(Some(Differs {
        text: found.text,
        line,
    }))
}
