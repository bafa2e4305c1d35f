//! The frames of a run: the line at which it is, and the lines from which subroutines were called.
ghost use Rattle.std.specs.Prelude.{◌≡◌, ◌∷◌, ◌++◌, ◌+◌, ◌<◌, ◌^◌, [], IfOk, OnOk, length, map};
ghost use Rattle.serde_json.specs.View.{view};
ghost use Rattle.tb_compiled.specs.Compiled.{start_in, starts_of};
ghost use Rattle.tb_dap_views.specs.Frames as spec;

use crate::sources::{SourceFile, before};
use crate::texts::reference;
use serde_json::Value;
use std::alloc::{AllocError, Global};
use tb_compiled::{Compiled, LineStart};
use tb_dap_values::{frame_value, stack_body, start_value};
use tb_debug::Debugger;

/// A line of the program, and where its code is.
#[derive(Clone, Copy, Debug, PartialEq, Eq, Drop)]
pub struct Frame {
    pub line: u16,
    pub at: u16,
}

// Where the code of a line begins; 0 if there is no such line.
fn start_of(program: &Compiled, line: u16) -> u16
    ensures { result ≡ spec.start_of (start_in (starts_of program.now) line) }
{
    match program.start_of(line) {
        Some(at) => at,
        None => 0,
    }
}

// Appends the frame of the line before one to which a subroutine returns.
fn push_caller(
    frames: &mut Vec<Frame>,
    program: &Compiled,
    line: Option<u16>,
) -> Result<(), AllocError>
    ensures { OnOk result (frames.new.items ≡ frames.old.items ++ spec.caller (starts_of program.now) line) }
{
    if let Some(line) = before(program.starts(), line) {
        let at = start_of(program, line);
        frames.push(Frame { line, at })?;
    }
    Ok(())
}

// Appends the frames of the lines before those to which subroutines return.
fn push_callers(
    frames: &mut Vec<Frame>,
    program: &Compiled,
    returns: &[Option<u16>],
) -> Result<(), AllocError>
    ensures { OnOk result (frames.new.items ≡ frames.old.items ++ spec.callers (starts_of program.now) returns.now) }
{
    match returns {
        [] => Ok(()),
        [first, rest @ ..] => {
            push_caller(frames, program, *first)?;
            push_callers(frames, program, rest)
        }
    }
}

// The frames, the newest first, with the line at which the run is; none before the first line.
fn frames_of(
    alloc: Global,
    program: &Compiled,
    here: Option<u16>,
    at: u16,
    returns: &[Option<u16>],
) -> Result<Vec<Frame>, AllocError>
    ensures { IfOk result (λ frames. frames.items ≡ spec.frames_by (starts_of program.now) here at returns.now) }
{
    let mut frames = Vec::new(alloc);
    let Some(line) = here else {
        return Ok(frames);
    };
    frames.push(Frame { line, at })?;
    push_callers(&mut frames, program, returns)?;
    Ok(frames)
}

// Of `count` frames those from `start` on, at most `levels`, but all for 0.
fn chosen(frames: &[Frame], start: u64, levels: u64) -> &[Frame]
    ensures { result.now ≡ spec.chosen start levels frames.now }
{
    let rest = &frames[start.min(frames.len() as u64) as usize..];
    if levels == 0 {
        rest
    } else {
        &rest[..levels.min(rest.len() as u64) as usize]
    }
}

// A frame, by its number.
fn value_of(
    alloc: Global,
    file: &SourceFile<'_>,
    frame: Frame,
    id: u64,
) -> Result<Value, AllocError>
    ensures { IfOk result (λ v. view v ≡ spec.frame_of file.now id frame) }
{
    let at = reference(alloc, u32::from(frame.at))?;
    let source = file.value(alloc)?;
    frame_value(
        alloc,
        id,
        file.line_of(frame.line),
        file.text_of(frame.line),
        &at,
        source,
    )
}

fn push_value(
    alloc: Global,
    values: &mut Vec<Value>,
    file: &SourceFile<'_>,
    frame: Frame,
    id: u64,
) -> Result<(), AllocError>
    ensures { OnOk result (map view values.new.items ≡ map view values.old.items ++ spec.frame_of file.now id frame ∷ []) }
{
    values.push(value_of(alloc, file, frame, id)?)?;
    Ok(())
}

// Appends frames, of which the first has this number.
fn push_values(
    alloc: Global,
    values: &mut Vec<Value>,
    file: &SourceFile<'_>,
    frames: &[Frame],
    id: u64,
) -> Result<(), AllocError>
    requires { id + length frames.now < 2 ^ 64 }
    ensures { OnOk result (map view values.new.items ≡ map view values.old.items ++ spec.frame_values file.now id frames.now) }
{
    match frames {
        [] => Ok(()),
        [first, rest @ ..] => {
            push_value(alloc, values, file, *first, id)?;
            push_values(alloc, values, file, rest, id + 1)
        }
    }
}

// The frame before the first line, if it is asked for.
fn start_values(alloc: Global, at: u16, start: u64) -> Result<Vec<Value>, AllocError>
    ensures { IfOk result (λ vs. map view vs.items ≡ spec.start_values start at) }
{
    let mut values = Vec::new(alloc);
    if start == 0 {
        let at = reference(alloc, u32::from(at))?;
        values.push(start_value(alloc, &at)?)?;
    }
    Ok(values)
}

// The stack of these frames; of none it is what comes before the first line.
fn stack_by(
    alloc: Global,
    file: &SourceFile<'_>,
    frames: &[Frame],
    at: u16,
    start: u64,
    levels: u64,
) -> Result<Value, AllocError>
    requires { length frames.now < 2 ^ 62 }
    ensures { IfOk result (λ v. view v ≡ spec.stack_by file.now at start levels frames.now) }
{
    if frames.is_empty() {
        return stack_body(alloc, start_values(alloc, at, start)?, 1);
    }
    let mut values = Vec::new(alloc);
    push_values(
        alloc,
        &mut values,
        file,
        chosen(frames, start, levels),
        start.min(frames.len() as u64) + 1,
    )?;
    stack_body(alloc, values, frames.len())
}

/// The stack of a run, from a frame on and so many frames at most.
pub fn stack_value(
    alloc: Global,
    file: &SourceFile<'_>,
    debugger: &Debugger<'_>,
    start: u64,
    levels: u64,
) -> Result<Value, AllocError>
    ensures { IfOk result (λ v. view v ≡ spec.stack_of file.now debugger.now start levels) }
{
    let returns = debugger.returns(alloc)?;
    let at = debugger.machine().regs().pc;
    let frames = frames_of(alloc, file.program, debugger.line(), at, &returns)?;
    stack_by(alloc, file, &frames, at, start, levels)
}
