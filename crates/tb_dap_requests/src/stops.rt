//! Why a run stopped, as it is told.
ghost use Rattle.std.specs.Prelude.{◌≡◌, IfOk};
ghost use Rattle.serde_json.specs.View.{view};
ghost use Rattle.tb_dap_requests.specs.Said.{seen};
ghost use Rattle.tb_dap_requests.specs.Stops as spec;

use crate::said::Said;
use serde_json::Value;
use std::alloc::{AllocError, Global};
use tb_cpu::Wrong;
use tb_dap_values::{Movement, stopped_at_body, stopped_body};
use tb_debug::{Cause, Debugger, Reached};
use tb_engines::End;
use tb_kernal::Status;
use tb_words::Letter;

// What is said, text by text.
const DATA_BREAKPOINT: &str = "data breakpoint";

const DATA_BREAKPOINT_HINT: &str = "a watched variable changes here";

const WAITS_FOR_LINE: &str = "waits for a line: type > and the line in the debug console";

/// Why a run stopped.
#[derive(Clone, Copy, Debug, PartialEq, Eq, Drop)]
pub enum Stop {
    /// It is at its beginning.
    Entry,
    /// At the breakpoint of a line.
    Breakpoint(u16),
    /// Behind a line that changed this variable.
    Watch(Letter),
    /// At a line that changes a watched variable, from behind it.
    Change,
    Step,
    /// As many events as the limit were taken.
    Pause(u64),
    /// It waits for a key.
    Input,
    /// It returned.
    End,
    /// The machine went wrong, at this address.
    Wrong { wrong: Wrong, pc: u16 },
}

/// Whether a movement leads back.
pub fn leads_back(movement: Movement) -> bool
    ensures { result ≡ spec.leads_back movement }
{
    match movement {
        Movement::StepBack | Movement::ReverseContinue => true,
        Movement::Continue | Movement::StepIn | Movement::Next | Movement::StepOut => false,
    }
}

// Why a machine stopped that doesn't run.
fn ended(status: Status, pc: u16) -> Stop
    ensures { result ≡ spec.ended status pc }
{
    match status {
        Status::Running => Stop::Step,
        Status::Waits => Stop::Input,
        Status::Returned => Stop::End,
        Status::Wrong(wrong) => Stop::Wrong { wrong, pc },
    }
}

// Why a way on stopped at the beginning of a line.
fn by_cause(cause: Option<Cause>) -> Stop
    ensures { result ≡ spec.by_cause cause }
{
    match cause {
        Some(Cause::Breakpoint(line)) => Stop::Breakpoint(line),
        Some(Cause::Watch(letter)) => Stop::Watch(letter),
        None => Stop::Step,
    }
}

/// Why a way on stopped, by where it led, if a movement takes at most `limit` events.
pub fn stop_ahead(reached: Reached, cause: Option<Cause>, limit: u64, pc: u16) -> Stop
    ensures { result ≡ spec.stop_ahead reached cause limit pc }
{
    match reached {
        Reached::Line => by_cause(cause),
        Reached::Within => Stop::Step,
        Reached::Ended(status) => ended(status, pc),
        Reached::Limit => Stop::Pause(limit),
    }
}

// Why `reverseContinue` stopped at a line that has no breakpoint.
fn back_by(begun: u64) -> Stop
    ensures { result ≡ spec.back_by begun }
{
    if begun == 0 {
        Stop::Entry
    } else {
        Stop::Change
    }
}

// Why a step back stopped at a line that has no breakpoint.
fn stepped_back(moved: bool) -> Stop
    ensures { result ≡ spec.stepped_back moved }
{
    if moved { Stop::Step } else { Stop::Entry }
}

/// Why a way back stopped, by whether it is one of single lines and led anywhere.
pub fn stop_behind(cause: Option<Cause>, begun: u64, is_step: bool, moved: bool) -> Stop
    ensures { result ≡ spec.stop_behind cause begun is_step moved }
{
    match cause {
        Some(Cause::Breakpoint(line)) => Stop::Breakpoint(line),
        Some(Cause::Watch(_)) | None => {
            if is_step {
                stepped_back(moved)
            } else {
                back_by(begun)
            }
        }
    }
}

// A stop with a reason and a description.
fn stopped(alloc: Global, reason: &str, description: &str) -> Result<Value, AllocError>
    ensures { IfOk result (λ v. view v ≡ spec.stopped reason.now description.now) }
{
    stopped_body(alloc, reason, description)
}

fn breakpoint_value(alloc: Global, line: u16) -> Result<Value, AllocError>
    ensures { IfOk result (λ v. view v ≡ spec.breakpoint_value line) }
{
    let text = format!(in alloc; "line {line}")?;
    stopped_at_body(alloc, &text, line)
}

fn watch_value(alloc: Global, letter: Letter, value: i16) -> Result<Value, AllocError>
    ensures { IfOk result (λ v. view v ≡ spec.watch_value letter value) }
{
    let letter = char::from(letter_byte(letter));
    let text = format!(in alloc; "{letter} is {value}")?;
    stopped(alloc, DATA_BREAKPOINT, &text)
}

// The byte of a letter.
fn letter_byte(letter: Letter) -> u8
    ensures { result ≡ spec.letter_byte letter }
{
    b'A' + letter.index() as u8
}

fn pause_value(alloc: Global, limit: u64) -> Result<Value, AllocError>
    ensures { IfOk result (λ v. view v ≡ spec.pause_value limit) }
{
    let text = format!(in alloc; "paused after {limit} events")?;
    stopped(alloc, "pause", &text)
}

fn wrong_value(alloc: Global, wrong: Wrong, pc: u16) -> Result<Value, AllocError>
    ensures { IfOk result (λ v. view v ≡ spec.wrong_value wrong pc) }
{
    let end = End::WentWrong { wrong, pc };
    let text = format!(in alloc; "{end}")?;
    stopped(alloc, "end", &text)
}

// What is told of a stop, if a watched variable has these values.
fn stop_value(alloc: Global, stop: Stop, debugger: &Debugger<'_>) -> Result<Value, AllocError>
    ensures { IfOk result (λ v. view v ≡ spec.stop_value stop debugger.now) }
{
    match stop {
        Stop::Entry => stopped(alloc, "entry", "entry"),
        Stop::Breakpoint(line) => breakpoint_value(alloc, line),
        Stop::Watch(letter) => {
            let values = debugger.variables();
            watch_value(alloc, letter, values[letter.index()])
        }
        Stop::Change => stopped(alloc, DATA_BREAKPOINT, DATA_BREAKPOINT_HINT),
        Stop::Step => stopped(alloc, "step", "step"),
        Stop::Pause(limit) => pause_value(alloc, limit),
        Stop::Input => stopped(alloc, "input", WAITS_FOR_LINE),
        Stop::End => stopped(alloc, "end", "returned"),
        Stop::Wrong { wrong, pc } => wrong_value(alloc, wrong, pc),
    }
}

/// That a run stopped.
pub fn stop_event(alloc: Global, stop: Stop, debugger: &Debugger<'_>) -> Result<Said, AllocError>
    ensures { IfOk result (λ s. seen s ≡ spec.stop_of stop debugger.now) }
{
    let body = stop_value(alloc, stop, debugger)?;
    Ok(Said::Event {
        name: "stopped",
        body: Some(body),
    })
}
