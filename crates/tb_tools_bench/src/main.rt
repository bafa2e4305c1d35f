//! What the scripts of `tools/` try and measure of single crates. The first word says what:
//!
//! - `call NAME` makes a call on the input of its worked row, for `tools/try/refused_growth.sh`;
//! - `end_states` runs the records of standard input by the processor alone, for `tools/try/foreign_machines.sh`;
//! - `speed NAME EVENTS`, with `rude` or `steps` behind it or not, measures the machine, for `tools/measure/machine.sh`.
//!
//! Without a word it does some of each whose answer is always the same. If memory runs out, nothing is written, and the
//! status is 4.
#![tactic(auto)]

mod calls;
mod end_states;
mod failure;
mod memories;
mod speed;

use failure::Failure;
use std::env::{self, Args};
use std::io;
use std::process::ExitCode;
use std::rt::{Clock, Env};
use tb_engine_streams::{Tracked, read_input};

// The words after the program's name.
fn words<R: Env + AllocGlobal>(rt: &R) -> Result<Args, Failure> {
    match env::args(rt) {
        Ok(mut words) => {
            words.next();
            Ok(words)
        }
        Err(error) if error.kind() == io::ErrorKind::OutOfMemory => Err(Failure::NoMemory),
        Err(_) => Err(Failure::NoSuchWord),
    }
}

fn append_call<R: AllocGlobal>(rt: &R, words: &mut Args, text: &mut String) -> Result<(), Failure> {
    let name = words.next().ok_or(Failure::NoSuchWord)?;
    calls::show(rt.alloc(), name.as_str(), text)
}

fn append_end_states<R: Input + AllocGlobal>(rt: &R, text: &mut String) -> Result<(), Failure> {
    let input = read_input(rt.alloc(), &mut Tracked::new(rt.reader()))?;
    end_states::append_lines(rt.alloc(), input.as_slice(), text)
}

// How the last word asks that a program is measured.
fn way_of(words: &mut Args) -> Result<speed::Way, Failure> {
    match words.next() {
        None => Ok(speed::Way::Quietly),
        Some(word) => match word.as_str() {
            "rude" => Ok(speed::Way::Rudely),
            "steps" => Ok(speed::Way::BySteps),
            _ => Err(Failure::NoSuchWord),
        },
    }
}

fn append_speed<R: Clock + AllocGlobal>(
    rt: &R,
    words: &mut Args,
    text: &mut String,
) -> Result<(), Failure> {
    let name = words.next().ok_or(Failure::NoSuchWord)?;
    let events = words.next().ok_or(Failure::NoSuchWord)?;
    let way = way_of(words)?;
    speed::append_one(rt, name.as_str(), events.as_str(), way, text)
}

// Some of each.
fn append_some<R: Clock + Input + AllocGlobal>(rt: &R, text: &mut String) -> Result<(), Failure> {
    speed::append_few(rt, text)?;
    append_end_states(rt, text)?;
    calls::show(rt.alloc(), "tokens", text)
}

fn answer<R: Clock + Env + Input + AllocGlobal>(rt: &R) -> Result<String, Failure> {
    let mut words = words(rt)?;
    let mut text = String::new(rt.alloc());
    match words.next() {
        None => append_some(rt, &mut text)?,
        Some(word) => match word.as_str() {
            "call" => append_call(rt, &mut words, &mut text)?,
            "end_states" => append_end_states(rt, &mut text)?,
            "speed" => append_speed(rt, &mut words, &mut text)?,
            _ => return Err(Failure::NoSuchWord),
        },
    }
    Ok(text)
}

fn main(rt: HostRuntime) -> ExitCode {
    // Nobody can be told that the standard streams fail.
    match answer(&rt) {
        Ok(text) => {
            let _ = print!(rt; "{text}");
            ExitCode::SUCCESS
        }
        Err(failure) => {
            let _ = eprintln!(rt; "tb_tools_bench: {failure}");
            ExitCode::from(failure.status())
        }
    }
}
