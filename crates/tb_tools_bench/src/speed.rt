//! Measures the machine: events of three endless programs.
use crate::failure::Failure;
use crate::memories::{machine_with, memory_with};
use std::rt::Clock;
use std::time::Instant;
use tb_cpu::step;
use tb_engines::start_regs;
use tb_kernal::{Outside, Quiet, Rude, run};

// An endless program, and where it lies.
#[derive(Clone, Copy, Drop)]
struct Program {
    place: u16,
    bytes: &'static [u8],
}

/// How a program is measured.
#[derive(Clone, Copy, Drop)]
pub enum Way {
    /// Beside a ROM that changes nothing.
    Quietly,
    /// Beside one that writes whatever it may.
    Rudely,
    /// By the processor's `step` alone.
    BySteps,
}

// INX, BNE, INY, BNE, INC, JMP: a tight loop.
const LOOP: [u8; 12] = [
    0xe8, 0xd0, 0xfd, 0xc8, 0xd0, 0xfa, 0xee, 0x00, 0xc0, 0x4c, 0x00, 0x0c,
];

// The tight loop at $C000, where people put their routines.
const HIGH: [u8; 12] = [
    0xe8, 0xd0, 0xfd, 0xc8, 0xd0, 0xfa, 0xee, 0x00, 0xc1, 0x4c, 0x00, 0xc0,
];

// LDA, CLC, ADC, STA, LDA, ADC, STA, DEC, BNE, JMP: additions of words in memory.
const SUMS: [u8; 27] = [
    0xad, 0x00, 0xc0, 0x18, 0x6d, 0x02, 0xc0, 0x8d, 0x00, 0xc0, 0xad, 0x01, 0xc0, 0x6d, 0x03, 0xc0,
    0x8d, 0x01, 0xc0, 0xce, 0x04, 0xc0, 0xd0, 0xe8, 0x4c, 0x00, 0x0c,
];

// The number of events for the line that is always the same.
const FEW: u64 = 100_000;

// The milliseconds since a time.
fn millis_since<R: Clock>(rt: &R, start: Instant) -> Result<u128, Failure> {
    let elapsed = start.elapsed(rt).map_err(|_| Failure::Refused)?;
    Ok(elapsed.as_millis())
}

fn now<R: Clock>(rt: &R) -> Result<Instant, Failure> {
    Instant::now(rt).map_err(|_| Failure::Refused)
}

// Runs a program by `step` alone: the milliseconds that it took, and the PC after it.
fn measure_steps<R: Clock + AllocGlobal>(
    rt: &R,
    program: Program,
    steps: u64,
) -> Result<(u128, u16), Failure> {
    let mut memory = memory_with(rt.alloc(), program.place, program.bytes)?;
    let mut regs = start_regs(program.place);
    let start = now(rt)?;
    for _ in 0..steps {
        step(&mut regs, &mut memory).map_err(|_| Failure::Refused)?;
    }
    Ok((millis_since(rt, start)?, regs.pc))
}

// Runs a program for this many events of the machine: the milliseconds that it took, and the PC after it.
fn measure<R: Clock + AllocGlobal, O: Outside + Drop>(
    rt: &R,
    program: Program,
    events: u64,
    mut outside: O,
) -> Result<(u128, u16), Failure> {
    let mut machine = machine_with(
        rt.alloc(),
        program.place,
        program.bytes,
        start_regs(program.place),
    )?;
    let start = now(rt)?;
    run(&mut machine, &mut outside, events)?;
    Ok((millis_since(rt, start)?, machine.regs().pc))
}

// The program of a name.
fn program_of(name: &str) -> Result<Program, Failure> {
    let (place, bytes): (u16, &'static [u8]) = match name {
        "loop" => (0x0c00, &LOOP),
        "sums" => (0x0c00, &SUMS),
        "high" => (0xc000, &HIGH),
        _ => return Err(Failure::NoSuchWord),
    };
    Ok(Program { place, bytes })
}

/// Appends the milliseconds that this many events of a program take.
pub fn append_one<R: Clock + AllocGlobal>(
    rt: &R,
    name: &str,
    events: &str,
    way: Way,
    text: &mut String,
) -> Result<(), Failure> {
    let program = program_of(name)?;
    let count = events.parse().map_err(|_| Failure::NoSuchWord)?;
    let (millis, pc) = match way {
        Way::Quietly => measure(rt, program, count, Quiet)?,
        Way::Rudely => measure(rt, program, count, Rude::new(1))?,
        Way::BySteps => measure_steps(rt, program, count)?,
    };
    writeln!(text, "{name}: {count} events in {millis} ms, PC {pc:04X}")?;
    Ok(())
}

/// Appends the PC of each program after a few events, which is always the same.
pub fn append_few<R: Clock + AllocGlobal>(rt: &R, text: &mut String) -> Result<(), Failure> {
    for name in ["loop", "sums", "high"] {
        let (_, pc) = measure(rt, program_of(name)?, FEW, Quiet)?;
        writeln!(text, "{name}: {FEW} events, PC {pc:04X}")?;
    }
    Ok(())
}
