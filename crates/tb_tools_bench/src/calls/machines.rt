//! Calls of the memory, of the machine and of the stepper. If one is refused memory, it is checked that what it was
//! called on is unchanged.
use super::sources::{ASSIGNMENT, GREETING, SOURCES, compiled, show_bytes};
use crate::failure::Failure;
use crate::memories::machine_with;
use std::alloc::Global;
use tb_compiled::Compiled;
use tb_cpu::Regs;
use tb_engines::start_regs;
use tb_kernal::{Machine, Outside, Quiet, Rude, Status, run};
use tb_memmap::{BASIC_START, Memory};
use tb_prg::read;
use tb_stepper::{StepError, Stepper};
use tb_words::Letter;

/// More events than any program here takes.
const LIMIT: u64 = 100_000;

// What can be seen of a machine, except its memory: registers, status, the count of bytes sent, and room.
type Seen = (Regs, Status, usize, usize);

fn seen(machine: &Machine) -> Seen {
    (
        machine.regs(),
        machine.status(),
        machine.sent().len(),
        machine.room(),
    )
}

// A machine at the start of a compiled program.
fn machine_of(alloc: Global, program: &Compiled) -> Result<Machine, Failure> {
    let file = read(program.prg())?;
    machine_with(alloc, file.at, file.bytes, start_regs(file.at))
}

fn machine_from(alloc: Global, source: &[u8]) -> Result<Machine, Failure> {
    let program = compiled(alloc, source)?;
    machine_of(alloc, &program)
}

fn show_reads(memory: &Memory, text: &mut String) -> Result<(), Failure> {
    for address in [0x0002, BASIC_START, 0x9fff, 0xcfff] {
        writeln!(text, "{:?}", memory.read(address))?;
    }
    Ok(())
}

/// Shows what making a memory answers.
pub fn show_memory(alloc: Global, text: &mut String) -> Result<(), Failure> {
    let memory = Memory::new(alloc)?;
    show_reads(&memory, text)
}

// One instruction or service.
fn go(machine: &mut Machine) -> Result<Status, Failure> {
    let event = Quiet.next(machine);
    machine.event(event).map_err(|_| Failure::Refused)
}

fn show_reserved(machine: &mut Machine, text: &mut String) -> Result<(), Failure> {
    go(machine)?;
    let before = seen(machine);
    if machine.reserve(1).is_err() {
        return Err(Failure::of_memory(seen(machine) == before));
    }
    let status = go(machine)?;
    writeln!(text, "{status:?} {:?}", machine.regs())?;
    show_bytes(text, machine.sent())
}

/// Shows what `reserve` answers.
pub fn show_reserve(alloc: Global, text: &mut String) -> Result<(), Failure> {
    let regs = Regs {
        a: 0x48,
        ..start_regs(0xc000)
    };
    let mut machine = machine_with(alloc, 0xc000, &[0x20, 0xd2, 0xff], regs)?;
    show_reserved(&mut machine, text)
}

fn show_typed(machine: &mut Machine, text: &mut String) -> Result<(), Failure> {
    let before = seen(machine);
    if machine.type_text(b"A\r").is_err() {
        let (left, _) = machine.keys_left();
        return Err(Failure::of_memory(seen(machine) == before && left.is_empty()));
    }
    let status = go(machine)?;
    writeln!(text, "{status:?} {:?}", machine.regs())?;
    show_bytes(text, machine.keys_left().0)
}

/// Shows what `type_text` answers.
pub fn show_type_text(alloc: Global, text: &mut String) -> Result<(), Failure> {
    let regs = start_regs(0xc000);
    let mut machine = machine_with(alloc, 0xc000, &[0x20, 0xcf, 0xff], regs)?;
    go(&mut machine)?;
    show_typed(&mut machine, text)
}

// Runs a machine. After a refused run the machine goes on once it has room.
fn show_run_on<O: Outside>(
    machine: &mut Machine,
    outside: &mut O,
    text: &mut String,
) -> Result<(), Failure> {
    let Ok(status) = run(machine, outside, LIMIT) else {
        return Err(Failure::of_memory(machine.status() == Status::Running && machine.room() == 0));
    };
    writeln!(text, "{status:?}")?;
    show_bytes(text, machine.sent())
}

fn show_run_of<O: Outside>(
    alloc: Global,
    source: &[u8],
    outside: &mut O,
    text: &mut String,
) -> Result<(), Failure> {
    let mut machine = machine_from(alloc, source)?;
    show_run_on(&mut machine, outside, text)
}

/// Shows what `run` answers.
pub fn show_run(alloc: Global, text: &mut String) -> Result<(), Failure> {
    for source in SOURCES {
        show_run_of(alloc, source, &mut Quiet, text)?;
    }
    show_run_of(alloc, GREETING, &mut Rude::new(1), text)
}

/// What is called on a stepper at the start of a program.
#[derive(Clone, Copy, Drop)]
pub enum StepperCall {
    New,
    Step,
    ToLine,
}

fn show_new(stepper: &Stepper<'_, Quiet>, text: &mut String) -> Result<(), Failure> {
    writeln!(text, "{:?} {:?}", stepper.machine().regs(), stepper.line())?;
    Ok(())
}

fn show_step(stepper: &mut Stepper<'_, Quiet>, text: &mut String) -> Result<(), Failure> {
    let before = seen(stepper.machine());
    let Ok(status) = stepper.step() else {
        return Err(Failure::of_memory(seen(stepper.machine()) == before));
    };
    writeln!(text, "{status:?} {:?}", stepper.machine().regs())?;
    Ok(())
}

fn show_to_line(stepper: &mut Stepper<'_, Quiet>, text: &mut String) -> Result<(), Failure> {
    let before = seen(stepper.machine());
    let reached = match stepper.to_line(20, LIMIT) {
        Ok(reached) => reached,
        // No byte was sent, so the first step was refused.
        Err(StepError::NoMemory) => {
            return Err(Failure::of_memory(seen(stepper.machine()) == before));
        }
        Err(StepError::NoSuchLine) => return Err(Failure::Refused),
    };
    let letter = Letter::read(b'A').ok_or(Failure::Refused)?;
    writeln!(
        text,
        "{reached:?} {:?} A={}",
        stepper.line(),
        stepper.variable(letter)
    )?;
    Ok(())
}

fn show_call(
    call: StepperCall,
    stepper: &mut Stepper<'_, Quiet>,
    text: &mut String,
) -> Result<(), Failure> {
    match call {
        StepperCall::New => show_new(stepper, text),
        StepperCall::Step => show_step(stepper, text),
        StepperCall::ToLine => show_to_line(stepper, text),
    }
}

// A stepper at the start of a compiled program. If it is refused, machine and outside are handed back.
fn stepper_of(alloc: Global, program: &Compiled) -> Result<Stepper<'_, Quiet>, Failure> {
    let machine = machine_of(alloc, program)?;
    let before = seen(&machine);
    Stepper::new(alloc, machine, program, Quiet).map_err(|refused| Failure::of_memory(
        seen(&refused.machine) == before,
    ))
}

fn show_stepper_of(
    alloc: Global,
    program: &Compiled,
    call: StepperCall,
    text: &mut String,
) -> Result<(), Failure> {
    let mut stepper = stepper_of(alloc, program)?;
    show_call(call, &mut stepper, text)
}

/// Shows what a call of the stepper answers.
pub fn show_stepper(alloc: Global, call: StepperCall, text: &mut String) -> Result<(), Failure> {
    let program = compiled(alloc, ASSIGNMENT)?;
    show_stepper_of(alloc, &program, call, text)
}
