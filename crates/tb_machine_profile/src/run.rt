//! Runs that are counted.
ghost use Rattle.std.specs.Prelude.{◌≡◌, ◌+◌, ◌<◌, ◌≤◌, ◌*◌, ◌^◌, List, OnOk, length, not};
ghost use Rattle.tb_memmap.specs.Bytes.{at};
ghost use Rattle.tb_cpu.specs.Operands.{reading};
ghost use Rattle.tb_kernal.specs.Machine.{state_of, status, is_running, is_no_service};
ghost use Rattle.tb_kernal.specs.Rom.{service_at};
ghost use Rattle.tb_kernal.specs.Runs.{GivesQuiet};
ghost use Rattle.tb_kernal.specs.declared.events.Event.{Event};
ghost use Rattle.tb_kernal.specs.declared.status.Status.TheVariants.{Running};
ghost use Rattle.tb_machine_profile.specs.Steps.{cycles_of_go};
ghost use Rattle.tb_machine_profile.specs.Tallies.{CountsEvent, Took, TookAll, most_cycles};
ghost use Rattle.tb_machine_profile.specs.Profiles.{Profiled};

use crate::tally::Tally;
use std::alloc::{AllocError, Global};
use tb_kernal::{CHRIN, CHROUT, Event, GETIN, Machine, Outside, Status, Watch};
use tb_machine_cycles::cycles;

/// The cycles of a service: those of its RTS, since its other time isn't the program's.
const SERVICE_CYCLES: u8 = 6;

/// How many events a run takes before a watch hears of them again: a tenth of a second, or less.
const STRETCH: u32 = 1 << 20;

/// The status of a machine after a run, and what was counted.
#[derive(Drop)]
pub struct Profile {
    pub status: Status,
    pub tally: Tally,
}

fn is_running(status: Status) -> bool
    ensures { result ≡ is_running status }
{
    matches!(status, Status::Running)
}

// Whether there is a service at an address.
fn is_service(address: u16) -> bool
    ensures { result ≡ not (is_no_service (service_at address)) }
{
    address == CHROUT || address == CHRIN || address == GETIN
}

// The cycles of the instruction or the service at PC.
fn cycles_of_go(machine: &Machine) -> u8
    ensures value { result ≡ cycles_of_go machine.now.regs (reading (at machine.now.memory)) }
    ensures few { result ≤ most_cycles }
{
    let regs = machine.regs();
    if is_service(regs.pc) {
        SERVICE_CYCLES
    } else {
        cycles(&regs, machine.memory())
    }
}

// Counts the next event of a machine, if it is the program's own.
fn count_event(tally: &mut Tally, event: &Event, machine: &Machine)
    requires few { tally.old.taken < 2 ^ 32 }
    ensures { CountsEvent event.now (state_of machine.now) tally.old tally.new }
{
    if let Event::Go(_) = event {
        tally.count(machine.regs().pc, cycles_of_go(machine));
    }
}

// Lets an outside's next event happen in a running machine, and counts it if it is the program's own.
fn take_event<O: Outside>(
    machine: &mut Machine,
    outside: &mut O,
    tally: &mut Tally,
) -> Result<(), AllocError>
    requires running { status (state_of machine.old) ≡ Running }
    requires few { tally.old.taken < 2 ^ 32 }
    ensures { OnOk result (Took O.gives outside.old machine.old tally.old outside.new machine.new tally.new) }
{
    if outside.is_quiet() {
        return take_quietly(machine, outside, tally);
    }
    if machine.reserve(1).is_err() {
        return Err(AllocError);
    }
    let event = outside.next(machine);
    count_event(tally, &event, machine);
    match machine.event(event) {
        Ok(_) => Ok(()),
        Err(_) => unreachable!(),
    }
}

// Lets the next event of an outside that gives quiet ones happen, and counts it.
fn take_quietly<O: Outside>(
    machine: &mut Machine,
    outside: &O,
    tally: &mut Tally,
) -> Result<(), AllocError>
    requires running { status (state_of machine.old) ≡ Running }
    requires quiet { GivesQuiet O.gives outside.now }
    requires few { tally.old.taken < 2 ^ 32 }
    ensures { OnOk result (Took O.gives outside.now machine.old tally.old outside.now machine.new tally.new) }
{
    let pc = machine.regs().pc;
    let cycles = cycles_of_go(machine);
    machine.go_once()?;
    tally.count(pc, cycles);
    Ok(())
}

// Lets at most `limit` next events happen, as long as each is a quiet one with a short way, and counts them. Answers how many
// happened.
fn take_shortly<O: Outside>(
    machine: &mut Machine,
    outside: &O,
    tally: &mut Tally,
    limit: u32,
) -> u32
    requires room { tally.old.taken + limit ≤ 2 ^ 32 }
    ensures took { (es : List Event) × (length es ≡ result)
        × TookAll O.gives outside.now machine.old tally.old es machine.new tally.new }
    ensures few { result ≤ limit }
{
    if !outside.is_quiet() {
        return 0;
    }
    machine.go_counting(tally, u64::from(limit)) as u32
}

/// Lets the events of an outside happen as `run` does, and counts the program's own by the lines that begin at these
/// addresses. AllocError comes only if memory runs out; the counts are then lost. A watch hears now and then how many
/// events were taken; what it hears changes nothing.
pub fn run_counted<O: Outside, W: Watch>(
    alloc: Global,
    machine: &mut Machine,
    outside: &mut O,
    starts: &[u16],
    limit: u32,
    watch: &mut W,
) -> Result<Profile, AllocError>
    ensures { Profiled O.gives outside.old machine.old starts.now limit result outside.new machine.new }
{
    watch.began();
    let profile = count_events(alloc, machine, outside, starts, limit, watch);
    watch.ended();
    profile
}

// Tells a watch now and then how many events were taken, if it heard last when `told` of them were. Answers of how many it
// has heard then.
fn tell_watch<W: Watch>(watch: &mut W, told: u32, taken: u32) -> u32 {
    if taken.saturating_sub(told) < STRETCH {
        return told;
    }
    watch.took(u64::from(taken));
    taken
}

// Does what `run_counted` does, but the watch doesn't hear of the beginning and the end.
fn count_events<O: Outside, W: Watch>(
    alloc: Global,
    machine: &mut Machine,
    outside: &mut O,
    starts: &[u16],
    limit: u32,
    watch: &mut W,
) -> Result<Profile, AllocError>
    ensures { Profiled O.gives outside.old machine.old starts.now limit result outside.new machine.new }
{
    let mut tally = Tally::new(alloc, starts)?;
    let mut taken = 0;
    let mut told = 0;
    while taken < limit {
        told = tell_watch(watch, told, taken);
        let stretch = STRETCH.min(limit - taken);
        taken += take_shortly(machine, outside, &mut tally, stretch);
        let status = machine.status();
        if taken == limit || !is_running(status) {
            return Ok(Profile { status, tally });
        }
        take_event(machine, outside, &mut tally)?;
        taken += 1;
    }
    Ok(Profile {
        status: machine.status(),
        tally,
    })
}
