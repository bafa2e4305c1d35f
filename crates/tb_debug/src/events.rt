//! Events of a machine that an outside gives.
ghost use Rattle.std.specs.Prelude.{◌≡◌, IfOk};
ghost use Rattle.tb_kernal.specs.Machine.{state_of, status};
ghost use Rattle.tb_kernal.specs.Runs.{is_own};
ghost use Rattle.tb_kernal.specs.declared.status.Status.TheVariants.{Running};
ghost use Rattle.tb_debug.specs.Events.{Took};

use std::alloc::AllocError;
use tb_kernal::{Event, Machine, Outside};

// Whether an event is the program's own.
fn is_own(event: &Event) -> bool
    ensures { result ≡ is_own event.now }
{
    matches!(event, Event::Go(_))
}

/// Lets an outside's next event happen: whether it was the program's own.
pub fn take_event<O: Outside>(machine: &mut Machine, outside: &mut O) -> Result<bool, AllocError>
    ensures { IfOk result (λ own. Took O.gives outside.old machine.old own outside.new machine.new) }
{
    if machine.reserve(1).is_err() {
        return Err(AllocError);
    }
    let event = outside.next(machine);
    let own = is_own(&event);
    match machine.event(event) {
        Ok(_) => Ok(own),
        Err(_) => unreachable!(),
    }
}

/// Lets an outside's next event happen in a machine that runs: whether it was the program's own. Beside a quiet outside it
/// takes no longer than in a run.
pub fn take_quickly<O: Outside>(machine: &mut Machine, outside: &mut O) -> Result<bool, AllocError>
    requires running { status (state_of machine.old) ≡ Running }
    ensures { IfOk result (λ own. Took O.gives outside.old machine.old own outside.new machine.new) }
{
    if !outside.is_quiet() {
        return take_event(machine, outside);
    }
    machine.go_once()?;
    Ok(true)
}
