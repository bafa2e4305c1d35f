//! Profiling a PRG file, of which there is no source.
ghost use Rattle.tb_engines.specs.Delivery.{Makes};
ghost use Rattle.tb_engine_profile.specs.Prgs.{ProfilesOn, ProfilesPrg};
ghost use Rattle.tb_engine_profile.specs.Running.{given};

use crate::running::{Run, copy_of};
use std::alloc::Global;
use tb_engine_profile_table::{addresses_text, profile_addresses};
use tb_engines::{NoText, Text, end_of, start_file};
use tb_kernal::{Machine, Outside, Watch};

// Runs a machine, and shows what each address took.
fn profile_machine<O: Outside, W: Watch>(
    alloc: Global,
    machine: &mut Machine,
    limit: u32,
    outside: &mut O,
    watch: &mut W,
) -> Result<Text, NoText>
    ensures { Makes (ProfilesOn O.gives outside.old machine.old limit) result }
{
    let table = profile_addresses(alloc, machine, outside, limit, watch)?;
    Ok(Text {
        bytes: addresses_text(alloc, machine.memory(), &table)?,
        end: end_of(table.status, machine.regs().pc),
    })
}

/// Runs a PRG file as `run_prg` does, and makes a table of what its instructions took, by the addresses where they begin.
/// A watch hears now and then how many events were taken.
pub fn profile_prg<O: Outside, W: Watch>(
    alloc: Global,
    file: &[u8],
    run: &mut Run<O, W>,
) -> Result<Text, NoText>
    ensures { Makes (ProfilesPrg (given O.gives run.old) file.now) result }
{
    let keyboard = copy_of(alloc, &run.keyboard)?;
    let mut machine = start_file(alloc, file, keyboard)?;
    profile_machine(
        alloc,
        &mut machine,
        run.limit,
        &mut run.outside,
        &mut run.watch,
    )
}
