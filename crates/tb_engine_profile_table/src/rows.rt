//! The rows of a table: what each line of a program took on a run.
ghost use Rattle.std.specs.Prelude.{◌≡◌, ◌<◌, ℕ, map, slice_index, IfOk};
ghost use Rattle.tb_engine_profile_table.specs.Rows.{IsTableOf, Profiles, row_in, start_pair, whole_in};

use std::alloc::{AllocError, Global};
use tb_kernal::{Machine, Outside, Status, Watch};
use tb_machine_profile::{Tally, run_counted};

/// The address where the code of a line begins.
#[derive(Clone, Copy, Drop)]
pub struct Start {
    pub line: u16,
    pub address: u16,
}

/// What a line took: how often it was begun, and the instructions and cycles of its steps.
#[derive(Clone, Copy, Drop)]
pub struct Row {
    pub line: u16,
    pub times: u64,
    pub instructions: u64,
    pub cycles: u64,
}

/// What a run took.
#[derive(Clone, Copy, Drop)]
pub struct Whole {
    /// What came before the first line; its `line` is 0 and its `times` is 1.
    pub start: Row,
    /// The instructions and services of the whole run.
    pub instructions: u64,
    /// Their cycles.
    pub cycles: u64,
}

/// What a run and its lines took, and the machine's status after it.
#[derive(Drop)]
pub struct Table {
    pub whole: Whole,
    /// The rows of the lines, in the order in which their starts were given.
    pub rows: Vec<Row>,
    pub status: Status,
}

// The addresses where these lines begin.
fn addresses_of(alloc: Global, starts: &[Start]) -> Result<Vec<u16>, AllocError>
    ensures { IfOk result (λ addresses. addresses.items ≡ map (λ s. s.address) starts.now) }
{
    let mut addresses = Vec::new(alloc);
    for start in starts {
        if addresses.push(start.address).is_err() {
            return Err(AllocError);
        }
    }
    Ok(addresses)
}

// The values are addresses: nothing is done, the proof of `profile` takes it from here.
fn are_addresses(addresses: &[u16])
    ensures { (k : ℕ) → slice_index addresses.now k < 65536 }
{}

// What the line that begins at an address took.
fn row_at(tally: &Tally, line: u16, address: u16) -> Row
    ensures { result ≡ row_in tally.now line address }
{
    Row {
        line,
        times: tally.times(address),
        instructions: tally.instructions(address),
        cycles: tally.cycles(address),
    }
}

// What these lines took.
fn rows_of(alloc: Global, tally: &Tally, starts: &[Start]) -> Result<Vec<Row>, AllocError>
    ensures { IfOk result (λ rows. rows.items ≡ map (λ s. row_in tally.now s.line s.address) starts.now) }
{
    let mut rows = Vec::new(alloc);
    for start in starts {
        if rows.push(row_at(tally, start.line, start.address)).is_err() {
            return Err(AllocError);
        }
    }
    Ok(rows)
}

// What the whole run took.
fn whole_of(tally: &Tally) -> Whole
    ensures { result ≡ whole_in tally.now }
{
    Whole {
        start: Row {
            times: 1,
            ..row_at(tally, 0, 0)
        },
        instructions: tally.taken(),
        cycles: tally.spent(),
    }
}

// The table of a tally.
fn table_of(
    alloc: Global,
    tally: &Tally,
    starts: &[Start],
    status: Status,
) -> Result<Table, AllocError>
    ensures { IfOk result (IsTableOf tally.now starts.now status) }
{
    Ok(Table {
        whole: whole_of(tally),
        rows: rows_of(alloc, tally, starts)?,
        status,
    })
}

/// Lets at most `limit` events of an outside happen, as `run` does, and counts what each line took, by the address
/// where it begins. There is a row for each start, in order. Fails only if memory runs out. A watch hears now and then how
/// many events were taken.
pub fn profile<O: Outside, W: Watch>(
    alloc: Global,
    machine: &mut Machine,
    outside: &mut O,
    starts: &[Start],
    limit: u32,
    watch: &mut W,
) -> Result<Table, AllocError>
    ensures { Profiles O.gives outside.old machine.old (map start_pair starts.now) limit result outside.new machine.new }
{
    let addresses = addresses_of(alloc, starts)?;
    are_addresses(&addresses);
    let profile = run_counted(alloc, machine, outside, &addresses, limit, watch)?;
    table_of(alloc, &profile.tally, starts, profile.status)
}
