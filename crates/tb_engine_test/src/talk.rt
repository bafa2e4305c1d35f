//! A machine that is talked to, line by line.
ghost use Rattle.std.specs.Prelude.{◌≡◌, ◌≤◌, IfOk, OnOk, drop, length, map};
ghost use Rattle.tb_engine_streams.specs.HostForm.{shown_as};
ghost use Rattle.tb_engine_test.specs.Talks.{is_waiting, Goes, Takes, TalksFrom, TypesLine};

use std::alloc::{AllocError, Global};
use tb_basic_text::Notation;
use tb_engine_play::keys_of_text;
use tb_engine_profile_table::{Row, Start, profile};
use tb_engine_streams::{Tracked, write_shown};
use tb_engine_transcripts::Turn;
use tb_kernal::{Machine, Outside, Status, Unwatched, run};

/// How a machine is talked to: the most events before each line and at the end, how what it sends is shown, and where the
/// lines begin that are to be counted, if they are.
#[derive(Drop)]
pub struct Manner {
    pub limit: u32,
    pub notation: Notation,
    pub counted: Option<Vec<Start>>,
}

/// What a machine did until it waited, stopped or had taken all events that it may: its status then, what it sent as it is
/// shown, and what the lines took that are counted.
#[derive(Drop)]
pub struct Stretch {
    pub status: Status,
    pub sent: Vec<u8>,
    pub rows: Vec<Row>,
}

/// A whole talk: what was sent before each line that was typed, what was sent after the last one, the rows of each
/// stretch, and the status at the end.
#[derive(Drop)]
pub struct Talk {
    pub turns: Vec<Turn>,
    pub last: Vec<u8>,
    pub rows: Vec<Vec<Row>>,
    pub status: Status,
}

/// How sent bytes are shown.
pub fn shown(alloc: Global, sent: &[u8], notation: Notation) -> Result<Vec<u8>, AllocError>
    ensures { IfOk result (λ text. text.items ≡ shown_as notation sent.now) }
{
    let mut writer = Tracked::new(Vec::new(alloc));
    match write_shown(&mut writer, sent, notation) {
        Ok(()) => Ok(writer.stream),
        Err(_) => Err(AllocError),
    }
}

/// What a machine sent after the first `before` bytes.
pub fn sent_after(machine: &Machine, before: usize) -> &[u8]
    requires { before ≤ length machine.now.sent }
    ensures { result.now ≡ drop before machine.now.sent }
{
    &machine.sent()[before..]
}

// Whether the machine waits for a key.
fn is_waiting(status: Status) -> bool
    ensures { result ≡ is_waiting status }
{
    matches!(status, Status::Waits)
}

// Lets events happen until a machine waits, stops or has taken all that it may, and counts what its lines take, if it is to.
fn take_events<O: Outside>(
    alloc: Global,
    machine: &mut Machine,
    outside: &mut O,
    manner: &Manner,
) -> Result<(Status, Vec<Row>), AllocError>
    ensures { IfOk result (λ r. Takes O.gives outside.old machine.old manner.now r.0 r.1.items outside.new machine.new) }
{
    match &manner.counted {
        None => {
            let status = run(machine, outside, u64::from(manner.limit))?;
            Ok((status, Vec::new(alloc)))
        }
        Some(starts) => {
            let table = profile(
                alloc,
                machine,
                outside,
                starts,
                manner.limit,
                &mut Unwatched,
            )?;
            Ok((table.status, table.rows))
        }
    }
}

/// Lets a machine go on until it waits, stops or has taken all events that it may.
pub fn go_on<O: Outside>(
    alloc: Global,
    machine: &mut Machine,
    outside: &mut O,
    manner: &Manner,
) -> Result<Stretch, AllocError>
    ensures { IfOk result (λ s. Goes O.gives outside.old machine.old manner.now s.status s.sent.items s.rows.items outside.new machine.new) }
{
    let before = machine.sent().len();
    let (status, rows) = take_events(alloc, machine, outside, manner)?;
    let sent = shown(alloc, sent_after(machine, before), manner.notation)?;
    Ok(Stretch { status, sent, rows })
}

// A line is typed, and belongs to the talk.
fn type_line(
    alloc: Global,
    machine: &mut Machine,
    turns: &mut Vec<Turn>,
    sent: Vec<u8>,
    line: &[u8],
) -> Result<(), AllocError>
    ensures { OnOk result (TypesLine machine.old turns.old.items sent.items line.now machine.new turns.new.items) }
{
    machine.type_text(keys_of_text(alloc, line)?.as_slice())?;
    let typed = Vec::from_slice(alloc, line)?;
    turns.push(Turn { sent, typed })?;
    Ok(())
}

/// Talks to a machine: it goes on, and whenever it waits, the next line is typed, its letters as capitals, and a return;
/// until it stops, has taken the most events of a stretch, or waits and no line is left.
pub fn talk_to<O: Outside>(
    alloc: Global,
    machine: &mut Machine,
    outside: &mut O,
    lines: &[Vec<u8>],
    manner: &Manner,
) -> Result<Talk, AllocError>
    ensures { IfOk result (λ t. TalksFrom O.gives outside.old machine.old manner.now (map (λ l. l.items) lines.now)
        t.turns.items t.rows.items t.last.items t.status outside.new machine.new) }
{
    let mut turns = Vec::new(alloc);
    let mut rows = Vec::new(alloc);
    for line in lines {
        let now = go_on(alloc, machine, outside, manner)?;
        rows.push(now.rows)?;
        if !is_waiting(now.status) {
            return Ok(Talk {
                turns,
                last: now.sent,
                rows,
                status: now.status,
            });
        }
        type_line(alloc, machine, &mut turns, now.sent, line)?;
    }
    let now = go_on(alloc, machine, outside, manner)?;
    rows.push(now.rows)?;
    Ok(Talk {
        turns,
        last: now.sent,
        rows,
        status: now.status,
    })
}
