//! The checkpoints of a run, from which it is run again.
ghost use Rattle.std.specs.Prelude.{◌≡◌, ◌∷◌, ◌++◌, ◌+◌, ◌<◌, ◌≤◌, [], ℕ, List, Bool, IfOk, IfSome, IsSome, OnOk};
ghost use Rattle.std.specs.Prelude.{IsTrue, ◌↔◌, length, slice_index_or, take, vec_len};
ghost use Rattle.tb_debug.specs.declared.history.Checkpoint.{Checkpoint};
ghost use Rattle.tb_debug.specs.Searching.{IsUntil};
ghost use Rattle.tb_debug.specs.Runs.{Point, IsOfRun, IsFirst, IsCheckpoint, IsTyped, AreCheckpoints, AreTyped};
ghost use Rattle.tb_debug.specs.Runs.{AreSpaced, KeepsOneMore, WithoutOne, most_checkpoints, newest_events, spacing};

use crate::moment::Moment;
use std::alloc::{AllocError, Global};

/// How many checkpoints are kept at most. Each has a memory of 65,536 bytes and the keyboard's bytes; what was sent isn't
/// kept with them.
pub const MOST_CHECKPOINTS: usize = 32;

/// How many events lie between a checkpoint and the next one at least.
pub const SPACING: u64 = 131_072;

/// A moment without the bytes that were sent, and how many they were.
#[derive(Drop)]
pub struct Checkpoint {
    pub moment: Moment,
    pub sent: usize,
}

impl Checkpoint {
    /// The checkpoint of a moment.
    pub fn of(alloc: Global, moment: &Moment) -> Result<Checkpoint, AllocError>
        ensures of_run { IfOk result (λ k. (marks : List Bool) (start : Point) → IsOfRun marks start moment.now
            → IsCheckpoint marks start k) }
        ensures events { IfOk result (λ k. k.moment.events ≡ moment.now.events) }
    {
        Ok(Checkpoint {
            moment: moment.copied(alloc, &[])?,
            sent: moment.machine.sent().len(),
        })
    }

    /// The moment of which this is the checkpoint, in a run that has sent at least these bytes.
    pub fn again(&self, alloc: Global, sent: &[u8]) -> Result<Moment, AllocError>
        ensures again { IfOk result (λ m. (marks : List Bool) (start : Point) (now : Moment) → IsOfRun marks start now
            → sent.now ≡ now.machine.sent
            → IsCheckpoint marks start self.now → self.now.moment.events ≤ now.events → IsOfRun marks start m) }
        ensures events { IfOk result (λ m. m.events ≡ self.now.moment.events) }
        ensures begun { IfOk result (λ m. m.begun ≡ self.now.moment.begun) }
    {
        let count = self.sent.min(sent.len());
        let moment = self.moment.copied(alloc, &sent[..count])?;
        Ok(moment)
    }
}

/// The checkpoints: that of the run's first moment, and later ones in the order of their times.
#[derive(Drop)]
pub struct History {
    pub(crate) first: Checkpoint,
    pub(crate) later: Vec<Checkpoint>,
}

impl History {
    /// The history of a run of which no more than its first moment is known.
    pub fn new(alloc: Global, first: Checkpoint) -> History
        ensures first { result.first ≡ first }
        ensures later { result.later.items ≡ [] }
    {
        History {
            first,
            later: Vec::new(alloc),
        }
    }

    /// How many checkpoints there are.
    pub fn len(&self) -> usize
        ensures { result ≡ vec_len self.now.later + 1 }
    {
        self.later.len() + 1
    }

    /// The checkpoint at an index; 0 is that of the first moment.
    pub fn get(&self, index: usize) -> Option<&Checkpoint>
        ensures of_run { (marks : List Bool) (start : Point) (n : ℕ) → IsFirst marks start self.now.first
            → AreCheckpoints marks start n self.now.later.items
            → IfSome result (λ k. IsCheckpoint marks start k.now × (k.now.moment.events ≤ n)) }
        ensures some { index < vec_len self.now.later + 1 → IsSome result }
        ensures inside { IfSome result (λ k. index < vec_len self.now.later + 1) }
        ensures first { index ≡ 0 → IfSome result (λ k. k.now ≡ self.now.first) }
        ensures later { (n : ℕ) (d : Checkpoint) → index ≡ n + 1 → IfSome result (λ k. k.now ≡ slice_index_or self.now.later.items n d) }
    {
        match index.checked_sub(1) {
            Some(index) => self.later.get(index),
            None => Some(&self.first),
        }
    }

    /// Keeps a checkpoint of a moment, if enough events lie between the newest one and it.
    pub fn keep(&mut self, alloc: Global, moment: &Moment) -> Result<(), AllocError>
        ensures first { self.new.first ≡ self.old.first }
        ensures later { OnOk result ((marks : List Bool) (start : Point) → IsOfRun marks start moment.now
            → AreCheckpoints marks start moment.now.events self.old.later.items
            → AreCheckpoints marks start moment.now.events self.new.later.items) }
        ensures early { moment.now.events < newest_events self.old.first self.old.later.items + spacing → self.new ≡ self.old }
        ensures due { OnOk result (newest_events self.old.first self.old.later.items + spacing ≤ moment.now.events
            → newest_events self.new.first self.new.later.items ≡ moment.now.events) }
        ensures others { OnOk result (newest_events self.old.first self.old.later.items + spacing ≤ moment.now.events
            → KeepsOneMore self.old.later.items self.new.later.items) }
        ensures few { length self.old.later.items < most_checkpoints → length self.new.later.items < most_checkpoints }
        ensures spaced { OnOk result (AreSpaced (self.old.first ∷ self.old.later.items)
            → AreSpaced (self.new.first ∷ self.new.later.items)) }
        // The newest checkpoint is never far.
        ensures near { OnOk result (moment.now.events < newest_events self.new.first self.new.later.items + spacing) }
    {
        if !self.is_due(moment.events) {
            return Ok(());
        }
        let checkpoint = Checkpoint::of(alloc, moment)?;
        self.make_room(moment.events);
        self.push(checkpoint)?;
        Ok(())
    }

    fn push(&mut self, checkpoint: Checkpoint) -> Result<(), AllocError>
        ensures first { self.new.first ≡ self.old.first }
        ensures later { OnOk result (self.new.later.items ≡ self.old.later.items ++ checkpoint ∷ []) }
        ensures one { length self.new.later.items ≤ length self.old.later.items + 1 }
    {
        self.later.push(checkpoint)?;
        Ok(())
    }

    // Whether a checkpoint is due after `events` events.
    fn is_due(&self, events: u64) -> bool
        ensures { IsTrue result ↔ (newest_events self.now.first self.now.later.items + spacing ≤ events) }
    {
        SPACING <= events.saturating_sub(self.newest_events())
    }

    // How many events came before the newest checkpoint.
    fn newest_events(&self) -> u64
        ensures { result ≡ newest_events self.now.first self.now.later.items }
    {
        match self.later.last() {
            Some(last) => last.moment.events,
            None => self.first.moment.events,
        }
    }

    // Leaves out the checkpoint that can be spared, if there are as many as may be.
    fn make_room(&mut self, now: u64)
        ensures first { self.new.first ≡ self.old.first }
        ensures later { (marks : List Bool) (start : Point) (n : ℕ) → AreCheckpoints marks start n self.old.later.items
            → AreCheckpoints marks start n self.new.later.items }
        ensures room { length self.old.later.items < most_checkpoints → length self.new.later.items + 1 < most_checkpoints }
        ensures all { length self.old.later.items + 1 < most_checkpoints → self.new.later.items ≡ self.old.later.items }
        ensures one { most_checkpoints ≤ length self.old.later.items + 1 → WithoutOne self.old.later.items self.new.later.items }
    {
        let index = self.spare(now);
        if MOST_CHECKPOINTS <= self.len() && index < self.later.len() {
            self.later.remove(index);
        }
    }

    // The index of the newest of the later checkpoints whose neighbours are no farther apart than they are from here; 0 if
    // there is none. So what lies farther back is kept less densely.
    fn spare(&self, now: u64) -> usize
        ensures { 0 < length self.now.later.items → result < length self.now.later.items }
    {
        let mut found = 0;
        for index in 1..self.later.len().saturating_sub(1) {
            let before = self.later[index - 1].moment.events;
            let after = self.later[index + 1].moment.events;
            if after.saturating_sub(before) <= now.saturating_sub(after) {
                found = index;
            }
        }
        found
    }

    /// The index of the newest checkpoint that comes before a time, or at it; 0 if there is none.
    pub fn newest_until(&self, time: u64) -> usize
        ensures { IsUntil time self.now.later.items (vec_len self.now.later) result }
    {
        let mut found = 0;
        for index in 0..self.later.len() {
            if self.later[index].moment.begun <= time {
                found = index + 1;
            }
        }
        found
    }

    /// Forgets all checkpoints after the one at an index.
    pub fn forget_after(&mut self, index: usize)
        ensures first { self.new.first ≡ self.old.first }
        ensures later { self.new.later.items ≡ take index self.old.later.items }
    {
        self.later.truncate(index);
    }

    /// Adds bytes to the end of the keyboard's text in each checkpoint.
    pub fn type_text(&mut self, bytes: &[u8]) -> Result<(), AllocError>
        ensures first { OnOk result (IsTyped bytes.now self.old.first.moment self.new.first.moment) }
        ensures sent { self.new.first.sent ≡ self.old.first.sent }
        ensures later { OnOk result (AreTyped bytes.now self.old.later.items self.new.later.items) }
    {
        self.first.moment.type_text(bytes)?;
        type_to_all(&mut self.later, bytes)
    }
}

// Adds bytes to the end of the keyboard's text in each of these checkpoints.
fn type_to_all(checkpoints: &mut Vec<Checkpoint>, bytes: &[u8]) -> Result<(), AllocError>
    ensures { OnOk result (AreTyped bytes.now checkpoints.old.items checkpoints.new.items) }
{
    for index in 0..checkpoints.len() {
        checkpoints[index].moment.type_text(bytes)?;
    }
    Ok(())
}
