//! Breakpoints and watches.
ghost use Rattle.std.specs.Prelude.{◌≡◌, ◌<◌, ◌≤◌, ◌==◌, ◌||◌, ℕ, [], true, false, not, length, slice_index_or, IfOk, OnOk, OnErr};
ghost use Rattle.tb_words.specs.Letters.{letter_index};
ghost use Rattle.tb_debug.specs.Breakpoints.{AreRising, AreSet, Turned, WatchTurned, breakpoints_of, stops_at_faults, watches_of};
ghost use Rattle.tb_debug.specs.Breakpoints.{is_among, is_watched, breaks, broken, differ, first_changed};

use std::alloc::{AllocError, Global};
use tb_debug_inspection::Variables;
use tb_words::Letter;

/// Breakpoints and watches, and whether faults stop the run.
#[derive(Drop)]
pub struct StopPoints {
    /// Lines, in rising order.
    breakpoints: Vec<u16>,
    watches: Vec<Letter>,
    at_faults: bool,
}

impl StopPoints {
    /// No breakpoint and no watch; faults stop nothing.
    pub fn new(alloc: Global) -> StopPoints
        ensures breakpoints { breakpoints_of result ≡ [] }
        ensures watches { watches_of result ≡ [] }
        ensures faults { stops_at_faults result ≡ false }
    {
        StopPoints {
            breakpoints: Vec::new(alloc),
            watches: Vec::new(alloc),
            at_faults: false,
        }
    }

    /// The lines with a breakpoint, in rising order.
    pub fn breakpoints(&self) -> &[u16]
        ensures { result.now ≡ breakpoints_of self.now }
    {
        self.breakpoints.as_slice()
    }

    /// Whether a line has a breakpoint; false for no line.
    pub fn breaks(&self, line: Option<u16>) -> bool
        ensures { result ≡ breaks (breakpoints_of self.now) line }
    {
        match line {
            Some(line) => is_among(self.breakpoints.as_slice(), line),
            None => false,
        }
    }

    /// A line, if it has a breakpoint.
    pub fn broken(&self, line: Option<u16>) -> Option<u16>
        ensures { result ≡ broken (breakpoints_of self.now) line }
    {
        match line {
            Some(line) if is_among(self.breakpoints.as_slice(), line) => Some(line),
            _ => None,
        }
    }

    /// Whether no line has a breakpoint.
    pub fn breaks_nowhere(&self) -> bool
        ensures none { result ≡ true → breakpoints_of self.now ≡ [] }
        ensures only { breakpoints_of self.now ≡ [] → result ≡ true }
    {
        self.breakpoints.is_empty()
    }

    /// Whether no variable is watched.
    pub fn watches_none(&self) -> bool
        ensures none { result ≡ true → watches_of self.now ≡ [] }
        ensures only { watches_of self.now ≡ [] → result ≡ true }
    {
        self.watches.is_empty()
    }

    /// Whether a watched variable has another value.
    pub fn differ(&self, before: &Variables, after: &Variables) -> bool
        ensures { result ≡ differ (watches_of self.now) before.now after.now }
    {
        differ(self.watches.as_slice(), before, after)
    }

    /// The first watched variable that has another value.
    pub fn first_changed(&self, before: &Variables, after: &Variables) -> Option<Letter>
        ensures { result ≡ first_changed (watches_of self.now) before.now after.now }
    {
        first_changed(self.watches.as_slice(), before, after)
    }

    /// Whether faults stop the run.
    pub fn stops_at_faults(&self) -> bool
        ensures { result ≡ stops_at_faults self.now }
    {
        self.at_faults
    }

    /// Lets faults stop the run, or no longer: whether they stop it then.
    pub fn turn_faults(&mut self) -> bool
        ensures answer { result ≡ not (stops_at_faults self.old) }
        ensures faults { stops_at_faults self.new ≡ result }
        ensures breakpoints { breakpoints_of self.new ≡ breakpoints_of self.old }
        ensures watches { watches_of self.new ≡ watches_of self.old }
    {
        self.at_faults = !self.at_faults;
        self.at_faults
    }

    /// Sets the breakpoints of these lines, and clears all others.
    pub fn set_breakpoints(&mut self, alloc: Global, lines: &[u16]) -> Result<(), AllocError>
        ensures set { OnOk result (AreSet lines.now (breakpoints_of self.new)) }
        ensures rising { OnOk result (AreRising (breakpoints_of self.new)) }
        ensures refused { OnErr result (self.new ≡ self.old) }
        ensures watches { watches_of self.new ≡ watches_of self.old }
        ensures faults { stops_at_faults self.new ≡ stops_at_faults self.old }
    {
        self.breakpoints = in_order(alloc, lines)?;
        Ok(())
    }

    /// Watches these variables, and no others.
    pub fn set_watches(&mut self, alloc: Global, letters: &[Letter]) -> Result<(), AllocError>
        ensures set { OnOk result (watches_of self.new ≡ letters.now) }
        ensures refused { OnErr result (self.new ≡ self.old) }
        ensures breakpoints { breakpoints_of self.new ≡ breakpoints_of self.old }
        ensures faults { stops_at_faults self.new ≡ stops_at_faults self.old }
    {
        self.watches = Vec::from_slice(alloc, letters)?;
        Ok(())
    }

    /// Sets a breakpoint, or clears it if it is set: whether it is set then.
    pub fn turn_breakpoint(&mut self, line: u16) -> Result<bool, AllocError>
        ensures set { IfOk result (λ set. set ≡ not (is_among (breakpoints_of self.old) line)) }
        ensures turned { OnOk result (Turned line (breakpoints_of self.old) (breakpoints_of self.new)) }
        ensures refused { OnErr result (breakpoints_of self.new ≡ breakpoints_of self.old) }
        ensures watches { watches_of self.new ≡ watches_of self.old }
        ensures faults { stops_at_faults self.new ≡ stops_at_faults self.old }
        ensures rising { AreRising (breakpoints_of self.old) → AreRising (breakpoints_of self.new) }
    {
        if is_among(self.breakpoints.as_slice(), line) {
            self.breakpoints.retain(|set| *set != line);
            return Ok(false);
        }
        place(&mut self.breakpoints, line)?;
        Ok(true)
    }

    /// Sets a watch, or clears it if it is set: whether it is set then.
    pub fn turn_watch(&mut self, letter: Letter) -> Result<bool, AllocError>
        ensures set { IfOk result (λ set. set ≡ not (is_watched (watches_of self.old) (letter_index letter))) }
        ensures turned { OnOk result (WatchTurned (letter_index letter) (watches_of self.old) (watches_of self.new)) }
        ensures refused { OnErr result (watches_of self.new ≡ watches_of self.old) }
        ensures breakpoints { breakpoints_of self.new ≡ breakpoints_of self.old }
        ensures faults { stops_at_faults self.new ≡ stops_at_faults self.old }
    {
        let index = letter.index();
        if is_watched(self.watches.as_slice(), index) {
            self.watches.retain(|set| set.index() != index);
            return Ok(false);
        }
        self.watches.push(letter)?;
        Ok(true)
    }
}

// Whether a line is one of these.
fn is_among(lines: &[u16], line: u16) -> bool
    ensures { result ≡ is_among lines.now line }
{
    match lines {
        [] => false,
        [first, rest @ ..] => if line == *first {
            true
        } else {
            is_among(rest, line)
        },
    }
}

// Whether one of these variables has another value.
fn differ(letters: &[Letter], before: &Variables, after: &Variables) -> bool
    ensures { result ≡ differ letters.now before.now after.now }
{
    match letters {
        [] => false,
        [first, rest @ ..] => if before[first.index()] != after[first.index()] {
            true
        } else {
            differ(rest, before, after)
        },
    }
}

// The first of these variables that has another value.
fn first_changed(letters: &[Letter], before: &Variables, after: &Variables) -> Option<Letter>
    ensures { result ≡ first_changed letters.now before.now after.now }
{
    match letters {
        [] => None,
        [first, rest @ ..] => if before[first.index()] == after[first.index()] {
            first_changed(rest, before, after)
        } else {
            Some(*first)
        },
    }
}

// Whether the variable at an index in the alphabet is one of these.
fn is_watched(letters: &[Letter], index: usize) -> bool
    ensures { result ≡ is_watched letters.now index }
{
    match letters {
        [] => false,
        [first, rest @ ..] => if index == first.index() {
            true
        } else {
            is_watched(rest, index)
        },
    }
}

// These lines in rising order, each of them once.
fn in_order(alloc: Global, lines: &[u16]) -> Result<Vec<u16>, AllocError>
    ensures { IfOk result (λ set. AreSet lines.now set.items × AreRising set.items) }
{
    let mut set = Vec::new(alloc);
    for line in lines {
        place(&mut set, *line)?;
    }
    Ok(set)
}

// Puts a line among lines in rising order, if it isn't there.
fn place(lines: &mut Vec<u16>, line: u16) -> Result<(), AllocError>
    ensures among { OnOk result ((n : ℕ) → is_among lines.new.items n ≡ (n == line || is_among lines.old.items n)) }
    ensures rising { AreRising lines.old.items → AreRising lines.new.items }
    ensures refused { OnErr result (lines.new.items ≡ lines.old.items) }
{
    if is_among(lines.as_slice(), line) {
        return Ok(());
    }
    let index = position_of(lines.as_slice(), line);
    lines.insert(index, line)?;
    Ok(())
}

// The index before which a line belongs among lines in rising order.
fn position_of(lines: &[u16], line: u16) -> usize
    ensures few { result ≤ length lines.now }
    ensures before { (k d : ℕ) → k < result → slice_index_or lines.now k d ≤ line }
    ensures after { (d : ℕ) → result < length lines.now → line < slice_index_or lines.now result d }
{
    for index in 0..lines.len() {
        if line < lines[index] {
            return index;
        }
    }
    lines.len()
}
