//! New numbers for a program's lines.
ghost use Rattle.std.specs.Prelude.{◌≡◌, ◌≤◌, ◌<◌, true, IfSome, IsNone};
ghost use Rattle.tb_basic_syntax.specs.PlainData.{lines_of};
ghost use Rattle.tb_basic_syntax.specs.Source.{numbers};
ghost use Rattle.tb_basic_renumber.specs.Renumbered.{are_low, new_number};

use tb_basic_syntax::{HIGHEST_LINE, Program};

/// How lines are numbered: the first number, and how much higher each next one is.
#[derive(Clone, Copy, PartialEq, Eq, Debug, Drop)]
pub struct Numbering {
    pub first: u16,
    pub step: u16,
}

impl Numbering {
    /// Whether no line of the program gets a number above the highest.
    pub fn fits(&self, program: &Program) -> bool
        ensures { result ≡ are_low self.now.first self.now.step (numbers (lines_of program.now)) }
    {
        let mut number = u32::from(self.first);
        for _ in program.lines() {
            if number > u32::from(HIGHEST_LINE) {
                return false;
            }
            number += u32::from(self.step);
        }
        true
    }

    /// The new number of a line; `None` if there is no such line, or a line up to it would get a number that is above
    /// the highest.
    pub fn new_number(&self, program: &Program, number: u16) -> Option<u16>
        ensures value { IfSome result (λ new. new ≡ new_number self.now.first self.now.step (numbers (lines_of program.now)) number) }
        ensures low { IfSome result (λ new. new ≤ 32767) }
        // A number of no line stays, where all others are low.
        ensures other { IsNone result → are_low self.now.first self.now.step (numbers (lines_of program.now)) ≡ true
            → new_number self.now.first self.now.step (numbers (lines_of program.now)) number ≡ number }
    {
        let mut new = u32::from(self.first);
        for (line, _) in program.lines() {
            if new > u32::from(HIGHEST_LINE) {
                return None;
            }
            if *line == number {
                return Some(new as u16);
            }
            new += u32::from(self.step);
        }
        None
    }
}
