//! The law of what a debug adapter tells of a run.
ghost use Rattle.tb_dap_stopped.specs.Told.{WhatIsToldIsOfTheRun};

/// In each dialogue with a program that was launched, the debugger is on the program's run from its start on all keys
/// that were typed so far; where a line begins it shows the source; each stop that is told is one of this debugger; and
/// what was told of the program's output is what it has sent at the farthest moment at which it rested, once.
/// The function does nothing: its clause is the law.
pub fn what_is_told_is_of_the_run()
    ensures { WhatIsToldIsOfTheRun }
{}
