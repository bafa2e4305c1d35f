//! The laws of a program's image, each the contract of a function that does nothing.
ghost use Rattle.tb_proof_correctness.specs.Laws.{KeepingLaw, MarkingLaw};

/// An image of a program keeps the program, whatever the ROM does.
pub fn keeps()
    ensures { KeepingLaw }
{}

/// When an image of a program begins a line, the program does.
pub fn marks_lines()
    ensures { MarkingLaw }
{}
