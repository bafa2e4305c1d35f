//! Slot code that does not have the runs of its program, and the code that does.
ghost use Rattle.tb_lower.specs.Follows.{Follows};
ghost use Rattle.tb_lower.specs.Lowered.{program_code};
ghost use Rattle.tb_gate_refutations.specs.Lists.{emptied, stored_late};
ghost use Rattle.tb_gate_refutations.specs.Programs.{ends, stores_and_prints};

/// A list for each line, but none has an instruction.
pub fn lower_gives_empty_lists()
    ensures { Follows ends (emptied ends) → ⊥ }
{}

/// A variable is stored only after the next line has begun, so the state between the lines is not the source's.
pub fn store_one_line_late()
    ensures { Follows stores_and_prints stored_late → ⊥ }
{}

/// The code of both programs has their runs.
pub fn right_lists_follow_their_programs()
    ensures ends { Follows ends (program_code ends) }
    ensures stores { Follows stores_and_prints (program_code stores_and_prints) }
{}
