//! The law of renumbered programs.
ghost use Rattle.tb_basic_renumber.specs.Runs.{RenumberedRunAlike};

/// A renumbered program has the runs of the program. The function does nothing: its clause is the law.
pub fn renumbered_programs_run_alike()
    ensures { RenumberedRunAlike }
{}
