//! Where lines begin: an address that no run comes to marks no line.
ghost use Rattle.tb_memmap.specs.Regions.{BASIC_START};
ghost use Rattle.tb_compiled_kept.specs.Addresses.{LINES_AT};
ghost use Rattle.tb_compiled_kept.specs.LineStarts.{MarksLines};
ghost use Rattle.tb_gate_refutations.specs.Changed.{line_table};
ghost use Rattle.tb_gate_refutations.specs.Compiled.{ends_image};
ghost use Rattle.tb_gate_refutations.specs.Programs.{ends};

/// The image of END is right, but its line is said to begin in the line table, which is no code.
pub fn start_of_names_dead_bytes()
    ensures { MarksLines BASIC_START ends_image ends 1 line_table → ⊥ }
{}

/// Said to begin where it does, after the routines, the line is marked.
pub fn right_start_is_marked()
    ensures { MarksLines BASIC_START ends_image ends 1 (λ n. LINES_AT) }
{}
