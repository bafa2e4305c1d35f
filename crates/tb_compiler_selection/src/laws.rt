//! The laws of groups, each the contract of a function that does nothing.
ghost use Rattle.tb_compiler_selection.specs.Laws.{ChoiceLaw, ClosedLaw, RunLaw};

/// After each group that is selected, what its template need not write is not read; a test that goes straight to a line
/// is the last one of its list.
pub fn omitted_words_are_dead()
    ensures { ChoiceLaw }
{}

/// No line of a program reads a slot or the held word before it writes it.
pub fn lines_are_closed()
    ensures { ClosedLaw }
{}

/// A run by groups does what the run by slot instructions does.
pub fn groups_run_as_slot_code()
    ensures { RunLaw }
{}
