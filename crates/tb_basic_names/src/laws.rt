//! What no line of a source changes, and what none names.
ghost use Rattle.tb_basic_names.specs.Laws.{RemarksNameNothing, SupersededLinesDoNothing};

/// A line whose number a later one has changes nothing: without it the program is the same.
pub fn superseded_lines_do_nothing()
    ensures { SupersededLinesDoNothing }
{}

/// What follows REM names no variable, and is no GOTO or GOSUB.
pub fn remarks_name_nothing()
    ensures { RemarksNameNothing }
{}
