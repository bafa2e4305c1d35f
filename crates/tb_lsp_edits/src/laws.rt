//! The law of renamed lines.
ghost use Rattle.tb_lsp_edits.specs.Renamed.{RenamedLinesMakeTheRenamedProgram};

/// Renamed lines make the renamed program. The function does nothing: its clause is the law.
pub fn renamed_lines_make_the_renamed_program()
    ensures { RenamedLinesMakeTheRenamedProgram }
{}
