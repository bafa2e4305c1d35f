//! What holds of each source, and of the tokens of each line. These functions do nothing: their clauses are the laws.
ghost use Rattle.tb_parser.specs.Programs.{ProgramsAreMade};
ghost use Rattle.tb_parser.specs.Tokens.{RemarksAreWhole, TokensAreUnique};

/// A source has a program where no line of it is refused, and there alone.
pub fn programs_are_made()
    ensures { ProgramsAreMade }
{}

/// No line has two lists of tokens.
pub fn tokens_are_unique()
    ensures { TokensAreUnique }
{}

/// Behind REM all that is left of a line is one token, its remark; none, if nothing is left.
pub fn remarks_are_whole()
    ensures { RemarksAreWhole }
{}
