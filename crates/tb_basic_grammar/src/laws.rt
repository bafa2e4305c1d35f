//! Laws of the grammar.
ghost use Rattle.tb_basic_grammar.specs.Grammar.{ExpressionsAreUnique};
ghost use Rattle.tb_basic_grammar.specs.Statements.{StatementsAreUnique};

/// No text has two readings as an expression. The function does nothing: its clause is the law.
pub fn expressions_are_unique()
    ensures { ExpressionsAreUnique }
{}

/// No text has two readings as a statement. The function does nothing: its clause is the law.
pub fn statements_are_unique()
    ensures { StatementsAreUnique }
{}
