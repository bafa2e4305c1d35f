//! The words of the language, except RND.
ghost use Rattle.std.specs.Prelude.{◌≡◌, ◌<◌, length};
ghost use Rattle.tb_basic_grammar.specs.StatementReading.{spelled};

/// The first words of statements.
#[derive(Clone, Copy, PartialEq, Eq, Debug)]
pub enum Keyword {
    Let,
    Print,
    /// PR, short for PRINT.
    Pr,
    Input,
    If,
    Goto,
    Gosub,
    Return,
    End,
    Rem,
}

/// The first words, each before those that are its prefixes: PRINT comes before PR.
pub const KEYWORDS: [Keyword; 10] = [
    Keyword::Let,
    Keyword::Print,
    Keyword::Pr,
    Keyword::Input,
    Keyword::If,
    Keyword::Goto,
    Keyword::Gosub,
    Keyword::Return,
    Keyword::End,
    Keyword::Rem,
];

/// The word that may come between the condition of an IF and its statement.
pub const THEN: &str = "THEN";

impl Keyword {
    /// The spelling of the word, in capital letters.
    pub fn spelling(self) -> &'static str
        ensures spells { result.now ≡ spelled self }
        ensures some { 0 < length result.now }
    {
        match self {
            Keyword::Let => "LET",
            Keyword::Print => "PRINT",
            Keyword::Pr => "PR",
            Keyword::Input => "INPUT",
            Keyword::If => "IF",
            Keyword::Goto => "GOTO",
            Keyword::Gosub => "GOSUB",
            Keyword::Return => "RETURN",
            Keyword::End => "END",
            Keyword::Rem => "REM",
        }
    }
}
