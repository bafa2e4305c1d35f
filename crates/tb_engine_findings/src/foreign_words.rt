//! Words of other BASICs.
ghost use Rattle.std.specs.Prelude.{◌≡◌};
ghost use Rattle.std.specs.List.{find};
ghost use Rattle.tb_engine_findings.specs.ForeignWords.{foreign_word, is_written};

/// A word of other BASICs that Tiny BASIC does not have.
#[derive(Clone, Copy, Drop)]
pub enum ForeignWord {
    For,
    Next,
    Step,
    Poke,
    Peek,
    Dim,
    Get,
    On,
    Read,
    Data,
    Def,
    Else,
    And,
    Or,
    Not,
    Stop,
    Cls,
    Abs,
    Tab,
    Chr,
    Mod,
    Int,
    Sgn,
    While,
    Sys,
    New,
}

const FOREIGN_WORDS: [ForeignWord; 26] = [
    ForeignWord::For,
    ForeignWord::Next,
    ForeignWord::Step,
    ForeignWord::Poke,
    ForeignWord::Peek,
    ForeignWord::Dim,
    ForeignWord::Get,
    ForeignWord::On,
    ForeignWord::Read,
    ForeignWord::Data,
    ForeignWord::Def,
    ForeignWord::Else,
    ForeignWord::And,
    ForeignWord::Or,
    ForeignWord::Not,
    ForeignWord::Stop,
    ForeignWord::Cls,
    ForeignWord::Abs,
    ForeignWord::Tab,
    ForeignWord::Chr,
    ForeignWord::Mod,
    ForeignWord::Int,
    ForeignWord::Sgn,
    ForeignWord::While,
    ForeignWord::Sys,
    ForeignWord::New,
];

impl ForeignWord {
    ghost use Rattle.std.specs.Prelude.{◌≡◌};
    ghost use Rattle.tb_engine_findings.specs.ForeignWords.{is_written, name_of, takes_name};

    /// How it is written.
    pub fn name(self) -> &'static str
        ensures { result.now ≡ name_of self }
    {
        match self {
            ForeignWord::For => "FOR",
            ForeignWord::Next => "NEXT",
            ForeignWord::Step => "STEP",
            ForeignWord::Poke => "POKE",
            ForeignWord::Peek => "PEEK",
            ForeignWord::Dim => "DIM",
            ForeignWord::Get => "GET",
            ForeignWord::On => "ON",
            ForeignWord::Read => "READ",
            ForeignWord::Data => "DATA",
            ForeignWord::Def => "DEF",
            ForeignWord::Else => "ELSE",
            ForeignWord::And => "AND",
            ForeignWord::Or => "OR",
            ForeignWord::Not => "NOT",
            ForeignWord::Stop => "STOP",
            ForeignWord::Cls => "CLS",
            ForeignWord::Abs => "ABS",
            ForeignWord::Tab => "TAB",
            ForeignWord::Chr => "CHR$",
            ForeignWord::Mod => "MOD",
            ForeignWord::Int => "INT",
            ForeignWord::Sgn => "SGN",
            ForeignWord::While => "WHILE",
            ForeignWord::Sys => "SYS",
            ForeignWord::New => "NEW",
        }
    }

    // Whether a name follows it, which may come right after its letters.
    fn takes_name(self) -> bool
        ensures { result ≡ takes_name self }
    {
        matches!(
            self,
            ForeignWord::For
                | ForeignWord::Next
                | ForeignWord::Dim
                | ForeignWord::Get
                | ForeignWord::Read
        )
    }

    // Whether letters are this word, with a `$` if it has one, or this word and the letter of a name.
    fn is_written(self, letters: &[u8], whole: &[u8]) -> bool
        ensures { result ≡ is_written self letters.now whole.now }
    {
        let name = self.name().as_bytes();
        let is_longer = letters.len() == name.len() + 1;
        (self.takes_name() && is_longer && letters.starts_with(name)) || whole == name
    }
}

/// The word of other BASICs that letters in upper case spell; `whole` has the `$` that follows them too, if one does.
pub fn foreign_word(letters: &[u8], whole: &[u8]) -> Option<ForeignWord>
    ensures { result ≡ foreign_word letters.now whole.now }
{
    first_written(&FOREIGN_WORDS, letters, whole)
}

fn first_written(words: &[ForeignWord], letters: &[u8], whole: &[u8]) -> Option<ForeignWord>
    ensures { result ≡ find (λ f. is_written f letters.now whole.now) words.now }
{
    for word in words {
        if word.is_written(letters, whole) {
            return Some(*word);
        }
    }
    None
}
