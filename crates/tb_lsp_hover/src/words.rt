//! What the words of the language do.
ghost use Rattle.std.specs.Prelude.{◌≡◌};
ghost use Rattle.tb_lsp_hover.specs.Words.{help_of, help_of_word};

use tb_basic_grammar::Keyword;
use tb_parser::TokenKind;

// What is said, text by text.
const LET_TEXT: &str =
    "LET V=E: gives a variable the value of an expression; the word may be left out";

const PRINT_TEXT: &str =
    "PRINT: sends texts and values; a comma goes on to the next zone of 8 columns";

const PR_TEXT: &str = "PR: short for PRINT";

const INPUT_TEXT: &str = "INPUT V,W: asks for numbers, and gives them to variables";

const IF_TEXT: &str =
    "IF E=F THEN S: does the statement if the relation holds; THEN may be left out";

const GOTO_TEXT: &str = "GOTO E: goes on at the line of this number";

const GOSUB_TEXT: &str = "GOSUB E: goes on at the line of this number, up to a RETURN";

const RETURN_TEXT: &str = "RETURN: goes back behind the last GOSUB";

const END_TEXT: &str = "END: ends the run";

const REM_TEXT: &str = "REM: a remark, up to the end of the line";

const THEN_TEXT: &str = "THEN S: the statement of an IF; the word may be left out";

const RANDOM_TEXT: &str = "RND(N): a number from 0 to N-1, drawn by chance";

fn help_of_word(word: Keyword) -> &'static str
    ensures { result.now ≡ help_of_word word }
{
    match word {
        Keyword::Let => { LET_TEXT }
        Keyword::Print => { PRINT_TEXT }
        Keyword::Pr => PR_TEXT,
        Keyword::Input => INPUT_TEXT,
        Keyword::If => { IF_TEXT }
        Keyword::Goto => GOTO_TEXT,
        Keyword::Gosub => GOSUB_TEXT,
        Keyword::Return => RETURN_TEXT,
        Keyword::End => END_TEXT,
        Keyword::Rem => REM_TEXT,
    }
}

/// What a token that is a word does; empty for any other.
pub fn help_of(kind: TokenKind) -> &'static str
    ensures { result.now ≡ help_of kind }
{
    match kind {
        TokenKind::Keyword(word) => help_of_word(word),
        TokenKind::Then => THEN_TEXT,
        TokenKind::Random => RANDOM_TEXT,
        _ => "",
    }
}
