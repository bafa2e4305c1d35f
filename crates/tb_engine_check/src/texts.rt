//! The texts of notes and warnings.
ghost use Rattle.std.specs.Prelude.{◌≡◌, ◌≤◌, Some};
ghost use Rattle.tb_engine_check.specs.Texts.{advice, note_text, times_of, warning_text};

use std::fmt;
use tb_basic_signs::name_of;
use tb_engine_findings::{ForeignWord, Note, Warning};

/// What is said of a word behind `REM TBC:` that is no option, or no seed.
pub const NO_OPTION: &str = "not --fit, --petscii or --seed with a number";

// What is said, text by text.
const FOR_ADVICE: &str = "count with LET, IF and GOTO";

const POKE_ADVICE: &str = "a program has its variables and no other memory";

const NO_ARRAYS: &str = "there are the variables A to Z and no arrays";

const GET_ADVICE: &str = "INPUT takes numbers from the keyboard";

const ON_ADVICE: &str = "GOTO and GOSUB take an expression, as GOTO 100*X";

const READ_ADVICE: &str = "set variables with LET";

const DEF_ADVICE: &str = "write the expression where it is used, or GOSUB";

const ELSE_ADVICE: &str = "write a second IF, or GOTO";

const AND_ADVICE: &str = "an IF may stand behind an IF: IF A=1 IF B=2 GOTO 100";

const OR_ADVICE: &str = "write an IF for each side, on lines of their own";

const NOT_ADVICE: &str = "turn the relation round: <> for =, >= for <";

const STOP_ADVICE: &str = "END ends the run";

const CLS_ADVICE: &str = "PRINT writes new lines";

const ABS_ADVICE: &str = "IF X<0 LET X=-X does it";

const TAB_ADVICE: &str = "a comma in PRINT goes on to the next zone of 8 columns";

const CHR_ADVICE: &str = "PRINT takes texts between quotes";

const MOD_ADVICE: &str = "A-A/B*B is the remainder";

const INT_ADVICE: &str = "all numbers are whole, and so is a quotient";

const SGN_ADVICE: &str = "IF X<0 LET S=-1 does it, with an IF for each sign";

const WHILE_ADVICE: &str = "go back with IF and GOTO";

const SYS_ADVICE: &str = "a program calls no machine code";

const NEW_ADVICE: &str = "a compiled program stays as it is";

const QUESTION_MARK: &str = "Tiny BASIC has no ? for PRINT; write PRINT or PR";

const APOSTROPHE: &str = "write REM for ', on a line of its own";

const COLON: &str = "a line has one statement; give the next one a line of its own";

const COLON_AT_END: &str = "a ; at the end of PRINT keeps the cursor on its line";

const LONG_NAME: &str = "a variable's name is one letter, A to Z";

const TEXT_NAME: &str = "variables hold numbers alone; texts stand in PRINT";

const HEXADECIMAL: &str = "numbers are decimal; there is no hexadecimal";

const THEN_NUMBER: &str = "a statement follows THEN; write THEN GOTO";

const OPEN_TEXT: &str = "the text has no second quote";

const TAB: &str = "this is a tab; write spaces";

const BYTE_ORDER_MARK: &str =
    "the file begins with a byte order mark (EF BB BF); save it without one";

const WIDE_MARK: &str =
    "the file begins with a mark of UTF-16 (FF FE or FE FF); save it as UTF-8, without one";

const NO_NUMBER: &str = "each line begins with its number, and none goes on in the next";

const NO_INTERPRETER: &str =
    "LIST, RUN and CLEAR are for an interpreter, and a compiled program has none";

const CURLY_QUOTE: &str = "a text begins and ends with a straight quote, \"";

const SIGN_IN_TEXT: &str = "a text holds letters, digits, spaces and the signs from ! to @";

const BRACE_IN_TEXT: &str =
    "with --petscii a name in braces is a sign, as {clr}; without it no text has a brace";

const COUNT_WITHOUT_SPACE: &str = "a space stands behind a count, as in {3 down}";

const BAD_COUNT: &str = "a count is 1 to 255, as in {3 down}";

const TEXT_IN_INPUT: &str = "INPUT takes variables alone; PRINT the text on the line before";

const POWER: &str = "Tiny BASIC has no powers; write A*A";

const SIGNED_OPERAND: &str = "a sign behind an operator stands in parentheses: A*(-1)";

const AT_LEAST: &str = "write >= for =>";

const AT_MOST: &str = "write <= for =<";

const ONE_EQUAL_SIGN: &str = "write = for ==";

const UNEQUAL: &str = "write <> for !=";

const EXTRA_PARENTHESIS: &str = "no parenthesis is open here";

const RELATION_AS_VALUE: &str =
    "a relation is no value; IF takes one, without parentheses around it";

const NOT_CLOSED: &str = "a parenthesis is not closed";

const NOTHING_BEHIND: &str = "nothing follows END and RETURN on a line";

const FRACTION: &str = "numbers are whole; there is no decimal point";

const SHORTHAND: &str = "write the operation out: LET A=A+1";

const REMAINDER: &str = "Tiny BASIC has no %; A-A/B*B is the remainder";

const WHOLE_NAME: &str = "all variables hold whole numbers; leave out the %";

const NO_RELATION: &str = "IF takes a relation: IF A<>0";

const REMARK_BEHIND: &str = "a remark has a line of its own";

const LINE_NAME: &str = "GOTO and GOSUB take the number of a line";

const NO_ITEM: &str = "an item stands before each separator of PRINT; \"\" is an empty one";

const NO_SEPARATOR: &str = "PRINT has ; or , between its items";

const RUNS_PAST: &str = "runs past the last line (fault 7)";

const BOUND_OF_ONE: &str = "RND(1) is always 0";

const ZERO_DIVISOR: &str = "fault 2: a divisor is 0";

/// The largest bound of RND that is advised.
const ADVISED: u32 = 32_767;

/// What is said of a note.
#[derive(Drop)]
pub struct NoteText(pub Note);

/// What is said of a warning.
#[derive(Drop)]
pub struct WarningText(pub Warning);

// What helps in place of a word of other BASICs.
fn advice(word: ForeignWord) -> &'static str
    ensures { result.now ≡ advice word }
{
    match word {
        ForeignWord::For | ForeignWord::Next | ForeignWord::Step => FOR_ADVICE,
        ForeignWord::Poke | ForeignWord::Peek => POKE_ADVICE,
        ForeignWord::Dim => NO_ARRAYS,
        ForeignWord::Get => GET_ADVICE,
        ForeignWord::On => ON_ADVICE,
        ForeignWord::Read | ForeignWord::Data => READ_ADVICE,
        ForeignWord::Def => DEF_ADVICE,
        ForeignWord::Else => ELSE_ADVICE,
        ForeignWord::And => AND_ADVICE,
        ForeignWord::Or => OR_ADVICE,
        ForeignWord::Not => NOT_ADVICE,
        ForeignWord::Stop => STOP_ADVICE,
        ForeignWord::Cls => CLS_ADVICE,
        ForeignWord::Abs => ABS_ADVICE,
        ForeignWord::Tab => TAB_ADVICE,
        ForeignWord::Chr => CHR_ADVICE,
        ForeignWord::Mod => MOD_ADVICE,
        ForeignWord::Int => INT_ADVICE,
        ForeignWord::Sgn => SGN_ADVICE,
        ForeignWord::While => WHILE_ADVICE,
        ForeignWord::Sys => SYS_ADVICE,
        ForeignWord::New => NEW_ADVICE,
    }
}

impl fmt::Display for NoteText {
    ghost output = { λ n. Some (note_text n.0) };

    fn fmt<W: fmt::Write>(&self, f: &mut fmt::Formatter<W>) -> fmt::Result {
        match self.0 {
            Note::ForeignWord(word) => {
                write!(f, "Tiny BASIC has no {}; {}", word.name(), advice(word))
            }
            Note::QuestionMark => f.write_str(QUESTION_MARK),
            Note::Apostrophe => f.write_str(APOSTROPHE),
            Note::Colon => { f.write_str(COLON) }
            Note::ColonAtEnd => f.write_str(COLON_AT_END),
            Note::LongName => f.write_str(LONG_NAME),
            Note::TextName => f.write_str(TEXT_NAME),
            Note::Hexadecimal => f.write_str(HEXADECIMAL),
            Note::ThenNumber => f.write_str(THEN_NUMBER),
            Note::OpenText => f.write_str(OPEN_TEXT),
            Note::Tab => f.write_str(TAB),
            Note::ByteOrderMark => f.write_str(BYTE_ORDER_MARK),
            Note::WideMark => f.write_str(WIDE_MARK),
            Note::NoNumber => f.write_str(NO_NUMBER),
            Note::MachineCode => f.write_str(SYS_ADVICE),
            Note::NoInterpreter => f.write_str(NO_INTERPRETER),
            Note::CurlyQuote => f.write_str(CURLY_QUOTE),
            Note::Near(word) => write!(f, "did you mean {}", word.spelling()),
            Note::SignInText => f.write_str(SIGN_IN_TEXT),
            Note::BraceInText => f.write_str(BRACE_IN_TEXT),
            Note::CountWithoutSpace => f.write_str(COUNT_WITHOUT_SPACE),
            Note::BadCount => f.write_str(BAD_COUNT),
            Note::NearSign(byte) => {
                let name = name_of(byte).unwrap_or("");
                write!(f, "did you mean {{{name}}}")
            }
            Note::UnknownSign => f.write_str(
                "a sign in a text is a name, as {clr} and {3 down}, or two hexadecimal digits, as {C1}",
            ),
            Note::TextInInput => f.write_str(TEXT_IN_INPUT),
            Note::Power => f.write_str(POWER),
            Note::SignedOperand => f.write_str(SIGNED_OPERAND),
            Note::AtLeast => f.write_str(AT_LEAST),
            Note::AtMost => f.write_str(AT_MOST),
            Note::OneEqualSign => f.write_str(ONE_EQUAL_SIGN),
            Note::Unequal => f.write_str(UNEQUAL),
            Note::ExtraParenthesis => f.write_str(EXTRA_PARENTHESIS),
            Note::RelationAsValue => f.write_str(RELATION_AS_VALUE),
            Note::NotClosed => f.write_str(NOT_CLOSED),
            Note::NothingBehind => f.write_str(NOTHING_BEHIND),
            Note::Array => f.write_str(NO_ARRAYS),
            Note::Fraction => f.write_str(FRACTION),
            Note::Shorthand => f.write_str(SHORTHAND),
            Note::Remainder => f.write_str(REMAINDER),
            Note::WholeName => f.write_str(WHOLE_NAME),
            Note::NoRelation => f.write_str(NO_RELATION),
            Note::RemarkBehind => f.write_str(REMARK_BEHIND),
            Note::LineName => f.write_str(LINE_NAME),
            Note::NoItem => f.write_str(NO_ITEM),
            Note::NoSeparator => f.write_str(NO_SEPARATOR),
        }
    }
}

/// How often a bound goes into the largest one that is advised.
pub fn times_of(bound: u16) -> u32
    ensures value { result ≡ times_of bound }
    ensures few { result ≤ 32767 }
{
    if bound == 0 {
        1
    } else {
        ADVISED / u32::from(bound)
    }
}

impl fmt::Display for WarningText {
    ghost output = { λ w. Some (warning_text w.0) };

    fn fmt<W: fmt::Write>(&self, f: &mut fmt::Formatter<W>) -> fmt::Result {
        match self.0 {
            Warning::NoLine(target) => write!(f, "no line {target}"),
            Warning::Replaced { number, by } => {
                write!(f, "line {number} is replaced by line {by} of the file")
            }
            Warning::TakenOut { number, by } => {
                write!(f, "line {number} is taken out by line {by} of the file")
            }
            Warning::RunsPast => f.write_str(RUNS_PAST),
            Warning::EvenBound(bound) => {
                let times = times_of(bound);
                let larger = times * u32::from(bound);
                write!(
                    f,
                    "RND({bound}) is odd and even in turns; RND({larger})/{times} is better"
                )
            }
            Warning::HighTarget(target) => write!(
                f,
                "{target} is read as a negative number; line numbers end at 32767"
            ),
            Warning::BoundOfOne => f.write_str(BOUND_OF_ONE),
            Warning::BadBound(bound) => write!(f, "fault 3: the bound of RND is {bound}"),
            Warning::ZeroDivisor => f.write_str(ZERO_DIVISOR),
            Warning::HighNumber(number) => write!(
                f,
                "{number} is read as {}; numbers end at 32767",
                number.cast_signed()
            ),
            Warning::KeyCharacter(number) => write!(
                f,
                "{{F{number}}} is the character {{B{number}}}, and no function key"
            ),
        }
    }
}
