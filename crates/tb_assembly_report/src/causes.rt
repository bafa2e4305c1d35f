//! What is wrong, in words.
ghost use Rattle.std.specs.Prelude.{◌≡◌};
ghost use Rattle.tb_assembly_report.specs.Causes.{cause_text, include_text, line_text, wrong_text};

use tb_assembly_files::{IncludeFault, Place};
use tb_assembly_meaning::Wrong;
use tb_assembly_text::FaultKind;

// What is said, text by text.
const STRAY: &str = "nothing begins with this";

const OPEN_TEXT: &str = "the text has no second quote";

const CHARACTER: &str = "a character is written 'A'";

const NO_DIGITS: &str = "digits are missing";

const NUMBER_TOO_LARGE: &str = "the number is too large";

const NAME_TOO_LONG: &str = "a name has at most 255 letters";

const RESERVED: &str = "A is the accumulator";

const WANTS_VALUE: &str = "a value is missing";

const WANTS_RIGHT: &str = "a parenthesis is not closed";

const WANTS_REGISTER: &str = "X or Y is missing";

const WANTS_EQUALS: &str = "= is missing";

const WANTS_TEXT: &str = "a text in quotes is missing";

const WANTS_ITEM: &str = "here stands a label, an instruction or a directive";

const UNKNOWN_DIRECTIVE: &str = "no such directive";

const UNKNOWN_MNEMONIC: &str = "no such instruction";

const EXTRA: &str = "nothing may follow here";

const CIRCLE: &str = "the file includes itself";

const TOO_DEEP: &str = "files are included more than 16 deep";

const TOO_MANY: &str = "too many lines are included";

const UNREAD: &str = "the file can't be read";

const UNKNOWN_NAME: &str = "nothing has this name";

const NOT_YET_KNOWN: &str = "the value of this name is not known here";

const NAME_TWICE: &str = "an earlier line has this name";

const OVERFLOW: &str = "a value has at most 32 bits";

const DIVISION_BY_ZERO: &str = "division by 0";

const NEGATIVE: &str = "a negative number has no single bits";

const SHIFT_TOO_FAR: &str = "bits are moved by 31 at most";

const NO_BYTE: &str = "a byte is from -128 to 255";

const NO_WORD: &str = "a word is from -32768 to 65535";

const NO_ADDRESS: &str = "an address is from 0 to $FFFF";

const NO_ZERO_PAGE: &str = "an address in page zero is from 0 to $FF";

const NO_COUNT: &str = "a count is from 0 to 65536";

const NO_MULTIPLE: &str = "a multiple is from 1 to 65536";

const BACKWARD: &str = "this address was passed already";

const NO_SUCH_MODE: &str = "this instruction has no such operand";

const TOO_FAR: &str = "a branch reaches from -128 to 127 bytes";

const PAGE_END: &str = "an indirect jump takes no pointer at the end of a page";

const PAST_END: &str = "this ends past $FFFF";

const NOT_READ: &str = "the file was not read";

/// Why a text is refused: for a line that is bad, a file that is not included, or what a statement means.
#[derive(Clone, Copy, PartialEq, Eq, Debug, Drop)]
pub enum Cause {
    Line(FaultKind),
    Include(IncludeFault),
    Meaning(Wrong),
}

/// What is wrong with a line, and at which of its columns, from 1.
#[derive(Clone, Copy, PartialEq, Eq, Debug, Drop)]
pub struct Finding {
    pub place: Place,
    pub column: usize,
    pub cause: Cause,
}

fn line_text(kind: FaultKind) -> &'static str
    ensures { result.now ≡ line_text kind }
{
    match kind {
        FaultKind::Stray => STRAY,
        FaultKind::OpenText => OPEN_TEXT,
        FaultKind::Character => CHARACTER,
        FaultKind::NoDigits => NO_DIGITS,
        FaultKind::NumberTooLarge => NUMBER_TOO_LARGE,
        FaultKind::NameTooLong => NAME_TOO_LONG,
        FaultKind::Reserved => RESERVED,
        FaultKind::WantsValue => WANTS_VALUE,
        FaultKind::WantsRight => WANTS_RIGHT,
        FaultKind::WantsRegister => WANTS_REGISTER,
        FaultKind::WantsEquals => WANTS_EQUALS,
        FaultKind::WantsText => WANTS_TEXT,
        FaultKind::WantsItem => WANTS_ITEM,
        FaultKind::UnknownDirective => UNKNOWN_DIRECTIVE,
        FaultKind::UnknownMnemonic => UNKNOWN_MNEMONIC,
        FaultKind::Extra => EXTRA,
    }
}

fn include_text(fault: IncludeFault) -> &'static str
    ensures { result.now ≡ include_text fault }
{
    match fault {
        IncludeFault::Circle => CIRCLE,
        IncludeFault::TooDeep => TOO_DEEP,
        IncludeFault::TooMany => TOO_MANY,
        IncludeFault::Unread => UNREAD,
    }
}

fn wrong_text(wrong: Wrong) -> &'static str
    ensures { result.now ≡ wrong_text wrong }
{
    match wrong {
        Wrong::UnknownName => UNKNOWN_NAME,
        Wrong::NotYetKnown => NOT_YET_KNOWN,
        Wrong::NameTwice => NAME_TWICE,
        Wrong::Overflow => OVERFLOW,
        Wrong::DivisionByZero => DIVISION_BY_ZERO,
        Wrong::Negative => NEGATIVE,
        Wrong::ShiftTooFar => SHIFT_TOO_FAR,
        Wrong::NoByte => NO_BYTE,
        Wrong::NoWord => NO_WORD,
        Wrong::NoAddress => NO_ADDRESS,
        Wrong::NoZeroPage => NO_ZERO_PAGE,
        Wrong::NoCount => NO_COUNT,
        Wrong::NoMultiple => NO_MULTIPLE,
        Wrong::Backward => BACKWARD,
        Wrong::NoSuchMode => NO_SUCH_MODE,
        Wrong::TooFar => TOO_FAR,
        Wrong::PageEnd => PAGE_END,
        Wrong::PastEnd => PAST_END,
        Wrong::NotRead => NOT_READ,
    }
}

/// What is said of a cause.
pub fn cause_text(cause: Cause) -> &'static str
    ensures { result.now ≡ cause_text cause }
{
    match cause {
        Cause::Line(kind) => line_text(kind),
        Cause::Include(fault) => include_text(fault),
        Cause::Meaning(wrong) => wrong_text(wrong),
    }
}
