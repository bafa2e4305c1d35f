//! The arguments of the commands: what each is called, how it helps and what it takes.

/// An argument of a command.
#[derive(Clone, Copy)]
pub struct Argument {
    /// The word of a file in the usage line, as `SOURCE`, or an option without its dashes, as `seed`. A command has each
    /// of them once.
    pub name: &'static str,
    /// The text that helps.
    pub help: &'static str,
    pub form: Form,
}

/// How an argument is written, and what it takes.
#[derive(Clone, Copy)]
pub enum Form {
    /// A file that is named by its place, and must be.
    File,
    /// One file or more, named by their places.
    Files,
    /// A file that is named by its place, and must be unless the option of this name is there.
    FileUnless(&'static str),
    /// An option without a value.
    Flag,
    /// An option without a value that excludes the arguments of these names.
    FlagInPlaceOf(&'static [&'static str]),
    /// A file that is named by its place, if it is named at all.
    FileIfNamed,
    /// The option `-o`, which names what is written.
    Output,
    /// The option `-o`, which excludes the argument of this name.
    OutputInPlaceOf(&'static str),
    /// One file or more, named by their places, which may be missing if the option of this name is there.
    FilesUnless(&'static str),
    /// An option of one of these names.
    Choice(&'static [&'static str]),
    /// An option of one of these names, which takes the option of the other name along.
    ChoiceWith(&'static [&'static str], &'static str),
    /// An option of one of these names, and this one if it is missing.
    ChoiceOr(&'static [&'static str], &'static str),
    /// An option that names a file.
    FileOption,
    /// An option that names a file, and excludes the argument of this name.
    FileInPlaceOf(&'static str),
    /// An option that names a file, and takes the option of this name along.
    FileAlong(&'static str),
    /// An option that names a file, takes the option of the first name along, and excludes the argument of the other.
    FileWith(&'static str, &'static str),
    /// An option of a text, and excludes the arguments of these names.
    TextInPlaceOf(&'static [&'static str]),
    /// An option of hexadecimal digits, none if it is missing.
    Digits,
    /// An option of hexadecimal digits that must be there.
    Address,
    /// An option of hexadecimal digits that may be missing.
    AddressIfNamed,
    /// An option of a number, 0 to 65535.
    Number,
    /// An option of a number, 0 to 65535, or `time`.
    Seed,
    /// An option of a line number, 1 to `HIGHEST_LINE`, and this one if it is missing.
    LineNumberOr(&'static str),
    /// An option of a number of events, 1 to `MOST_EVENTS`, and this one if it is missing.
    EventsOr(&'static str),
}

// The numbers of tb_program_jobs as texts. That they agree is proved in proofs/Numbers.
const USUAL_STEP_TEXT: &str = "10";

const USUAL_EVENTS_TEXT: &str = "10000000";

const MOST_EVENTS_TEXT: &str = "1000000000";

// The library can't tell a usual seed from one that is given.
const SEED_HELP: &str = "The first state of RND, 0 to 65535; time is one by the clock [default: 1]";

const LIMIT_HELP: &str = "The most events, 1 to 1000000000";

const PLAY_LIMIT_HELP: &str =
    "The most events from one line that is typed to the next, 1 to 1000000000";

// Names that other arguments name too.
const SOURCE_NAME: &str = "SOURCE";

const PRG_NAME: &str = "prg";

const KEYS_NAME: &str = "keys";

const KEY_FILE_NAME: &str = "keys-file";

const OUT_NAME: &str = "OUT";

const OUTPUT_NAME: &str = "output";

const IN_PLACE_NAME: &str = "in-place";

const LIST_NAME: &str = "list";

const FOR_NAME: &str = "for";

const SCREEN_NAME: &str = "screen";

const STRICT_NAME: &str = "strict";

const LINES_NAME: &str = "lines";

const STRICT_HELP: &str = "End with status 8 if a fault ends the program";

/// The seed that is made of the clock.
pub const TIME: &str = "time";

// The form in which it is told which transcripts passed, if the words don't say.
const TEXT_FORM: &str = "text";

/// The form in which other programs are told which transcripts passed.
pub const TAP_FORM: &str = "tap";

/// The assemblers that listings are made for.
pub const ASSEMBLERS: [&str; 4] = ["64tass", "ca65", "acme", "xa"];

pub const SOURCE: Argument = Argument {
    name: SOURCE_NAME,
    help: "The source file",
    form: Form::File,
};

pub const SOURCE_OR_PRG: Argument = Argument {
    name: SOURCE_NAME,
    help: "The source file",
    form: Form::FileUnless(PRG_NAME),
};

pub const SOURCES: Argument = Argument {
    name: SOURCE_NAME,
    help: "The source files",
    form: Form::Files,
};

pub const TEXT: Argument = Argument {
    name: "IN",
    help: "The assembler text",
    form: Form::File,
};

pub const PRG_FILE: Argument = Argument {
    name: "FILE",
    help: "The PRG file",
    form: Form::File,
};

pub const PRG_FILES: Argument = Argument {
    name: "FILE",
    help: "The PRG files, in order",
    form: Form::FilesUnless(OUTPUT_NAME),
};

pub const BUILD_OUT: Argument = Argument {
    name: OUT_NAME,
    help: "The PRG file that is written; SOURCE with .prg in place of .bas if it is missing",
    form: Form::FileIfNamed,
};

pub const OUT: Argument = Argument {
    name: OUT_NAME,
    help: "The PRG file that is written",
    form: Form::FileUnless(OUTPUT_NAME),
};

pub const ASSEMBLY_OUT: Argument = Argument {
    name: OUT_NAME,
    help: "The PRG file that is written; IN with .prg in place of .asm if it is missing",
    form: Form::FileIfNamed,
};

pub const DISK_OUT: Argument = Argument {
    name: OUT_NAME,
    help: "The disk image that is written, a D64 file",
    form: Form::File,
};

pub const PAGE_OUT: Argument = Argument {
    name: OUT_NAME,
    help: "The page that is written; SOURCE with .html in place of .bas if it is missing",
    form: Form::FileIfNamed,
};

pub const OUTPUT: Argument = Argument {
    name: OUTPUT_NAME,
    help: "The file that is written, in place of OUT",
    form: Form::OutputInPlaceOf(OUT_NAME),
};

pub const DISK_OUTPUT: Argument = Argument {
    name: OUTPUT_NAME,
    help: "The disk image that is written; then all other words are PRG files",
    form: Form::Output,
};

pub const PRG: Argument = Argument {
    name: PRG_NAME,
    help: "Run this PRG file in place of a source",
    form: Form::FileInPlaceOf(SOURCE_NAME),
};

pub const PRG_OF_PAGE: Argument = Argument {
    name: PRG_NAME,
    help: "Take this PRG file in place of a source; then the one other word is OUT",
    form: Form::FileInPlaceOf(OUT_NAME),
};

pub const SEED: Argument = Argument {
    name: "seed",
    help: SEED_HELP,
    form: Form::Seed,
};

pub const FIT: Argument = Argument {
    name: "fit",
    help: "Take any source that fits the memory, whatever it costs",
    form: Form::Flag,
};

pub const PETSCII: Argument = Argument {
    name: "petscii",
    help: "Read signs in texts: {clr} clears the screen, {C1} is a byte",
    form: Form::Flag,
};

pub const KEYS: Argument = Argument {
    name: KEYS_NAME,
    help: "What is typed, as pairs of hexadecimal digits: 350d is a 5 and return",
    form: Form::Digits,
};

pub const KEY_FILE: Argument = Argument {
    name: KEY_FILE_NAME,
    help: "A file of what is typed, as pairs of hexadecimal digits",
    form: Form::FileInPlaceOf(KEYS_NAME),
};

pub const TYPE: Argument = Argument {
    name: "type",
    help: "What is typed, as a text: 5\\n is a 5 and return",
    form: Form::TextInPlaceOf(&[KEYS_NAME, KEY_FILE_NAME]),
};

pub const ANSWERS: Argument = Argument {
    name: "answers",
    help: "What each poll of the keyboard gives, as pairs of digits: 00 is no key, 03 is STOP",
    form: Form::Digits,
};

pub const LIMIT: Argument = Argument {
    name: "limit",
    help: LIMIT_HELP,
    form: Form::EventsOr(USUAL_EVENTS_TEXT),
};

pub const PLAY_LIMIT: Argument = Argument {
    name: "limit",
    help: PLAY_LIMIT_HELP,
    form: Form::EventsOr(MOST_EVENTS_TEXT),
};

pub const RUDE: Argument = Argument {
    name: "rude",
    help: "Let the ROM write and clobber all that it may, by this seed [0 to 65535]",
    form: Form::Number,
};

pub const AT: Argument = Argument {
    name: "at",
    help: "The address of the first byte, four hexadecimal digits",
    form: Form::Address,
};

pub const ORIGIN: Argument = Argument {
    name: "at",
    help: "The address of the first byte if the text names none, four hexadecimal digits [default: C000]",
    form: Form::AddressIfNamed,
};

pub const LABELS: Argument = Argument {
    name: "labels",
    help: "Write a label file for VICE's monitor",
    form: Form::FileOption,
};

pub const PRG_LABELS: Argument = Argument {
    name: "labels",
    help: "Name the addresses of the PRG file by this label file",
    form: Form::FileWith(PRG_NAME, SOURCE_NAME),
};

pub const LONG: Argument = Argument {
    name: "long",
    help: "Make branches long that don't reach",
    form: Form::Flag,
};

pub const LIST: Argument = Argument {
    name: LIST_NAME,
    help: "Write a listing, which assembles to the same bytes",
    form: Form::FileOption,
};

pub const LIST_FOR: Argument = Argument {
    name: FOR_NAME,
    help: "Write the listing for this assembler, which makes the PRG file of it",
    form: Form::ChoiceWith(&ASSEMBLERS, LIST_NAME),
};

pub const FOR: Argument = Argument {
    name: FOR_NAME,
    help: "List it for this assembler, which makes the same file of it",
    form: Form::Choice(&ASSEMBLERS),
};

pub const MAP: Argument = Argument {
    name: "map",
    help: "Write a map: what each line takes and costs",
    form: Form::FileOption,
};

pub const WATCH: Argument = Argument {
    name: "watch",
    help: "Write a watch file for VICE's monitor: it stops where a ROM breaks a rule",
    form: Form::FileOption,
};

pub const RECORD: Argument = Argument {
    name: "record",
    help: "Write all that was typed to this file at the end, for run --keys-file",
    form: Form::FileOption,
};

pub const RECORDED_TRANSCRIPT: Argument = Argument {
    name: "transcript",
    help: "Write all that was typed and sent to this file at the end, for test",
    form: Form::FileInPlaceOf(PRG_NAME),
};

pub const TESTED_FILES: Argument = Argument {
    name: "FILE",
    help: "Sources with transcripts beside them, transcripts, and folders of these",
    form: Form::Files,
};

pub const UPDATE: Argument = Argument {
    name: "update",
    help: "Write the transcripts anew, by what the programs send now",
    form: Form::Flag,
};

pub const UNREACHED_LINES: Argument = Argument {
    name: LINES_NAME,
    help: "Show which lines no transcript reached",
    form: Form::Flag,
};

pub const REACHED_PAGE: Argument = Argument {
    name: "html",
    help: "Write a page of how often each line ran to this file; with --lines",
    form: Form::FileAlong(LINES_NAME),
};

pub const FORMAT_OF_TEST: Argument = Argument {
    name: "format",
    help: "How it is told which transcripts passed",
    form: Form::ChoiceOr(&[TEXT_FORM, TAP_FORM], TEXT_FORM),
};

pub const SCREEN: Argument = Argument {
    name: SCREEN_NAME,
    help: "Show the machine's screen, at a terminal of at least 40 by 25",
    form: Form::Flag,
};

pub const STRICT: Argument = Argument {
    name: STRICT_NAME,
    help: STRICT_HELP,
    form: Form::FlagInPlaceOf(&[PRG_NAME]),
};

pub const PLAY_STRICT: Argument = Argument {
    name: STRICT_NAME,
    help: STRICT_HELP,
    form: Form::FlagInPlaceOf(&[PRG_NAME, SCREEN_NAME]),
};

pub const TITLE: Argument = Argument {
    name: "title",
    help: "The page's title; the file's name without its ending if it is missing",
    form: Form::TextInPlaceOf(&[]),
};

pub const FORCE: Argument = Argument {
    name: "force",
    help: "Replace a file that is there even if it looks like something else",
    form: Form::Flag,
};

pub const IN_PLACE: Argument = Argument {
    name: IN_PLACE_NAME,
    help: "Write the file itself, in place of standard output",
    form: Form::Flag,
};

pub const ONLY_CHECK: Argument = Argument {
    name: "check",
    help: "Write only the file's name, if it is not tidy, and end with status 1 then",
    form: Form::FlagInPlaceOf(&[IN_PLACE_NAME]),
};

pub const FIRST_LINE: Argument = Argument {
    name: "from",
    help: "The number of the first line, 1 to 32767",
    form: Form::LineNumberOr(USUAL_STEP_TEXT),
};

pub const LINE_STEP: Argument = Argument {
    name: "step",
    help: "How much higher each next line's number is, 1 to 32767",
    form: Form::LineNumberOr(USUAL_STEP_TEXT),
};

pub const PAGE: Argument = Argument {
    name: "html",
    help: "Write a page with the same figures to this file too",
    form: Form::FileInPlaceOf(PRG_NAME),
};
