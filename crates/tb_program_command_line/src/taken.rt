//! The arguments that each command takes, in the order of its help text.
use crate::arguments::{
    ANSWERS, ASSEMBLY_OUT, AT, Argument, BUILD_OUT, DISK_OUT, DISK_OUTPUT, FIRST_LINE, FIT, FOR,
    FORCE, FORMAT_OF_TEST, IN_PLACE, KEY_FILE, KEYS, LABELS, LIMIT, LINE_STEP, LIST, LIST_FOR,
    LONG, MAP, ONLY_CHECK, ORIGIN, OUT, OUTPUT, PAGE, PAGE_OUT, PETSCII, PLAY_LIMIT, PLAY_STRICT,
    PRG, PRG_FILE, PRG_FILES, PRG_LABELS, PRG_OF_PAGE, REACHED_PAGE, RECORD, RECORDED_TRANSCRIPT,
    RUDE, SCREEN, SEED, SOURCE, SOURCE_OR_PRG, SOURCES, STRICT, TESTED_FILES, TEXT, TITLE, TYPE,
    UNREACHED_LINES, UPDATE, WATCH,
};
use crate::commands::CommandName;

static BUILD_ARGUMENTS: [Argument; 12] = [
    SOURCE, BUILD_OUT, OUTPUT, SEED, FIT, PETSCII, LABELS, LIST, LIST_FOR, MAP, WATCH, FORCE,
];

static RUN_ARGUMENTS: [Argument; 13] = [
    SOURCE_OR_PRG,
    PRG,
    SEED,
    FIT,
    PETSCII,
    KEYS,
    KEY_FILE,
    TYPE,
    ANSWERS,
    LIMIT,
    RUDE,
    PRG_LABELS,
    STRICT,
];

static DEBUG_ARGUMENTS: [Argument; 12] = [
    SOURCE_OR_PRG,
    PRG,
    SEED,
    FIT,
    PETSCII,
    KEYS,
    KEY_FILE,
    TYPE,
    ANSWERS,
    LIMIT,
    RUDE,
    PRG_LABELS,
];

static PLAY_ARGUMENTS: [Argument; 11] = [
    SOURCE_OR_PRG,
    PRG,
    SEED,
    FIT,
    PETSCII,
    PLAY_LIMIT,
    RECORD,
    RECORDED_TRANSCRIPT,
    SCREEN,
    FORCE,
    PLAY_STRICT,
];

static TEST_ARGUMENTS: [Argument; 6] = [
    TESTED_FILES,
    UPDATE,
    UNREACHED_LINES,
    REACHED_PAGE,
    FORMAT_OF_TEST,
    FORCE,
];

static ASM_ARGUMENTS: [Argument; 5] = [TEXT, OUT, OUTPUT, AT, FORCE];

static ASSEMBLE_ARGUMENTS: [Argument; 8] = [
    TEXT,
    ASSEMBLY_OUT,
    OUTPUT,
    ORIGIN,
    LONG,
    LABELS,
    LIST,
    FORCE,
];

static DIS_ARGUMENTS: [Argument; 2] = [PRG_FILE, FOR];

static STEP_ARGUMENTS: [Argument; 10] = [
    SOURCE_OR_PRG,
    PRG,
    SEED,
    FIT,
    PETSCII,
    KEYS,
    KEY_FILE,
    TYPE,
    ANSWERS,
    LIMIT,
];

static PROFILE_ARGUMENTS: [Argument; 13] = [
    SOURCE_OR_PRG,
    PRG,
    SEED,
    FIT,
    PETSCII,
    KEYS,
    KEY_FILE,
    TYPE,
    ANSWERS,
    LIMIT,
    RUDE,
    PAGE,
    FORCE,
];

static PAGE_ARGUMENTS: [Argument; 9] = [
    SOURCE_OR_PRG,
    PAGE_OUT,
    OUTPUT,
    PRG_OF_PAGE,
    SEED,
    FIT,
    PETSCII,
    TITLE,
    FORCE,
];

static DISK_ARGUMENTS: [Argument; 4] = [DISK_OUT, PRG_FILES, DISK_OUTPUT, FORCE];

static CHECK_ARGUMENTS: [Argument; 3] = [SOURCES, FIT, PETSCII];

static FORMAT_ARGUMENTS: [Argument; 4] = [SOURCE, PETSCII, IN_PLACE, ONLY_CHECK];

static RENUMBER_ARGUMENTS: [Argument; 5] = [SOURCE, PETSCII, FIRST_LINE, LINE_STEP, IN_PLACE];

static SERVE_ARGUMENTS: [Argument; 1] = [PETSCII];

/// The arguments of a command.
pub fn arguments_of(command: CommandName) -> &'static [Argument] {
    match command {
        CommandName::Build => &BUILD_ARGUMENTS,
        CommandName::Run => &RUN_ARGUMENTS,
        CommandName::Play => &PLAY_ARGUMENTS,
        CommandName::Test => &TEST_ARGUMENTS,
        CommandName::Asm => &ASM_ARGUMENTS,
        CommandName::Assemble => &ASSEMBLE_ARGUMENTS,
        CommandName::Dis => &DIS_ARGUMENTS,
        CommandName::Step => &STEP_ARGUMENTS,
        CommandName::Debug => &DEBUG_ARGUMENTS,
        CommandName::Profile => &PROFILE_ARGUMENTS,
        CommandName::Page => &PAGE_ARGUMENTS,
        CommandName::Disk => &DISK_ARGUMENTS,
        CommandName::Check => &CHECK_ARGUMENTS,
        CommandName::Format => &FORMAT_ARGUMENTS,
        CommandName::Renumber => &RENUMBER_ARGUMENTS,
        CommandName::Lsp | CommandName::Dap => &SERVE_ARGUMENTS,
        CommandName::Version => &[],
    }
}
