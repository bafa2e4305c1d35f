//! The values of arguments that the parser found.
ghost use Rattle.std.specs.Prelude.{◌≡◌, codes, map, option_map, string_bytes, IfOk};
ghost use Rattle.clap.specs.Words.{first_value, found_of};
ghost use Rattle.tb_program_jobs.specs.Numbers.{USUAL_STEP};
ghost use Rattle.tb_program_command_line.specs.Values as spec;

use crate::arguments::{
    ANSWERS, Argument, FIT, FOR, FORCE, FORMAT_OF_TEST, IN_PLACE, KEY_FILE, KEYS, LABELS, LIMIT,
    LIST, LONG, MAP, ONLY_CHECK, PETSCII, PRG, RUDE, SCREEN, SEED, SOURCE_OR_PRG, STRICT, TAP_FORM,
    TIME, TYPE, UNREACHED_LINES, UPDATE, WATCH,
};
use clap::ArgMatches;
use std::alloc::{AllocError, Global};
use tb_program_jobs::{
    BuildExtras, Dialect, FormatTarget, JobError, Limit, Notation, Runnable, Settings,
    SourceOptions, TestForm, Typed, USUAL_STEP,
};

/// A copy of the text of an argument, or an empty one if the parser let it be missing.
pub fn text(
    alloc: Global,
    found: &ArgMatches<'_>,
    argument: &Argument,
) -> Result<String, AllocError>
    ensures { IfOk result (spec.IsText (found_of found.now) argument.now.name.now) }
{
    String::from_str(alloc, found.get_str(argument.name).unwrap_or(""))
}

/// A copy of the text of an argument, if it is there.
pub fn optional_text(
    alloc: Global,
    found: &ArgMatches<'_>,
    argument: &Argument,
) -> Result<Option<String>, AllocError>
    ensures { IfOk result (spec.IsOptional (found_of found.now) argument.now.name.now) }
{
    Ok(match found.get_str(argument.name) {
        Some(text) => Some(String::from_str(alloc, text)?),
        None => None,
    })
}

/// A copy of the text of the first of two arguments that is there.
pub fn first_text(
    alloc: Global,
    found: &ArgMatches<'_>,
    first: &Argument,
    second: &Argument,
) -> Result<Option<String>, AllocError>
    ensures { IfOk result (λ text. option_map string_bytes text
        ≡ spec.or_else (first_value (found_of found.now) first.now.name.now) (first_value (found_of found.now) second.now.name.now)) }
{
    match optional_text(alloc, found, first)? {
        Some(text) => Ok(Some(text)),
        None => optional_text(alloc, found, second),
    }
}

/// Copies of the texts of an argument that may have several.
pub fn texts(
    alloc: Global,
    found: &ArgMatches<'_>,
    argument: &Argument,
) -> Result<Vec<String>, AllocError>
    ensures { IfOk result (λ texts. map string_bytes texts.items ≡ spec.texts_in (found_of found.now) argument.now.name.now) }
{
    let mut texts = Vec::new(alloc);
    for text in found.get_strs(argument.name).unwrap_or(&[]) {
        texts.push(String::from_str(alloc, text)?)?;
    }
    Ok(texts)
}

/// The first state of RND: the number that the words say, or for `time` that of the clock, if there is one.
pub fn seed_of(
    alloc: Global,
    found: &ArgMatches<'_>,
    clock: Option<u16>,
) -> Result<Option<u16>, JobError>
    ensures { spec.ReadsSeed clock (first_value (found_of found.now) (codes "seed")) result }
{
    match found.get_str(SEED.name) {
        Some(text) => Ok(Some(seed_by(alloc, text, clock)?)),
        None => Ok(None),
    }
}

// The seed that a text asks for.
fn seed_by(alloc: Global, text: &str, clock: Option<u16>) -> Result<u16, JobError>
    ensures { spec.ReadsSeedBy (spec.is_time text.now) clock text.now result }
{
    if text == TIME {
        return clock.ok_or(JobError::NoClock);
    }
    match text.parse::<u16>() {
        Ok(seed) => Ok(seed),
        Err(_) => Err(bad_seed(alloc, text)),
    }
}

// What is said of a text that is no seed, in the parser's form.
fn bad_seed(alloc: Global, text: &str) -> JobError
    ensures { spec.IsBadSeed result }
{
    match format!(in alloc;
        "error: invalid value '{text}' for '--seed <N>': not 0 to 65535, and not time\n\nFor more information, try '--help'.\n"
    ) {
        Ok(text) => JobError::Words(text),
        Err(_) => JobError::NoMemory,
    }
}

/// Whether the words ask for the clock's seed.
pub fn is_by_clock(found: &ArgMatches<'_>) -> bool
    ensures { result ≡ spec.is_by_clock (found_of found.now) }
{
    found.get_str(SEED.name) == Some(TIME)
}

/// Whether a source is refused as too large only if it doesn't fit the memory.
#[tactic(auto, using(crate::proofs::Found::flag_said))]
pub fn fit_of(found: &ArgMatches<'_>) -> bool
    ensures { spec.IsFlag (found_of found.now) (codes "fit") result }
{
    found.get_flag(FIT.name)
}

/// How the texts of a source are read.
pub fn notation_of(found: &ArgMatches<'_>) -> Notation
    ensures { spec.IsNotation (found_of found.now) result }
{
    if found.get_flag(PETSCII.name) {
        Notation::Signs
    } else {
        Notation::Plain
    }
}

/// Where the tidy text of a source goes. The parser lets at most one of the two options through.
pub fn target_of(found: &ArgMatches<'_>) -> FormatTarget
    ensures { spec.IsTarget (found_of found.now) result }
{
    if in_place_of(found) {
        FormatTarget::InPlace
    } else if found.get_flag(ONLY_CHECK.name) {
        FormatTarget::Check
    } else {
        FormatTarget::Output
    }
}

/// The assembler that a listing is for. The parser lets no other name through.
pub fn dialect_of(found: &ArgMatches<'_>) -> Option<Dialect>
    ensures { result ≡ spec.dialect_in (found_of found.now) }
{
    match found.get_str(FOR.name)? {
        "64tass" => Some(Dialect::Tass64),
        "ca65" => Some(Dialect::Ca65),
        "acme" => Some(Dialect::Acme),
        "xa" => Some(Dialect::Xa),
        _ => None,
    }
}

/// Whether a new text takes the source's place.
#[tactic(auto, using(crate::proofs::Found::flag_said))]
pub fn in_place_of(found: &ArgMatches<'_>) -> bool
    ensures { spec.IsFlag (found_of found.now) (codes "in-place") result }
{
    found.get_flag(IN_PLACE.name)
}

/// The first new line number, or the step to the next one.
#[tactic(auto, using(crate::proofs::Found::number_read))]
pub fn line_number_of(found: &ArgMatches<'_>, argument: &Argument) -> u16
    ensures { spec.IsNumber (found_of found.now) argument.now.name.now USUAL_STEP result }
{
    found.get_one::<u16>(argument.name).unwrap_or(USUAL_STEP)
}

/// The seed of rude events, if they are wanted.
#[tactic(auto, using(crate::proofs::Found::number_read))]
pub fn rude_of(found: &ArgMatches<'_>) -> Option<u16>
    ensures { spec.IsOptionalNumber (found_of found.now) (codes "rude") result }
{
    found.get_one::<u16>(RUDE.name)
}

/// Whether branches that don't reach are made long.
#[tactic(auto, using(crate::proofs::Found::flag_said))]
pub fn long_of(found: &ArgMatches<'_>) -> bool
    ensures { spec.IsFlag (found_of found.now) (codes "long") result }
{
    found.get_flag(LONG.name)
}

/// Whether a file is replaced that looks like something else.
#[tactic(auto, using(crate::proofs::Found::flag_said))]
pub fn force_of(found: &ArgMatches<'_>) -> bool
    ensures { spec.IsFlag (found_of found.now) (codes "force") result }
{
    found.get_flag(FORCE.name)
}

/// Whether a fault of the program has a status of its own.
#[tactic(auto, using(crate::proofs::Found::flag_said))]
pub fn strict_of(found: &ArgMatches<'_>) -> bool
    ensures { spec.IsFlag (found_of found.now) (codes "strict") result }
{
    found.get_flag(STRICT.name)
}

/// Whether the machine's screen is shown.
#[tactic(auto, using(crate::proofs::Found::flag_said))]
pub fn screen_of(found: &ArgMatches<'_>) -> bool
    ensures { spec.IsFlag (found_of found.now) (codes "screen") result }
{
    found.get_flag(SCREEN.name)
}

/// Whether transcripts are written anew.
#[tactic(auto, using(crate::proofs::Found::flag_said))]
pub fn update_of(found: &ArgMatches<'_>) -> bool
    ensures { spec.IsFlag (found_of found.now) (codes "update") result }
{
    found.get_flag(UPDATE.name)
}

/// Whether the lines are shown that no transcript reaches.
#[tactic(auto, using(crate::proofs::Found::flag_said))]
pub fn lines_of(found: &ArgMatches<'_>) -> bool
    ensures { spec.IsFlag (found_of found.now) (codes "lines") result }
{
    found.get_flag(UNREACHED_LINES.name)
}

/// How it is told which transcripts passed. The parser lets no other name through.
pub fn form_of(found: &ArgMatches<'_>) -> TestForm
    ensures { result ≡ spec.form_in (found_of found.now) }
{
    if found.get_str(FORMAT_OF_TEST.name) == Some(TAP_FORM) {
        TestForm::Tap
    } else {
        TestForm::Text
    }
}

/// How many events a run may take.
#[tactic(auto, using(crate::proofs::Found::number_read))]
pub fn limit_of(found: &ArgMatches<'_>, argument: &Argument, usual: Limit) -> Limit
    ensures { spec.IsLimit (found_of found.now) argument.now.name.now usual.events result }
{
    found
        .get_one::<u32>(argument.name)
        .and_then(Limit::new)
        .unwrap_or(usual)
}

/// How a source is compiled.
pub fn options_of(
    alloc: Global,
    found: &ArgMatches<'_>,
    clock: Option<u16>,
) -> Result<SourceOptions, JobError>
    ensures { IfOk result (spec.AreOptions clock (found_of found.now)) }
{
    Ok(SourceOptions {
        seed: seed_of(alloc, found, clock)?,
        fit: fit_of(found),
        notation: notation_of(found),
    })
}

/// How a program is run.
pub fn settings_of(
    alloc: Global,
    found: &ArgMatches<'_>,
    clock: Option<u16>,
) -> Result<Settings, JobError>
    ensures { IfOk result (spec.AreSettings clock (found_of found.now)) }
{
    Ok(Settings {
        options: options_of(alloc, found, clock)?,
        keys: typed_of(alloc, found)?,
        answers: text(alloc, found, &ANSWERS)?,
        limit: limit_of(found, &LIMIT, Limit::default_limit()),
    })
}

fn typed_of(alloc: Global, found: &ArgMatches<'_>) -> Result<Typed, AllocError>
    ensures { IfOk result (spec.IsTyped (found_of found.now)) }
{
    if let Some(typed) = optional_text(alloc, found, &TYPE)? {
        return Ok(Typed::Text(typed));
    }
    Ok(match optional_text(alloc, found, &KEY_FILE)? {
        Some(file) => Typed::File(file),
        None => Typed::Digits(text(alloc, found, &KEYS)?),
    })
}

/// What is run.
pub fn runnable_of(alloc: Global, found: &ArgMatches<'_>) -> Result<Runnable, AllocError>
    ensures { IfOk result (spec.IsRunnable (found_of found.now)) }
{
    Ok(match optional_text(alloc, found, &PRG)? {
        Some(prg) => Runnable::Prg(prg),
        None => Runnable::Source(text(alloc, found, &SOURCE_OR_PRG)?),
    })
}

/// The files that are written besides a PRG file.
pub fn extras_of(alloc: Global, found: &ArgMatches<'_>) -> Result<BuildExtras, AllocError>
    ensures { IfOk result (spec.AreExtras (found_of found.now)) }
{
    Ok(BuildExtras {
        labels: optional_text(alloc, found, &LABELS)?,
        listing: optional_text(alloc, found, &LIST)?,
        dialect: dialect_of(found),
        map: optional_text(alloc, found, &MAP)?,
        watch: optional_text(alloc, found, &WATCH)?,
    })
}
