//! What arguments of `initialize` and `launch` ask for.
ghost use Rattle.std.specs.Prelude.{◌≡◌, ◌≤◌, IfSome, option_map};
ghost use Rattle.serde_json.specs.View.{view};
ghost use Rattle.tb_dap_requests.specs.Launching as spec;

use serde_json::Value;
use tb_compiled::{Notation, SizeLimit};
use tb_dap_values::{flag_in, number_in, optional_text, text_in};
use tb_debug::Rom;
use tb_engines::{MOST_EVENTS, USUAL_EVENTS};

/// The most that a seed is.
const MOST_SEED: u64 = 65_535;

/// What a launch has that asks for nothing else, and what the adapter has for it.
#[derive(Clone, Copy, Debug, PartialEq, Eq, Drop)]
pub struct Usual {
    /// How texts are read.
    pub notation: Notation,
    /// The clock's seed, if a clock can be read.
    pub clock: Option<u16>,
}

/// How a run is debugged.
#[derive(Clone, Copy, Debug, PartialEq, Eq, Drop)]
pub struct Plan {
    /// How many events a movement takes at most.
    pub limit: u64,
    /// Whether it stops before the first line.
    pub stops_on_entry: bool,
    /// Whether breakpoints and watches stop nothing.
    pub is_plain: bool,
    /// The clock's seed, if that was asked for.
    pub drawn: Option<u16>,
}

/// How the program is to be compiled. Its own words may ask for more.
#[derive(Clone, Copy, Debug, PartialEq, Eq, Drop)]
pub struct Manner {
    /// The first state of RND, if it is given.
    pub seed: Option<u16>,
    pub size: SizeLimit,
    pub notation: Notation,
}

/// What is launched.
#[derive(Clone, Copy, Debug, Drop)]
pub struct Launch<'a> {
    pub path: &'a str,
    pub manner: Manner,
    pub rom: Rom,
    /// What the keyboard gives, in hexadecimal digits.
    pub keys: &'a str,
    pub answers: &'a str,
    pub plan: Plan,
}

// A seed, or none for a number that is none.
fn seed_by(number: u64) -> Option<u16>
    ensures { result ≡ spec.seed_by number }
{
    if number <= MOST_SEED {
        Some(number as u16)
    } else {
        None
    }
}

// Whether the seed is to be the clock's.
fn is_by_clock(arguments: &Value) -> bool
    ensures { result ≡ spec.is_by_clock (view arguments.now) }
{
    matches!(text_in(arguments, "seed"), Some("time"))
}

// The clock's seed, if that is asked for.
fn drawn_in(arguments: &Value, clock: Option<u16>) -> Option<u16>
    ensures { result ≡ spec.drawn_in clock (view arguments.now) }
{
    if is_by_clock(arguments) { clock } else { None }
}

// The first state of RND, if it is given. Without a clock there is no seed by it.
fn seed_in(arguments: &Value, clock: Option<u16>) -> Option<Option<u16>>
    ensures { result ≡ spec.seed_in clock (view arguments.now) }
{
    if is_by_clock(arguments) {
        return Some(Some(clock?));
    }
    match arguments.get("seed") {
        Some(seed) => Some(Some(seed_by(seed.as_u64()?)?)),
        None => Some(None),
    }
}

// When a program is too large: by what it costs, or only if it doesn't fit the memory.
fn size_by(fit: bool) -> SizeLimit
    ensures { result ≡ spec.size_by fit }
{
    if fit {
        SizeLimit::Memory
    } else {
        SizeLimit::Cost
    }
}

// How texts are read: with signs, or without.
fn notation_by(petscii: bool) -> Notation
    ensures { result ≡ spec.notation_by petscii }
{
    if petscii {
        Notation::Signs
    } else {
        Notation::Plain
    }
}

// Whether texts have signs in a notation.
fn has_signs(notation: Notation) -> bool
    ensures { result ≡ spec.has_signs notation }
{
    match notation {
        Notation::Plain => false,
        Notation::Signs => true,
    }
}

// How the program is to be compiled: in the usual notation, if nothing else is asked for.
fn manner_in(arguments: &Value, usual: Usual) -> Option<Manner>
    ensures { result ≡ spec.manner_in usual (view arguments.now) }
{
    let seed = seed_in(arguments, usual.clock)?;
    let fit = flag_in(arguments, "fit", true)?;
    let petscii = flag_in(arguments, "petscii", has_signs(usual.notation))?;
    Some(Manner {
        seed,
        size: size_by(fit),
        notation: notation_by(petscii),
    })
}

// A rude ROM, by its seed.
fn rude_by(seed: u64) -> Option<Rom>
    ensures { result ≡ spec.rude_by seed }
{
    match seed_by(seed) {
        Some(seed) => Some(Rom::Rude(seed)),
        None => None,
    }
}

// The ROM.
fn rom_in(arguments: &Value) -> Option<Rom>
    ensures { result ≡ spec.rom_in (view arguments.now) }
{
    match arguments.get("rude") {
        Some(seed) => rude_by(seed.as_u64()?),
        None => Some(Rom::Quiet),
    }
}

// A limit, or none for a number that is none.
fn limit_by(number: u64) -> Option<u64>
    ensures { result ≡ spec.limit_by number }
{
    if 1 <= number && number <= u64::from(MOST_EVENTS) {
        Some(number)
    } else {
        None
    }
}

// How many events a movement takes at most.
fn limit_in(arguments: &Value) -> Option<u64>
    ensures { result ≡ spec.limit_in (view arguments.now) }
{
    limit_by(number_in(arguments, "limit", u64::from(USUAL_EVENTS))?)
}

// How the run is debugged.
fn plan_in(arguments: &Value, clock: Option<u16>) -> Option<Plan>
    ensures { result ≡ spec.plan_in clock (view arguments.now) }
{
    let limit = limit_in(arguments)?;
    let stops_on_entry = flag_in(arguments, "stopOnEntry", false)?;
    let is_plain = flag_in(arguments, "noDebug", false)?;
    Some(Plan {
        limit,
        stops_on_entry,
        is_plain,
        drawn: drawn_in(arguments, clock),
    })
}

// A text; the empty one where it is left out.
fn digits_in<'a>(arguments: &'a Value, name: &str) -> Option<&'a str>
    ensures { option_map (λ t. t.now) result ≡ spec.digits_in (view arguments.now) name.now }
{
    match optional_text(arguments, name) {
        Some(Some(text)) => Some(text),
        Some(None) => Some(""),
        None => None,
    }
}

// The path of a program: not that of standard input, from which messages come.
fn path_in(arguments: &Value) -> Option<&str>
    ensures { option_map (λ t. t.now) result ≡ spec.path_in (view arguments.now) }
{
    match text_in(arguments, "program") {
        Some("-") => None,
        path => path,
    }
}

/// What is launched; none where the arguments have another form.
pub fn launch_in(arguments: &Value, usual: Usual) -> Option<Launch<'_>>
    ensures { option_map spec.asked_of result ≡ spec.launch_in usual (view arguments.now) }
{
    let path = path_in(arguments)?;
    let manner = manner_in(arguments, usual)?;
    let rom = rom_in(arguments)?;
    let keys = digits_in(arguments, "keys")?;
    let answers = digits_in(arguments, "answers")?;
    let plan = plan_in(arguments, usual.clock)?;
    Some(Launch {
        path,
        manner,
        rom,
        keys,
        answers,
        plan,
    })
}

// Whether a flag has its usual value, which is true.
fn is_usual(flag: Option<bool>) -> bool
    ensures { result ≡ spec.is_usual flag }
{
    matches!(flag, Some(true))
}

// Whether paths are named as paths.
fn names_paths(form: Option<Option<&str>>) -> bool
    ensures { result ≡ spec.names_paths (option_map (option_map (λ t. t.now)) form.entry) }
{
    match form {
        Some(Some("path")) | Some(None) => true,
        Some(Some(_)) | None => false,
    }
}

/// Whether a client counts lines and columns from 1, and names files by paths.
pub fn is_understood(arguments: &Value) -> bool
    ensures { result ≡ spec.is_understood (view arguments.now) }
{
    is_usual(flag_in(arguments, "linesStartAt1", true))
        && is_usual(flag_in(arguments, "columnsStartAt1", true))
        && names_paths(optional_text(arguments, "pathFormat"))
}
