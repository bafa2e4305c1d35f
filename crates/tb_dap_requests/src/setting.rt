//! Breakpoints and watches that are set, and what is answered.
ghost use Rattle.std.specs.Prelude.{◌≡◌, ◌++◌, ◌∷◌, [], IfOk, OnOk, map, option_map};
ghost use Rattle.serde_json.specs.View.{items_view, view};
ghost use Rattle.tb_words.specs.Letters.{letter_index};
ghost use Rattle.tb_dap_requests.specs.Setting as spec;

use serde_json::Value;
use std::alloc::{AllocError, Global};
use tb_dap_values::{
    breakpoints_body, list_in, number_in, optional_text, text_in, unverified_value, verified_value,
    watched_value,
};
use tb_dap_views::{Breakable, SourceFile};
use tb_words::Letter;

// What is said, text by text.
const NO_CONDITIONS: &str = "conditions and messages are not supported";

const NO_LINE: &str = "no line of the program from here on";

const ANOTHER_FILE: &str = "the program is another file";

const ONLY_WRITES: &str = "only writes of a variable are watched";

/// A breakpoint that is asked for.
#[derive(Clone, Copy, Debug, PartialEq, Eq, Drop)]
pub struct Wanted {
    /// The line of the file.
    pub line: u64,
    /// Whether it breaks only under a condition, or is to say something.
    pub is_special: bool,
}

/// The breakpoints that are asked for in a file.
#[derive(Drop)]
pub struct Breakpoints<'a> {
    pub path: &'a str,
    pub lines: Vec<Wanted>,
}

// Whether a value has a member.
fn has(value: &Value, name: &str) -> bool
    ensures { result ≡ spec.has (view value.now) name.now }
{
    value.get(name).is_some()
}

// A breakpoint that is asked for; none where it has another form.
fn wanted_in(value: &Value) -> Option<Wanted>
    ensures { result ≡ spec.wanted_in (view value.now) }
{
    let line = value.get("line")?.as_u64()?;
    let is_special = has(value, "condition")
        || has(value, "hitCondition")
        || has(value, "logMessage");
    Some(Wanted { line, is_special })
}

// The breakpoints that are asked for; none where one has another form.
fn all_wanted(alloc: Global, values: &[Value]) -> Result<Option<Vec<Wanted>>, AllocError>
    ensures { IfOk result (λ found. option_map (λ v. v.items) found ≡ spec.all_wanted (map view values.now)) }
{
    let mut found = Vec::new(alloc);
    for value in values {
        match wanted_in(value) {
            Some(wanted) => found.push(wanted)?,
            None => return Ok(None),
        }
    }
    Ok(Some(found))
}

// The path of a file.
fn path_in(arguments: &Value) -> Option<&str>
    ensures { option_map (λ t. t.now) result ≡ spec.path_in (view arguments.now) }
{
    text_in(arguments.get("source")?, "path")
}

/// The breakpoints that are asked for; none where the arguments have another form.
pub fn breakpoints_in(
    alloc: Global,
    arguments: &Value,
) -> Result<Option<Breakpoints<'_>>, AllocError>
    ensures { IfOk result (λ found. option_map spec.asked_of found ≡ spec.breakpoints_in (view arguments.now)) }
{
    let (Some(path), Some(values)) = (path_in(arguments), list_in(arguments, "breakpoints")) else {
        return Ok(None);
    };
    match all_wanted(alloc, values)? {
        Some(lines) => Ok(Some(Breakpoints { path, lines })),
        None => Ok(None),
    }
}

// The line of the program at which a breakpoint breaks.
fn spot_of(file: &SourceFile<'_>, wanted: Wanted) -> Option<Breakable>
    ensures { result ≡ spec.spot_of file.now wanted }
{
    if wanted.is_special {
        None
    } else {
        file.breakable(
            wanted
                .line
                .saturating_sub(1)
                .min(file.source.lines.len() as u64) as usize,
        )
    }
}

/// The lines of the program at which these breakpoints break.
pub fn lines_of(
    alloc: Global,
    file: &SourceFile<'_>,
    wanted: &[Wanted],
) -> Result<Vec<u16>, AllocError>
    ensures { IfOk result (λ lines. lines.items ≡ spec.lines_of file.now wanted.now) }
{
    let mut lines = Vec::new(alloc);
    for one in wanted {
        if let Some(spot) = spot_of(file, *one) {
            lines.push(spot.number)?;
        }
    }
    Ok(lines)
}

// A breakpoint as it is answered.
fn spot_value(
    alloc: Global,
    file: &SourceFile<'_>,
    wanted: Wanted,
    spot: Option<Breakable>,
) -> Result<Value, AllocError>
    ensures { IfOk result (λ v. view v ≡ spec.spot_value file.now wanted spot) }
{
    match spot {
        Some(spot) => {
            let source = file.value(alloc)?;
            verified_value(
                alloc,
                spot.number,
                (spot.place as u64).saturating_add(1),
                source,
            )
        }
        None => {
            if wanted.is_special {
                unverified_value(alloc, NO_CONDITIONS)
            } else {
                unverified_value(alloc, NO_LINE)
            }
        }
    }
}

/// The breakpoints, as they are answered.
pub fn placed_body(
    alloc: Global,
    file: &SourceFile<'_>,
    wanted: &[Wanted],
) -> Result<Value, AllocError>
    ensures { IfOk result (λ v. view v ≡ spec.placed_body file.now wanted.now) }
{
    let mut values = Vec::new(alloc);
    for one in wanted {
        values.push(spot_value(alloc, file, *one, spot_of(file, *one))?)?;
    }
    breakpoints_body(alloc, values)
}

/// So many breakpoints of another file, as they are answered.
pub fn elsewhere_body(alloc: Global, count: usize) -> Result<Value, AllocError>
    ensures { IfOk result (λ v. view v ≡ spec.elsewhere_body count) }
{
    let mut values = Vec::new(alloc);
    for _ in 0..count {
        values.push(unverified_value(alloc, ANOTHER_FILE)?)?;
    }
    breakpoints_body(alloc, values)
}

// The letter that a byte is, as a capital.
fn capital_by(byte: u8) -> Option<Letter>
    ensures { option_map letter_index result ≡ spec.capital_by byte }
{
    if byte.is_ascii_uppercase() {
        Letter::read(byte)
    } else {
        None
    }
}

// The letter that some bytes are, as a capital.
fn capital_in(bytes: &[u8]) -> Option<Letter>
    ensures { option_map letter_index result ≡ spec.capital_in bytes.now }
{
    match *bytes {
        [byte] => capital_by(byte),
        _ => None,
    }
}

// The letter that a text is, as a capital.
fn capital(text: Option<&str>) -> Option<Letter>
    ensures { option_map letter_index result ≡ spec.capital (option_map (λ t. t.now) text.entry) }
{
    capital_in(text?.as_bytes())
}

// Whether a watch is of writes.
fn is_of_writes(kind: Option<Option<&str>>) -> bool
    ensures { result ≡ spec.is_of_writes (option_map (option_map (λ t. t.now)) kind.entry) }
{
    match kind {
        Some(None) | Some(Some("write")) => true,
        Some(Some(_)) | None => false,
    }
}

// The variable that a watch is of; none where it is of nothing that is watched.
fn watch_in(value: &Value) -> Option<Letter>
    ensures { option_map letter_index result ≡ spec.watch_in (view value.now) }
{
    if !is_of_writes(optional_text(value, "accessType"))
        || has(value, "condition")
        || has(value, "hitCondition")
    {
        return None;
    }
    capital(text_in(value, "dataId"))
}

/// The variables of the watches that are asked for, in their order; none where the arguments have another form.
pub fn watches_in(
    alloc: Global,
    arguments: &Value,
) -> Result<Option<Vec<Option<Letter>>>, AllocError>
    ensures { IfOk result (λ found. option_map spec.indices_of found ≡ spec.watches_in (view arguments.now)) }
{
    let Some(values) = list_in(arguments, "breakpoints") else {
        return Ok(None);
    };
    let mut found = Vec::new(alloc);
    for value in values {
        found.push(watch_in(value))?;
    }
    Ok(Some(found))
}

/// The variables that are watched.
pub fn letters_of(alloc: Global, wanted: &[Option<Letter>]) -> Result<Vec<Letter>, AllocError>
    ensures { IfOk result (λ letters. letters.items ≡ spec.letters_of wanted.now) }
{
    let mut letters = Vec::new(alloc);
    for one in wanted {
        if let Some(letter) = one {
            letters.push(*letter)?;
        }
    }
    Ok(letters)
}

// A watch as it is answered.
fn watch_value(alloc: Global, wanted: Option<Letter>) -> Result<Value, AllocError>
    ensures { IfOk result (λ v. view v ≡ spec.watch_value wanted) }
{
    match wanted {
        Some(_) => watched_value(alloc),
        None => unverified_value(alloc, ONLY_WRITES),
    }
}

/// The watches, as they are answered.
pub fn watched_body(alloc: Global, wanted: &[Option<Letter>]) -> Result<Value, AllocError>
    ensures { IfOk result (λ v. view v ≡ spec.watched_body wanted.now) }
{
    let mut values = Vec::new(alloc);
    for one in wanted {
        values.push(watch_value(alloc, *one)?)?;
    }
    breakpoints_body(alloc, values)
}
