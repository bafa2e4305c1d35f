//! Where a request asks.
ghost use Rattle.std.specs.Prelude.{◌≡◌};
ghost use Rattle.serde_json.specs.View.{view};
ghost use Rattle.tb_editor_values.specs.Asked as spec;

use serde_json::Value;

/// A place of a text.
#[derive(Clone, Copy, Drop)]
pub struct Place {
    /// The line, from 0.
    pub line: usize,
    /// How many units of UTF-16 are before it.
    pub character: usize,
}

// A number that is a member of a value.
fn number_in(value: &Value, name: &str) -> Option<usize>
    ensures { result ≡ spec.number_in (view value.now) name.now }
{
    let number = value.get(name)?.as_u64()?;
    Some(number as usize)
}

fn place_of(value: &Value) -> Option<Place>
    ensures { result ≡ spec.place_of (view value.now) }
{
    let line = number_in(value, "line")?;
    let character = number_in(value, "character")?;
    Some(Place { line, character })
}

/// The place that params name; `None` where they have not this form.
pub fn place_in(params: &Value) -> Option<Place>
    ensures { result ≡ spec.place_in (view params.now) }
{
    place_of(params.get("position")?)
}

/// The first and the last line of the range that params name; `None` where they have not this form.
pub fn lines_of_range(params: &Value) -> Option<(usize, usize)>
    ensures { result ≡ spec.lines_of_range (view params.now) }
{
    let range = params.get("range")?;
    let start = place_of(range.get("start")?)?;
    let end = place_of(range.get("end")?)?;
    Some((start.line, end.line))
}
