//! The names of control characters, as petcat writes them.
ghost use Rattle.std.specs.Prelude.{◌≡◌, map, option_map};
ghost use Rattle.std.specs.Str.{str_eq_ignore_ascii_case};
ghost use Rattle.tb_basic_signs.specs.Names as spec;

/// A control character: its name and its byte.
pub(crate) type Control = (&'static str, u8);

/// All that have a name.
pub(crate) const CONTROLS: [Control; 28] = [
    ("blk", 144),
    ("wht", 5),
    ("red", 28),
    ("cyn", 159),
    ("pur", 156),
    ("grn", 30),
    ("blu", 31),
    ("yel", 158),
    ("orng", 129),
    ("brn", 149),
    ("lred", 150),
    ("gry1", 151),
    ("gry2", 152),
    ("lgrn", 153),
    ("lblu", 154),
    ("gry3", 155),
    ("clr", 147),
    ("home", 19),
    ("down", 17),
    ("up", 145),
    ("left", 157),
    ("rght", 29),
    ("rvon", 18),
    ("rvof", 146),
    ("swlc", 14),
    ("swuc", 142),
    ("del", 20),
    ("inst", 148),
];

/// The byte of a name, in either case.
pub fn byte_named(name: &[u8]) -> Option<u8>
    ensures { result ≡ spec.byte_named name.now }
{
    first_named(&CONTROLS, name)
}

fn first_named(controls: &[Control], name: &[u8]) -> Option<u8>
    ensures { result ≡ spec.first_named name.now (map (λ c. spec.control c.0.now c.1) controls.now) }
{
    for control in controls {
        if is_name(name, control.0.as_bytes()) {
            return Some(control.1);
        }
    }
    None
}

// Whether two texts are the same but for the case of letters.
fn is_name(written: &[u8], name: &[u8]) -> bool
    ensures { result ≡ str_eq_ignore_ascii_case written.now name.now }
{
    written.eq_ignore_ascii_case(name)
}

/// The name of a byte, in lower case, if it has one.
pub fn name_of(byte: u8) -> Option<&'static str>
    ensures { option_map (λ n. n.now) result ≡ spec.name_of byte }
{
    first_with(&CONTROLS, byte)
}

fn first_with(controls: &[Control], byte: u8) -> Option<&'static str>
    ensures { option_map (λ n. n.now) result
        ≡ spec.first_with byte (map (λ c. spec.control c.0.now c.1) controls.now) }
{
    for control in controls {
        if control.1 == byte {
            return Some(control.0);
        }
    }
    None
}
