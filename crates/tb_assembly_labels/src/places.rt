//! Places of a program, by its labels.
ghost use Rattle.std.specs.Prelude.{◌≡◌, ◌≤◌, IfSome, Some, None, map, option_map};
ghost use Rattle.std.specs.Str.{str_eq_ignore_ascii_case};
ghost use Rattle.tb_assembly_labels.specs.Lines.{pair_of};
ghost use Rattle.tb_assembly_labels.specs.Places as spec;
ghost use Rattle.tb_assembly_labels.specs.Places.{place_text, placed};

use crate::labels::Label;
use std::fmt;

/// How many addresses from its own on a label names at most.
const REACH: u16 = 4096;

/// A place: a label, and how many bytes after it.
#[derive(Clone, Copy, Debug, Drop)]
pub struct Place<'a> {
    pub name: &'a str,
    /// Below 4,096.
    pub offset: u16,
}

impl fmt::Display for Place<'_> {
    ghost output = { λ p. Some (place_text (placed p)) };

    fn fmt<W: fmt::Write>(&self, f: &mut fmt::Formatter<W>) -> fmt::Result {
        if self.offset == 0 {
            f.write_str(self.name)
        } else {
            write!(f, "{}+{}", self.name, self.offset)
        }
    }
}

// Whether a label is at an address, or at most 4,095 bytes before it.
fn reaches(label: &Label, address: u16) -> bool
    ensures { result ≡ spec.reaches address (pair_of label.now) }
{
    label.address <= address && address - label.address < REACH
}

// The nearer of two labels to an address.
fn nearer<'a>(best: Option<&'a Label>, label: &'a Label, address: u16) -> Option<&'a Label>
    requires { IfSome best (λ l. l.now.address ≤ address) }
    ensures before { IfSome result (λ l. l.now.address ≤ address) }
    ensures nearer { option_map (λ l. pair_of l.now) result ≡ spec.nearer address (option_map (λ l. pair_of l.now) best.entry) (pair_of label.now) }
{
    if !reaches(label, address) {
        return best;
    }
    match best {
        Some(other) if label.address <= other.address => Some(other),
        _ => Some(label),
    }
}

// The nearest label that reaches an address.
fn nearest(labels: &[Label], address: u16) -> Option<&Label>
    ensures before { IfSome result (λ l. l.now.address ≤ address) }
    ensures nearest { option_map (λ l. pair_of l.now) result ≡ spec.nearest address None (map pair_of labels.now) }
{
    let mut best = None;
    for label in labels {
        best = nearer(best, label, address);
    }
    best
}

/// The place at an address: the nearest label that is at it or at most 4,095 bytes before it, the first of several at one
/// address, and how far it is. `None` if there is no such label.
pub fn place_of(labels: &[Label], address: u16) -> Option<Place<'_>>
    ensures { option_map placed result ≡ spec.place_of (map pair_of labels.now) address }
{
    match nearest(labels, address) {
        Some(label) => Some(Place {
            name: label.name.as_str(),
            offset: address - label.address,
        }),
        None => None,
    }
}

// A name without a dot before it.
fn without_dot(name: &[u8]) -> &[u8]
    ensures { result.now ≡ spec.without_dot name.now }
{
    match name {
        [b'.', rest @ ..] => rest,
        _ => name,
    }
}

// Whether two names are the same but for the case of letters.
fn is_same(wanted: &[u8], name: &[u8]) -> bool
    ensures { result ≡ str_eq_ignore_ascii_case wanted.now name.now }
{
    wanted.eq_ignore_ascii_case(name)
}

fn first_named(labels: &[Label], wanted: &[u8]) -> Option<u16>
    ensures { result ≡ spec.first_named wanted.now (map pair_of labels.now) }
{
    for label in labels {
        if is_same(wanted, label.name.as_bytes()) {
            return Some(label.address);
        }
    }
    None
}

/// The address of the first label of a name, whose letters may be in either case and which may have a dot before it.
pub fn address_of(labels: &[Label], name: &[u8]) -> Option<u16>
    ensures { result ≡ spec.address_of (map pair_of labels.now) name.now }
{
    first_named(labels, without_dot(name))
}
