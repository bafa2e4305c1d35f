//! Which two paths lead to one file.
ghost use Rattle.std.specs.Prelude.{◌≡◌, Some, option_map};
ghost use Rattle.std.specs.List.{find};
ghost use Rattle.tb_engine_files.specs.Places.{is_same};
ghost use Rattle.tb_program_reasons.specs.Clashes.{clash_text, first_clash, pair_of, path_of};

use std::{fmt, slice};
use tb_engine_files::{Named, clashes};

/// A path of a file that would be written, and another one that leads to the same file.
#[derive(Clone, Copy, Debug, Drop)]
pub struct Clash<'a> {
    pub path: &'a str,
    pub other: &'a str,
}

impl fmt::Display for Clash<'_> {
    ghost output = { λ c. Some (clash_text c.path.now c.other.now) };

    fn fmt<W: fmt::Write>(&self, f: &mut fmt::Formatter<W>) -> fmt::Result {
        write!(f, "{}: the same file as {}", self.path, self.other)
    }
}

// Whether two paths are spelled alike, or lead to one file.
#[tactic(auto, using(crate::proofs::Alone::alone))]
fn is_same(one: &Named<'_>, other: &Named<'_>) -> bool
    ensures { result ≡ is_same one.now other.now }
{
    clashes(slice::from_ref(other), slice::from_ref(one))
}

// The first of these files that one leads to, by its path.
fn same_among<'a>(one: &Named<'_>, others: &[Named<'a>]) -> Option<&'a str>
    ensures { option_map (λ p. p.now) result ≡ option_map path_of (find (is_same one.now) others.now) }
{
    match others {
        [] => None,
        [first, rest @ ..] => if is_same(one, first) {
            Some(first.path)
        } else {
            same_among(one, rest)
        },
    }
}

/// The first file that may not be written, since it must be kept or is written again later.
pub fn first_clash<'a>(kept: &[Named<'a>], written: &[Named<'a>]) -> Option<Clash<'a>>
    ensures { option_map pair_of result ≡ first_clash kept.now written.now }
{
    match written {
        [] => None,
        [first, rest @ ..] => match same_among(first, kept).or(same_among(first, rest)) {
            Some(other) => Some(Clash {
                path: first.path,
                other,
            }),
            None => first_clash(kept, rest),
        },
    }
}
