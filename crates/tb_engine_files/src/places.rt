//! Where paths lead, and whether two of them lead to one file.
ghost use Rattle.std.specs.Prelude.{◌≡◌};
ghost use Rattle.std.specs.List.{list_any};
ghost use Rattle.tb_engine_files.specs.Places.{same_node, same_place, is_same, clashes};

/// A file that is there, by the numbers that its system gives it: those of its device and of the file on it.
#[derive(Clone, Copy, PartialEq, Eq, Debug, Drop)]
pub struct Node {
    pub device: u64,
    pub number: u64,
}

/// Where a path leads.
#[derive(Debug, Drop)]
pub enum Place {
    /// To a file that is there. All links are followed to this path.
    File(Node, String),
    /// To no file: to the folder where one would be made, under this name.
    Missing(Node, String),
    /// To what nothing can be lost from, as a device, or nobody knows where.
    Elsewhere,
}

/// A path, with where it leads.
#[derive(Debug, Drop)]
pub struct Named<'a> {
    pub path: &'a str,
    pub place: Place,
}

fn is_same_node(one: &Node, other: &Node) -> bool
    ensures { result ≡ same_node one.now other.now }
{
    one.device == other.device && one.number == other.number
}

fn is_same_place(one: &Place, other: &Place) -> bool
    ensures { result ≡ same_place one.now other.now }
{
    match (one, other) {
        (Place::File(one, _), Place::File(other, _)) => is_same_node(one, other),
        (Place::Missing(folder, name), Place::Missing(other, other_name)) => {
            is_same_node(folder, other) && name.as_str() == other_name.as_str()
        }
        _ => false,
    }
}

// Whether two paths are spelled alike, or lead to one file.
fn is_same(one: &Named<'_>, other: &Named<'_>) -> bool
    ensures { result ≡ is_same one.now other.now }
{
    one.path == other.path || is_same_place(&one.place, &other.place)
}

fn is_among(one: &Named<'_>, others: &[Named<'_>]) -> bool
    ensures { result ≡ list_any (is_same one.now) others.now }
{
    others.iter().any(|other| is_same(one, other))
}

/// Whether one of the files that are to be written is one of those that must be kept, or is to be written twice.
pub fn clashes(kept: &[Named<'_>], written: &[Named<'_>]) -> bool
    ensures { result ≡ clashes kept.now written.now }
{
    match written {
        [] => false,
        [first, rest @ ..] => {
            is_among(first, kept) || is_among(first, rest) || clashes(kept, rest)
        }
    }
}
