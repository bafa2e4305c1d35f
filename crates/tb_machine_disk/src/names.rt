//! Names of files and disks.
ghost use Rattle.std.specs.Prelude.{◌≡◌, ◌↔◌, length, IsSome, IfSome};
ghost use Rattle.tb_machine_disk.specs.D64.{name_in};
ghost use Rattle.tb_machine_disk.specs.Names.{IsName, field_of, is_name_sign};

/// The byte that fills a name's field up.
const FILLER: u8 = 0xa0;

/// How many bytes a name's field has.
const FIELD: usize = 16;

/// A name of one to 16 signs.
#[derive(Clone, Copy, PartialEq, Eq, Debug)]
pub struct Name {
    /// The name as the directory has it, filled up with `$A0`.
    pub field: [u8; 16],
    ghost full: { length field ≡ 16 },
}

fn is_sign(byte: u8) -> bool
    ensures { result ≡ is_name_sign byte }
{
    matches!(byte, b'A'..=b'Z' | b'0'..=b'9' | b' ' | b'-' | b'.')
}

impl Name {
    /// The name of a text of 1 to 16 signs, each `A` to `Z`, `0` to `9`, space, `-` or `.`; `None` for any other text.
    pub fn new(text: &[u8]) -> Option<Name>
        ensures found { IsSome result ↔ IsName text.now }
        ensures value { IfSome result (λ n. n.field ≡ field_of text.now) }
        ensures back { IfSome result (λ n. name_in n.field ≡ text.now) }
    {
        if text.is_empty() || text.len() > FIELD || !text.iter().all(|byte| is_sign(*byte)) {
            return None;
        }
        let mut field = [FILLER; 16];
        field[..text.len()].copy_from_slice(text);
        Some(Name { field })
    }
}
