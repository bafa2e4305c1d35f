//! What the ending of a path says of its file.
ghost use Rattle.std.specs.Prelude.{◌≡◌, ◌-◌, IfOk, drop, length, string_bytes};
ghost use Rattle.tb_engine_files.specs.Names.{ends_as, is_assembler_name, is_source_name, image_ending, NamesPrg, IsUsualOut, prg_ending};

use std::alloc::{AllocError, Global};

// The last `size` bytes of a path, or all if there are fewer.
fn last(path: &str, size: usize) -> &[u8]
    ensures { result.now ≡ drop (length path.now - size) path.now }
{
    let bytes = path.as_bytes();
    &bytes[bytes.len().saturating_sub(size)..]
}

// Whether a path ends in these bytes, in either case.
#[tactic(auto, using(crate::proofs::Endings::decided))]
fn ends_as(path: &str, ending: &[u8]) -> bool
    ensures { result ≡ ends_as path.now ending.now }
{
    last(path, ending.len()).eq_ignore_ascii_case(ending)
}

/// The path that stands for standard input or standard output.
pub const STANDARD: &str = "-";

/// Whether a path ends as that of a source: in `.bas` or `.tbas`, in either case.
pub fn is_source_name(path: &str) -> bool
    ensures { result ≡ is_source_name path.now }
{
    ends_as(path, b".bas") || ends_as(path, b".tbas")
}

/// Whether a path ends as that of a text for assemblers: in `.asm`, `.inc`, `.a65` or `.s`, in either case.
pub fn is_assembler_name(path: &str) -> bool
    ensures { result ≡ is_assembler_name path.now }
{
    ends_as(path, b".asm")
        || ends_as(path, b".inc")
        || ends_as(path, b".a65")
        || ends_as(path, b".s")
}

/// Whether a path ends as that of a PRG file: in `.prg`, in either case.
pub fn is_prg_name(path: &str) -> bool
    ensures { result ≡ ends_as path.now prg_ending }
{
    ends_as(path, b".prg")
}

/// Whether a path ends as that of a disk image: in `.d64`, in either case.
pub fn is_image_name(path: &str) -> bool
    ensures { result ≡ ends_as path.now image_ending }
{
    ends_as(path, b".d64")
}

// The path of a source, with `.prg` in place of `.bas`.
fn prg_name(alloc: Global, source: &str) -> Result<String, AllocError>
    ensures { IfOk result (λ name. NamesPrg source.now (string_bytes name)) }
{
    let stem = match source.strip_suffix(".bas") {
        Some(stem) => stem,
        None => source,
    };
    let mut name = String::from_str(alloc, stem)?;
    name.push_str(".prg")?;
    Ok(name)
}

/// The path of what a build writes if no other is named: that of the source, with `.prg` in place of `.bas`. A source from
/// standard input goes to standard output.
pub fn usual_out(alloc: Global, source: &str) -> Result<String, AllocError>
    ensures { IfOk result (λ out. IsUsualOut source.now (string_bytes out)) }
{
    if source == STANDARD {
        String::from_str(alloc, STANDARD)
    } else {
        prg_name(alloc, source)
    }
}
