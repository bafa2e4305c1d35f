//! Where included files are.
ghost use Rattle.std.specs.Prelude.{◌≡◌, ◌≤◌, IfOk, length};
ghost use Rattle.tb_assembly_files.specs.Paths.{beside, folder, folder_size, is_absolute};

use std::alloc::{AllocError, Global};

// How many bytes of a path name its folder: those up to the last slash.
fn folder_size(path: &[u8]) -> usize
    ensures size { result ≡ folder_size 0 0 path.now }
    ensures within { result ≤ length path.now }
{
    let mut found = 0usize;
    for (i, byte) in path.iter().enumerate() {
        if *byte == b'/' {
            found = i + 1;
        }
    }
    found
}

fn folder(path: &[u8]) -> &[u8]
    ensures { result.now ≡ folder path.now }
{
    &path[..folder_size(path)]
}

fn is_absolute(path: &[u8]) -> bool
    ensures { result ≡ is_absolute path.now }
{
    matches!(path, [b'/', ..])
}

/// The path of a file that is named in another one: from the folder of that file, unless it begins with a slash.
pub fn beside(alloc: Global, path: &[u8], name: &[u8]) -> Result<Vec<u8>, AllocError>
    ensures { IfOk result (λ whole. whole.items ≡ beside path.now name.now) }
{
    let mut whole = Vec::new(alloc);
    if !is_absolute(name) {
        whole.extend_from_slice(folder(path))?;
    }
    whole.extend_from_slice(name)?;
    Ok(whole)
}
