//! The directory.
ghost use Rattle.std.specs.Prelude.{◌≡◌, ◌+◌, ◌-◌, ◌<◌, ◌≤◌, ◌++◌, [], ◌∷◌, map, sum_by, OnOk, length};
ghost use Rattle.tb_machine_disk.specs.Layout.{prefix, entry, no_entry, directory_blocks, directory_of};
ghost use Rattle.tb_machine_disk.specs.Images.{blocks_of};

use crate::blocks::{further_blocks, push_zeros};
use crate::image::File;
use crate::locations::{DIRECTORY_TRACK, Location, locate};
use std::alloc::AllocError;

/// How many entries a block of the directory has.
const ENTRIES: usize = 8;

/// The most files that a directory names: the entries of 18 blocks.
pub const MOST_FILES: usize = 144;

/// The type of a program whose file is closed.
const PROGRAM: u8 = 0x82;

/// The number of blocks of the directory for a number of files: eight files a block, and at least one block.
pub fn directory_blocks(files: usize) -> usize
    ensures { result ≡ directory_blocks files }
{
    files.saturating_sub(1) / ENTRIES + 1
}

// The first two bytes of the k-th entry of n.
#[tactic(auto, using(std::proofs::lemmas::Bool::Decides::nat_tests))]
fn prefix(n: usize, k: usize) -> [u8; 2]
    requires { k < 144 }
    ensures { result ≡ prefix n k }
{
    if k % ENTRIES != 0 || n.max(1) <= k {
        [0, 0]
    } else if k + ENTRIES < n {
        [DIRECTORY_TRACK, (k / ENTRIES + 2) as u8]
    } else {
        [0, 255]
    }
}

fn push_prefix(directory: &mut Vec<u8>, n: usize, k: usize) -> Result<(), AllocError>
    requires { k < 144 }
    ensures { OnOk result (directory.new.items ≡ directory.old.items ++ prefix n k) }
{
    directory.extend_from_slice(&prefix(n, k))
}

// Appends the k-th entry of n, of no file.
fn push_no_entry(directory: &mut Vec<u8>, n: usize, k: usize) -> Result<(), AllocError>
    requires { k < 144 }
    ensures { OnOk result (directory.new.items ≡ directory.old.items ++ no_entry n k) }
{
    push_prefix(directory, n, k)?;
    push_zeros(directory, 30)
}

// Appends what follows the first two bytes of a file's entry; its first block is the k-th for files.
fn push_entry(directory: &mut Vec<u8>, k: usize, file: &File<'_>) -> Result<(), AllocError>
    requires { k + blocks_of file.now ≤ 664 }
    ensures { OnOk result (directory.new.items ≡ directory.old.items ++ entry k file.now) }
{
    let Location { track, sector } = locate(k);
    let blocks = further_blocks(file.bytes) + 1;
    directory.extend_from_slice(&[PROGRAM, track, sector])?;
    directory.extend_from_slice(&file.name.field)?;
    push_zeros(directory, 9)?;
    directory.extend_from_slice(&[(blocks % 256) as u8, (blocks / 256) as u8])
}

/// Appends the 18 blocks of the directory.
pub fn push_directory(directory: &mut Vec<u8>, files: &[File<'_>]) -> Result<(), AllocError>
    requires few { length files.now ≤ 144 }
    requires small { sum_by blocks_of files.now ≤ 664 }
    ensures { OnOk result (directory.new.items ≡ directory.old.items ++ directory_of files.now) }
{
    let mut block = 0;
    'named: for (index, file) in files.iter().enumerate() {
        push_prefix(directory, files.len(), index)?;
        push_entry(directory, block, file)?;
        block += further_blocks(file.bytes) + 1;
    }
    'unused: for index in files.len()..MOST_FILES {
        push_no_entry(directory, files.len(), index)?;
    }
    Ok(())
}
