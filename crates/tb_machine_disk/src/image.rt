//! The image of a disk.
ghost use Rattle.std.specs.Prelude.{◌≡◌, ◌<◌, ◌≤◌, MatchResult, MatchOption, IfOk, length, sum_by};
ghost use Rattle.tb_machine_disk.specs.Images.{IsDiskOf, Refuses, blocks_of};
ghost use Rattle.tb_machine_disk.specs.Layout.{file_area};

use crate::blocks::{further_blocks, push_file, push_zeros};
use crate::directory::{MOST_FILES, directory_blocks, push_directory};
use crate::head::{Used, push_head};
use crate::locations::{BELOW_DIRECTORY, FILE_BLOCKS};
use crate::names::Name;
use std::alloc::{AllocError, Global};
use thiserror::Error;

/// The number of bytes of a block.
const BLOCK: usize = 256;

/// A file for a disk.
#[derive(Clone, Copy, Drop)]
pub struct File<'a> {
    pub name: Name,
    pub bytes: &'a [u8],
}

/// Why there is no image.
#[derive(Clone, Copy, Debug, PartialEq, Eq, Drop, Error)]
pub enum DiskError {
    /// The files take more than 664 blocks, or there are more than 144.
    #[error("disk full")]
    Full,
    /// Memory ran out.
    #[error("out of memory")]
    NoMemory,
}

impl From<AllocError> for DiskError {
    ghost use Rattle.tb_machine_disk.specs.declared.image.DiskError.TheVariants.{NoMemory};

    ghost from_gives = { λ _ error. error ≡ NoMemory };

    fn from(_error: AllocError) -> DiskError {
        DiskError::NoMemory
    }
}

// The number of blocks that the files take.
fn blocks_in(files: &[File<'_>]) -> Option<usize>
    ensures { MatchOption result
        (664 < sum_by blocks_of files.now)
        (λ n. (n ≡ sum_by blocks_of files.now) × (n ≤ 664)) }
{
    let mut blocks = 0;
    'counting: for file in files {
        let more = further_blocks(file.bytes) + 1;
        if blocks + more > FILE_BLOCKS {
            return None;
        }
        blocks += more;
    }
    Some(blocks)
}

// The blocks of all files, and zeros up to the last block for files.
fn file_blocks(alloc: Global, files: &[File<'_>]) -> Result<Vec<u8>, AllocError>
    requires { sum_by blocks_of files.now ≤ 664 }
    ensures items { IfOk result (λ blocks. blocks.items ≡ file_area files.now) }
    ensures len { IfOk result (λ blocks. length blocks.items ≡ 169984) }
{
    let mut blocks = Vec::new(alloc);
    let mut block = 0;
    'laying: for file in files {
        push_file(&mut blocks, block, file.bytes)?;
        block += further_blocks(file.bytes) + 1;
    }
    push_zeros(&mut blocks, (FILE_BLOCKS - block) * BLOCK)?;
    Ok(blocks)
}

/// The image of a disk with these files in order, their blocks file after file in rising tracks: 174,848 bytes.
pub fn disk(alloc: Global, name: &Name, files: &[File<'_>]) -> Result<Vec<u8>, DiskError>
    ensures { MatchResult result
        (λ image. IsDiskOf name.now files.now image.items)
        (Refuses files.now) }
{
    if files.len() > MOST_FILES {
        return Err(DiskError::Full);
    }
    let Some(used) = blocks_in(files) else {
        return Err(DiskError::Full);
    };
    let blocks = file_blocks(alloc, files)?;
    let (below, above) = blocks.as_slice().split_at(BELOW_DIRECTORY * BLOCK);
    let used = Used {
        files: used,
        directory: directory_blocks(files.len()),
    };
    let mut image = Vec::new(alloc);
    image.extend_from_slice(below)?;
    push_head(&mut image, used, name)?;
    push_directory(&mut image, files)?;
    image.extend_from_slice(above)?;
    Ok(image)
}
