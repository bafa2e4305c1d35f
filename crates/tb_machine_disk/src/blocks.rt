//! The blocks of files.
ghost use Rattle.std.specs.Prelude.{◌≡◌, ◌+◌, ◌*◌, ◌<◌, ◌≤◌, ◌++◌, OnOk, length, replicate};
ghost use Rattle.tb_machine_disk.specs.Layout.{filled, further, laid};

use crate::locations::{Location, locate};
use std::alloc::AllocError;

/// The most bytes of a file that a block holds.
pub const BLOCK_DATA: usize = 254;

/// The number of blocks that follow the first one of a file.
pub fn further_blocks(bytes: &[u8]) -> usize
    ensures { result ≡ further bytes.now }
{
    bytes.len().saturating_sub(1) / BLOCK_DATA
}

/// Appends `count` zeros.
pub fn push_zeros(bytes: &mut Vec<u8>, count: usize) -> Result<(), AllocError>
    requires { count ≤ 169984 }
    ensures { OnOk result (bytes.new.items ≡ bytes.old.items ++ replicate count 0) }
{
    bytes.resize(bytes.len() + count, 0)
}

fn push_block(blocks: &mut Vec<u8>, track: u8, sector: u8, bytes: &[u8]) -> Result<(), AllocError>
    requires { length bytes.now ≤ 254 }
    ensures { OnOk result (blocks.new.items ≡ blocks.old.items ++ filled track sector bytes.now) }
{
    blocks.push(track)?;
    blocks.push(sector)?;
    blocks.extend_from_slice(bytes)?;
    push_zeros(blocks, BLOCK_DATA - bytes.len())
}

/// Appends the blocks of a file, the first of which is the k-th for files.
pub fn push_file(blocks: &mut Vec<u8>, k: usize, bytes: &[u8]) -> Result<(), AllocError>
    requires { k + further bytes.now < 664 }
    ensures { OnOk result (blocks.new.items ≡ blocks.old.items ++ laid (further bytes.now) k bytes.now) }
{
    let mut rest = bytes;
    let mut at = k;
    'chaining: while rest.len() > BLOCK_DATA {
        let Location { track, sector } = locate(at + 1);
        let (part, behind) = rest.split_at(BLOCK_DATA);
        push_block(blocks, track, sector, part)?;
        rest = behind;
        at += 1;
    }
    // The second byte of the last block is the index of its last used byte.
    push_block(blocks, 0, rest.len() as u8 + 1, rest)?;
    Ok(())
}
