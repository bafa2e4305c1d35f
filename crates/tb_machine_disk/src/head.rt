//! The first block of track 18: the map of free blocks and the disk's name.
ghost use Rattle.std.specs.Prelude.{◌≡◌, ◌+◌, ◌<◌, ◌≤◌, ◌++◌, OnOk, length};
ghost use Rattle.tb_machine_disk.specs.Layout.{is_free, free_bit, bits_from, ones_from, track_map, free_map, title, head_block};

use crate::blocks::push_zeros;
use crate::locations::{
    BELOW_DIRECTORY, DIRECTORY_SECTORS, DIRECTORY_TRACK, Location, TRACKS, block_index, sectors,
};
use crate::names::Name;
use std::alloc::AllocError;

/// How many blocks are in use: those of files, and those of the directory.
#[derive(Clone, Copy)]
pub struct Used {
    pub files: usize,
    pub directory: usize,
    ghost files_fit: { files ≤ 664 },
    ghost directory_fits: { directory ≤ 18 },
}

fn is_free(used: Used, block_index: usize) -> bool
    requires { block_index < 683 }
    ensures { result ≡ is_free used.files used.directory block_index }
{
    if block_index < BELOW_DIRECTORY {
        used.files <= block_index
    } else if block_index < BELOW_DIRECTORY + DIRECTORY_SECTORS {
        BELOW_DIRECTORY + used.directory < block_index
    } else {
        used.files + DIRECTORY_SECTORS <= block_index
    }
}

fn free_bit(used: Used, track: u8, sector: u8) -> u8
    requires from_one { 1 ≤ track }
    requires to_last { track ≤ 35 }
    ensures value { result ≡ free_bit used.files used.directory track sector }
    ensures bit { result ≤ 1 }
{
    if sector < sectors(track) && is_free(used, block_index(Location { track, sector })) {
        1
    } else {
        0
    }
}

// Eight bits from a sector on, the lowest first, and how many of them are set.
#[tactic(auto, unfolding(crate::specs::Layout::bits_from, crate::specs::Layout::ones_from))]
fn bits_from(used: Used, track: u8, first: u8) -> (u8, u8)
    requires from_one { 1 ≤ track }
    requires to_last { track ≤ 35 }
    requires in_map { first ≤ 16 }
    ensures byte { result.0 ≡ bits_from used.files used.directory track first }
    ensures ones { result.1 ≡ ones_from used.files used.directory track first }
    ensures few { result.1 ≤ 8 }
{
    let b0 = free_bit(used, track, first);
    let b1 = free_bit(used, track, first + 1);
    let b2 = free_bit(used, track, first + 2);
    let b3 = free_bit(used, track, first + 3);
    let b4 = free_bit(used, track, first + 4);
    let b5 = free_bit(used, track, first + 5);
    let b6 = free_bit(used, track, first + 6);
    let b7 = free_bit(used, track, first + 7);
    let byte = b0 + 2 * b1 + 4 * b2 + 8 * b3 + 16 * b4 + 32 * b5 + 64 * b6 + 128 * b7;
    (byte, b0 + b1 + b2 + b3 + b4 + b5 + b6 + b7)
}

fn push_track(head: &mut Vec<u8>, used: Used, track: u8) -> Result<(), AllocError>
    requires from_one { 1 ≤ track }
    requires to_last { track ≤ 35 }
    ensures { OnOk result (head.new.items ≡ head.old.items ++ track_map used.files used.directory track) }
{
    let (low, low_ones) = bits_from(used, track, 0);
    let (middle, middle_ones) = bits_from(used, track, 8);
    let (high, high_ones) = bits_from(used, track, 16);
    head.extend_from_slice(&[low_ones + middle_ones + high_ones, low, middle, high])
}

fn push_map(head: &mut Vec<u8>, used: Used) -> Result<(), AllocError>
    ensures { OnOk result (head.new.items ≡ head.old.items ++ free_map used.files used.directory) }
{
    'tracks: for track in 1..TRACKS + 1 {
        push_track(head, used, track)?;
    }
    Ok(())
}

fn push_title(head: &mut Vec<u8>, name: &Name) -> Result<(), AllocError>
    ensures { OnOk result (head.new.items ≡ head.old.items ++ title name.now.field) }
{
    head.extend_from_slice(&name.field)?;
    head.extend_from_slice(&[
        0xa0, 0xa0, b'T', b'B', 0xa0, b'2', b'A', 0xa0, 0xa0, 0xa0, 0xa0,
    ])?;
    push_zeros(head, 85)
}

/// Appends the 256 bytes of the block.
pub fn push_head(head: &mut Vec<u8>, used: Used, name: &Name) -> Result<(), AllocError>
    ensures { OnOk result (head.new.items ≡ head.old.items ++ head_block used.files used.directory name.now.field) }
{
    // The first block of the directory, and the format of the disk.
    head.extend_from_slice(&[DIRECTORY_TRACK, 1, b'A', 0])?;
    push_map(head, used)?;
    push_title(head, name)?;
    Ok(())
}
