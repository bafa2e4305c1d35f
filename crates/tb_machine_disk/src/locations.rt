//! Where the sectors of a disk lie.
ghost use Rattle.std.specs.Prelude.{◌≡◌, ◌<◌, ◌≤◌};
ghost use Rattle.tb_machine_disk.specs.D64.{block_index, sectors_on};
ghost use Rattle.tb_machine_disk.specs.Layout.{file_block, track_at, sector_at};

/// The number of tracks.
pub const TRACKS: u8 = 35;

/// The track of the directory.
pub const DIRECTORY_TRACK: u8 = 18;

/// The number of sectors of all tracks below the directory's.
pub const BELOW_DIRECTORY: usize = 357;

/// The number of sectors of the directory's track.
pub const DIRECTORY_SECTORS: usize = 19;

/// The number of blocks for files.
pub const FILE_BLOCKS: usize = 664;

/// A track, counted from 1, and a sector, counted from 0.
#[derive(Clone, Copy)]
pub struct Location {
    pub track: u8,
    pub sector: u8,
}

/// The number of sectors of a track, from 17 to 21.
pub fn sectors(track: u8) -> u8
    ensures { result ≡ sectors_on track }
{
    match track {
        0..=17 => 21,
        18..=24 => 19,
        25..=30 => 18,
        _ => 17,
    }
}

/// The number of sectors before this one, from 0 to 682.
pub fn block_index(at: Location) -> usize
    requires from_one { 1 ≤ at.track }
    ensures { result ≡ block_index at.track at.sector }
{
    let track = usize::from(at.track);
    let sector = usize::from(at.sector);
    match at.track {
        0..=17 => 21 * (track - 1) + sector,
        18..=24 => 357 + 19 * (track - 18) + sector,
        25..=30 => 490 + 18 * (track - 25) + sector,
        _ => 598 + 17 * (track - 31) + sector,
    }
}

/// The track and the sector of the k-th block for files, from 0 to 663.
pub fn locate(k: usize) -> Location
    requires { k < 664 }
    ensures track { result.track ≡ track_at (file_block k) }
    ensures sector { result.sector ≡ sector_at (file_block k) }
{
    let block_index = if k < BELOW_DIRECTORY {
        k
    } else {
        k + DIRECTORY_SECTORS
    };
    let (first_track, sectors, from_first) = match block_index {
        0..357 => (1, 21, block_index),
        357..490 => (18, 19, block_index - 357),
        490..598 => (25, 18, block_index - 490),
        _ => (31, 17, block_index - 598),
    };
    Location {
        track: (from_first / sectors + first_track) as u8,
        sector: (from_first % sectors) as u8,
    }
}
