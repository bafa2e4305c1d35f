//! Disk images of the Commodore 1541 with 35 tracks: D64 files.
//!
//! `Name::new` takes exactly the names of 1 to 16 characters, and their field reads back. `disk` answers an image of
//! 174,848 bytes:
//!
//! - Walking the directory and each file's chain by the format finds exactly the files, names and bytes, in order. No
//!   block is used twice.
//! - Each sector's bit in the map is right, and each track's count is the sum of its bits.
//! - The title is the disk's name, followed by the mark `TB`, `2A`.
//!
//! It refuses the files as full exactly if there are more than 664 blocks or 144 files, and wants memory only if there
//! are not. What other tools find in images is tried (`tools/try/disk.sh`).
#![tactic(auto)]

mod blocks;
mod directory;
mod head;
mod image;
mod locations;
mod names;

pub use image::{DiskError, File, disk};
pub use names::Name;
