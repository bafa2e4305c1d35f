//! Playing on the machine's screen: as tb_engine_play, but what the program sends is shown as the screen shows it, and
//! so is what is typed.
//!
//! - `play_file_on_screen` is a dialogue (`dialogue`), of the same lines, keys and stretches as
//!   `tb_engine_play::play_file`. At each wait, and at the end, the whole frame of the screen is written: the blank
//!   screen after all that was sent and typed so far, in this order (`Talked`). Then the text follows that leaves the
//!   terminal in its own colours, but not after a write fault (`Leaves`).
//! - However it ends, the frame of what was sent before a wait is written before a byte of the next line is taken
//!   (`written_first`).
//! - At most 1,048,576 bytes are handed over (`within`). A fault comes only from a stream, or from a line that hands
//!   over too many bytes (`faults`).
//! - `play_on_screen` is the same for a machine. Real terminals are tried (`tools/try/screen_play.py`).
#![tactic(auto)]

mod files;
mod hearing;
mod talk;

pub use files::play_file_on_screen;
pub use talk::play_on_screen;
