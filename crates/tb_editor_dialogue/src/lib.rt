//! The dialogue with a client: frames are read one by one, and what each holds is answered before the next one is read.
//!
//! `converse` leads it with any `Talker`, over any reader and writer, up to its end (`Converses`, `specs/Dialogue`). It
//! ends as the talker has it, as the input does, or by a bad frame, a fault of a stream or want of memory. A talker says
//! by its relation `takes` what comes of what it hears. A dialogue with a part of a talker is one with it
//! (`proofs/Parts`).
#![tactic(auto)]

mod hearing;
mod talking;

pub use hearing::Heard;
pub use talking::{Talker, Turn, converse, write_frames};
