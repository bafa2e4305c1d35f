//! How an adapter ended.
use tb_editor_frames::BadFrame;
use tb_engine_streams::{Done, Outcome};

/// How an adapter ended: it is done if it was disconnected, or its input has ended.
pub type AdapterOutcome = Outcome<Done, BadFrame>;
