//! How a source is compiled.
ghost use Rattle.std.specs.Prelude.{◌≡◌};
ghost use Rattle.tb_compiled.specs.Settings.{by_cost, by_memory};

use tb_basic_text::Notation;

/// The most that a program may cost, in bytes.
pub const MOST_COST: u32 = 37_888;

/// The first state of RND if nothing else is asked for.
pub const USUAL_SEED: u16 = 1;

/// When a program is refused as too large.
#[derive(Clone, Copy, Debug, PartialEq, Eq, Drop)]
pub enum SizeLimit {
    /// If it costs more than [`MOST_COST`].
    Cost,
    /// If its code and line table end past `$9FFF`, whatever it costs.
    Memory,
}

/// How a source is compiled.
#[derive(Clone, Copy, Debug, PartialEq, Eq, Drop)]
pub struct CompileSettings {
    /// The first RND state, any word.
    pub seed: u16,
    /// When it is refused as too large.
    pub size: SizeLimit,
    /// How its texts are read.
    pub notation: Notation,
}

impl CompileSettings {
    /// With a first state of RND, refused by the cost, and without signs.
    pub fn by_cost(seed: u16) -> CompileSettings
        ensures { result ≡ by_cost seed }
    {
        CompileSettings {
            seed,
            size: SizeLimit::Cost,
            notation: Notation::Plain,
        }
    }

    /// With a first state of RND, refused only if the memory is too small, and without signs.
    pub fn by_memory(seed: u16) -> CompileSettings
        ensures { result ≡ by_memory seed }
    {
        CompileSettings {
            seed,
            size: SizeLimit::Memory,
            notation: Notation::Plain,
        }
    }
}
