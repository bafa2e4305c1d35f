//! How sources are compiled, by the words of the command line and by their own.
ghost use Rattle.std.specs.Prelude.{◌≡◌};
ghost use Rattle.tb_program_jobs.specs.Settings as spec;

use crate::jobs::SourceOptions;
use tb_basic_options::OwnOptions;
use tb_compiled::{CompileSettings, SizeLimit, USUAL_SEED};

/// When a program is too large: by what it costs, or only if it doesn't fit the memory.
pub fn size_limit(fit: bool) -> SizeLimit
    ensures { result ≡ spec.size_limit fit }
{
    if fit {
        SizeLimit::Memory
    } else {
        SizeLimit::Cost
    }
}

/// How a source is compiled, by what the words ask for and by its own options. A seed of the words goes before its own.
pub fn settings_of(options: SourceOptions, own: OwnOptions) -> CompileSettings
    ensures { result ≡ spec.settings_of options own }
{
    CompileSettings {
        seed: options.seed.or(own.seed).unwrap_or(USUAL_SEED),
        size: size_limit(options.fit || own.fit),
        notation: own.notation(options.notation),
    }
}
