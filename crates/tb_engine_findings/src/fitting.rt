//! What there is to say of a source to whoever takes any that fits the memory, as an editor does.
ghost use Rattle.std.specs.Prelude.{◌≡◌, IfOk, map};
ghost use Rattle.tb_engine_findings.specs.Fitted.{AreFitted, TellsFits, excess_in, is_accepted};
ghost use Rattle.tb_basic_text.specs.Lines.{lines_of_file};

use crate::examination::{Examined, Findings, examine};
use crate::settings::CheckSettings;
use std::alloc::{AllocError, Global};
use tb_compiled::{Compile, Notation, SizeLimit};

/// A source that was looked at, and what its program costs, if that is too much for a command without `--fit`.
#[derive(Drop)]
pub struct Fitted<'a> {
    pub examined: Examined<'a>,
    pub cost: Option<u32>,
}

// What a program costs that is refused for it.
fn excess_in(findings: &Findings) -> Option<u32>
    ensures { result ≡ excess_in findings.now }
{
    match findings {
        Findings::Refused { too_large, .. } => *too_large,
        Findings::BadLines(_) | Findings::Empty | Findings::Accepted(_) => None,
    }
}

// Whether a source is compiled.
fn is_accepted(findings: &Findings) -> bool
    ensures { result ≡ is_accepted findings.now }
{
    matches!(findings, Findings::Accepted(_))
}

/// Whether the memory holds a source's program that is refused for its size. Fails only if memory runs out.
pub fn fits_memory<K: Compile>(
    compiler: &K,
    alloc: Global,
    source: &[u8],
    notation: Notation,
    findings: &Findings,
) -> Result<bool, AllocError>
    ensures { IfOk result (TellsFits K.own notation source.now (excess_in findings.now)) }
{
    if excess_in(findings).is_none() {
        return Ok(false);
    }
    let by_memory = CheckSettings {
        size: SizeLimit::Memory,
        notation,
    };
    let seen = examine(compiler, alloc, source, by_memory)?;
    Ok(is_accepted(&seen.findings))
}

/// Looks at a source as `examine` does by the cost. Where that is too much, the memory decides. Fails only if memory runs
/// out.
pub fn examine_to_fit<'a, K: Compile>(
    compiler: &K,
    alloc: Global,
    source: &'a [u8],
    notation: Notation,
) -> Result<Fitted<'a>, AllocError>
    ensures lines { IfOk result (λ seen. map (λ t. t.now) seen.examined.lines.items ≡ lines_of_file source.now) }
    ensures findings { IfOk result (λ seen. AreFitted K.own notation source.now seen.cost seen.examined.findings) }
{
    let by_cost = CheckSettings {
        size: SizeLimit::Cost,
        notation,
    };
    let examined = examine(compiler, alloc, source, by_cost)?;
    let Some(cost) = excess_in(&examined.findings) else {
        return Ok(Fitted {
            examined,
            cost: None,
        });
    };
    let by_memory = CheckSettings {
        size: SizeLimit::Memory,
        notation,
    };
    Ok(Fitted {
        examined: examine(compiler, alloc, source, by_memory)?,
        cost: Some(cost),
    })
}
