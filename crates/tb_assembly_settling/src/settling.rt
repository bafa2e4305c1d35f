//! Settling, and then the two passes.
ghost use Rattle.std.specs.Prelude.{◌≡◌, ◌⊎◌, IfOk, IfErr, map};
ghost use Rattle.tb_asm.specs.Layout.{entry_of};
ghost use Rattle.tb_assembly_settling.specs.Settled.{EndsFrom, IsLaid, MayRefuse, Suits};

use std::alloc::Global;
use tb_asm::{AsmError, AsmErrorKind, Image, Item, assemble, settle};

/// The image of items from an address. Each branch to a label that does not reach it is replaced by the inverse branch
/// over a jump to the label.
///
/// A refusal of `settle` names an item as it was handed in, one of `assemble` after it a settled item.
#[tactic(auto, using(crate::proofs::TooLong::refused_for, crate::specs::Settled::unsettled))]
pub fn assemble_settled(alloc: Global, at: u16, items: &[Item]) -> Result<Image, AsmError>
    ensures laid { IfOk result (λ image. IsLaid at (map entry_of items.now) image.at image.bytes.items image.labels.entries) }
    ensures refused { IfErr result (λ e. MayRefuse at (map entry_of items.now) e.kind e.item) }
    // Items that suit are refused only if memory runs out, or since they end past 65,535 once they are settled.
    ensures suited { Suits at (map entry_of items.now)
        → IfErr result (λ e. (e.kind ≡ AsmErrorKind.NoMemory) ⊎ EndsFrom 65536 at (map entry_of items.now)) }
{
    // Items that assemble are settled as they are.
    if let Ok(image) = assemble(alloc, at, items) {
        return Ok(image);
    }
    let settled = settle(alloc, at, items)?;
    assemble(alloc, at, &settled)
}
