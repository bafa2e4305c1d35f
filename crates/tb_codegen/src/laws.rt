//! A law about what programs take.
ghost use Rattle.std.specs.Prelude.{◌↔◌, ℕ, ◌+◌, ◌≤◌};
ghost use Rattle.tb_basic_syntax.specs.Source.{Program};
ghost use Rattle.tb_memmap.specs.Regions.{CODE_START};
ghost use Rattle.tb_lower.specs.Lowered.{program_code};
ghost use Rattle.tb_compiled.specs.Refusals.{TakesTooMuch};
ghost use Rattle.tb_codegen.specs.Coded.{SettlesToFit, SettlesTooLong};
ghost use Rattle.tb_codegen.specs.Templates.{templates};

/// A law: a program takes too much exactly if its code does once it is settled, with any first state of RND, and the same
/// number tells it; and it fits exactly if its settled code does. It does nothing.
pub fn sizes_are_settled()
    ensures fits { (seed : ℕ) (program : Program) → (CODE_START + templates.takes program ≤ 0xA000) ↔ SettlesToFit seed (program_code program) }
    ensures too_long { (seed n : ℕ) (program : Program) → TakesTooMuch templates program n ↔ SettlesTooLong n seed (program_code program) }
{}
