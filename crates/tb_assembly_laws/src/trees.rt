//! How the operators of expressions bind: laws, each the contract of a function that does nothing.
ghost use Rattle.tb_assembly_laws.specs.TreeLaws.{ReadsTrees, RunsTrees, ValuesOfTrees};

/// A text that spells a tree, whose operators bind as they should, is read as the steps of that tree.
#[tactic(auto, using(crate::proofs::Reading::reads_trees))]
pub fn reads_trees()
    ensures { ReadsTrees }
{}

/// Doing the steps of a tree puts its value on the stack, or is refused where the value is.
#[tactic(auto, using(crate::proofs::Running::runs_trees))]
pub fn runs_trees()
    ensures { RunsTrees }
{}

/// So the value of what is read of such a text is the tree's.
#[tactic(auto, using(crate::proofs::TreeValues::values_of_trees))]
pub fn values_of_trees()
    ensures { ValuesOfTrees }
{}
