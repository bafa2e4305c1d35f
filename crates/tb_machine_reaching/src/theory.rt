//! The laws of reaching, each the contract of a function that does nothing.
ghost use Rattle.tb_machine_reaching.specs.Laws.{ChainLaw, NeverWrongLaw, StepLaw};

/// What one event does from a set of states is reached within 1.
pub fn step()
    ensures { StepLaw }
{}

/// Reaching one set, and from it another, is reaching the other.
pub fn chain()
    ensures { ChainLaw }
{}

/// Code that comes from one view to another never goes wrong on the way.
pub fn never_wrong()
    ensures { NeverWrongLaw }
{}
