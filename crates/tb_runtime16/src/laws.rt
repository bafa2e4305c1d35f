//! Laws about constants, each the contract of a function that does nothing.
ghost use Rattle.tb_runtime16.specs.Pinned.{ConstantsAreAddresses};

/// The block begins at the address that the definitions have, and so the laws of the routines.
pub fn constants_are_addresses()
    ensures { ConstantsAreAddresses }
{}
