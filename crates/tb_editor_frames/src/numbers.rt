//! The constants of this crate that are promised.
ghost use Rattle.tb_editor_frames.specs.Numbers.{ConstantsAreNumbers};

/// Each constant is the number that the definitions have for it.
pub fn constants_are_numbers()
    ensures { ConstantsAreNumbers }
{}
