//! Which texts look at a terminal as they do on the machine.
ghost use Rattle.tb_machine_screen.specs.Looks.{TextsLookAlike};

/// Letters, digits and marks look at a terminal as they do on the machine.
pub fn texts_look_alike()
    ensures { TextsLookAlike }
{}
