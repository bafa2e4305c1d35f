//! Images of a few instructions: none keeps its program, whatever the seed. None asks for a break, but only
//! `loops_without_break` is refuted by one.
ghost use Rattle.std.specs.Prelude.{[], ◌∷◌};
ghost use Rattle.tb_gate_refutations.specs.Statements.{IsNeverKept};
ghost use Rattle.tb_gate_refutations.specs.Bare.{sends, stands_still, returns_in_decimal_mode, sends_uncleared_variable};
ghost use Rattle.tb_gate_refutations.specs.Bare.{counts_in_x, keeps_below_s, keeps_in_rom_work, faults_before_it_sends};
ghost use Rattle.tb_gate_refutations.specs.Bare.{faults_in_line_20};
ghost use Rattle.tb_gate_refutations.specs.Programs.{goto_itself, ends, prints_variable, prints_two, prints_a};
ghost use Rattle.tb_gate_refutations.specs.Programs.{prints_and_faults, faults};

/// In turn they return where the source loops, loop where it ends, loop where it takes a break, send where it is silent,
/// return in decimal mode, send a variable that nothing cleared, count in X over CHROUT, keep a byte below S over an
/// interrupt, keep one at `$02`, fault before the item in front is sent, and report a fault in another line.
pub fn bare_images_are_wrong()
    ensures returns { IsNeverKept (sends []) goto_itself }
    ensures loops { IsNeverKept stands_still ends }
    ensures loops_without_break { IsNeverKept stands_still goto_itself }
    ensures sends { IsNeverKept (sends (65 ∷ [])) ends }
    ensures decimal_mode { IsNeverKept returns_in_decimal_mode ends }
    ensures uncleared { IsNeverKept sends_uncleared_variable prints_variable }
    ensures counts_in_x { IsNeverKept counts_in_x prints_two }
    ensures below_s { IsNeverKept keeps_below_s prints_a }
    ensures in_rom_memory { IsNeverKept keeps_in_rom_work prints_a }
    ensures items { IsNeverKept faults_before_it_sends prints_and_faults }
    ensures another_line { IsNeverKept faults_in_line_20 faults }
{}
