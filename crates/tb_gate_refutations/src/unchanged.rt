//! The images before they are changed: each keeps its program, so the change is what breaks it.
ghost use Rattle.tb_gate_refutations.specs.Statements.{IsKept};
ghost use Rattle.tb_gate_refutations.specs.Compiled.{prints_negative_quotient_image, compares_far_image};
ghost use Rattle.tb_gate_refutations.specs.Compiled.{prints_if_below_256_image};
ghost use Rattle.tb_gate_refutations.specs.Compiled.{prints_rest_image, prints_rest_by_three_image};
ghost use Rattle.tb_gate_refutations.specs.Compiled.{prints_rest_of_bytes_image, prints_in_zones_image};
ghost use Rattle.tb_gate_refutations.specs.Compiled.{prints_if_positive_image};
ghost use Rattle.tb_gate_refutations.specs.Compiled.{prints_if_256_image};
ghost use Rattle.tb_gate_refutations.specs.Compiled.{prints_quotient_by_256_image};
ghost use Rattle.tb_gate_refutations.specs.Compiled.{ends_image, goto_itself_image, prints_variable_image};
ghost use Rattle.tb_gate_refutations.specs.Compiled.{prints_and_faults_image, goes_nowhere_image, prints_two_image};
ghost use Rattle.tb_gate_refutations.specs.Compiled.{prints_quotient_image, inputs_two_image, calls_itself_image};
ghost use Rattle.tb_gate_refutations.specs.Compiled.{calls_and_returns_image, goes_to_sum_image, prints_forever_image};
ghost use Rattle.tb_gate_refutations.specs.Compiled.{prints_if_zero_image};
ghost use Rattle.tb_gate_refutations.specs.Programs.{prints_negative_quotient, compares_far};
ghost use Rattle.tb_gate_refutations.specs.Programs.{prints_if_below_256};
ghost use Rattle.tb_gate_refutations.specs.Programs.{prints_rest, prints_rest_by_three, prints_rest_of_bytes, prints_in_zones};
ghost use Rattle.tb_gate_refutations.specs.Programs.{prints_if_positive};
ghost use Rattle.tb_gate_refutations.specs.Programs.{prints_if_256};
ghost use Rattle.tb_gate_refutations.specs.Programs.{prints_quotient_by_256};
ghost use Rattle.tb_gate_refutations.specs.Programs.{ends, goto_itself, prints_variable, prints_and_faults, goes_nowhere};
ghost use Rattle.tb_gate_refutations.specs.Programs.{prints_two, prints_quotient, inputs_two, calls_itself};
ghost use Rattle.tb_gate_refutations.specs.Programs.{calls_and_returns, goes_to_sum, prints_forever, prints_if_zero};

/// What the compiler makes of each program keeps it, with the seed 1.
pub fn unchanged_images_keep_their_programs()
    ensures ends { IsKept ends_image ends }
    ensures goto_itself { IsKept goto_itself_image goto_itself }
    ensures prints_variable { IsKept prints_variable_image prints_variable }
    ensures prints_and_faults { IsKept prints_and_faults_image prints_and_faults }
    ensures goes_nowhere { IsKept goes_nowhere_image goes_nowhere }
    ensures prints_two { IsKept prints_two_image prints_two }
    ensures prints_quotient { IsKept prints_quotient_image prints_quotient }
    ensures inputs_two { IsKept inputs_two_image inputs_two }
    ensures calls_itself { IsKept calls_itself_image calls_itself }
    ensures calls_and_returns { IsKept calls_and_returns_image calls_and_returns }
    ensures goes_to_sum { IsKept goes_to_sum_image goes_to_sum }
    ensures prints_forever { IsKept prints_forever_image prints_forever }
    ensures prints_if_zero { IsKept prints_if_zero_image prints_if_zero }
    ensures prints_negative_quotient { IsKept prints_negative_quotient_image prints_negative_quotient }
    ensures compares_far { IsKept compares_far_image compares_far }
    ensures prints_rest { IsKept prints_rest_image prints_rest }
    ensures prints_rest_by_three { IsKept prints_rest_by_three_image prints_rest_by_three }
    ensures prints_rest_of_bytes { IsKept prints_rest_of_bytes_image prints_rest_of_bytes }
    ensures prints_in_zones { IsKept prints_in_zones_image prints_in_zones }
    ensures prints_if_below_256 { IsKept prints_if_below_256_image prints_if_below_256 }
    ensures prints_if_positive { IsKept prints_if_positive_image prints_if_positive }
    ensures prints_if_256 { IsKept prints_if_256_image prints_if_256 }
    ensures prints_quotient_by_256 { IsKept prints_quotient_by_256_image prints_quotient_by_256 }
{}
