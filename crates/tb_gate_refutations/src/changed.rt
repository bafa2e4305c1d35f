//! Images of the compiler with some bytes changed: none keeps its program, with the seed 1.
ghost use Rattle.tb_gate_refutations.specs.Statements.{IsRefuted};
ghost use Rattle.tb_gate_refutations.specs.Compiled.{goto_itself_image};
ghost use Rattle.tb_gate_refutations.specs.Changed.{end_that_loops, loop_that_returns, end_without_break, break_in_line_20};
ghost use Rattle.tb_gate_refutations.specs.Changed.{line_10_left_out, end_without_cld, variables_uncleared};
ghost use Rattle.tb_gate_refutations.specs.Changed.{quotient_before_text, folded_to_zero, quotient_left_zero};
ghost use Rattle.tb_gate_refutations.specs.Changed.{quotient_rounded_down, difference_wrapped};
ghost use Rattle.tb_gate_refutations.specs.Changed.{sign_not_turned};
ghost use Rattle.tb_gate_refutations.specs.Changed.{sign_not_looked_at};
ghost use Rattle.tb_gate_refutations.specs.Changed.{sign_of_rest_lost, fifth_difference_forgotten, byte_not_counted};
ghost use Rattle.tb_gate_refutations.specs.Changed.{zero_not_asked};
ghost use Rattle.tb_gate_refutations.specs.Changed.{high_byte_ignored};
ghost use Rattle.tb_gate_refutations.specs.Changed.{upper_byte_rounded_down};
ghost use Rattle.tb_gate_refutations.specs.Changed.{digit_in_rom_memory, digit_below_s, text_counted_in_x};
ghost use Rattle.tb_gate_refutations.specs.Changed.{line_dropped_at_comma, calls_by_jsr, notes_below_s, return_by_the_result, last_entry_skipped};
ghost use Rattle.tb_gate_refutations.specs.Changed.{high_byte_for_low, poll_at_jump_alone, poll_after_if};
ghost use Rattle.tb_gate_refutations.specs.Programs.{ends, goto_itself, prints_two, prints_variable, prints_and_faults};
ghost use Rattle.tb_gate_refutations.specs.Programs.{prints_negative_quotient, compares_far};
ghost use Rattle.tb_gate_refutations.specs.Programs.{prints_if_below_256};
ghost use Rattle.tb_gate_refutations.specs.Programs.{prints_rest, prints_rest_by_three, prints_rest_of_bytes, prints_in_zones};
ghost use Rattle.tb_gate_refutations.specs.Programs.{prints_if_positive};
ghost use Rattle.tb_gate_refutations.specs.Programs.{prints_if_256};
ghost use Rattle.tb_gate_refutations.specs.Programs.{prints_quotient_by_256};
ghost use Rattle.tb_gate_refutations.specs.Programs.{prints_quotient, goes_nowhere, inputs_two, calls_itself};
ghost use Rattle.tb_gate_refutations.specs.Programs.{calls_and_returns, goes_to_sum, prints_forever, prints_if_zero};

/// After END the image goes round in three instructions forever.
pub fn silent_loop_without_end()
    ensures { IsRefuted end_that_loops ends }
{}

/// The image of another program, which asks for a break in each round, loops where END ends.
pub fn silent_loop_that_polls()
    ensures { IsRefuted goto_itself_image ends }
{}

/// The image returns, but the source loops.
pub fn returns_where_source_loops()
    ensures { IsRefuted loop_that_returns goto_itself }
{}

/// A break is not taken.
pub fn takes_no_break()
    ensures { IsRefuted end_without_break ends }
{}

/// A break in line 10 is reported in line 20.
pub fn fault_in_another_line()
    ensures { IsRefuted break_in_line_20 ends }
{}

/// Line 10 is left out.
pub fn missing_line()
    ensures { IsRefuted line_10_left_out prints_two }
{}

/// The image returns in the decimal mode that it was started in.
pub fn prologue_trusts_memory_or_decimal()
    ensures { IsRefuted end_without_cld ends }
{}

/// The variables are what memory held at the start.
pub fn prologue_trusts_memory_or_decimal_in_variables()
    ensures { IsRefuted variables_uncleared prints_variable }
{}

/// A later item faults before the first one is sent.
pub fn print_values_all_items_first()
    ensures { IsRefuted quotient_before_text prints_and_faults }
{}

/// A constant division by zero is 0.
pub fn folding_drops_division_by_zero()
    ensures { IsRefuted folded_to_zero prints_and_faults }
{}

/// 1/1 is 0.
pub fn quotient_is_always_zero()
    ensures { IsRefuted quotient_left_zero prints_quotient }
{}

/// -1/2 is -1.
pub fn division_rounds_down()
    ensures { IsRefuted quotient_rounded_down prints_negative_quotient }
{}

/// -20000 is not less than 20000.
pub fn comparison_by_wrapped_difference()
    ensures { IsRefuted difference_wrapped compares_far }
{}

/// -1/256 is -1.
pub fn quotient_by_256_rounds_down()
    ensures { IsRefuted upper_byte_rounded_down prints_quotient_by_256 }
{}

/// -256 is 0.
pub fn high_byte_is_not_tested()
    ensures { IsRefuted high_byte_ignored prints_if_256 }
{}

/// 0 is above 0.
pub fn zero_is_positive()
    ensures { IsRefuted zero_not_asked prints_if_positive }
{}

/// -1 is not below 256.
pub fn negative_is_above_constant()
    ensures { IsRefuted sign_not_turned prints_if_below_256 }
{}

/// What is left over of -1 is 3.
pub fn remainder_without_its_sign()
    ensures { IsRefuted sign_not_looked_at prints_rest }
{}

/// What is left over of -1 by 3 is 1.
pub fn remainder_by_three_without_its_sign()
    ensures { IsRefuted sign_of_rest_lost prints_rest_by_three }
{}

/// What is left over of 25 by 4 is 9.
pub fn remainder_after_four_differences()
    ensures { IsRefuted fifth_difference_forgotten prints_rest_of_bytes }
{}

/// A byte alone does not count for the zones.
pub fn byte_in_no_column()
    ensures { IsRefuted byte_not_counted prints_in_zones }
{}

/// A byte is kept where the ROM's interrupts may write.
pub fn temporary_in_rom_memory()
    ensures { IsRefuted digit_in_rom_memory goes_nowhere }
{}

/// A byte is kept below S, where interrupts may write too.
pub fn temporary_below_s()
    ensures { IsRefuted digit_below_s goes_nowhere }
{}

/// The bytes of a text are counted in X, which CHROUT may change.
pub fn counter_kept_in_x_over_chrout()
    ensures { IsRefuted text_counted_in_x prints_two }
{}

/// A comma ends the line of an INPUT, and the rest of it is dropped.
pub fn input_drops_rest_of_line()
    ensures { IsRefuted line_dropped_at_comma inputs_two }
{}

/// GOSUB keeps its return on the stack, so S goes ever lower.
pub fn returns_kept_on_page_one()
    ensures { IsRefuted calls_by_jsr calls_itself }
{}

/// GOSUB notes its return on page one below S, where interrupts may write.
pub fn returns_kept_on_page_one_below_s()
    ensures { IsRefuted notes_below_s calls_and_returns }
{}

/// RETURN goes on by the result, where its address isn't.
pub fn return_goes_by_the_result()
    ensures { IsRefuted return_by_the_result calls_and_returns }
{}

/// A computed GOTO does not find the last line.
pub fn search_skips_last_entry()
    ensures { IsRefuted last_entry_skipped goes_to_sum }
{}

/// A computed GOTO goes to the first line whose number has the same high byte.
pub fn comparison_looks_at_the_high_byte()
    ensures { IsRefuted high_byte_for_low goes_to_sum }
{}

/// A line that does not jump takes no break.
pub fn poll_only_at_jumps()
    ensures { IsRefuted poll_at_jump_alone prints_forever }
{}

/// An IF that holds takes one more answer.
pub fn poll_inside_if()
    ensures { IsRefuted poll_after_if prints_if_zero }
{}
