//! The code of each group.
ghost use Rattle.std.specs.Prelude.{◌≡◌, ◌+◌, ◌<◌, [], ◌∷◌, ◌++◌};
ghost use Rattle.tb_basic_syntax.specs.Source.{Rises};
ghost use Rattle.tb_asm.specs.Layout.{entry_of};
ghost use Rattle.tb_basic_meaning.specs.Control.{has_line};
ghost use Rattle.tb_lower.specs.Ranges.{AreInRange, IsInRange};
ghost use Rattle.tb_lower.specs.PlainData.{instr_of};
ghost use Rattle.tb_compiler_selection.specs.Groups as selection;
ghost use Rattle.tb_compiler_selection.specs.Groups.{expand};
ghost use Rattle.tb_compiler_selection.specs.PlainData.{conversion_of, usage_of, group_of};
ghost use Rattle.tb_compiled_kept.specs.Addresses as kept;
ghost use Rattle.tb_runtime16.specs.Addresses as places;
ghost use Rattle.tb_compiler_templates.specs.Putting.{Puts};
ghost use Rattle.tb_compiler_templates.specs.declared.labels.Inner.TheVariants.{Behind, Skip};
ghost use Rattle.tb_compiler_templates.specs.declared.labels.Target.TheVariants.{Inside};
ghost use Rattle.tb_compiler_templates.specs.Templates as templates;
ghost use Rattle.tb_compiler_templates.specs.Sources as sources;
ghost use Rattle.tb_compiler_templates.specs.Sources.{AreWhole, IsWhole};
ghost use Rattle.tb_compiler_templates.specs.GroupTemplates as groups;
ghost use Rattle.tb_compiler_templates.specs.Scaled.{scaling, shifts};

use crate::divisions::{put_divides, put_remains};
use crate::in_place::{change_of, put_changed};
use crate::labels::{Inner, Target};
use crate::orders::{Side, put_ordered};
use crate::pieces::{
    put_alone, put_at, put_branch, put_call, put_const, put_constant, put_copied, put_faulted,
    put_find, put_here, put_jump_through, put_on, put_return,
};
use crate::scaled::{put_shifted, put_times, scaling, shifts};
use crate::sources::{
    Source, Words, against_none, destination_at, home_at, put_high, put_low, slot_of, source_of,
    tested_words, turned, variable_at, words_of,
};
use crate::templates::{NO_LINE, Spot, has_number, put_instruction};
use std::alloc::AllocError;
use tb_asm::Item;
use tb_basic_syntax::Operator;
use tb_compiled_kept::{LEFT, LINE, RESULT, RIGHT, WANTED};
use tb_compiler_selection::{Conversion, Group, Operand, Usage};
use tb_lower::SlotInstr;
use tb_opcodes::Mnemonic;
use tb_runtime16::Routine;
use tb_words::Rel;

/// A word to an address.
pub fn put_brought(items: &mut Vec<Item>, word: Source, to: u16) -> Result<(), AllocError>
    requires { IsWhole word × (to < 65535) }
    ensures { Puts result items.old items.new (groups.brought word to) }
{
    put_low(items, Mnemonic::Lda, word)?;
    put_on(items, Mnemonic::Sta, to)?;
    put_high(items, Mnemonic::Lda, word)?;
    put_on(items, Mnemonic::Sta, to + 1)
}

// Two words combined byte by byte.
fn put_joined(
    items: &mut Vec<Item>,
    mnemonic: Mnemonic,
    words: Words,
    to: u16,
) -> Result<(), AllocError>
    requires { AreWhole words × (to < 65535) }
    ensures { Puts result items.old items.new (groups.joined mnemonic words.left words.right to) }
{
    put_low(items, Mnemonic::Lda, words.left)?;
    put_low(items, mnemonic, words.right)?;
    put_at(items, Mnemonic::Sta, to)?;
    put_high(items, Mnemonic::Lda, words.left)?;
    put_high(items, mnemonic, words.right)?;
    put_at(items, Mnemonic::Sta, to + 1)
}

// The sum of two words.
fn put_summed(items: &mut Vec<Item>, words: Words, to: u16) -> Result<(), AllocError>
    requires { AreWhole words × (to < 65535) }
    ensures { Puts result items.old items.new (groups.summed words.left words.right to) }
{
    put_alone(items, Mnemonic::Clc)?;
    put_joined(items, Mnemonic::Adc, words, to)
}

/// The left word less the right one.
pub fn put_taken(items: &mut Vec<Item>, words: Words, to: u16) -> Result<(), AllocError>
    requires { AreWhole words × (to < 65535) }
    ensures { Puts result items.old items.new (groups.taken words.left words.right to) }
{
    put_alone(items, Mnemonic::Sec)?;
    put_joined(items, Mnemonic::Sbc, words, to)
}

// What a routine computes from two words, from where it leaves the result.
fn put_handed(
    items: &mut Vec<Item>,
    routine: Routine,
    from: u16,
    words: Words,
    to: u16,
) -> Result<(), AllocError>
    requires { AreWhole words × (from < 65535) × (to < 65535) }
    ensures { Puts result items.old items.new (groups.handed (places.entry_of routine) from words.left words.right to) }
{
    put_brought(items, words.left, LEFT)?;
    put_brought(items, words.right, RIGHT)?;
    put_call(items, routine)?;
    put_copied(items, from, to)?;
    Ok(())
}

/// The line's number, if what follows may fault.
pub fn put_lined(items: &mut Vec<Item>, may_fault: bool, line: u16) -> Result<(), AllocError>
    ensures { Puts result items.old items.new (groups.lined may_fault line []) }
{
    if may_fault {
        put_constant(items, line, LINE)
    } else {
        Ok(())
    }
}

/// Whether a division by this word may fault.
pub fn may_be_zero(word: Source) -> bool
    ensures { result ≡ groups.may_be_zero word }
{
    match word {
        Source::FixedWord(word) => word == 0,
        Source::AtAddress(_) => true,
    }
}

// Whether a draw below this word may fault.
fn may_have_none(word: Source) -> bool
    ensures { result ≡ groups.may_have_none word }
{
    match word {
        Source::FixedWord(word) => word == 0 || 32768 <= word,
        Source::AtAddress(_) => true,
    }
}

// The quotient of two words.
fn put_quotient(items: &mut Vec<Item>, line: u16, words: Words, to: u16) -> Result<(), AllocError>
    requires { AreWhole words × (to < 65535) }
    ensures { Puts result items.old items.new (groups.lined (groups.may_be_zero words.right) line
        (groups.handed places.DIVIDE_AT kept.LEFT words.left words.right to)) }
{
    put_lined(items, may_be_zero(words.right), line)?;
    put_handed(items, Routine::Divide, LEFT, words, to)?;
    Ok(())
}

// A random number below a word; the seed is the option's RND state.
fn put_drawn(
    items: &mut Vec<Item>,
    line: u16,
    seed: u16,
    bound: Source,
    to: u16,
) -> Result<(), AllocError>
    requires { IsWhole bound × (to < 65535) }
    ensures { Puts result items.old items.new (groups.lined (groups.may_have_none bound) line
        (groups.handed places.RANDOM_AT kept.RESULT (sources.FixedWord seed) bound to)) }
{
    put_lined(items, may_have_none(bound), line)?;
    let words = Words {
        left: Source::FixedWord(seed),
        right: bound,
    };
    put_handed(items, Routine::Random, RESULT, words, to)?;
    Ok(())
}

// A product: of a constant and a word by the constant's bits, if they are few.
fn put_multiplied(items: &mut Vec<Item>, words: Words, to: u16) -> Result<(), AllocError>
    requires { AreWhole words × (to < 65535) }
    ensures { Puts result items.old items.new (groups.multiplied (scaling words.left words.right) words.left words.right to) }
{
    match scaling(words.left, words.right) {
        Some((factor, word)) => put_times(items, factor, word, to),
        None => put_handed(items, Routine::Multiply, RESULT, words, to),
    }
}

// A quotient of a line: over a power of two by shifts.
fn put_divided(items: &mut Vec<Item>, line: u16, words: Words, to: u16) -> Result<(), AllocError>
    requires { AreWhole words × (to < 65535) }
    ensures { Puts result items.old items.new (groups.divided line (shifts words.right) words.left words.right to) }
{
    match shifts(words.right) {
        Some(more) => put_shifted(items, more, words.left, to),
        None => put_quotient(items, line, words, to),
    }
}

// A calculation of a line.
fn put_calculated(
    items: &mut Vec<Item>,
    line: u16,
    operator: Operator,
    words: Words,
    to: u16,
) -> Result<(), AllocError>
    requires { AreWhole words × (to < 65535) }
    ensures { Puts result items.old items.new (groups.calculated line operator words.left words.right to) }
{
    match operator {
        Operator::Add => put_summed(items, words, to),
        Operator::Subtract => put_taken(items, words, to),
        Operator::Multiply => put_multiplied(items, words, to),
        Operator::Divide => put_divided(items, line, words, to),
    }
}

// As `put_calculated`, but in place if a template for that exists.
fn put_computed(
    items: &mut Vec<Item>,
    line: u16,
    skip: Target,
    operator: Operator,
    words: Words,
    to: u16,
) -> Result<(), AllocError>
    requires { AreWhole words × (to < 65535) }
    ensures { Puts result items.old items.new (groups.computed line skip operator words.left words.right to) }
{
    match change_of(operator, words.left, words.right, to) {
        Some(change) => put_changed(items, change, to, skip),
        None => put_calculated(items, line, operator, words, to),
    }
}

// A word at an address goes on there by a constant.
fn put_going_on(
    items: &mut Vec<Item>,
    spot: Spot,
    operator: Operator,
    constant: Source,
    to: u16,
) -> Result<(), AllocError>
    requires { IsWhole constant × (to < 65535) }
    ensures { Puts result items.old items.new (groups.computed spot.line (Inside Behind spot.line spot.index) operator
        (sources.AtAddress to) constant to) }
{
    let words = Words {
        left: Source::AtAddress(to),
        right: constant,
    };
    put_computed(items, spot.line, spot.behind(), operator, words, to)
}

// A calculation whose result goes to a variable, and goes on there by a constant.
fn put_stepped(
    items: &mut Vec<Item>,
    spot: Spot,
    operator: Operator,
    words: Words,
    by: (Operator, Source),
    to: u16,
) -> Result<(), AllocError>
    requires { AreWhole words × IsWhole by.1 × (to < 65535) }
    ensures { Puts result items.old items.new (groups.stepped spot.line (Inside Skip spot.line spot.index)
        (Inside Behind spot.line spot.index) operator words.left words.right by.0 by.1 to) }
{
    put_computed(items, spot.line, spot.skip(), operator, words, to)?;
    put_going_on(items, spot, by.0, by.1, to)?;
    Ok(())
}

// A word made of another one in a line; the seed is the option's RND state.
fn put_converted(
    items: &mut Vec<Item>,
    line: u16,
    seed: u16,
    conversion: Conversion,
    word: Source,
    to: u16,
) -> Result<(), AllocError>
    requires { IsWhole word × (to < 65535) }
    ensures { Puts result items.old items.new (groups.converted line seed (conversion_of conversion) word to) }
{
    match conversion {
        Conversion::Negated => put_taken(items, against_none(word), to),
        Conversion::Drawn => put_drawn(items, line, seed, word, to),
    }
}

// The search in the line table for a word.
fn put_searched(items: &mut Vec<Item>, line: u16, word: Source) -> Result<(), AllocError>
    requires { IsWhole word }
    ensures { Puts result items.old items.new (groups.searched line word) }
{
    put_constant(items, line, LINE)?;
    put_brought(items, word, WANTED)?;
    put_find(items)?;
    Ok(())
}

// A number that is sent.
fn put_sent(items: &mut Vec<Item>, word: Source) -> Result<(), AllocError>
    requires { IsWhole word }
    ensures { Puts result items.old items.new (groups.brought word kept.LEFT ++ (templates.call places.NUMBER_AT ∷ [])) }
{
    put_brought(items, word, LEFT)?;
    put_call(items, Routine::Number)?;
    Ok(())
}

// Goes to the line of a number.
fn put_gone_to(items: &mut Vec<Item>, line: u16, word: Source) -> Result<(), AllocError>
    requires { IsWhole word }
    ensures { Puts result items.old items.new (groups.searched line word ++ templates.jump_through) }
{
    put_searched(items, line, word)?;
    put_jump_through(items)?;
    Ok(())
}

// Calls the line of a number.
fn put_called(
    items: &mut Vec<Item>,
    line: u16,
    next: Target,
    word: Source,
) -> Result<(), AllocError>
    requires { IsWhole word }
    ensures { Puts result items.old items.new (groups.searched line word ++ (templates.return_address next ++ templates.jump_through)) }
{
    put_searched(items, line, word)?;
    put_return(items, next)?;
    put_jump_through(items)?;
    Ok(())
}

// A use of a word in a line.
fn put_used(
    items: &mut Vec<Item>,
    line: u16,
    next: Target,
    usage: Usage,
    word: Source,
) -> Result<(), AllocError>
    requires { IsWhole word }
    ensures { Puts result items.old items.new (groups.used line next (usage_of usage) word) }
{
    match usage {
        Usage::AsNumber => put_sent(items, word),
        Usage::AsLine => put_gone_to(items, line, word),
        Usage::AsSubroutine => put_called(items, line, next, word),
    }
}

// A against a constant byte, for Z alone: the load of A has set it if that byte is 0.
fn put_unless_none(items: &mut Vec<Item>, byte: u8) -> Result<(), AllocError>
    ensures { Puts result items.old items.new (groups.unless_none byte) }
{
    if byte == 0 {
        return Ok(());
    }
    put_const(items, Mnemonic::Cmp, byte)
}

// A against the low byte of a word, for Z alone.
fn put_low_against(items: &mut Vec<Item>, word: Source) -> Result<(), AllocError>
    ensures { Puts result items.old items.new (groups.low_against word) }
{
    match word {
        Source::FixedWord(word) => put_unless_none(items, (word % 256) as u8),
        Source::AtAddress(address) => put_at(items, Mnemonic::Cmp, address),
    }
}

// A against the high byte of a word, for Z alone.
fn put_high_against(items: &mut Vec<Item>, word: Source) -> Result<(), AllocError>
    requires { IsWhole word }
    ensures { Puts result items.old items.new (groups.high_against word) }
{
    match word {
        Source::FixedWord(word) => put_unless_none(items, (word / 256) as u8),
        Source::AtAddress(address) => put_at(items, Mnemonic::Cmp, address + 1),
    }
}

// Z tells whether the low bytes of two words are equal.
fn put_low_matched(items: &mut Vec<Item>, words: Words) -> Result<(), AllocError>
    requires { AreWhole words }
    ensures { Puts result items.old items.new (groups.low_matched words.left words.right) }
{
    put_low(items, Mnemonic::Lda, words.left)?;
    put_low_against(items, words.right)
}

// Z tells whether the high bytes of two words are equal.
fn put_high_matched(items: &mut Vec<Item>, words: Words) -> Result<(), AllocError>
    requires { AreWhole words }
    ensures { Puts result items.old items.new (groups.high_matched words.left words.right) }
{
    put_high(items, Mnemonic::Lda, words.left)?;
    put_high_against(items, words.right)
}

// Goes on in the line if both bytes are equal.
fn put_equal(items: &mut Vec<Item>, words: Words, next: Target) -> Result<(), AllocError>
    requires { AreWhole words }
    ensures { Puts result items.old items.new (groups.equal words.left words.right next) }
{
    put_low_matched(items, words)?;
    put_branch(items, Mnemonic::Bne, next)?;
    put_high_matched(items, words)?;
    put_branch(items, Mnemonic::Bne, next)
}

// Goes on in the line if one of the two bytes differs.
fn put_unequal(
    items: &mut Vec<Item>,
    words: Words,
    stays: Target,
    next: Target,
) -> Result<(), AllocError>
    requires { AreWhole words }
    ensures { Puts result items.old items.new (groups.unequal words.left words.right stays next) }
{
    put_low_matched(items, words)?;
    put_branch(items, Mnemonic::Bne, stays)?;
    put_high_matched(items, words)?;
    put_branch(items, Mnemonic::Beq, next)?;
    put_here(items, stays)
}

// Leaves the line unless two words are in this relation.
fn put_tested(
    items: &mut Vec<Item>,
    rel: Rel,
    words: Words,
    skip: Target,
    next: Target,
) -> Result<(), AllocError>
    requires { AreWhole words }
    ensures { Puts result items.old items.new (groups.tested rel words.left words.right skip next) }
{
    match rel {
        Rel::Eq => put_equal(items, words, next),
        Rel::Ne => put_unequal(items, words, skip, next),
        Rel::Lt => put_ordered(items, Side::Below, words, skip, next),
        Rel::Ge => put_ordered(items, Side::NotBelow, words, skip, next),
        Rel::Gt => put_ordered(items, Side::Below, turned(words), skip, next),
        Rel::Le => put_ordered(items, Side::NotBelow, turned(words), skip, next),
    }
}

// The relation that holds if this one does not.
fn denied(rel: Rel) -> Rel
    ensures { result ≡ selection.denied rel }
{
    match rel {
        Rel::Eq => Rel::Ne,
        Rel::Ne => Rel::Eq,
        Rel::Lt => Rel::Ge,
        Rel::Ge => Rel::Lt,
        Rel::Gt => Rel::Le,
        Rel::Le => Rel::Gt,
    }
}

// Leaves the line unless two words are in this relation, and else faults for lack of a line.
fn put_lost(items: &mut Vec<Item>, spot: Spot, rel: Rel, words: Words) -> Result<(), AllocError>
    requires { AreWhole words }
    ensures { Puts result items.old items.new (groups.tested rel words.left words.right
        (Inside Skip spot.line spot.index) spot.next ++ templates.faulted spot.line 1) }
{
    put_tested(items, rel, words, spot.skip(), spot.next)?;
    put_faulted(items, spot.line, NO_LINE)?;
    Ok(())
}

// Goes straight to a line if two words are in this relation. If there is no such line, it is fault 1.
fn put_gone(
    items: &mut Vec<Item>,
    numbers: &[u16],
    spot: Spot,
    rel: Rel,
    words: Words,
    to: u16,
) -> Result<(), AllocError>
    requires rising { Rises 0 65536 numbers.now }
    requires whole { AreWhole words }
    ensures { Puts result items.old items.new (groups.gone spot.line rel words.left words.right
        (Inside Skip spot.line spot.index) spot.next (has_line numbers.now to) to) }
{
    if has_number(numbers, to) {
        put_tested(items, denied(rel), words, spot.skip(), Target::Line(to))
    } else {
        put_lost(items, spot, rel, words)
    }
}

// Whether a routine that a single instruction calls in any case may fault.
fn may_fault(instruction: &SlotInstr) -> bool
    ensures { result ≡ groups.may_fault (instr_of instruction.now) }
{
    matches!(instruction, SlotInstr::Input(_) | SlotInstr::Poll)
}

// A single instruction; if a routine that it calls may fault, it sets the line's number first.
fn put_single(
    items: &mut Vec<Item>,
    numbers: &[u16],
    spot: Spot,
    instruction: &SlotInstr,
) -> Result<(), AllocError>
    requires rising { Rises 0 65536 numbers.now }
    requires in_range { IsInRange 256 (instr_of instruction.now) }
    requires next { spot.next ≡ templates.next_line numbers.now spot.line }
    ensures { Puts result items.old items.new (groups.single numbers.now spot.line spot.index (instr_of instruction.now)) }
{
    if may_fault(instruction) {
        put_constant(items, spot.line, LINE)?;
    }
    put_instruction(items, numbers, spot, instruction)
}

/// The code of a group of a program with these numbers; the seed is the option's RND state.
pub fn put_group(
    items: &mut Vec<Item>,
    numbers: &[u16],
    seed: u16,
    spot: Spot,
    group: Group<'_>,
) -> Result<(), AllocError>
    requires rising { Rises 0 65536 numbers.now }
    requires in_range { AreInRange 256 (expand (group_of group)) }
    requires next { spot.next ≡ templates.next_line numbers.now spot.line }
    ensures { Puts result items.old items.new (groups.group_template numbers.now seed spot.line spot.index (group_of group.entry)) }
{
    match group {
        Group::Calculate(operator, left, right, destination) => {
            let words = words_of(slot_of(destination), left, right);
            let to = destination_at(destination);
            put_computed(items, spot.line, spot.skip(), operator, words, to)
        }
        Group::Stepped(operator, left, right, by, word, letter) => {
            let words = words_of(0, left, right);
            let by = (by, source_of(1, Operand::Constant(word)));
            put_stepped(items, spot, operator, words, by, variable_at(letter))
        }
        Group::Convert(conversion, word, destination) => {
            let word = source_of(slot_of(destination), word);
            let to = destination_at(destination);
            put_converted(items, spot.line, seed, conversion, word, to)
        }
        Group::Move(word, home) => put_brought(items, source_of(0, word), home_at(home)),
        Group::Use(usage, word) => {
            put_used(items, spot.line, spot.next, usage, source_of(0, word))
        }
        Group::Test(rel, left, right) => {
            let words = tested_words(left, right);
            put_tested(items, rel, words, spot.skip(), spot.next)
        }
        Group::TestGo(rel, left, right, to) => {
            put_gone(items, numbers, spot, rel, tested_words(left, right), to)
        }
        Group::Remains(letter, divisor, destination) => {
            let words = Words {
                left: Source::AtAddress(variable_at(letter)),
                right: source_of(slot_of(destination) + 2, divisor),
            };
            put_remains(items, spot, words, destination_at(destination))
        }
        Group::Divides(how, letter, divisor, _, to) => {
            let words = words_of(0, Operand::Variable(letter), divisor);
            put_divides(items, numbers, spot, how, words, to)
        }
        Group::Single(instruction) => put_single(items, numbers, spot, instruction),
    }
}
