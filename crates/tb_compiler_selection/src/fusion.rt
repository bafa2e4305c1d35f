//! Several groups as one.
ghost use Rattle.std.specs.Prelude.{◌≡◌, option_map};
ghost use Rattle.tb_words.specs.Letters.{letter_index};
ghost use Rattle.tb_compiler_selection.specs.Select as select;
ghost use Rattle.tb_compiler_selection.specs.PlainData.{against_of, destination_of, divisibility_of, equality_of, factor_of};
ghost use Rattle.tb_compiler_selection.specs.PlainData.{group_of, loaded_of, multiple_of, operand_of};

use crate::groups::{Destination, Divisibility, Group, Home, Operand, Side, Tested};
use crate::selecting::slot_of;
use tb_basic_syntax::Operator;
use tb_lower::SlotInstr;
use tb_words::{Letter, Rel};

// The quotient of a variable in a slot: the slot, the variable and the divisor.
fn quotient_in(group: Group<'_>) -> Option<(u8, Letter, Operand)>
    ensures { option_map multiple_of result ≡ select.quotient_in (group_of group.entry) }
{
    match group {
        Group::Calculate(
            Operator::Divide,
            Operand::Variable(x),
            divisor,
            Destination::IntoSlot(slot),
        ) => Some((slot, x, divisor)),
        _ => None,
    }
}

// A slot times a word: the slot and the word.
fn factor_in(group: Group<'_>) -> Option<(u8, Operand)>
    ensures { option_map factor_of result ≡ select.factor_in (group_of group.entry) }
{
    match group {
        Group::Calculate(
            Operator::Multiply,
            Operand::InSlot,
            factor,
            Destination::IntoSlot(slot),
        ) => Some((slot, factor)),
        _ => None,
    }
}

// The difference of two slots: where it goes.
fn difference_in(group: Group<'_>) -> Option<Destination>
    ensures { option_map destination_of result ≡ select.difference_in (group_of group.entry) }
{
    match group {
        Group::Calculate(Operator::Subtract, Operand::InSlot, Operand::InSlot, to) => Some(to),
        _ => None,
    }
}

// A variable alone in a slot: the slot and the variable.
fn loaded_in(group: Group<'_>) -> Option<(u8, Letter)>
    ensures { option_map loaded_of result ≡ select.loaded_in (group_of group.entry) }
{
    match group {
        Group::Single(SlotInstr::Load(slot, x)) => Some((*slot, *x)),
        _ => None,
    }
}

// A variable that is held.
fn held_in(group: Group<'_>) -> Option<Letter>
    ensures { option_map letter_index result ≡ select.held_in (group_of group.entry) }
{
    match group {
        Group::Move(Operand::Variable(x), Home::IntoHeld) => Some(x),
        _ => None,
    }
}

// What a relation of a multiple to its variable asks for.
fn asked(rel: Rel) -> Option<Divisibility>
    ensures { option_map divisibility_of result ≡ select.asked rel }
{
    match rel {
        Rel::Eq => Some(Divisibility::Divisible),
        Rel::Ne => Some(Divisibility::Indivisible),
        _ => None,
    }
}

// A test of slot 0 with a variable: what it asks for, the variable, and the line that it leads to, if there is one.
fn equality_in(group: Group<'_>) -> Option<(Divisibility, Letter, Option<u16>)>
    ensures { option_map equality_of result ≡ select.equality_in (group_of group.entry) }
{
    match group {
        Group::Test(rel, Tested::HeldNow(Operand::InSlot), Operand::Variable(x)) => {
            Some((asked(rel)?, x, None))
        }
        Group::TestGo(rel, Tested::HeldNow(Operand::InSlot), Operand::Variable(x), to) => {
            Some((asked(rel)?, x, Some(to)))
        }
        _ => None,
    }
}

// A test of the held word with slot 0: what it asks for, and the line that it leads to, if there is one.
fn against_in(group: Group<'_>) -> Option<(Divisibility, Option<u16>)>
    ensures { option_map against_of result ≡ select.against_in (group_of group.entry) }
{
    match group {
        Group::Test(rel, Tested::HeldBefore, Operand::InSlot) => Some((asked(rel)?, None)),
        Group::TestGo(rel, Tested::HeldBefore, Operand::InSlot, to) => {
            Some((asked(rel)?, Some(to)))
        }
        _ => None,
    }
}

// Whether two words are fetched from the same source.
fn same_operand(left: Operand, right: Operand) -> bool
    ensures { result ≡ select.same_operand (operand_of left) (operand_of right) }
{
    match (left, right) {
        (Operand::Constant(v), Operand::Constant(w)) => v == w,
        (Operand::Variable(x), Operand::Variable(y)) => x.index() == y.index(),
        _ => false,
    }
}

// A quotient times its divisor: the slot, the variable and the divisor.
fn multiple_in(quotient: Group<'_>, product: Group<'_>) -> Option<(u8, Letter, Operand)>
    ensures { option_map multiple_of result ≡ select.multiple_in (group_of quotient.entry) (group_of product.entry) }
{
    let (slot, x, divisor) = quotient_in(quotient)?;
    let (again, factor) = factor_in(product)?;
    (slot == again && same_operand(divisor, factor)).then_some((slot, x, divisor))
}

// A variable that is held before a multiple of it and their test.
fn divides_right<'a>(
    held: Group<'a>,
    quotient: Group<'a>,
    product: Group<'a>,
    test: Group<'a>,
) -> Option<Group<'a>>
    ensures { option_map group_of result ≡ select.divides_right (select.held_in (group_of held.entry))
        (select.multiple_in (group_of quotient.entry) (group_of product.entry)) (select.against_in
        (group_of test.entry)) }
{
    let x = held_in(held)?;
    let (slot, y, divisor) = multiple_in(quotient, product)?;
    let (how, to) = against_in(test)?;
    (slot == 0 && x.index() == y.index()).then_some(Group::Divides(
        how,
        y,
        divisor,
        Side::OnRight,
        to,
    ))
}

// A variable before a multiple of it, and their difference.
fn remains<'a>(
    loaded: Group<'a>,
    quotient: Group<'a>,
    product: Group<'a>,
    difference: Group<'a>,
) -> Option<Group<'a>>
    ensures { option_map group_of result ≡ select.remains (select.loaded_in (group_of loaded.entry))
        (select.multiple_in (group_of quotient.entry) (group_of product.entry)) (select.difference_in
        (group_of difference.entry)) }
{
    let (into, x) = loaded_in(loaded)?;
    let (slot, y, divisor) = multiple_in(quotient, product)?;
    let to = difference_in(difference)?;
    let is_one = u16::from(slot) == u16::from(into) + 1
        && y.index() == x.index()
        && into == slot_of(to);
    is_one.then_some(Group::Remains(y, divisor, to))
}

/// Three groups as one, if they are a multiple of a divisor before the test with its variable; else `None`.
pub fn three_as_one<'a>(
    quotient: Group<'a>,
    product: Group<'a>,
    test: Group<'a>,
) -> Option<Group<'a>>
    ensures { option_map group_of result ≡ select.three_as_one (group_of quotient.entry) (group_of product.entry) (group_of test.entry) }
{
    let (slot, x, divisor) = multiple_in(quotient, product)?;
    let (how, y, to) = equality_in(test)?;
    (slot == 0 && x.index() == y.index()).then_some(Group::Divides(
        how,
        x,
        divisor,
        Side::OnLeft,
        to,
    ))
}

/// Four groups as one, if they are a variable, a multiple of a divisor, and their test or their difference; else `None`.
pub fn four_as_one<'a>(
    first: Group<'a>,
    quotient: Group<'a>,
    product: Group<'a>,
    last: Group<'a>,
) -> Option<Group<'a>>
    ensures { option_map group_of result ≡ select.four_as_one (group_of first.entry) (group_of quotient.entry)
        (group_of product.entry) (group_of last.entry) }
{
    match divides_right(first, quotient, product, last) {
        Some(group) => Some(group),
        None => remains(first, quotient, product, last),
    }
}
