//! Slot instructions as groups.
ghost use Rattle.std.specs.Prelude.{◌≡◌, ◌∷◌, IfOk, OnOk, map, option_map, take};
ghost use Rattle.tb_lower.specs.PlainData.{instr_of};
ghost use Rattle.tb_compiler_selection.specs.Groups.{expand_all};
ghost use Rattle.tb_compiler_selection.specs.Laws.{AreLive, IsJoined};
ghost use Rattle.tb_compiler_selection.specs.Liveness.{live};
ghost use Rattle.tb_compiler_selection.specs.Select as select;
ghost use Rattle.tb_compiler_selection.specs.PlainData.{both_of, conversion_of, destination_of, group_of, groups_in, in_order};
ghost use Rattle.tb_compiler_selection.specs.PlainData.{operand_of, placed_of, tested_of, words_of};

use crate::fusion::{four_as_one, three_as_one};
use crate::groups::{Conversion, Destination, Group, Home, Operand, Tested, Usage};
use crate::liveness::{Live, live_before};
use std::alloc::{AllocError, Global};
use tb_basic_syntax::Operator;
use tb_lower::SlotInstr;
use tb_words::Rel;

/// A group, and what is live after it.
#[derive(Clone, Copy, Drop)]
pub struct Placed<'a> {
    /// The group.
    pub group: Group<'a>,
    /// What is live after it.
    pub behind: Live,
}

// An instruction as a group of its own.
fn alone(instr: &SlotInstr) -> Group<'_>
    ensures { group_of result ≡ select.alone (instr_of instr.now) }
{
    match instr {
        SlotInstr::Store(x) => Group::Move(Operand::InSlot, Home::IntoVariable(*x)),
        SlotInstr::Hold => Group::Move(Operand::InSlot, Home::IntoHeld),
        SlotInstr::Compute(op, slot) => Group::Calculate(
            *op,
            Operand::InSlot,
            Operand::InSlot,
            Destination::IntoSlot(*slot),
        ),
        SlotInstr::Negate(slot) => convert_in_slot(Conversion::Negated, *slot),
        SlotInstr::Random(slot) => convert_in_slot(Conversion::Drawn, *slot),
        SlotInstr::SendNumber => Group::Use(Usage::AsNumber, Operand::InSlot),
        SlotInstr::Jump => Group::Use(Usage::AsLine, Operand::InSlot),
        SlotInstr::Call => Group::Use(Usage::AsSubroutine, Operand::InSlot),
        SlotInstr::LeaveUnless(rel) => Group::Test(*rel, Tested::HeldBefore, Operand::InSlot),
        _ => Group::Single(instr),
    }
}

// A conversion of the word in a slot.
fn convert_in_slot<'a>(what: Conversion, slot: u8) -> Group<'a>
    ensures { group_of result ≡ Rattle.tb_compiler_selection.specs.Groups.Convert
        (conversion_of what) Rattle.tb_compiler_selection.specs.Groups.InSlot (Rattle.tb_compiler_selection.specs.Groups.IntoSlot slot) }
{
    Group::Convert(what, Operand::InSlot, Destination::IntoSlot(slot))
}

/// The slot in which a result is computed: 0 if it goes from there to a home.
pub fn slot_of(destination: Destination) -> u8
    ensures { result ≡ Rattle.tb_compiler_selection.specs.Groups.slot_of (destination_of destination) }
{
    match destination {
        Destination::IntoSlot(slot) => slot,
        Destination::IntoHome(_) => 0,
    }
}

// A calculation with a word fetched into a slot before it.
fn calculate_with<'a>(
    slot: u8,
    word: Operand,
    op: Operator,
    left: Operand,
    right: Operand,
    destination: Destination,
) -> Option<Group<'a>>
    ensures { option_map group_of result ≡ select.calculate_with slot (operand_of word) op (operand_of left)
        (operand_of right) (destination_of destination) }
{
    let into = slot_of(destination);
    match (left, right) {
        (Operand::InSlot, Operand::InSlot) => (u16::from(slot) == u16::from(into) + 1).then_some(
            Group::Calculate(op, Operand::InSlot, word, destination),
        ),
        (Operand::InSlot, _) => {
            (slot == into).then_some(Group::Calculate(op, word, right, destination))
        }
        _ => None,
    }
}

// The operands of a calculation in slot 0 with a word fetched into a slot before it.
fn operands_with(
    slot: u8,
    word: Operand,
    left: Operand,
    right: Operand,
) -> Option<(Operand, Operand)>
    ensures { option_map both_of result ≡ select.operands_with slot (operand_of word) (operand_of left) (operand_of right) }
{
    match (left, right) {
        (Operand::InSlot, Operand::InSlot) => (slot == 1).then_some((left, word)),
        (Operand::InSlot, _) => (slot == 0).then_some((word, right)),
        _ => None,
    }
}

// The words of a test with a word fetched into a slot before it.
fn words_with(slot: u8, word: Operand, left: Tested, right: Operand) -> Option<(Tested, Operand)>
    ensures { option_map words_of result ≡ select.words_with slot (operand_of word) (tested_of left) (operand_of right) }
{
    if slot > 0 {
        return None;
    }
    match (left, right) {
        (Tested::HeldBefore, Operand::InSlot) => Some((left, word)),
        (Tested::HeldNow(Operand::InSlot), _) => Some((Tested::HeldNow(word), right)),
        _ => None,
    }
}

// A group with a word fetched into a slot before it.
fn with_word(slot: u8, word: Operand, group: Group<'_>) -> Option<Group<'_>>
    ensures { option_map group_of result ≡ select.with_word slot (operand_of word) (group_of group.entry) }
{
    match group {
        Group::Calculate(op, left, right, destination) => {
            calculate_with(slot, word, op, left, right, destination)
        }
        Group::Stepped(op, left, right, by, with, x) => {
            let (left, right) = operands_with(slot, word, left, right)?;
            Some(Group::Stepped(op, left, right, by, with, x))
        }
        Group::Convert(what, Operand::InSlot, destination) => {
            (slot == slot_of(destination)).then_some(Group::Convert(what, word, destination))
        }
        Group::Move(Operand::InSlot, home) => (slot == 0).then_some(Group::Move(word, home)),
        Group::Use(how, Operand::InSlot) => (slot == 0).then_some(Group::Use(how, word)),
        Group::Test(rel, left, right) => {
            let (left, right) = words_with(slot, word, left, right)?;
            Some(Group::Test(rel, left, right))
        }
        Group::TestGo(rel, left, right, to) => {
            let (left, right) = words_with(slot, word, left, right)?;
            Some(Group::TestGo(rel, left, right, to))
        }
        _ => None,
    }
}

// Whether a word in a variable goes on with this constant in place.
fn goes_on(op: Operator, word: u16) -> bool
    ensures { result ≡ select.goes_on op word }
{
    match op {
        Operator::Add | Operator::Subtract => true,
        Operator::Multiply | Operator::Divide => word == 2,
    }
}

// The calculation of slot 0 before a move of it, or before its way into a variable by a constant.
fn calculated(op: Operator, slot: u8, group: Group<'_>) -> Option<Group<'_>>
    ensures { option_map group_of result ≡ select.calculated op slot (group_of group.entry) }
{
    match group {
        Group::Move(Operand::InSlot, home) => (slot == 0).then_some(Group::Calculate(
            op,
            Operand::InSlot,
            Operand::InSlot,
            Destination::IntoHome(home),
        )),
        Group::Calculate(
            by,
            Operand::InSlot,
            Operand::Constant(word),
            Destination::IntoHome(Home::IntoVariable(x)),
        ) => (slot == 0 && goes_on(by, word)).then_some(Group::Stepped(
            op,
            Operand::InSlot,
            Operand::InSlot,
            by,
            word,
            x,
        )),
        _ => None,
    }
}

// The conversion of slot 0 before a move of it.
fn converted(what: Conversion, slot: u8, group: Group<'_>) -> Option<Group<'_>>
    ensures { option_map group_of result ≡ select.converted (conversion_of what) slot (group_of group.entry) }
{
    match group {
        Group::Move(Operand::InSlot, home) => (slot == 0).then_some(Group::Convert(
            what,
            Operand::InSlot,
            Destination::IntoHome(home),
        )),
        _ => None,
    }
}

// Slot 0 held before a test of the held word.
fn held_before(group: Group<'_>) -> Option<Group<'_>>
    ensures { option_map group_of result ≡ select.held_before (group_of group.entry) }
{
    let held = Tested::HeldNow(Operand::InSlot);
    match group {
        Group::Test(rel, Tested::HeldBefore, right) => Some(Group::Test(rel, held, right)),
        Group::TestGo(rel, Tested::HeldBefore, right, to) => {
            Some(Group::TestGo(rel, held, right, to))
        }
        _ => None,
    }
}

// An instruction and the group after it as one group, if there is one.
fn merged<'a>(instr: &SlotInstr, group: Group<'a>) -> Option<Group<'a>>
    ensures { option_map group_of result ≡ select.merged (instr_of instr.now) (group_of group.entry) }
{
    match (instr, group) {
        (SlotInstr::Put(slot, word), _) => with_word(*slot, Operand::Constant(*word), group),
        (SlotInstr::Load(slot, x), _) => with_word(*slot, Operand::Variable(*x), group),
        (SlotInstr::Compute(op, slot), _) => calculated(*op, *slot, group),
        (SlotInstr::Negate(slot), _) => converted(Conversion::Negated, *slot, group),
        (SlotInstr::Random(slot), _) => converted(Conversion::Drawn, *slot, group),
        (SlotInstr::Hold, _) => held_before(group),
        (SlotInstr::LeaveUnless(rel), Group::Single(SlotInstr::JumpTo(to))) => Some(Group::TestGo(
            *rel,
            Tested::HeldBefore,
            Operand::InSlot,
            *to,
        )),
        _ => None,
    }
}

// Whether what the template of a test need not write is dead after it.
fn test_words_dead(left: Tested, right: Operand, behind: Live) -> bool
    ensures { result ≡ select.test_words_dead (tested_of left) (operand_of right) behind }
{
    match (left, right) {
        (Tested::HeldBefore, Operand::InSlot) => true,
        (Tested::HeldBefore, _) => behind.slots == 0,
        (Tested::HeldNow(_), Operand::InSlot) => false,
        (Tested::HeldNow(_), _) => behind.slots == 0 && !behind.held,
    }
}

// Whether what a group's template need not write is dead after it.
fn omits_only_dead(group: Group<'_>, behind: Live) -> bool
    ensures { result ≡ select.omits_only_dead (group_of group.entry) behind }
{
    match group {
        Group::Calculate(_, Operand::InSlot, Operand::InSlot, Destination::IntoSlot(_)) => true,
        Group::Calculate(_, _, _, Destination::IntoSlot(slot)) => {
            behind.slots <= u16::from(slot) + 1
        }
        Group::Convert(_, _, Destination::IntoSlot(_)) => true,
        Group::Calculate(_, _, _, Destination::IntoHome(_))
        | Group::Stepped(_, _, _, _, _, _)
        | Group::Convert(_, _, Destination::IntoHome(_))
        | Group::Remains(_, _, Destination::IntoHome(_)) => behind.slots == 0,
        Group::Remains(_, _, Destination::IntoSlot(slot)) => behind.slots <= u16::from(slot) + 1,
        Group::Move(Operand::InSlot, _) | Group::Use(_, Operand::InSlot) => true,
        Group::Move(_, _) | Group::Use(_, _) => behind.slots == 0,
        Group::Test(_, left, right) | Group::TestGo(_, left, right, _) => {
            test_words_dead(left, right, behind)
        }
        Group::Divides(_, _, _, _, _) => behind.slots == 0 && !behind.held,
        Group::Single(_) => true,
    }
}

// Whether a group may be before these groups, the first of which is the last of the slice.
fn may_stand(group: Group<'_>, behind: &[Placed<'_>]) -> bool
    ensures { result ≡ select.may_stand (group_of group.entry) (groups_in (in_order behind.now)) }
{
    match group {
        Group::TestGo(_, _, _, _) | Group::Divides(_, _, _, _, Some(_)) => behind.is_empty(),
        _ => true,
    }
}

// A group before these, the first of which is the last of the slice, if what it omits is dead and it may be there.
fn allowed<'a>(group: Option<Group<'a>>, behind: Live, rest: &[Placed<'a>]) -> Option<Group<'a>>
    requires { behind ≡ live (expand_all (groups_in (in_order rest.now))) }
    ensures { option_map group_of result ≡ select.allowed (option_map group_of group.entry) (groups_in (in_order rest.now)) }
{
    let whole = group?;
    (omits_only_dead(whole, behind) && may_stand(whole, rest)).then_some(whole)
}

// The group that this one and the last of these make together, and how many of these are before them.
fn joined<'a>(first: Group<'a>, groups: &[Placed<'a>]) -> Option<(Placed<'a>, usize)>
    requires { AreLive (in_order groups.now) }
    ensures { IsJoined (group_of first.entry) groups.now result }
{
    let Some((second, rest)) = groups.split_last() else {
        return None;
    };
    let Some((third, rest)) = rest.split_last() else {
        return None;
    };
    let behind = third.behind;
    let whole = three_as_one(first, second.group, third.group);
    if let Some(group) = allowed(whole, behind, rest) {
        return Some((Placed { group, behind }, rest.len()));
    }
    let Some((fourth, rest)) = rest.split_last() else {
        return None;
    };
    let behind = fourth.behind;
    let whole = four_as_one(first, second.group, third.group, fourth.group);
    match allowed(whole, behind, rest) {
        Some(group) => Some((Placed { group, behind }, rest.len())),
        None => None,
    }
}

// Puts a group before groups, the first of which is last in the list: as one with the first of them, if possible.
fn put_before<'a>(groups: &mut Vec<Placed<'a>>, first: Placed<'a>) -> Result<(), AllocError>
    requires { AreLive (placed_of first ∷ in_order groups.old.items) }
    ensures put { OnOk result (groups_in (in_order groups.new.items) ≡ select.fused (group_of first.entry.group)
        (groups_in (in_order groups.old.items))) }
    ensures live { OnOk result (AreLive (in_order groups.new.items)) }
{
    let whole = match joined(first.group, groups) {
        Some((whole, count)) => {
            groups.truncate(count);
            whole
        }
        None => first,
    };
    groups.push(whole)?;
    Ok(())
}

// Puts an instruction before groups, the first of which is last in the list and before which `before` is live.
fn attach<'a>(
    groups: &mut Vec<Placed<'a>>,
    instr: &'a SlotInstr,
    before: Live,
) -> Result<(), AllocError>
    requires before { before ≡ live (expand_all (groups_in (in_order groups.old.items))) }
    requires live { AreLive (in_order groups.old.items) }
    ensures attached { OnOk result (groups_in (in_order groups.new.items) ≡ select.attach (instr_of instr.now)
        (groups_in (in_order groups.old.items))) }
    ensures live { OnOk result (AreLive (in_order groups.new.items)) }
{
    let group = alone(instr);
    let single = Placed {
        group,
        behind: before,
    };
    let Some(first) = groups.pop() else {
        groups.push(single)?;
        return Ok(());
    };
    let behind = first.behind;
    match allowed(merged(instr, first.group), behind, groups) {
        Some(group) => put_before(groups, Placed { group, behind }),
        None => {
            groups.push(first)?;
            put_before(groups, single)
        }
    }
}

/// The groups of a line's list, each as long as it can be: their instructions, one group after another, are the list.
/// Fails if memory runs out.
pub fn select<'a>(alloc: Global, code: &'a [SlotInstr]) -> Result<Vec<Group<'a>>, AllocError>
    ensures selected { IfOk result (λ groups. map group_of groups.items ≡ select.select (map instr_of code.now)) }
    ensures bracketed { IfOk result (λ groups. expand_all (map group_of groups.items) ≡ map instr_of code.now) }
{
    let mut placed = Vec::new(alloc);
    let mut groups = Vec::new(alloc);
    select_in(&mut placed, &mut groups, code)?;
    Ok(groups)
}

/// Selects as `select`, in the place of what `groups` held. Both lists only lend their room, so that not each line asks
/// for its own.
pub fn select_in<'a>(
    placed: &mut Vec<Placed<'a>>,
    groups: &mut Vec<Group<'a>>,
    code: &'a [SlotInstr],
) -> Result<(), AllocError>
    ensures selected { OnOk result (map group_of groups.new.items ≡ select.select (map instr_of code.now)) }
    ensures bracketed { OnOk result (expand_all (map group_of groups.new.items) ≡ map instr_of code.now) }
{
    placed.clear();
    groups.clear();
    let mut before = Live::NOTHING;
    let mut rest = code;
    while let Some((instr, front)) = rest.split_last() {
        attach(placed, instr, before)?;
        before = live_before(instr, before);
        rest = front;
    }
    while let Some(first) = placed.pop() {
        groups.push(first.group)?;
    }
    Ok(())
}
