//! Groups: consecutive slot instructions that have one template.
use tb_basic_syntax::Operator;
use tb_lower::SlotInstr;
use tb_words::{Letter, Rel};

/// Where a word comes from.
#[derive(Clone, Copy, Debug, Drop)]
pub enum Operand {
    /// A constant.
    Constant(u16),
    /// A variable.
    Variable(Letter),
    /// The slot that it is in already.
    InSlot,
}

/// Where slot 0 goes.
#[derive(Clone, Copy, Debug, Drop)]
pub enum Home {
    /// Into a variable.
    IntoVariable(Letter),
    /// Into the held word.
    IntoHeld,
}

/// Where a result goes.
#[derive(Clone, Copy, Debug, Drop)]
pub enum Destination {
    /// It stays in this slot.
    IntoSlot(u8),
    /// From slot 0 to a home.
    IntoHome(Home),
}

/// The left word of a test.
#[derive(Clone, Copy, Debug, Drop)]
pub enum Tested {
    /// The word that was held before.
    HeldBefore,
    /// A word that is held now.
    HeldNow(Operand),
}

/// What is made of one word.
#[derive(Clone, Copy, Debug, Drop)]
pub enum Conversion {
    /// Its negation.
    Negated,
    /// A random number below it.
    Drawn,
}

/// What one word is used as.
#[derive(Clone, Copy, Debug, Drop)]
pub enum Usage {
    /// A number that is sent.
    AsNumber,
    /// The number of a line that is gone to.
    AsLine,
    /// The number of a line that is called.
    AsSubroutine,
}

/// What a test by a divisor asks for.
#[derive(Clone, Copy, Debug, Drop)]
pub enum Divisibility {
    /// A multiple of the divisor.
    Divisible,
    /// Any other word.
    Indivisible,
}

/// The side of a test that a multiple of its divisor is on.
#[derive(Clone, Copy, Debug, Drop)]
pub enum Side {
    /// The multiple is held, and the variable is compared with it.
    OnLeft,
    /// The variable is held, and the multiple is compared with it.
    OnRight,
}

/// Consecutive slot instructions that have one template.
#[derive(Clone, Copy, Debug, Drop)]
pub enum Group<'a> {
    /// A left operand combined with a right one, and where the result goes.
    Calculate(Operator, Operand, Operand, Destination),
    /// A left operand combined with a right one, the result combined with a constant, and the variable that it goes to.
    Stepped(Operator, Operand, Operand, Operator, u16, Letter),
    /// A word made of one operand, and where it goes.
    Convert(Conversion, Operand, Destination),
    /// A word to its home.
    Move(Operand, Home),
    /// A word that is used.
    Use(Usage, Operand),
    /// A test that leaves the line unless the two words are in this relation.
    Test(Rel, Tested, Operand),
    /// A test that goes straight to the line of this number if the two words are in this relation, and else leaves the line.
    TestGo(Rel, Tested, Operand, u16),
    /// A test whether a divisor divides a variable, which leaves the line or goes straight to the line of this number.
    Divides(Divisibility, Letter, Operand, Side, Option<u16>),
    /// The remainder of a variable by a divisor, with the variable's sign, and where it goes.
    Remains(Letter, Operand, Destination),
    /// A single instruction.
    Single(&'a SlotInstr),
}
