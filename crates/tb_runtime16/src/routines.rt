//! The routines, each by its law.
ghost use Rattle.tb_runtime16.specs.Laws.{SendLaw, TextLaw, ZoneLaw, MultiplyLaw, UnsignedLaw, DivideLaw};
ghost use Rattle.tb_runtime16.specs.Laws.{DivideByZeroLaw, NumberLaw, RandomLaw, RandomRangeLaw};
ghost use Rattle.tb_runtime16.specs.Ends.{FaultLaw, FaultLineLaw, PollLaw, PrologueLaw};
ghost use Rattle.tb_runtime16.specs.Input.{InputLaw};
ghost use Rattle.tb_runtime16.specs.Returns.{PushLaw, PushFullLaw, PopLaw, PopNoneLaw};
ghost use Rattle.tb_runtime16.specs.Search.{SearchLaw};
ghost use Rattle.tb_runtime16.specs.Routines.{AllLaws};

/// Send: the byte in A is sent, and the column is updated.
pub fn send()
    ensures { SendLaw }
{}

/// Text: the bytes that POINTER and LENGTH give are sent.
pub fn text()
    ensures { TextLaw }
{}

/// Zone: spaces up to the next column that 8 divides.
pub fn zone()
    ensures { ZoneLaw }
{}

/// Multiply: the product of LEFT and RIGHT, modulo 65,536.
pub fn multiply()
    ensures { MultiplyLaw }
{}

/// Inside Divide: quotient and remainder without signs.
pub fn divide_unsigned()
    ensures { UnsignedLaw }
{}

/// Divide: the quotient of signed words.
pub fn divide()
    ensures { DivideLaw }
{}

/// Divide by 0 goes to Fault with 2.
pub fn divide_by_zero()
    ensures { DivideByZeroLaw }
{}

/// Number: a word is sent in decimal.
pub fn number()
    ensures { NumberLaw }
{}

/// Random: a number below RIGHT.
pub fn random()
    ensures { RandomLaw }
{}

/// Random with a bound below 1 goes to Fault with 3.
pub fn random_range()
    ensures { RandomRangeLaw }
{}

/// Fault: the fault's text is sent, and the machine has returned.
pub fn fault()
    ensures { FaultLaw }
{}

/// Fault, entered with a line's number in X and Y.
pub fn fault_line()
    ensures { FaultLineLaw }
{}

/// Poll: an answer is taken; 3 is fault 0.
pub fn poll()
    ensures { PollLaw }
{}

/// The prologue: from any start to the first line.
pub fn prologue()
    ensures { PrologueLaw }
{}

/// Input: one variable's turn.
pub fn input()
    ensures { InputLaw }
{}

/// Push: one more return.
pub fn push()
    ensures { PushLaw }
{}

/// Push on a full list goes to Fault with 4.
pub fn push_full()
    ensures { PushFullLaw }
{}

/// Pop: the newest return.
pub fn pop()
    ensures { PopLaw }
{}

/// Pop of an empty list goes to Fault with 5.
pub fn pop_none()
    ensures { PopNoneLaw }
{}

/// Search: the address of a line, or Fault with 1.
pub fn search()
    ensures { SearchLaw }
{}

/// All routines, in the form in which the code of the lines needs them, with one bound by the keyboard's length.
pub fn all_routines()
    ensures { AllLaws }
{}
