//! A plain program that runs a source.
ghost use Rattle.std.specs.Prelude.{◌≡◌, [], ◌∷◌, ◌++◌, IfOk, OnOk, MatchResult, map};
ghost use Rattle.tb_words.specs.Letters.{letter_index};
ghost use Rattle.tb_basic_syntax.specs.PlainData.{expression_of, item_of, letters_of, statement_of, lines_of};
ghost use Rattle.tb_basic_syntax.specs.Source.{numbers, Let, Print, Input, Goto, Gosub};
ghost use Rattle.tb_basic_meaning.specs.Control.{go_to, go_sub, go_back, fall, poll, State};
ghost use Rattle.tb_basic_meaning.specs.Input.{Nothing, input, take_turn, turn};
ghost use Rattle.tb_basic_meaning.specs.Interpreted.{state_of, HasValue, HasRelation, Ran, IsStopped, IsRun};
ghost use Rattle.tb_basic_meaning.specs.Meaning.{print_item, print_items, inputs, does, line, start, stored, source_run};
ghost use Rattle.tb_basic_meaning.specs.Parts.{place_of, fault_of};
ghost use Rattle.tb_basic_meaning.specs.Steps.{Run, GoesOn, and_then, advance_by};
ghost use Rattle.tb_basic_meaning.specs.Values.{Gives, Fails, random, value};

use crate::evaluation::{apply_words, negated};
use crate::faults::{Fault, RunStop};
use crate::output::Output;
use crate::places::{Place, first_place, has_line, highest, next_after, statement_at};
use crate::turns::{Turn, take_number};
use std::alloc::{AllocError, Global};
use tb_basic_syntax::{Expr, PrintItem, Program, Statement};
use tb_words::{LETTERS, Letter, Rel, holds, next_seed};

/// How many returns can be noted.
pub const DEEPEST: usize = 500;

/// How far a run has come.
#[derive(Clone, Copy, PartialEq, Eq, Debug, Drop)]
pub enum RunEnd {
    /// It has not ended; more lines can be run.
    GoesOn,
    /// By END.
    Ended,
    /// By a fault, whose text was sent.
    Faulted,
    /// For a key, in INPUT.
    Waits,
}

/// What a run has sent so far, and how far it has come.
#[derive(Debug, Drop)]
pub struct SourceRun {
    pub sent: Vec<u8>,
    pub end: RunEnd,
    /// The place at which it goes on.
    pub place: Place,
    /// The words of A to Z, if it goes on.
    pub variables: [u16; LETTERS],
}

/// Runs at most `limit` lines of a program with the first seed of RND, the keyboard's text and the answers to the polls
/// at the beginnings of lines, where 3 is a break. Fails only if memory runs out.
pub fn run_source(
    alloc: Global,
    program: &Program,
    seed: u16,
    text: &[u8],
    answers: &[u8],
    limit: u64,
) -> Result<SourceRun, AllocError>
    ensures { IfOk result (λ run. IsRun (source_run (lines_of program.now) seed text.now answers.now limit) run.end
        run.sent.items (place_of run.place) run.variables) }
{
    let mut interpreter = Interpreter::new(alloc, program, seed, text, answers);
    let end = interpreter.run(program, limit)?;
    Ok(SourceRun {
        sent: interpreter.output.sent,
        end,
        place: interpreter.place,
        variables: interpreter.variables,
    })
}

/// A run of a program between two lines.
#[derive(Drop)]
pub struct Interpreter<'a> {
    pub place: Place,
    /// The words of A to Z.
    pub variables: [u16; LETTERS],
    pub seed: u16,
    /// The places to return to, the newest last.
    pub returns: Vec<Place>,
    /// Whether an input line is open.
    pub open_line: bool,
    /// What is left of the keyboard's text.
    pub text: &'a [u8],
    /// The answers not yet taken.
    pub answers: &'a [u8],
    pub output: Output,
}

impl<'a> Interpreter<'a> {
    fn new(alloc: Global, program: &Program, seed: u16, text: &'a [u8], answers: &'a [u8]) -> Self
        ensures state { state_of result ≡ start (numbers (lines_of program.now)) seed text.now answers.now }
        ensures sent { result.output.sent.items ≡ [] }
    {
        Interpreter {
            place: first_place(program),
            variables: [0; LETTERS],
            seed,
            returns: Vec::new(alloc),
            open_line: false,
            text,
            answers,
            output: Output::new(alloc),
        }
    }

    // Runs at most `limit` lines, and sends a fault's text.
    fn run(&mut self, program: &Program, limit: u64) -> Result<RunEnd, AllocError>
        ensures { IfOk result (λ end. IsRun (advance_by (line (lines_of program.now)) limit
            (GoesOn (state_of self.old) self.old.output.sent.items)) end self.new.output.sent.items
            (place_of self.new.place) self.new.variables) }
    {
        for _ in 0..limit {
            match self.line(program) {
                Ok(()) => {}
                Err(stop) => return self.stop(stop),
            }
        }
        Ok(RunEnd::GoesOn)
    }

    fn stop(&mut self, stop: RunStop) -> Result<RunEnd, AllocError>
        ensures { IfOk result (λ end. (r : Run State) → IsStopped r self.old.output.sent.items stop
            → IsRun r end self.new.output.sent.items (place_of self.new.place) self.new.variables) }
    {
        match stop {
            RunStop::Ended => Ok(RunEnd::Ended),
            RunStop::Waits => Ok(RunEnd::Waits),
            RunStop::Fault(fault, number) => {
                self.output.send_fault(fault, number)?;
                Ok(RunEnd::Faulted)
            }
            RunStop::NoMemory => Err(AllocError),
        }
    }

    // One line.
    fn line(&mut self, program: &Program) -> Result<(), RunStop>
        ensures { Ran (line (lines_of program.now) (state_of self.old)) self.old self.new result }
    {
        if let Place::At(number) = self.place {
            if let Some(statement) = statement_at(program, number) {
                return self.polled(program, number, statement);
            }
        }
        Err(RunStop::Fault(Fault::PastLast, highest(program)))
    }

    // Takes an answer, and runs the statement of the line with this number.
    fn polled(
        &mut self,
        program: &Program,
        number: u16,
        statement: &Statement,
    ) -> Result<(), RunStop>
        ensures { Ran (and_then (poll number (state_of self.old)) (does (numbers (lines_of program.now)) number
            (statement_of statement.now))) self.old self.new result }
    {
        self.poll(number)?;
        self.statement(program, number, statement)
    }

    // Takes an answer, which may be a break.
    fn poll(&mut self, number: u16) -> Result<(), RunStop>
        ensures { Ran (poll number (state_of self.old)) self.old self.new result }
    {
        if let Some((answer, rest)) = self.answers.split_first() {
            if *answer == 3 {
                return Err(RunStop::Fault(Fault::Break, number));
            }
            self.answers = rest;
        }
        Ok(())
    }

    fn statement(
        &mut self,
        program: &Program,
        number: u16,
        statement: &Statement,
    ) -> Result<(), RunStop>
        ensures { Ran (does (numbers (lines_of program.now)) number (statement_of statement.now) (state_of self.old))
            self.old self.new result }
    {
        match statement {
            Statement::Let(x, e) => self.assign(program, number, *x, e),
            Statement::Print(items, ends_line) => self.print(program, number, items, *ends_line),
            Statement::Input(letters) => self.input(program, number, letters),
            Statement::If(l, rel, r, statement) => {
                if self.relate(number, l, *rel, r)? {
                    self.statement(program, number, statement)
                } else {
                    self.fall(program, number)
                }
            }
            Statement::Goto(target) => self.go_to(program, number, target),
            Statement::Gosub(target) => self.go_sub(program, number, target),
            Statement::Return => self.go_back(number),
            Statement::End => Err(RunStop::Ended),
            Statement::Remark => self.fall(program, number),
        }
    }

    fn assign(
        &mut self,
        program: &Program,
        number: u16,
        letter: Letter,
        e: &Expr,
    ) -> Result<(), RunStop>
        ensures { Ran (does (numbers (lines_of program.now)) number (Let (letter_index letter) (expression_of e.now))
            (state_of self.old)) self.old self.new result }
    {
        let value = self.value(number, e)?;
        self.store(letter, value);
        self.fall(program, number)
    }

    fn print(
        &mut self,
        program: &Program,
        number: u16,
        items: &[PrintItem],
        ends_line: bool,
    ) -> Result<(), RunStop>
        ensures { Ran (does (numbers (lines_of program.now)) number (Print (map item_of items.now) ends_line)
            (state_of self.old)) self.old self.new result }
    {
        self.print_items(number, items)?;
        if ends_line {
            self.output.send(b'\r')?;
        }
        self.fall(program, number)
    }

    fn input(&mut self, program: &Program, number: u16, letters: &[Letter]) -> Result<(), RunStop>
        ensures { Ran (does (numbers (lines_of program.now)) number (Input (letters_of letters.now))
            (state_of self.old)) self.old self.new result }
    {
        self.take_inputs(number, letters)?;
        self.fall(program, number)
    }

    // Whether the relation holds between the values of two expressions.
    fn relate(&mut self, number: u16, l: &Expr, rel: Rel, r: &Expr) -> Result<bool, RunStop>
        ensures { HasRelation number (expression_of l.now) rel (expression_of r.now) self.old self.new result }
    {
        let left = self.value(number, l)?;
        let right = self.value(number, r)?;
        Ok(holds(rel, left.cast_signed(), right.cast_signed()))
    }

    // Goes on to the next line.
    fn fall(&mut self, program: &Program, number: u16) -> Result<(), RunStop>
        ensures { Ran (fall (numbers (lines_of program.now)) number (state_of self.old)) self.old self.new result }
    {
        self.place = next_after(program, number);
        Ok(())
    }

    fn go_to(&mut self, program: &Program, number: u16, target: &Expr) -> Result<(), RunStop>
        ensures { Ran (does (numbers (lines_of program.now)) number (Goto (expression_of target.now))
            (state_of self.old)) self.old self.new result }
    {
        let target = self.value(number, target)?;
        self.jump(program, number, target)
    }

    fn jump(&mut self, program: &Program, number: u16, target: u16) -> Result<(), RunStop>
        ensures { Ran (go_to (numbers (lines_of program.now)) number target (state_of self.old)) self.old self.new result }
    {
        if !has_line(program, target) {
            return Err(RunStop::Fault(Fault::NoLine, number));
        }
        self.place = Place::At(target);
        Ok(())
    }

    fn go_sub(&mut self, program: &Program, number: u16, target: &Expr) -> Result<(), RunStop>
        ensures { Ran (does (numbers (lines_of program.now)) number (Gosub (expression_of target.now))
            (state_of self.old)) self.old self.new result }
    {
        let target = self.value(number, target)?;
        self.call(program, number, target)
    }

    fn call(&mut self, program: &Program, number: u16, target: u16) -> Result<(), RunStop>
        ensures { Ran (go_sub (numbers (lines_of program.now)) number target (state_of self.old)) self.old self.new result }
    {
        if !has_line(program, target) {
            return Err(RunStop::Fault(Fault::NoLine, number));
        }
        if self.returns.len() >= DEEPEST {
            return Err(RunStop::Fault(Fault::ReturnsTooDeep, number));
        }
        push_return(&mut self.returns, next_after(program, number))?;
        self.place = Place::At(target);
        Ok(())
    }

    fn go_back(&mut self, number: u16) -> Result<(), RunStop>
        ensures { Ran (go_back number (state_of self.old)) self.old self.new result }
    {
        match self.returns.pop() {
            Some(place) => {
                self.place = place;
                Ok(())
            }
            None => Err(RunStop::Fault(Fault::NoReturn, number)),
        }
    }

    fn print_items(&mut self, number: u16, items: &[PrintItem]) -> Result<(), RunStop>
        ensures { Ran (print_items number (map item_of items.now) (state_of self.old)) self.old self.new result }
    {
        for item in items {
            self.print_item(number, item)?;
        }
        Ok(())
    }

    fn print_item(&mut self, number: u16, item: &PrintItem) -> Result<(), RunStop>
        ensures { Ran (print_item number (item_of item.now) (state_of self.old)) self.old self.new result }
    {
        match item {
            PrintItem::Text(text) => self.output.send_all(text)?,
            PrintItem::Value(e) => {
                let value = self.value(number, e)?;
                self.output.send_number(value)?;
            }
            PrintItem::Zone => self.output.send_zone()?,
        }
        Ok(())
    }

    fn take_inputs(&mut self, number: u16, letters: &[Letter]) -> Result<(), RunStop>
        ensures { Ran (inputs number (letters_of letters.now) (state_of self.old)) self.old self.new result }
    {
        for letter in letters {
            self.take_input(number, *letter)?;
        }
        Ok(())
    }

    // One variable's turn.
    fn take_input(&mut self, number: u16, letter: Letter) -> Result<(), RunStop>
        ensures { Ran (input number (letter_index letter) (state_of self.old)) self.old self.new result }
    {
        if !self.open_line {
            self.output.send_all(b"? ")?;
        }
        self.take_turn(number, letter)
    }

    fn take_turn(&mut self, number: u16, letter: Letter) -> Result<(), RunStop>
        ensures { Ran (take_turn number (letter_index letter) (turn Nothing (state_of self.old).text)
            (state_of self.old)) self.old self.new result }
    {
        match take_number(self.text) {
            Turn::Got(word, stays_open, rest) => {
                self.store(letter, word);
                self.open_line = stays_open;
                self.text = rest;
                if !stays_open {
                    self.output.send(b'\r')?;
                }
                Ok(())
            }
            Turn::Bad => Err(RunStop::Fault(Fault::BadInput, number)),
            Turn::Dry => Err(RunStop::Waits),
        }
    }

    fn store(&mut self, letter: Letter, value: u16)
        ensures state { state_of self.new ≡ stored (letter_index letter) value (state_of self.old) }
        ensures output { self.new.output ≡ self.old.output }
    {
        self.variables[letter.index()] = value;
    }

    // The value of an expression.
    fn value(&mut self, number: u16, e: &Expr) -> Result<u16, RunStop>
        ensures { HasValue number (expression_of e.now) self.old self.new result }
    {
        match value(e, &self.variables, &mut self.seed) {
            Ok(value) => Ok(value),
            Err(fault) => Err(RunStop::Fault(fault, number)),
        }
    }
}

fn push_return(returns: &mut Vec<Place>, place: Place) -> Result<(), AllocError>
    ensures { OnOk result (returns.new.items ≡ returns.old.items ++ place ∷ []) }
{
    returns.push(place)?;
    Ok(())
}

// The value of an expression, the left operand first; RND moves the seed on.
fn value(e: &Expr, variables: &[u16; LETTERS], seed: &mut u16) -> Result<u16, Fault>
    ensures { MatchResult result (λ v. value (expression_of e.now) variables.now seed.old ≡ Gives v seed.new)
        (λ k. value (expression_of e.now) variables.now seed.old ≡ Fails (fault_of k)) }
{
    match e {
        Expr::Number(n) => Ok(*n),
        Expr::Variable(x) => Ok(variables[x.index()]),
        Expr::Negate(e) => Ok(negated(value(e, variables, seed)?)),
        Expr::Binary(op, l, r) => {
            let a = value(l, variables, seed)?;
            let b = value(r, variables, seed)?;
            apply_words(*op, a, b).ok_or(Fault::DivisionByZero)
        }
        Expr::Random(e) => {
            let bound = value(e, variables, seed)?;
            random(bound, seed)
        }
    }
}

// RND of a bound.
fn random(bound: u16, seed: &mut u16) -> Result<u16, Fault>
    ensures { MatchResult result (λ v. random bound seed.old ≡ Gives v seed.new) (λ k. random bound seed.old ≡ Fails (fault_of k)) }
{
    if bound == 0 || bound >= 32768 {
        return Err(Fault::RandomRange);
    }
    *seed = next_seed(*seed);
    Ok(*seed % bound)
}
