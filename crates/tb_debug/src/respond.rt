//! What commands do, and their answers.
ghost use Rattle.std.specs.Prelude.{◌≡◌, ℕ, Some, drop, length, map, not, IfOk, OnOk};
ghost use Rattle.tb_words.specs.Letters.{letter_index};
ghost use Rattle.tb_kernal.specs.Machine.{state_of};
ghost use Rattle.tb_disasm.specs.Lines.{shown};
ghost use Rattle.tb_debug.specs.Debuggees.{start_from};
ghost use Rattle.tb_engine_play.specs.Lines.{keys_of_text};
ghost use Rattle.tb_debug.specs.Breakpoints.{breakpoints_of, is_among, is_watched, stops_at_faults, watches_of};
ghost use Rattle.tb_debug.specs.Debuggers.{KeepsRun, KeepsRunTyped, Responds};
ghost use Rattle.tb_debug.specs.Leaving.{Leaves, LeavesAnswered, LeavesPoint, TurnsBreakpoint, TurnsFaults, TurnsWatch};
ghost use Rattle.tb_debug.specs.Kinds.{IsAct, IsShown, IsTold, IsWalk, Walks, lacks_source};
ghost use Rattle.tb_debug.specs.Readings.{bytes_of, code_of, most_code};
ghost use Rattle.tb_debug.specs.Telling.{Tells, TellsAnswered, TellsBreakpoints, TellsStop, TellsText, TellsValue};
ghost use Rattle.tb_debug.specs.Telling.{breakpoint_answer, instruction_here, location_of};
ghost use Rattle.tb_debug.specs.Telling.{code_told, is_limit, line_here, list_answer, memory_told, output_told};
ghost use Rattle.tb_debug.specs.Telling.{location_here, returns_here, returns_told, set_or_cleared};
ghost use Rattle.tb_debug.specs.declared.answer.Answer.TheVariants as answer;

use crate::answer::{Answer, Location, Stand};
use crate::debuggee::Debuggee;
use crate::debugger::Debugger;
use crate::moment::Reached;
use crate::readings::{bytes_from, code_from};
use std::alloc::{AllocError, Global};
use tb_debug_commands::Command;
use tb_debug_inspection::value_of_text;
use tb_disasm::Line;
use tb_engine_play::keys_of_text;
use tb_kernal::{Status, Watch};
use tb_words::Letter;

/// How many lines of code are shown.
const CODE_LINES: usize = 8;

impl<'a> Debugger<'a> {
    /// Does what a command asks for, and answers it; there is no answer to `Quit`. Going on takes at most `limit` events;
    /// a watch hears now and then how many it took.
    pub fn respond<W: Watch>(
        &mut self,
        alloc: Global,
        command: Command<'_>,
        limit: u64,
        watch: &mut W,
    ) -> Result<Option<Answer>, AllocError>
        ensures run { OnOk result (Responds command.entry self.old self.new) }
        ensures tells { IfOk result (Tells limit command.entry self.old self.new) }
        // A command that leads nowhere shows nothing of what was sent.
        ensures shown { OnOk result (¬ (IsWalk command.entry self.old) → self.new.shown ≡ self.old.shown) }
        ensures leaves { OnOk result (Leaves command.entry self.old self.new) }
    {
        match command {
            Command::Quit => Ok(None),
            Command::Type(text) => {
                self.type_line(alloc, text)?;
                Ok(Some(Answer::Typed))
            }
            _ => {
                let answer = self.act(alloc, command, limit, watch)?;
                Ok(Some(answer))
            }
        }
    }

    // Answers a command that types nothing and isn't the end.
    fn act<W: Watch>(
        &mut self,
        alloc: Global,
        command: Command<'_>,
        limit: u64,
        watch: &mut W,
    ) -> Result<Answer, AllocError>
        requires { IsAct command }
        ensures run { OnOk result (KeepsRun self.old self.new) }
        ensures tells { IfOk result (λ told. Tells limit command.entry self.old self.new (Some told)) }
        ensures shown { OnOk result (¬ (IsWalk command.entry self.old) → self.new.shown ≡ self.old.shown) }
        ensures leaves { OnOk result (Leaves command.entry self.old self.new) }
    {
        match self.walk_watched(alloc, command, limit, watch)? {
            Some(reached) => {
                let answer = self.stop(alloc, reached)?;
                Ok(answer)
            }
            None => {
                let answer = self.tell(alloc, command)?;
                Ok(answer)
            }
        }
    }

    // Does what `walk` does, and a watch hears of the beginning and the end.
    fn walk_watched<W: Watch>(
        &mut self,
        alloc: Global,
        command: Command<'_>,
        limit: u64,
        watch: &mut W,
    ) -> Result<Option<Reached>, AllocError>
        ensures run { OnOk result (KeepsRun self.old self.new) }
        ensures walks { IfOk result (λ reached. Walks limit command.entry self.old reached self.new) }
    {
        watch.began();
        let walked = self.walk(alloc, command, limit, watch);
        watch.ended();
        walked
    }

    // Where a command leads that moves the run; none for any other.
    fn walk<W: Watch>(
        &mut self,
        alloc: Global,
        command: Command<'_>,
        limit: u64,
        watch: &mut W,
    ) -> Result<Option<Reached>, AllocError>
        ensures run { OnOk result (KeepsRun self.old self.new) }
        ensures walks { IfOk result (λ reached. Walks limit command.entry self.old reached self.new) }
    {
        match command {
            Command::Next(lines) => Ok(Some(self.next(alloc, lines, limit, watch)?)),
            Command::Previous(lines) => Ok(Some(self.previous(alloc, lines)?)),
            Command::Continue => Ok(Some(self.continue_(alloc, limit, watch)?)),
            Command::Over => Ok(Some(self.over(alloc, limit, watch)?)),
            Command::Finish => Ok(Some(self.finish(alloc, limit, watch)?)),
            Command::ReverseContinue => Ok(Some(self.reverse_continue(alloc)?)),
            Command::ToTime(time) => Ok(Some(self.to_time(alloc, time, limit, watch)?)),
            Command::Step(events) => Ok(Some(self.step(alloc, events)?)),
            Command::ToLine(line) => match self.debuggee.start_of(line) {
                Some(address) => Ok(Some(self.run_to_line(alloc, address, limit, watch)?)),
                None => Ok(None),
            },
            _ => Ok(None),
        }
    }

    /// The stop at which the run is, and what was sent since the last one.
    pub fn stop(&mut self, alloc: Global, reached: Reached) -> Result<Answer, AllocError>
        ensures run { OnOk result (KeepsRun self.old self.new) }
        ensures tells { IfOk result (TellsStop self.old.shown (is_limit reached) self.new) }
        // Nothing else changes.
        ensures shown { OnOk result (self.new ≡ record self.old { shown = length self.old.present.machine.sent }) }
    {
        let sent = self.present.machine.sent();
        let Ok(fresh) = Vec::from_slice(alloc, since(sent, self.shown)) else {
            return Err(AllocError);
        };
        let Ok(instruction) = self.instruction(alloc) else {
            return Err(AllocError);
        };
        self.shown = self.present.machine.sent().len();
        Ok(Answer::Stop(Stand {
            sent: fresh,
            is_limit: is_limit(reached),
            location: self.location(),
            instruction,
        }))
    }

    // The instruction here, if there is no source; none at a closed address.
    fn instruction(&self, alloc: Global) -> Result<Vec<Line>, AllocError>
        ensures { IfOk result (λ lines. map shown lines.items ≡ instruction_here self.now) }
    {
        match self.debuggee {
            Debuggee::Source(_) => Ok(Vec::new(alloc)),
            Debuggee::Prg => self.code_here(alloc, 1),
        }
    }

    // Where the run is.
    fn location(&self) -> Location
        ensures { result ≡ location_here self.now }
    {
        match self.present.machine.status() {
            Status::Running => self.place(),
            status => Location::Ended {
                status,
                pc: self.present.machine.regs().pc,
            },
        }
    }

    // Where the run of a machine is that runs.
    fn place(&self) -> Location
        ensures { result ≡ location_of self.now.debuggee (line_here self.now) }
    {
        match (self.debuggee, self.line()) {
            (Debuggee::Source(_), Some(line)) => Location::Line(line),
            (Debuggee::Source(_), None) => Location::Opening,
            (Debuggee::Prg, _) => Location::Instruction,
        }
    }

    /// The line that begins here, else the one that was begun last.
    pub fn line(&self) -> Option<u16>
        ensures { result ≡ line_here self.now }
    {
        match self.line_here() {
            Some(line) => Some(line),
            None => self.debuggee.line_from(self.present.last),
        }
    }

    // Whether only a source answers a command, and there is none.
    fn lacks_source(&self, command: Command<'_>) -> bool
        ensures { result ≡ lacks_source command.entry self.now }
    {
        match command {
            Command::Watch(_)
            | Command::Faults
            | Command::ListHere
            | Command::List(_)
            | Command::Variables
            | Command::Variable(_)
            | Command::Value(_)
            | Command::Returns => self.debuggee.has_no_source(),
            _ => false,
        }
    }

    // The answer to a command that doesn't move the run.
    fn tell(&mut self, alloc: Global, command: Command<'_>) -> Result<Answer, AllocError>
        requires { IsTold command self.old }
        ensures run { OnOk result (KeepsRun self.old self.new) }
        ensures tells { IfOk result (λ told. (limit : ℕ) → Tells limit command.entry self.old self.new (Some told)) }
        ensures shown { OnOk result (self.new.shown ≡ self.old.shown) }
        ensures leaves { OnOk result (Leaves command.entry self.old self.new) }
    {
        if self.lacks_source(command) {
            Ok(Answer::NoSource)
        } else {
            self.answer(alloc, command)
        }
    }

    // The answer to a command that doesn't move the run, if it needs no source or there is one.
    fn answer(&mut self, alloc: Global, command: Command<'_>) -> Result<Answer, AllocError>
        requires { IsTold command self.old }
        ensures run { OnOk result (KeepsRun self.old self.new) }
        ensures tells { IfOk result (λ told. (limit : ℕ) → TellsAnswered limit command.entry self.old self.new (Some told)) }
        ensures shown { OnOk result (self.new.shown ≡ self.old.shown) }
        ensures leaves { OnOk result (LeavesAnswered command.entry self.old self.new) }
    {
        match command {
            Command::Breakpoint(line) => self.turn_breakpoint(line),
            Command::Watch(letter) => self.turn_watch(letter),
            Command::Faults => Ok(self.turn_faults()),
            Command::Value(text) => self.value(alloc, text),
            Command::Breakpoints => self.breakpoints(alloc),
            Command::Returns => self.return_list(alloc),
            Command::Output => self.output(alloc),
            Command::Memory { at, count } => self.bytes(alloc, at, count),
            Command::Code => self.code(alloc),
            _ => Ok(self.show(command)),
        }
    }

    // The answer to a command that only looks, and needs no memory.
    fn show(&self, command: Command<'_>) -> Answer
        requires { IsShown command self.now }
        ensures { (limit : ℕ) → TellsAnswered limit command.entry self.now self.now (Some result) }
    {
        match command {
            Command::Variables => Answer::Variables(self.variables()),
            Command::Variable(letter) => self.variable(letter),
            Command::ListHere => Answer::List {
                around: self.line(),
                here: self.line(),
            },
            Command::List(line) => self.list(line),
            Command::Registers => Answer::Registers {
                regs: self.present.machine.regs(),
                line: self.debuggee.code_line_at(self.present.machine.regs().pc),
                status: self.present.machine.status(),
            },
            Command::Help => Answer::Help,
            Command::ToLine(_) => Answer::NoSuchLine,
            _ => Answer::What,
        }
    }

    // The source around a line.
    fn list(&self, line: u16) -> Answer
        ensures { result ≡ list_answer (start_from self.now.debuggee line) line (line_here self.now) }
    {
        match self.debuggee.start_of(line) {
            Some(_) => Answer::List {
                around: Some(line),
                here: self.line(),
            },
            None => Answer::NoSuchLine,
        }
    }

    fn turn_breakpoint(&mut self, line: u16) -> Result<Answer, AllocError>
        ensures run { OnOk result (KeepsRun self.old self.new) }
        ensures shown { OnOk result (self.new.shown ≡ self.old.shown) }
        ensures turns { OnOk result (TurnsBreakpoint (start_from self.old.debuggee line) line self.old self.new) }
        ensures answer { IfOk result (λ told. told
            ≡ breakpoint_answer (start_from self.old.debuggee line) (not
            (is_among (breakpoints_of self.old.stops) line))) }
    {
        if self.debuggee.start_of(line).is_none() {
            return Ok(Answer::NoSuchLine);
        }
        let is_set = self.stops.turn_breakpoint(line)?;
        Ok(turned(is_set))
    }

    fn turn_watch(&mut self, letter: Letter) -> Result<Answer, AllocError>
        ensures run { OnOk result (KeepsRun self.old self.new) }
        ensures shown { OnOk result (self.new.shown ≡ self.old.shown) }
        ensures turns { OnOk result (TurnsWatch letter self.old self.new) }
        ensures answer { IfOk result (λ told. told ≡ set_or_cleared (not (is_watched (watches_of self.old.stops) (letter_index letter)))) }
    {
        let is_set = self.stops.turn_watch(letter)?;
        Ok(turned(is_set))
    }

    fn turn_faults(&mut self) -> Answer
        ensures run { KeepsRun self.old self.new }
        ensures shown { self.new.shown ≡ self.old.shown }
        ensures turns { TurnsFaults self.old self.new }
        ensures answer { result ≡ answer.Faults (not (stops_at_faults self.old.stops)) }
    {
        Answer::Faults(self.stops.turn_faults())
    }

    fn breakpoints(&self, alloc: Global) -> Result<Answer, AllocError>
        ensures { IfOk result (λ told. TellsBreakpoints self.now.debuggee (breakpoints_of self.now.stops) (Some told)) }
    {
        let set = Vec::from_slice(alloc, self.stops.breakpoints())?;
        match self.debuggee {
            Debuggee::Source(_) => Ok(Answer::Breakpoints(set)),
            Debuggee::Prg => Ok(Answer::Addresses(set)),
        }
    }

    fn variable(&self, letter: Letter) -> Answer
        ensures { TellsValue letter self.now (Some result) }
    {
        let values = self.variables();
        Answer::Variable {
            index: letter.index(),
            value: values[letter.index()],
        }
    }

    fn value(&self, alloc: Global, text: &[u8]) -> Result<Answer, AllocError>
        ensures { IfOk result (λ told. TellsText text.now self.now (Some told)) }
    {
        match value_of_text(alloc, text, &self.variables())? {
            Some(value) => Ok(Answer::Value(value)),
            None => Ok(Answer::What),
        }
    }

    /// The lines to return to, the newest first; none for a return past the last line.
    pub fn returns(&self, alloc: Global) -> Result<Vec<Option<u16>>, AllocError>
        ensures { IfOk result (λ lines. lines.items ≡ returns_here self.now) }
    {
        self.debuggee.returns(alloc, self.present.machine.memory())
    }

    fn return_list(&self, alloc: Global) -> Result<Answer, AllocError>
        ensures { IfOk result (λ told. returns_told (Some told) ≡ Some (returns_here self.now)) }
    {
        let lines = self.returns(alloc)?;
        Ok(Answer::Returns(lines))
    }

    fn output(&self, alloc: Global) -> Result<Answer, AllocError>
        ensures { IfOk result (λ told. output_told (Some told) ≡ Some self.now.present.machine.sent) }
    {
        let sent = Vec::from_slice(alloc, self.present.machine.sent())?;
        Ok(Answer::Output(sent))
    }

    fn bytes(&self, alloc: Global, at: u16, count: u16) -> Result<Answer, AllocError>
        ensures { IfOk result (λ told. memory_told (Some told) ≡ Some (at, bytes_of (state_of self.now.present.machine).mem at count)) }
    {
        let bytes = bytes_from(alloc, self.present.machine.memory(), at, count)?;
        Ok(Answer::Memory { at, bytes })
    }

    // The code from PC on, up to a closed address.
    fn code(&self, alloc: Global) -> Result<Answer, AllocError>
        ensures { IfOk result (λ told. code_told (Some told)
            ≡ Some (code_of most_code (state_of self.now.present.machine).mem self.now.present.machine.regs.pc)) }
    {
        let lines = self.code_here(alloc, CODE_LINES)?;
        Ok(Answer::Code(lines))
    }

    // At most `count` lines of code from PC on, up to a closed address.
    fn code_here(&self, alloc: Global, count: usize) -> Result<Vec<Line>, AllocError>
        ensures { IfOk result (λ lines. map shown lines.items
            ≡ code_of count (state_of self.now.present.machine).mem self.now.present.machine.regs.pc) }
    {
        let machine = &self.present.machine;
        code_from(alloc, machine.memory(), machine.regs().pc, count)
    }

    // Types a line: its letters as capitals, and a return.
    fn type_line(&mut self, alloc: Global, text: &[u8]) -> Result<(), AllocError>
        ensures run { OnOk result (KeepsRunTyped (keys_of_text text.now) self.old self.new) }
        ensures point { OnOk result (LeavesPoint self.old self.new) }
    {
        let keys = keys_of_text(alloc, text)?;
        self.type_text(keys.as_slice())?;
        Ok(())
    }
}

/// What was sent after the first `shown` bytes.
pub fn since(sent: &[u8], shown: usize) -> &[u8]
    ensures { result.now ≡ drop shown sent.now }
{
    if shown < sent.len() {
        &sent[shown..]
    } else {
        &[]
    }
}

fn is_limit(reached: Reached) -> bool
    ensures { result ≡ is_limit reached }
{
    matches!(reached, Reached::Limit)
}

fn turned(is_set: bool) -> Answer
    ensures { result ≡ set_or_cleared is_set }
{
    if is_set { Answer::Set } else { Answer::Cleared }
}
