//! A program that is debugged, and what is said to requests.
ghost use Rattle.std.specs.Prelude.{◌≡◌, ◌+◌, ◌<◌, ◌^◌, ◌∷◌, ◌++◌, [], IfOk, OnOk, Some, length, map, option_map};
ghost use Rattle.serde_json.specs.View.{view};
ghost use Rattle.tb_dap_values.specs.Bodies as bodies;
ghost use Rattle.tb_dap_views.specs.Evaluation.{seen as value_seen};
ghost use Rattle.tb_dap_requests.specs.Asking.{asked_by, expression};
ghost use Rattle.tb_dap_requests.specs.Said.{done, seen};
ghost use Rattle.tb_dap_requests.specs.Setting.{asked_of, elsewhere_body};
ghost use Rattle.tb_dap_requests.specs.Setting.{indices_of};
ghost use Rattle.tb_dap_requests.specs.Stops.{leads_back};
ghost use Rattle.tb_dap_adapter.specs.Sessions.{barred_move};
ghost use Rattle.tb_dap_adapter.specs.Sessions as spec;

use serde_json::Value;
use std::alloc::{AllocError, Global};
use tb_basic_meaning::Warning;
use tb_dap_messages::Refusal;
use tb_dap_requests::{
    Breakpoints, Plan, Question, Said, Stop, Wanted, breakpoints_in, code, elsewhere_body,
    leads_back, letters_of, lines_of, memory, output, placed_body, question_in, stack, stop_ahead,
    stop_behind, stop_event, variables, watchable, watched_body, watches_in,
};
use tb_dap_values::{
    Command, Movement, all_continued_body, continued_body, exited_body, optional_text, scopes_body,
    threads_body, typed_body,
};
use tb_dap_views::{Evaluated, SourceFile, evaluate, is_same_file};
use tb_debug::{Cause, Debugger, Reached};
use tb_editor_navigation::shown;
use tb_engine_play::keys_of_text;
use tb_engine_streams::host_form;
use tb_kernal::{Status, Unwatched};
use tb_words::Letter;

/// How many bytes may be typed in all.
const MOST_TYPED: usize = 1_048_576;

/// How far the life of a session is.
#[derive(Clone, Copy, Debug, PartialEq, Eq, Drop)]
pub enum Stage {
    /// The program is loaded.
    Loaded,
    /// Its run was begun.
    Started,
    /// Its run can't be moved any more.
    Terminated,
}

/// A program that is debugged.
#[derive(Drop)]
pub struct Session<'a> {
    pub file: SourceFile<'a>,
    pub debugger: Debugger<'a>,
    pub plan: Plan,
    pub stage: Stage,
    /// How many bytes were typed.
    pub typed: usize,
    /// Whether a single line was to be gone on when it came to wait for a key.
    pub steps: bool,
}

/// Why a request is refused at a stage, whatever its arguments are.
pub fn barred(stage: Stage, command: Option<Command>) -> Option<Refusal>
    ensures { result ≡ spec.barred stage command }
{
    match command {
        None => Some(Refusal::UnknownCommand),
        Some(Command::Initialize) => Some(Refusal::Initialized),
        Some(Command::Launch) => Some(Refusal::Launched),
        Some(Command::Change) => Some(Refusal::NoChange),
        Some(Command::ConfigurationDone) => barred_start(stage),
        Some(Command::Move(_)) => barred_move(stage),
        Some(_) => None,
    }
}

// Why a run isn't begun.
fn barred_start(stage: Stage) -> Option<Refusal>
    ensures { result ≡ spec.barred_start stage }
{
    match stage {
        Stage::Loaded => None,
        Stage::Started | Stage::Terminated => Some(Refusal::Started),
    }
}

/// Why a run isn't moved, and nothing is typed.
pub fn barred_move(stage: Stage) -> Option<Refusal>
    ensures { result ≡ spec.barred_move stage }
{
    match stage {
        Stage::Loaded => Some(Refusal::NotStarted),
        Stage::Started => None,
        Stage::Terminated => Some(Refusal::Terminated),
    }
}

// Whether a movement may go on by one event.
fn has_events(movement: Movement) -> bool
    ensures { result ≡ spec.has_events movement }
{
    match movement {
        Movement::StepIn | Movement::Next | Movement::StepOut => true,
        Movement::Continue | Movement::StepBack | Movement::ReverseContinue => false,
    }
}

// Whether instructions are gone; none for a granularity that is no text.
fn by_instruction(arguments: &Value) -> Option<bool>
    ensures { result ≡ spec.by_instruction (view arguments.now) }
{
    match optional_text(arguments, "granularity") {
        Some(Some("instruction")) => Some(true),
        Some(_) => Some(false),
        None => None,
    }
}

// Whether a movement goes on by single lines.
fn is_step(movement: Movement) -> bool
    ensures { result ≡ spec.is_step movement }
{
    match movement {
        Movement::Continue | Movement::ReverseContinue => false,
        Movement::StepIn | Movement::Next | Movement::StepOut | Movement::StepBack => true,
    }
}

// An event that tells nothing but its name.
fn plain_event(name: &'static str) -> Said
    ensures { seen result ≡ spec.plain_event name.now }
{
    Said::Event { name, body: None }
}

// The exit code of a machine that ended.
fn code_of(status: Status) -> u8
    ensures { result ≡ spec.code_of status }
{
    match status {
        Status::Wrong(_) => 7,
        Status::Running | Status::Waits | Status::Returned => 0,
    }
}

// Whether a machine has ended.
fn is_over(status: Status) -> bool
    ensures { result ≡ spec.is_over status }
{
    match status {
        Status::Returned | Status::Wrong(_) => true,
        Status::Running | Status::Waits => false,
    }
}

// A warning of a program.
fn warning(alloc: Global, warning: Warning) -> Result<Said, AllocError>
    ensures { IfOk result (λ s. seen s ≡ spec.warning_of warning) }
{
    let (line, target) = (warning.line, warning.target);
    let text = format!(in alloc; "warning: line {line}: no line {target}\n")?;
    output(alloc, "console", &text)
}

// That the clock gave a seed.
fn seed_said(alloc: Global, seed: u16) -> Result<Said, AllocError>
    ensures { IfOk result (λ s. seen s ≡ spec.seed_said seed) }
{
    let text = format!(in alloc; "the seed is {seed}\n")?;
    output(alloc, "console", &text)
}

// The answer to a launch, and which seed the clock gave, if it was asked.
fn beginning(alloc: Global, drawn: Option<u16>) -> Result<Vec<Said>, AllocError>
    ensures { IfOk result (λ said. map seen said.items ≡ spec.beginning drawn) }
{
    let mut said = Vec::new(alloc);
    said.push(Said::Done(None))?;
    if let Some(seed) = drawn {
        said.push(seed_said(alloc, seed)?)?;
    }
    Ok(said)
}

// What is answered to a movement.
fn movement_answer(alloc: Global, movement: Movement) -> Result<Said, AllocError>
    ensures { IfOk result (λ s. seen s ≡ spec.movement_answer movement) }
{
    match movement {
        Movement::Continue => Ok(Said::Done(Some(all_continued_body(alloc)?))),
        Movement::StepIn
        | Movement::Next
        | Movement::StepOut
        | Movement::StepBack
        | Movement::ReverseContinue => Ok(Said::Done(None)),
    }
}

// Appends what tells that a run has ended.
fn push_end(alloc: Global, said: &mut Vec<Said>, status: Status) -> Result<(), AllocError>
    ensures { OnOk result (map seen said.new.items ≡ map seen said.old.items ++ spec.end_of status) }
{
    let body = exited_body(alloc, code_of(status))?;
    said.push(Said::Event {
        name: "exited",
        body: Some(body),
    })?;
    said.push(plain_event("terminated"))?;
    Ok(())
}

// Bytes that were sent, as output.
fn sent_output(alloc: Global, sent: &[u8]) -> Result<Said, AllocError>
    ensures { IfOk result (λ s. seen s ≡ spec.sent_output sent.now) }
{
    let text = host_form(alloc, sent)?;
    output(alloc, "stdout", shown(&text))
}

// Appends bytes that were sent, if there are any.
fn push_sent(alloc: Global, said: &mut Vec<Said>, sent: &[u8]) -> Result<(), AllocError>
    ensures { OnOk result (map seen said.new.items ≡ map seen said.old.items ++ spec.output_by sent.now) }
{
    if sent.is_empty() {
        return Ok(());
    }
    let one = sent_output(alloc, sent)?;
    said.push(one)?;
    Ok(())
}

/// A refusal alone.
pub fn refused(alloc: Global, refusal: Refusal) -> Result<Vec<Said>, AllocError>
    ensures { IfOk result (λ said. map seen said.items ≡ spec.refused_for refusal) }
{
    let mut said = Vec::new(alloc);
    said.push(Said::Refused(refusal))?;
    Ok(said)
}

/// An answer alone.
pub fn alone(alloc: Global, one: Said) -> Result<Vec<Said>, AllocError>
    ensures { IfOk result (λ said. map seen said.items ≡ seen one ∷ []) }
{
    let mut said = Vec::new(alloc);
    said.push(one)?;
    Ok(said)
}

// A line that is gone on by, or a way on.
fn resumed(steps: bool) -> Movement
    ensures { result ≡ spec.resumed steps }
{
    if steps {
        Movement::StepIn
    } else {
        Movement::Continue
    }
}

// Whether a machine waits for a key.
fn waits(status: Status) -> bool
    ensures { result ≡ spec.waits status }
{
    matches!(status, Status::Waits)
}

// That keys were typed.
fn typed(alloc: Global) -> Result<Vec<Said>, AllocError>
    ensures { IfOk result (λ said. map seen said.items ≡ done (Some bodies.typed_body) ∷ []) }
{
    let body = typed_body(alloc)?;
    alone(alloc, Said::Done(Some(body)))
}

// That keys were typed, and that the run goes on.
fn typed_and_continued(alloc: Global) -> Result<Vec<Said>, AllocError>
    ensures { IfOk result (λ said. map seen said.items ≡ spec.typed_and_continued) }
{
    let body = continued_body(alloc)?;
    let mut said = typed(alloc)?;
    said.push(Said::Event {
        name: "continued",
        body: Some(body),
    })?;
    Ok(said)
}

// An answer, or why there is none.
fn valued(value: Evaluated) -> Said
    ensures { seen result ≡ spec.valued (value_seen value) }
{
    match value {
        Evaluated::Known(body) => Said::Done(Some(body)),
        Evaluated::Unknown(why) => Said::Unknown(why),
    }
}

impl<'a> Session<'a> {
    /// What is said as a program is launched: the clock's seed, its warnings, and that breakpoints may be set.
    pub fn opening(&self, alloc: Global) -> Result<Vec<Said>, AllocError>
        ensures { IfOk result (λ said. map seen said.items ≡ spec.opening self.now) }
    {
        let mut said = beginning(alloc, self.plan.drawn)?;
        for one in self.file.program.warnings() {
            said.push(warning(alloc, *one)?)?;
        }
        said.push(plain_event("initialized"))?;
        Ok(said)
    }

    // How the present machine stands.
    fn status(&self) -> Status
        ensures { result ≡ spec.status_of self.now }
    {
        self.debugger.machine().status()
    }

    // Appends what was sent and never told before.
    fn push_output(&mut self, alloc: Global, said: &mut Vec<Said>) -> Result<(), AllocError>
        ensures told { OnOk result (map seen said.new.items ≡ map seen said.old.items ++ spec.fresh_output self.old) }
        ensures now { OnOk result (self.new ≡ spec.all_told self.old) }
    {
        let fresh = self.debugger.fresh_output(alloc)?;
        push_sent(alloc, said, &fresh)?;
        Ok(())
    }

    // Whether a run that only runs has ended.
    fn ends_at_once(&self) -> bool
        ensures { result ≡ spec.ends_at_once self.now }
    {
        self.plan.is_plain && is_over(self.status())
    }

    // Appends that the run stopped, or that one has ended which only runs.
    fn push_stop(
        &mut self,
        alloc: Global,
        said: &mut Vec<Said>,
        stop: Stop,
    ) -> Result<(), AllocError>
        ensures told { OnOk result (map seen said.new.items ≡ map seen said.old.items ++ spec.stop_told stop self.old) }
        ensures now { OnOk result (self.new ≡ spec.stopped self.old) }
    {
        if self.ends_at_once() {
            push_end(alloc, said, self.status())?;
            self.stage = Stage::Terminated;
            Ok(())
        } else {
            said.push(stop_event(alloc, stop, &self.debugger)?)?;
            Ok(())
        }
    }

    // Tells that it stops where it is.
    fn settle(&mut self, alloc: Global, stop: Stop, said: &mut Vec<Said>) -> Result<(), AllocError>
        ensures { OnOk result (spec.Settles stop self.old (map seen said.old.items) (map seen said.new.items) self.new) }
    {
        self.push_output(alloc, said)?;
        self.push_stop(alloc, said, stop)?;
        Ok(())
    }

    // Goes on.
    fn walk_on(
        &mut self,
        alloc: Global,
        movement: Movement,
        events: bool,
    ) -> Result<Reached, AllocError>
        ensures { IfOk result (λ reached. spec.WalksOn movement events self.old reached self.new) }
    {
        let limit = self.plan.limit;
        if events {
            return self.debugger.step(alloc, 1);
        }
        match movement {
            Movement::Continue => self.debugger.continue_(alloc, limit, &mut Unwatched),
            Movement::Next => self.debugger.over(alloc, limit, &mut Unwatched),
            Movement::StepOut => self.debugger.finish(alloc, limit, &mut Unwatched),
            Movement::StepIn | Movement::StepBack | Movement::ReverseContinue => {
                self.debugger.next(alloc, 1, limit, &mut Unwatched)
            }
        }
    }

    // Why a way on would stop here; an event that was gone on is a step.
    fn cause_by(&self, events: bool) -> Option<Cause>
        ensures { result ≡ spec.cause_by events self.now }
    {
        if events { None } else { self.debugger.cause() }
    }

    // Why a way on stopped.
    fn stop_after(&self, events: bool, reached: Reached) -> Stop
        ensures { result ≡ spec.stop_after events reached self.now }
    {
        let pc = self.debugger.machine().regs().pc;
        stop_ahead(reached, self.cause_by(events), self.plan.limit, pc)
    }

    // Goes on, and tells where it stops.
    fn go_on(
        &mut self,
        alloc: Global,
        movement: Movement,
        events: bool,
        said: &mut Vec<Said>,
    ) -> Result<(), AllocError>
        ensures { OnOk result (spec.GoesOn movement events self.old (map seen said.old.items) (map seen said.new.items) self.new) }
    {
        let reached = self.walk_on(alloc, movement, events)?;
        self.steps = is_step(movement);
        let stop = self.stop_after(events, reached);
        self.settle(alloc, stop, said)?;
        Ok(())
    }

    // Goes back.
    fn walk_back(&mut self, alloc: Global, is_single: bool) -> Result<Reached, AllocError>
        ensures { IfOk result (λ reached. spec.WalksBack is_single self.old reached self.new) }
    {
        if is_single {
            self.debugger.previous(alloc, 1)
        } else {
            self.debugger.reverse_continue(alloc)
        }
    }

    // Goes back, and tells where it stops.
    fn go_back(
        &mut self,
        alloc: Global,
        movement: Movement,
        said: &mut Vec<Said>,
    ) -> Result<(), AllocError>
        ensures { OnOk result (spec.GoesBack movement self.old (map seen said.old.items) (map seen said.new.items) self.new) }
    {
        let before = self.debugger.begun();
        let is_single = is_step(movement);
        self.walk_back(alloc, is_single)?;
        let begun = self.debugger.begun();
        let stop = stop_behind(self.debugger.cause(), begun, is_single, 0 < before);
        self.settle(alloc, stop, said)?;
        Ok(())
    }

    // A run begins at a line of this breakpoint, or goes on.
    fn begin_by(
        &mut self,
        alloc: Global,
        cause: Option<Cause>,
        said: &mut Vec<Said>,
    ) -> Result<(), AllocError>
        ensures { OnOk result (spec.BeginsBy cause self.old (map seen said.old.items) (map seen said.new.items) self.new) }
    {
        match cause {
            Some(Cause::Breakpoint(line)) => self.settle(alloc, Stop::Breakpoint(line), said),
            Some(Cause::Watch(_)) | None => self.go_on(alloc, Movement::Continue, false, said),
        }
    }

    // A run begins.
    fn begin(&mut self, alloc: Global, said: &mut Vec<Said>) -> Result<(), AllocError>
        ensures { OnOk result (spec.Begins self.old.plan.is_plain self.old (map seen said.old.items) (map seen said.new.items) self.new) }
    {
        if self.plan.is_plain {
            self.go_on(alloc, Movement::Continue, false, said)
        } else if self.plan.stops_on_entry {
            self.settle(alloc, Stop::Entry, said)
        } else {
            let cause = self.debugger.cause();
            self.begin_by(alloc, cause, said)
        }
    }

    // What is said as the run is begun.
    fn start(&mut self, alloc: Global) -> Result<Vec<Said>, AllocError>
        ensures { IfOk result (λ said. spec.Starts self.old (map seen said.items) self.new) }
    {
        let mut said = alone(alloc, Said::Done(None))?;
        self.stage = Stage::Started;
        self.begin(alloc, &mut said)?;
        Ok(said)
    }

    // The run ends for good.
    fn end(&mut self, alloc: Global, said: &mut Vec<Said>) -> Result<(), AllocError>
        ensures { OnOk result (spec.EndsForGood self.old (map seen said.old.items) (map seen said.new.items) self.new) }
    {
        push_end(alloc, said, self.status())?;
        self.stage = Stage::Terminated;
        Ok(())
    }

    // The run moves, or ends for good where it is over.
    fn move_or_end(
        &mut self,
        alloc: Global,
        movement: Movement,
        events: bool,
        said: &mut Vec<Said>,
    ) -> Result<(), AllocError>
        ensures { OnOk result (spec.MovesTo (leads_back movement) movement events self.old (map seen said.old.items)
            (map seen said.new.items) self.new) }
    {
        if leads_back(movement) {
            self.go_back(alloc, movement, said)
        } else if is_over(self.status()) {
            self.end(alloc, said)
        } else {
            self.go_on(alloc, movement, events, said)
        }
    }

    // What is said to a movement, by whether instructions are gone.
    fn move_by(
        &mut self,
        alloc: Global,
        movement: Movement,
        instructions: bool,
    ) -> Result<Vec<Said>, AllocError>
        ensures { IfOk result (λ said. spec.Moves (Some instructions) movement self.old (map seen said.items) self.new) }
    {
        let mut said = alone(alloc, movement_answer(alloc, movement)?)?;
        let events = instructions && has_events(movement);
        self.move_or_end(alloc, movement, events, &mut said)?;
        Ok(said)
    }

    // What is said to a movement.
    fn move_asked(
        &mut self,
        alloc: Global,
        movement: Movement,
        instructions: Option<bool>,
    ) -> Result<Vec<Said>, AllocError>
        ensures { IfOk result (λ said. spec.Moves instructions movement self.old (map seen said.items) self.new) }
    {
        match instructions {
            Some(instructions) => self.move_by(alloc, movement, instructions),
            None => refused(alloc, Refusal::BadArguments),
        }
    }

    // What is said as the run is terminated.
    fn terminate(&mut self, alloc: Global) -> Result<Vec<Said>, AllocError>
        ensures { IfOk result (λ said. spec.Terminates self.old (map seen said.items) self.new) }
    {
        let mut said = alone(alloc, Said::Done(None))?;
        said.push(plain_event("terminated"))?;
        self.stage = Stage::Terminated;
        Ok(said)
    }

    // Types keys.
    fn type_keys(&mut self, keys: &[u8]) -> Result<(), AllocError>
        requires { self.old.typed + length keys.now < 2 ^ 64 }
        ensures { OnOk result (spec.Types keys.now self.old self.new) }
    {
        self.debugger.type_text(keys)?;
        self.typed += keys.len();
        Ok(())
    }

    // Goes on after keys were typed, if the machine waited for one.
    fn resume(&mut self, alloc: Global, waited: bool) -> Result<Vec<Said>, AllocError>
        ensures { IfOk result (λ said. spec.Resumes waited self.old (map seen said.items) self.new) }
    {
        if !waited {
            return typed(alloc);
        }
        let mut said = typed_and_continued(alloc)?;
        self.go_on(alloc, resumed(self.steps), false, &mut said)?;
        Ok(said)
    }

    // Takes a line that is typed, if it isn't too much.
    fn take_line(&mut self, alloc: Global, text: &str) -> Result<Vec<Said>, AllocError>
        ensures { IfOk result (λ said. spec.TakesLine text.now self.old (map seen said.items) self.new) }
    {
        let keys = keys_of_text(alloc, text.as_bytes())?;
        if MOST_TYPED.saturating_sub(self.typed) < keys.len() {
            return refused(alloc, Refusal::TooMuchTyped);
        }
        let waited = waits(self.status());
        self.type_keys(&keys)?;
        let said = self.resume(alloc, waited)?;
        Ok(said)
    }

    // What is said to a line that is typed.
    fn type_line(&mut self, alloc: Global, text: &str) -> Result<Vec<Said>, AllocError>
        ensures { IfOk result (λ said. spec.TypesLine (barred_move self.old.stage) text.now self.old (map seen said.items) self.new) }
    {
        match barred_move(self.stage) {
            Some(refusal) => refused(alloc, refusal),
            None => self.take_line(alloc, text),
        }
    }

    // What is said to an expression.
    fn value(&self, alloc: Global, text: &str) -> Result<Vec<Said>, AllocError>
        ensures { IfOk result (λ said. spec.Evaluates (Some (expression text.now)) self.now (map seen said.items) self.now) }
    {
        let value = evaluate(alloc, &self.debugger, text)?;
        alone(alloc, valued(value))
    }

    // What is said to an expression, or to a line that is typed.
    fn evaluate(
        &mut self,
        alloc: Global,
        question: Option<Question<'_>>,
    ) -> Result<Vec<Said>, AllocError>
        ensures { IfOk result (λ said. spec.Evaluates (option_map asked_by question.entry) self.old (map seen said.items) self.new) }
    {
        match question {
            Some(Question::Typed(line)) => self.type_line(alloc, line),
            Some(Question::Expression(text)) => self.value(alloc, text),
            None => refused(alloc, Refusal::BadArguments),
        }
    }

    // Sets breakpoints.
    fn break_at(&mut self, alloc: Global, lines: &[u16]) -> Result<(), AllocError>
        ensures { OnOk result (spec.Breaks self.old.plan.is_plain lines.now self.old self.new) }
    {
        if self.plan.is_plain {
            Ok(())
        } else {
            self.debugger.set_breakpoints(alloc, lines)
        }
    }

    // What is said to breakpoints of the program's file.
    fn place(&mut self, alloc: Global, wanted: &[Wanted]) -> Result<Vec<Said>, AllocError>
        ensures { IfOk result (λ said. spec.PlacesLines wanted.now self.old (map seen said.items) self.new) }
    {
        let lines = lines_of(alloc, &self.file, wanted)?;
        let body = placed_body(alloc, &self.file, wanted)?;
        let said = alone(alloc, Said::Done(Some(body)))?;
        self.break_at(alloc, &lines)?;
        Ok(said)
    }

    // What is said to so many breakpoints of another file.
    fn place_elsewhere(&self, alloc: Global, count: usize) -> Result<Vec<Said>, AllocError>
        ensures { IfOk result (λ said. map seen said.items ≡ done (Some (elsewhere_body count)) ∷ []) }
    {
        let body = elsewhere_body(alloc, count)?;
        alone(alloc, Said::Done(Some(body)))
    }

    // What is said to breakpoints.
    fn set_breakpoints(
        &mut self,
        alloc: Global,
        wanted: Option<Breakpoints<'_>>,
    ) -> Result<Vec<Said>, AllocError>
        ensures { IfOk result (λ said. spec.PlacesAsked (option_map asked_of wanted.entry) self.old (map seen said.items) self.new) }
    {
        let Some(wanted) = wanted else {
            return refused(alloc, Refusal::BadArguments);
        };
        if is_same_file(wanted.path.as_bytes(), self.file.path.as_bytes()) {
            self.place(alloc, &wanted.lines)
        } else {
            self.place_elsewhere(alloc, wanted.lines.len())
        }
    }

    // Sets watches.
    fn watch(&mut self, alloc: Global, letters: &[Letter]) -> Result<(), AllocError>
        ensures { OnOk result (spec.Watches self.old.plan.is_plain letters.now self.old self.new) }
    {
        if self.plan.is_plain {
            Ok(())
        } else {
            self.debugger.set_watches(alloc, letters)
        }
    }

    // What is said to watches of these variables.
    fn place_watches(
        &mut self,
        alloc: Global,
        wanted: &[Option<Letter>],
    ) -> Result<Vec<Said>, AllocError>
        ensures { IfOk result (λ said. spec.PlacesWatches wanted.now self.old (map seen said.items) self.new) }
    {
        let letters = letters_of(alloc, wanted)?;
        let body = watched_body(alloc, wanted)?;
        let said = alone(alloc, Said::Done(Some(body)))?;
        self.watch(alloc, &letters)?;
        Ok(said)
    }

    // What is said to watches.
    fn set_watches(
        &mut self,
        alloc: Global,
        wanted: Option<Vec<Option<Letter>>>,
    ) -> Result<Vec<Said>, AllocError>
        ensures { IfOk result (λ said. spec.WatchesAsked (option_map indices_of wanted) self.old (map seen said.items) self.new) }
    {
        match wanted {
            Some(wanted) => self.place_watches(alloc, &wanted),
            None => refused(alloc, Refusal::BadArguments),
        }
    }

    // What is said to a request that moves nothing and sets nothing.
    fn look(&self, alloc: Global, command: Command, arguments: &Value) -> Result<Said, AllocError>
        ensures { IfOk result (λ s. seen s ≡ spec.look command (view arguments.now) self.now) }
    {
        match command {
            Command::Threads => Ok(Said::Done(Some(threads_body(alloc, self.file.path)?))),
            Command::StackTrace => stack(alloc, &self.file, &self.debugger, arguments),
            Command::Scopes => Ok(Said::Done(Some(scopes_body(alloc)?))),
            Command::Variables => variables(alloc, &self.debugger, arguments),
            Command::ReadMemory => memory(alloc, &self.debugger, arguments),
            Command::Disassemble => code(alloc, &self.file, &self.debugger, arguments),
            Command::DataBreakpointInfo => watchable(alloc, arguments),
            _ => Ok(Said::Done(None)),
        }
    }

    // What is said to such a request alone.
    fn look_alone(
        &self,
        alloc: Global,
        command: Command,
        arguments: &Value,
    ) -> Result<Vec<Said>, AllocError>
        ensures { IfOk result (λ said. map seen said.items ≡ spec.look command (view arguments.now) self.now ∷ []) }
    {
        let said = self.look(alloc, command, arguments)?;
        alone(alloc, said)
    }

    // What is said to a request that isn't barred.
    fn answer(
        &mut self,
        alloc: Global,
        command: Command,
        arguments: &Value,
    ) -> Result<Vec<Said>, AllocError>
        ensures { IfOk result (λ said. spec.Answers command (view arguments.now) self.old (map seen said.items) self.new) }
    {
        match command {
            Command::ConfigurationDone => self.start(alloc),
            Command::Move(movement) => self.move_asked(alloc, movement, by_instruction(arguments)),
            Command::Terminate => self.terminate(alloc),
            Command::Evaluate => self.evaluate(alloc, question_in(arguments)),
            Command::SetBreakpoints => {
                let wanted = breakpoints_in(alloc, arguments)?;
                self.set_breakpoints(alloc, wanted)
            }
            Command::SetDataBreakpoints => {
                let wanted = watches_in(alloc, arguments)?;
                self.set_watches(alloc, wanted)
            }
            _ => self.look_alone(alloc, command, arguments),
        }
    }

    /// What is said to a request.
    pub fn take(
        &mut self,
        alloc: Global,
        command: Option<Command>,
        arguments: &Value,
    ) -> Result<Vec<Said>, AllocError>
        ensures { IfOk result (λ said. spec.Takes command (view arguments.now) self.old (map seen said.items) self.new) }
    {
        match (barred(self.stage, command), command) {
            (Some(refusal), _) => refused(alloc, refusal),
            (None, Some(command)) => self.answer(alloc, command, arguments),
            (None, None) => refused(alloc, Refusal::UnknownCommand),
        }
    }
}
