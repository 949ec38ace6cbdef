// One line decided by value, with nothing printed. The whole input is a module below this one, so that what these functions ask of their caller stays theirs.
ghost use Rattle.std.specs.Prelude.{◌≡◌, ◌<◌, ◌≤◌, ℤ, List, Ok, true, eqb, get_or};
ghost use Rattle.refusal.specs.Refusals.{number};
ghost use Rattle.chain.specs.Faults.{point_fault, step_fault};
ghost use Rattle.line.specs.Answers.{Good};
ghost use Rattle.line.specs.Readers.{read_point, read_step, read_edition};
ghost use Rattle.sheet_rules.specs.Sheet.{Sheet, step_reply, after_step, point_reply, after_point, edition_reply, after_edition, reply_of, next_of};
ghost use Rattle.sheet_rules.specs.State.{Holds, Gave, counted_in, after_in, refused_in};

use crate::{Decided, Reply, State};
use chain::{Point, Prepared, Step};
use line::Unread;
use refusal::Refusal;

pub mod lent;
pub mod standing;
pub mod whole;

impl State {
    // The state after a refused line that begins with S or E, but for the line's number.
    fn blocked(self) -> State
        ensures { result ≡ after_in self true self.closed }
    {
        State {
            refused: true,
            ..self
        }
    }

    // The state after a point line of good form, likewise.
    fn closing(self) -> State
        ensures { result ≡ after_in self self.refused true }
    {
        State {
            closed: true,
            ..self
        }
    }
}

// Whether a line begins with a letter. Of no bytes the first counts as 0, no line's letter.
fn begins_with(text: &[u8], letter: u8) -> bool
    requires { 0 < letter }
    ensures { result ≡ eqb (get_or text.now 0 0) letter }
{
    match text.first() {
        Some(first) => *first == letter,
        None => false,
    }
}

// A line refused, and the state after it.
fn refuse(state: State, refusal: Refusal, place: u8) -> Decided
    ensures { result ≡ refused_in state (number refusal) place }
{
    Decided {
        reply: Reply::Refused(state.line, refusal.number(), place),
        state,
    }
}

// A step whose line is good by itself.
fn take_step(state: State, step: Step, numbers: &mut Prepared) -> Decided
    requires { step_fault state.profile step ≡ 0 }
    ensures { (s : Sheet) → Holds state numbers.old s → Gave (step_reply s (Good step)) (after_step s (Good step)) numbers.new (counted_in result) }
{
    let refused = state.blocked();
    if state.refused {
        return refuse(refused, Refusal::Earlier, 0);
    }
    if state.closed {
        return refuse(refused, Refusal::Misplaced, 0);
    }
    match chain::extend(state.profile, step, numbers) {
        Err(refusal) => refuse(refused, refusal, 0),
        Ok(()) => Decided {
            reply: Reply::Nothing,
            state,
        },
    }
}

// A line that begins with S.
fn decide_step(state: State, numbers: &mut Prepared, text: &[u8]) -> Decided
    ensures { (s : Sheet) → Holds state numbers.old s → Gave (step_reply s (read_step s.profile text.now)) (after_step s (read_step s.profile text.now)) numbers.new (counted_in result) }
{
    match line::read_step(state.profile, text) {
        Err(Unread::Malformed(fault)) => refuse(state.blocked(), fault.refusal, fault.place),
        Err(Unread::Refused(refusal)) => refuse(state.blocked(), refusal, 0),
        Ok(step) => take_step(state, step, numbers),
    }
}

// A point whose line is good by itself.
fn convert_point(state: State, numbers: &Prepared, point: Point) -> Decided
    requires { point_fault state.profile point ≡ 0 }
    ensures { (s : Sheet) → Holds state numbers.now s → Gave (point_reply s (Good point)) (after_point s (Good point)) numbers.now (counted_in result) }
{
    let closed = state.closing();
    if state.refused {
        return refuse(closed, Refusal::Earlier, 0);
    }
    match chain::forward_prepared(numbers, point) {
        Err(refusal) => refuse(closed, refusal, 0),
        Ok(converted) => Decided {
            reply: Reply::Point(converted),
            state: closed,
        },
    }
}

// A line that begins with P. A malformed one leaves the chain open; refused for what it says, it closes it.
fn decide_point(state: State, numbers: &Prepared, text: &[u8]) -> Decided
    ensures { (s : Sheet) → Holds state numbers.now s → Gave (point_reply s (read_point s.profile text.now)) (after_point s (read_point s.profile text.now)) numbers.now (counted_in result) }
{
    match line::read_point(state.profile, text) {
        Err(Unread::Malformed(fault)) => refuse(state, fault.refusal, fault.place),
        Err(Unread::Refused(refusal)) => refuse(state.closing(), refusal, 0),
        Ok(point) => convert_point(state, numbers, point),
    }
}

// An edition line of good form: accepted on the first line, where its year is a profile.
fn take_edition(state: State, year: i64) -> Decided
    ensures { (s : Sheet) (numbers : List ℤ) → Holds state numbers s → Gave (edition_reply s (Ok year)) (after_edition s (Ok year)) numbers (counted_in result) }
{
    let refused = state.blocked();
    if state.line != 1 {
        return refuse(refused, Refusal::Misplaced, 0);
    }
    if !ranges::is_profile(year) {
        return refuse(refused, Refusal::Range, 0);
    }
    Decided {
        reply: Reply::Nothing,
        state: State {
            profile: year,
            ..state
        },
    }
}

// A line that begins with E. Refused, it counts as a refused step.
fn decide_edition(state: State, text: &[u8]) -> Decided
    ensures { (s : Sheet) (numbers : List ℤ) → Holds state numbers s → Gave (edition_reply s (read_edition text.now)) (after_edition s (read_edition text.now)) numbers (counted_in result) }
{
    match line::read_edition(text) {
        Err(fault) => refuse(state.blocked(), fault.refusal, fault.place),
        Ok(year) => take_edition(state, year),
    }
}

// Any line, by its first byte; the empty piece too.
fn examine(state: State, numbers: &mut Prepared, text: &[u8]) -> Decided
    ensures { (s : Sheet) → Holds state numbers.old s → Gave (reply_of s text.now) (next_of s text.now) numbers.new (counted_in result) }
{
    if begins_with(text, b'S') {
        return decide_step(state, numbers, text);
    }
    if begins_with(text, b'P') {
        return decide_point(state, numbers, text);
    }
    if begins_with(text, b'E') {
        return decide_edition(state, text);
    }
    let fault = line::strange(text);
    refuse(state, fault.refusal, fault.place)
}

// A line decided: the reply to it, and the state after it.
fn decide(state: State, numbers: &mut Prepared, text: &[u8]) -> Decided
    requires { state.line ≤ 1000000 }
    ensures { (s : Sheet) → Holds state numbers.old s → Gave (reply_of s text.now) (next_of s text.now) numbers.new result }
{
    let examined = examine(state, numbers, text);
    Decided {
        reply: examined.reply,
        state: State {
            line: state.line + 1,
            ..examined.state
        },
    }
}
