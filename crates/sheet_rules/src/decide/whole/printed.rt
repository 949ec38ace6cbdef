// A line that begins with P, decided and printed at once: most lines of a sheet are points, and what is decided on one is not carried through memory.
ghost use Rattle.std.specs.Prelude.{◌≡◌, ◌≤◌};
ghost use Rattle.refusal.specs.Refusals.{number};
ghost use Rattle.line.specs.Answers.{Good, line_told};
ghost use Rattle.line.specs.Readers.{read_point, datum_place};
ghost use Rattle.sheet_rules.specs.Sheet.{Sheet, point_reply, after_point};
ghost use Rattle.sheet_rules.specs.State.{Holds, refused_in, Shows, Shown, counted_too};

use crate::{Printed, State};
use chain::{Point, Prepared};
use line::{PlacedLine, Unread};
use refusal::Refusal;

// A refusal printed, and the state after it.
// stays: beside `refuse`, whose reply would go through memory; and `out` and `at` go one by one, as the writers of line take them.
fn print_refusal(state: State, refusal: Refusal, place: u8, out: &mut [u8], at: usize) -> Printed
    ensures { Shows (refused_in state (number refusal) place) out.old at out.new result }
{
    Printed {
        at: line::write_refusal(out, at, state.line, refusal.number(), place),
        state,
    }
}

// A point whose line is good by itself, and where its datum begins in the line: what stands before it is written as it stands.
fn print_converted(
    state: State,
    numbers: &Prepared,
    text: &[u8],
    point: Point,
    place: usize,
    out: &mut [u8],
    at: usize,
) -> Printed
    requires { (read_point state.profile text.now ≡ Good point) × (place ≡ datum_place text.now) }
    ensures { (s : Sheet) → Holds state numbers.now s → Shown (point_reply s (Good point)) (after_point s (Good point)) numbers.now out.old at out.new (counted_too result) }
{
    let closed = state.closing();
    if state.refused {
        return print_refusal(closed, Refusal::Earlier, 0, out, at);
    }
    match chain::arrive_prepared(numbers, point) {
        Err(refusal) => print_refusal(closed, refusal, 0, out, at),
        Ok(arrival) => Printed {
            at: line::write_moved(out, at, text, place, arrival.realization, arrival.position),
            state: closed,
        },
    }
}

// A line that begins with P, as it was read, printed as `decide_point` decides it.
fn print_read(
    state: State,
    numbers: &Prepared,
    text: &[u8],
    read: PlacedLine,
    out: &mut [u8],
    at: usize,
) -> Printed
    requires { (line_told read.line ≡ read_point state.profile text.now) × (read.place ≡ datum_place text.now) }
    ensures { (s : Sheet) → Holds state numbers.now s → Shown (point_reply s (read_point s.profile text.now)) (after_point s (read_point s.profile text.now)) numbers.now out.old at out.new (counted_too result) }
{
    match read.line {
        Err(Unread::Malformed(fault)) => print_refusal(state, fault.refusal, fault.place, out, at),
        Err(Unread::Refused(refusal)) => print_refusal(state.closing(), refusal, 0, out, at),
        Ok(point) => print_converted(state, numbers, text, point, read.place, out, at),
    }
}

// The same, and the state after the line.
pub fn print_point(
    state: State,
    numbers: &Prepared,
    text: &[u8],
    read: PlacedLine,
    out: &mut [u8],
    at: usize,
) -> Printed
    requires { (state.line ≤ 1000000) × (line_told read.line ≡ read_point state.profile text.now) × (read.place ≡ datum_place text.now) }
    ensures { (s : Sheet) → Holds state numbers.now s → Shown (point_reply s (read_point s.profile text.now)) (after_point s (read_point s.profile text.now)) numbers.now out.old at out.new result }
{
    let printed = print_read(state, numbers, text, read, out, at);
    Printed {
        at: printed.at,
        state: State {
            line: state.line + 1,
            ..printed.state
        },
    }
}
