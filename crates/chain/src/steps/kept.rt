// A chain prepared for many points, in rows of eight numbers that the caller lends: the first holds the chain's length and its ends, each other a step.
ghost use Rattle.std.specs.Prelude.{◌≡◌, true, ◌≤◌, pos, nat_abs};
ghost use Rattle.std.proofs.lemmas.List.Edits.{sets};
ghost use Rattle.refusal.specs.Order.{first};
ghost use Rattle.refusal.specs.Refusals.{told, fault_number};
ghost use Rattle.ranges.specs.Ranges.{within};
ghost use Rattle.chain.specs.Faults.{in_area};
ghost use Rattle.chain.specs.Ways.{by_way, in_order};
ghost use Rattle.chain.specs.Convert.{arrival_of};
ghost use Rattle.chain.specs.Prepared.{start_in, end_in, rows_of, extend_tests, extend_fault, start_with, first_row, extended_by};
ghost use Rattle.chain.specs.Prepared.{prepared_tests, carried, reached_with, forward_prepared, inverse_prepared};
ghost use Rattle.chain.specs.PointRow.{convert_prepared};

use crate::steps::convert;
use crate::{Arrival, Direction, Point, Prepared, Realization, Step, faults, points, steps};
use refusal::Refusal;

mod rows;

// Over the rows of so many steps, to where they lead a point. What takes a direction is inlined here and in rows.rt, as in steps.rt: each
// direction has a loop of its own.
#[inline(always)]
fn carry(
    direction: Direction,
    numbers: &Prepared,
    count: usize,
    point: Point,
    end: Realization,
) -> Result<Arrival, Refusal>
    requires { (count ≤ 8) × (in_area point.position ≡ true) }
    ensures { told result ≡ arrival_of (carried (by_way direction) point end (in_order direction (rows_of numbers.now 1 count)) point.position) }
{
    let mut position = point.position;
    for gone in 0..count {
        let row = 1 + convert::place(direction, count, gone);
        position = rows::moved(direction, numbers, row, position).ok_or(Refusal::Range)?;
        if !points::in_area(position) {
            return Err(Refusal::Left);
        }
    }
    let realization = end;
    Ok(Arrival {
        realization,
        position,
    })
}

fn start_in(numbers: &Prepared) -> Realization
    ensures { result ≡ start_in numbers.now }
{
    Realization {
        datum: numbers[1],
        epoch: numbers[2],
    }
}

fn end_in(numbers: &Prepared) -> Realization
    ensures { result ≡ end_in numbers.now }
{
    Realization {
        datum: numbers[3],
        epoch: numbers[4],
    }
}

// A length that a chain can have, as a number of rows.
fn count(n: i64) -> usize
    requires { within (pos 0) n (pos 8) ≡ true }
    ensures { result ≡ nat_abs n }
{
    n as usize
}

// What a chain of n steps, wanted at a realization, says of a point with no fault of its own: Ninth, Start, Area.
fn prepared_fault(n: i64, wanted: Realization, point: Point) -> Result<(), Refusal>
    ensures { fault_number result ≡ first (prepared_tests n wanted point) }
{
    if !ranges::within(0, n, 8) {
        return Err(Refusal::Ninth);
    }
    if !(ranges::equal(0, n) | (point.realization == wanted)) {
        return Err(Refusal::Start);
    }
    if !points::in_area(point.position) {
        return Err(Refusal::Area);
    }
    Ok(())
}

// Where a point is after a chain of so many steps: where it was, for none.
fn reached_with(n: i64, here: Realization, end: Realization) -> Realization
    ensures { result ≡ reached_with n here end }
{
    if ranges::equal(0, n) {
        return here;
    }
    end
}

// Where a point arrives by a prepared chain, either way.
#[inline(always)]
fn arrive(numbers: &Prepared, direction: Direction, point: Point) -> Result<Arrival, Refusal>
    ensures { told result ≡ arrival_of (convert_prepared direction numbers.now point) }
{
    let n = numbers[0];
    let start = start_in(numbers);
    let end = end_in(numbers);
    prepared_fault(n, convert::either(direction, start, end), point)?;
    let reached = reached_with(n, point.realization, convert::either(direction, end, start));
    carry(direction, numbers, count(n), point, reached)
}

// The same as an answer.
#[inline(always)]
fn convert_prepared(
    numbers: &Prepared,
    direction: Direction,
    point: Point,
) -> Result<Point, Refusal>
    ensures { told result ≡ convert_prepared direction numbers.now point }
{
    let arrival = arrive(numbers, direction, point)?;
    Ok(convert::moved_to(point, arrival.realization, arrival.position))
}

// What is left of a forward conversion once a chain is prepared and the point has no fault of its own (`point_fault` with the chain's profile): where
// the point arrives, in units of 0.00001 m, or refused: Start, Area or Left. Numbers that no chain gives are refused too: Ninth for a
// length that is not 0 to 8, Range for a row that no step gives.
pub fn arrive_prepared(numbers: &Prepared, point: Point) -> Result<Arrival, Refusal>
    ensures { told result ≡ arrival_of (forward_prepared numbers.now point) }
{
    arrive(numbers, Direction::Forward, point)
}

// The same as an answer: the point at the chain's end, or refused as above.
pub fn forward_prepared(numbers: &Prepared, point: Point) -> Result<Point, Refusal>
    ensures { told result ≡ forward_prepared numbers.now point }
{
    convert_prepared(numbers, Direction::Forward, point)
}

// The same for an inverse conversion: the point at the chain's start, or refused as above.
pub fn inverse_prepared(numbers: &Prepared, point: Point) -> Result<Point, Refusal>
    ensures { told result ≡ inverse_prepared numbers.now point }
{
    convert_prepared(numbers, Direction::Inverse, point)
}

// The first row: the length and the ends.
fn put_first(numbers: &mut Prepared, n: i64, start: Realization, end: Realization)
    ensures { numbers.new ≡ sets numbers.old 0 (first_row n start end) }
{
    let a = start.datum;
    let b = start.epoch;
    let c = end.datum;
    let d = end.epoch;
    numbers[0] = n;
    numbers[1] = a;
    numbers[2] = b;
    numbers[3] = c;
    numbers[4] = d;
}

// Where a chain starts, with a step more: the first step's beginning.
fn start_with(n: i64, start: Realization, step: Step) -> Realization
    ensures { result ≡ start_with n start step }
{
    if ranges::equal(0, n) {
        return step.before;
    }
    start
}

// What a step is refused for after a chain of n steps that ends at a realization: its own Range, Epoch, Profile, Kind, then Join, Ninth.
#[tactic(auto, unfolding(crate::specs::Faults::step_fault))]
fn extend_fault(profile: i64, n: i64, end: Realization, step: Step) -> Result<(), Refusal>
    ensures { fault_number result ≡ first (extend_tests profile n end step) }
{
    faults::step_fault(profile, step)?;
    if !(ranges::equal(0, n) | (end == step.before)) {
        return Err(Refusal::Join);
    }
    if !ranges::within(0, n, 7) {
        return Err(Refusal::Ninth);
    }
    Ok(())
}

// Adds a step to a prepared chain of a profile (2009 or 2021, the same for every step); where it is refused the numbers stay as they were.
// Refused: Range, Epoch, Profile, Kind for the step by itself, then Join where it does not begin where the chain ends, then Ninth where the
// chain has eight steps, or a length that no chain has.
pub fn extend(profile: i64, step: Step, numbers: &mut Prepared) -> Result<(), Refusal>
    ensures { (fault_number result ≡ extend_fault profile numbers.old step) × (numbers.new ≡ extended_by profile numbers.old step) }
{
    let n = numbers[0];
    extend_fault(profile, n, end_in(numbers), step)?;
    let start = start_with(n, start_in(numbers), step);
    let end = step.after;
    rows::put_ready(steps::prepare(step), numbers, count(n) + 1);
    put_first(numbers, n + 1, start, end);
    Ok(())
}
