// Conversion by a chain that is lent as numbers, 13 to a step: each step is read where it stands, and no chain is made.
ghost use Rattle.std.specs.Prelude.{◌≡◌, ◌/◌, ◌≤◌, length};
ghost use Rattle.refusal.specs.Refusals.{told};
ghost use Rattle.chain.specs.Convert.{start_of, end_of, arrival_of, forward_of, inverse_of};
ghost use Rattle.chain.specs.PointRow.{convert_of};
ghost use Rattle.chain.specs.Numbers.{chain_from, steps_in};

use crate::steps::convert;
use crate::{Arrival, Direction, Point, Realization, checks, lent, numbers};
use refusal::Refusal;

// Where the steps start; for none, where the point is.
fn start_in(steps: &[i64], r: Realization) -> Realization
    ensures { result ≡ start_of r (steps_in steps.now) }
{
    if steps.len() < numbers::STEP {
        return r;
    }
    numbers::before_in(steps)
}

// Where they end; for none, where the point is.
fn end_in(steps: &[i64], r: Realization) -> Realization
    requires { length steps.now / 13 ≤ 8 }
    ensures { result ≡ end_of r (steps_in steps.now) }
{
    let n = steps.len() / numbers::STEP;
    if n == 0 {
        return r;
    }
    numbers::after_at(steps, n - 1)
}

// Where a point arrives by them, either way. It is inlined, as all that takes a direction (steps.rt).
#[inline(always)]
fn arrive(
    profile: i64,
    steps: &[i64],
    direction: Direction,
    point: Point,
) -> Result<Arrival, Refusal>
    ensures { told result ≡ arrival_of (convert_of (chain_from profile steps.now) direction point) }
{
    lent::fault_in(profile, steps)?;
    let here = point.realization;
    let start = start_in(steps, here);
    let end = end_in(steps, here);
    checks::entry_fault(profile, point, convert::either(direction, start, end))?;
    let count = steps.len() / numbers::STEP;
    let position = convert::walk(
        direction,
        count,
        |i| numbers::step_at(steps, i),
        point.position,
    )?;
    let realization = convert::either(direction, end, start);
    Ok(Arrival {
        realization,
        position,
    })
}

// Where a point arrives by the chain of a profile whose steps are these numbers: what `forward` answers by the chain itself, its label
// apart, in the same units and with the same refusals.
pub fn arrive_by(profile: i64, steps: &[i64], point: Point) -> Result<Arrival, Refusal>
    ensures { told result ≡ arrival_of (forward_of (chain_from profile steps.now) point) }
{
    arrive(profile, steps, Direction::Forward, point)
}

// The same as an answer: what `forward` answers by the chain itself.
// stays as `kept::convert_prepared` has it: the two lines tell where a point arrives, and a function for them would say no more
pub fn forward_by(profile: i64, steps: &[i64], point: Point) -> Result<Point, Refusal>
    ensures { told result ≡ forward_of (chain_from profile steps.now) point }
{
    let arrival = arrive_by(profile, steps, point)?;
    Ok(convert::moved_to(point, arrival.realization, arrival.position))
}

// A point inverse by it: what `inverse` answers by the chain itself.
pub fn inverse_by(profile: i64, steps: &[i64], point: Point) -> Result<Point, Refusal>
    ensures { told result ≡ inverse_of (chain_from profile steps.now) point }
{
    let arrival = arrive(profile, steps, Direction::Inverse, point)?;
    Ok(convert::moved_to(point, arrival.realization, arrival.position))
}
