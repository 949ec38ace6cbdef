// Conversion by a chain, by value, for every chain and every point.
ghost use Rattle.std.specs.Prelude.{◌≡◌, true, ℕ, ◌<◌, ◌≤◌, List, length};
ghost use Rattle.refusal.specs.Order.{first};
ghost use Rattle.refusal.specs.Refusals.{told};
ghost use Rattle.chain.specs.Faults.{StepOk, in_area, steps_of};
ghost use Rattle.chain.specs.Ways.{either, place, in_order, StandsAt};
ghost use Rattle.chain.specs.Convert.{step_by, walk, ended, start_of, end_of, moved_to, forward_of, inverse_of};
ghost use Rattle.chain.specs.PointRow.{convert_of};

use crate::{Chain, Direction, Kind, Point, Position, Realization, Step, checks, points, steps};
use refusal::Refusal;

pub mod join;
pub mod lent;

// A step either way, by its kind: what a kind gains is worked out where its kind is known. What takes a direction is inlined, as in
// steps.rt: each direction has a loop of its own.
#[inline(always)]
fn step_by(direction: Direction, step: Step, p: Position) -> Position
    requires { (StepOk step) × (in_area p ≡ true) }
    ensures { result ≡ step_by direction step p }
{
    match step.kind {
        Kind::Shift(t) => steps::fixed_by(direction, steps::shift_ready(t), p),
        Kind::Velocity(t) => steps::fixed_by(direction, steps::velocity_ready(step, t), p),
        Kind::BursaWolf(t) => steps::turn_by(direction, steps::bursa_wolf_ready(step, t), p),
        Kind::Frame => steps::scale_by(direction, steps::frame_ready(step), p),
    }
}

// Of a chain's two ends, the one that is meant in a direction: the first forward, the other inverse.
#[inline(always)]
pub(crate) fn either(
    direction: Direction,
    forward: Realization,
    inverse: Realization,
) -> Realization
    ensures { result ≡ either direction forward inverse }
{
    match direction {
        Direction::Forward => forward,
        Direction::Inverse => inverse,
    }
}

// Where the step stands that is gone by after so many others, of a number of them: forward from the first, inverse from the last.
#[inline(always)]
pub(crate) fn place(direction: Direction, count: usize, gone: usize) -> usize
    requires { gone < count }
    ensures { result ≡ place direction count gone }
{
    match direction {
        Direction::Forward => gone,
        Direction::Inverse => count - 1 - gone,
    }
}

// The point at another realization and position: its label passes through.
pub(crate) fn moved_to(point: Point, r: Realization, p: Position) -> Point
    ensures { result ≡ moved_to point r p }
{
    let label = point.label;
    Point {
        label,
        realization: r,
        position: p,
    }
}

// Over a number of steps, each got by its index, to where they lead from a position.
#[inline(always)]
fn walk<S: Fn(usize) -> Step>(
    direction: Direction,
    count: usize,
    step_at: S,
    start: Position,
) -> Result<Position, Refusal>
    requires begins { in_area start ≡ true }
    requires callable { (i : ℕ) → i < count → S.pre step_at i }
    requires sound { (i : ℕ) (s : Step) → i < count → S.post step_at i s → StepOk s }
    ensures { (ss : List Step) → length ss ≡ count → StandsAt ss (S.post step_at) → told result ≡ ended (walk (step_by direction) (in_order direction ss) start) }
{
    let mut p = start;
    for gone in 0..count {
        let step = step_at(place(direction, count, gone));
        p = step_by(direction, step, p);
        if !points::in_area(p) {
            return Err(Refusal::Left);
        }
    }
    Ok(p)
}

// Where a chain starts; for the empty chain, where the point is.
#[tactic(auto, unfolding(crate::specs::Convert::start_of))]
fn start_of(chain: Chain, r: Realization) -> Realization
    ensures { result ≡ start_of r (steps_of chain) }
{
    if chain.length == 0 {
        return r;
    }
    let s = chain.steps[0];
    s.before
}

// Where a chain ends; for the empty chain, where the point is.
fn end_of(chain: Chain, r: Realization) -> Realization
    requires { chain.length ≤ 8 }
    ensures { result ≡ end_of r (steps_of chain) }
{
    let n = chain.length;
    if n == 0 {
        return r;
    }
    let last = n - 1;
    let s = chain.steps[last];
    s.after
}

// A point by a chain, either way.
#[inline(always)]
fn convert(chain: Chain, direction: Direction, point: Point) -> Result<Point, Refusal>
    ensures { told result ≡ convert_of chain direction point }
{
    checks::chain_fault(chain)?;
    let here = point.realization;
    let start = start_of(chain, here);
    let end = end_of(chain, here);
    checks::entry_fault(chain.profile, point, either(direction, start, end))?;
    let p = walk(direction, chain.length, |i| chain.steps[i], point.position)?;
    Ok(moved_to(point, either(direction, end, start), p))
}

// A point forward by a chain (document 01: along): to the chain's end, or refused.
// Units: coordinates 0.00001 m; epochs 0.001 year, 0 for none; rotations 0.00001"; scale 10^-11. Ranges: those of crate ranges, all ends
// allowed; every position, before the chain and after each step, lies in the area. Refusals, the first that applies: Range for the profile;
// Ninth; of each step in turn Range, Epoch, Profile, Kind, Join; of the point Range, Epoch, Profile, Start, Area; then Left. The empty chain
// refuses no point for Start.
pub fn forward(chain: Chain, point: Point) -> Result<Point, Refusal>
    ensures { told result ≡ forward_of chain point }
{
    convert(chain, Direction::Forward, point)
}

// A point inverse by a chain (document 01: back): to the chain's start, or refused. Start is then for a point that is not at the chain's end.
// Units: coordinates 0.00001 m; epochs 0.001 year, 0 for none; rotations 0.00001"; scale 10^-11. Ranges: those of crate ranges, all ends
// allowed; every position, before the chain and after each step, lies in the area. Refusals, the first that applies: Range for the profile;
// Ninth; of each step in turn Range, Epoch, Profile, Kind, Join; of the point Range, Epoch, Profile, Start, Area; then Left. The empty chain
// refuses no point for Start.
pub fn inverse(chain: Chain, point: Point) -> Result<Point, Refusal>
    ensures { told result ≡ inverse_of chain point }
{
    convert(chain, Direction::Inverse, point)
}
