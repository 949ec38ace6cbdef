// A chain out of numbers, 13 to a step.
ghost use Rattle.std.specs.Prelude.{◌≡◌, ◌+◌, ◌*◌, ◌≤◌, length, drop};
ghost use Rattle.chain.specs.Numbers.{bursa_wolf_from, turned_from, kind_from, step_from, no_step, chain_from, unknown as Numbers·unknown, shift_from, velocity_from};

use crate::{BursaWolf, Chain, Convention, Kind, Realization, Shift, Step, Velocity};

// Numbers to a step.
pub(crate) const STEP: usize = 13;
// Past the range of a shift: a step of no known kind is refused for it.
const PAST: i64 = 100000001;
// The letters of the kinds, and of the conventions of a Bursa-Wolf step. They stay numbers: so a step stands in what C lends.
pub(crate) const SHIFT: i64 = b'T' as i64;

pub(crate) const VELOCITY: i64 = b'V' as i64;

pub(crate) const BURSA_WOLF: i64 = b'B' as i64;

pub(crate) const FRAME: i64 = b'F' as i64;

const POSITION_VECTOR: i64 = b'P' as i64;

const COORDINATE_FRAME: i64 = b'C' as i64;

// What stands for a kind or a convention that is not known. It stays a kind, and no None: `chain_from` gives a chain for any numbers, and
// its definition says this one.
fn unknown() -> Kind
    ensures { result ≡ Numbers·unknown }
{
    Kind::Shift(Shift {
        dx: PAST,
        dy: 0,
        dz: 0,
    })
}

pub(crate) fn shift_from(n: &[i64]) -> Kind
    requires { 13 ≤ length n.now }
    ensures { result ≡ shift_from n.now }
{
    Kind::Shift(Shift {
        dx: n[6],
        dy: n[7],
        dz: n[8],
    })
}

// stays beside `shift_from`: three numbers each, but of another kind with other names
pub(crate) fn velocity_from(n: &[i64]) -> Kind
    requires { 13 ≤ length n.now }
    ensures { result ≡ velocity_from n.now }
{
    Kind::Velocity(Velocity {
        vx: n[6],
        vy: n[7],
        vz: n[8],
    })
}

#[tactic(auto, unfolding(crate::specs::Numbers::bursa_wolf_from))]
fn bursa_wolf_from(convention: Convention, n: &[i64]) -> Kind
    requires { 13 ≤ length n.now }
    ensures { result ≡ bursa_wolf_from convention n.now }
{
    Kind::BursaWolf(BursaWolf {
        convention,
        dx: n[6],
        dy: n[7],
        dz: n[8],
        rx: n[9],
        ry: n[10],
        rz: n[11],
        s: n[12],
    })
}

#[tactic(auto, unfolding(crate::specs::Numbers::turned_from))]
pub(crate) fn turned_from(n: &[i64]) -> Kind
    requires { 13 ≤ length n.now }
    ensures { result ≡ turned_from n.now }
{
    let convention = n[1];
    if convention == POSITION_VECTOR {
        return bursa_wolf_from(Convention::PositionVector, n);
    }
    if convention == COORDINATE_FRAME {
        return bursa_wolf_from(Convention::CoordinateFrame, n);
    }
    unknown()
}

#[tactic(auto, unfolding(crate::specs::Numbers::kind_from))]
fn kind_from(n: &[i64]) -> Kind
    requires { 13 ≤ length n.now }
    ensures { result ≡ kind_from n.now }
{
    let kind = n[0];
    if kind == SHIFT {
        return shift_from(n);
    }
    if kind == VELOCITY {
        return velocity_from(n);
    }
    if kind == BURSA_WOLF {
        return turned_from(n);
    }
    if kind == FRAME {
        return Kind::Frame;
    }
    unknown()
}

// Where a step begins.
#[tactic(auto, unfolding(crate::specs::Numbers::step_from))]
pub(crate) fn before_in(n: &[i64]) -> Realization
    requires { 13 ≤ length n.now }
    ensures { result ≡ (step_from n.now).before }
{
    Realization {
        datum: n[2],
        epoch: n[3],
    }
}

// Where it ends.
#[tactic(auto, unfolding(crate::specs::Numbers::step_from))]
pub(crate) fn after_in(n: &[i64]) -> Realization
    requires { 13 ≤ length n.now }
    ensures { result ≡ (step_from n.now).after }
{
    Realization {
        datum: n[4],
        epoch: n[5],
    }
}

// A step, from its 13 numbers: kind, convention, datum and epoch before and after, and the numbers of its kind.
#[tactic(auto, unfolding(crate::specs::Numbers::step_from))]
fn step_from(n: &[i64]) -> Step
    requires { 13 ≤ length n.now }
    ensures { result ≡ step_from n.now }
{
    let kind = kind_from(n);
    let before = before_in(n);
    let after = after_in(n);
    Step {
        kind,
        before,
        after,
    }
}

// The step at an index that there is.
pub(crate) fn step_at(n: &[i64], i: usize) -> Step
    requires { 13 * i + 13 ≤ length n.now }
    ensures { result ≡ step_from (drop (13 * i) n.now) }
{
    let at = STEP * i;
    step_from(&n[at..])
}

// Where it ends.
pub(crate) fn after_at(n: &[i64], i: usize) -> Realization
    requires { 13 * i + 13 ≤ length n.now }
    ensures { result ≡ (step_from (drop (13 * i) n.now)).after }
{
    let at = STEP * i;
    after_in(&n[at..])
}

// What stands past a chain's steps.
#[tactic(auto, unfolding(crate::specs::Numbers::no_step))]
fn no_step() -> Step
    ensures { result ≡ no_step }
{
    let kind = unknown();
    Step {
        kind,
        before: Realization { datum: 0, epoch: 0 },
        after: Realization { datum: 0, epoch: 0 },
    }
}

// A chain of a profile: its steps one after the other. Past the eighth they are counted and not read.
pub fn chain_from(profile: i64, n: &[i64]) -> Chain
    ensures { result ≡ chain_from profile n.now }
{
    let length = n.len() / STEP;
    let mut steps = [no_step(); 8];
    for i in 0..length.min(8) {
        steps[i] = step_at(n, i);
    }
    Chain {
        steps,
        length,
        profile,
    }
}
