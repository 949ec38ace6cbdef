// The ranges and the rules of the four kinds of step.
ghost use Rattle.std.specs.Prelude.{◌≡◌};
ghost use Rattle.chain.specs.Faults.{kind_range, kind_rule, step_range};

use crate::{BursaWolf, Kind, Realization, Shift, Step, Velocity, points};

#[tactic(auto, unfolding(crate::specs::Faults::kind_range))]
fn shift_in_range(t: Shift) -> bool
    ensures { result ≡ kind_range (Kind.Shift t) }
{
    ranges::three_within(-100000000, t.dx, t.dy, t.dz, 100000000)
}

#[tactic(auto, unfolding(crate::specs::Faults::kind_range))]
fn velocity_in_range(t: Velocity) -> bool
    ensures { result ≡ kind_range (Kind.Velocity t) }
{
    ranges::three_within(-10000, t.vx, t.vy, t.vz, 10000)
}

#[tactic(auto, unfolding(crate::specs::Faults::kind_range))]
fn bursa_wolf_in_range(t: BursaWolf) -> bool
    ensures { result ≡ kind_range (Kind.BursaWolf t) }
{
    ranges::three_within(-100000000, t.dx, t.dy, t.dz, 100000000)
        & (ranges::three_within(-1000000, t.rx, t.ry, t.rz, 1000000)
            & ranges::within(-2000000, t.s, 2000000))
}

#[tactic(auto, unfolding(crate::specs::Faults::kind_range))]
pub(crate) fn kind_in_range(kind: Kind) -> bool
    ensures { result ≡ kind_range kind }
{
    match kind {
        Kind::Shift(t) => shift_in_range(t),
        Kind::Velocity(t) => velocity_in_range(t),
        Kind::BursaWolf(t) => bursa_wolf_in_range(t),
        Kind::Frame => true,
    }
}

// Whether all of a step's numbers are in their ranges.
#[tactic(auto, unfolding(crate::specs::Faults::step_range))]
pub(crate) fn step_in_range(step: Step) -> bool
    ensures { result ≡ step_range step }
{
    let kind = step.kind;
    let before = step.before;
    let after = step.after;
    kind_in_range(kind) & points::realization_in_range(before) & points::realization_in_range(after)
}

// A velocity stays on one datum and has two epochs.
#[tactic(auto, unfolding(crate::specs::Faults::kind_rule))]
fn velocity_rule(before: Realization, after: Realization) -> bool
    ensures { (t : Velocity) → result ≡ kind_rule (Kind.Velocity t) before after }
{
    ranges::equal(before.datum, after.datum)
        & !ranges::equal(0, before.epoch)
        & !ranges::equal(0, after.epoch)
}

// A frame step goes from datums 5 to 9 to datum 10 at one epoch.
#[tactic(auto, unfolding(crate::specs::Faults::kind_rule))]
fn frame_rule(before: Realization, after: Realization) -> bool
    ensures { result ≡ kind_rule Kind.Frame before after }
{
    ranges::within(5, before.datum, 9)
        & ranges::equal(10, after.datum)
        & ranges::equal(before.epoch, after.epoch)
}

// Whether the rule of the step's kind is kept.
#[tactic(auto, unfolding(crate::specs::Faults::kind_rule))]
pub(crate) fn kind_rule(kind: Kind, before: Realization, after: Realization) -> bool
    ensures { result ≡ kind_rule kind before after }
{
    match kind {
        Kind::Shift(_) => true,
        Kind::Velocity(_) => velocity_rule(before, after),
        Kind::BursaWolf(_) => true,
        Kind::Frame => frame_rule(before, after),
    }
}
