// What a point and a step are refused for by themselves.
ghost use Rattle.std.specs.Prelude.{◌≡◌};
ghost use Rattle.refusal.specs.Refusals.{fault_number};
ghost use Rattle.chain.specs.Faults.{point_fault, step_fault, profile_fault};

use crate::{Point, Step, kinds, points, profiles};
use refusal::Refusal;

// The refusal that a point's numbers alone decide under a profile (2009 or 2021): Range, Epoch, Profile. The area and the chain are not looked at.
#[tactic(auto, unfolding(crate::specs::Faults::point_fault))]
pub fn point_fault(profile: i64, point: Point) -> Result<(), Refusal>
    ensures { fault_number result ≡ point_fault profile point }
{
    if !points::point_in_range(point) {
        return Err(Refusal::Range);
    }
    if !points::agrees(point.realization) {
        return Err(Refusal::Epoch);
    }
    if !profiles::has_datum(profile, point.realization) {
        return Err(Refusal::Profile);
    }
    Ok(())
}

// The refusal that a step alone decides under a profile (2009 or 2021): Range, Epoch, Profile, Kind.
#[tactic(auto, unfolding(crate::specs::Faults::step_fault))]
pub fn step_fault(profile: i64, step: Step) -> Result<(), Refusal>
    ensures { fault_number result ≡ step_fault profile step }
{
    if !kinds::step_in_range(step) {
        return Err(Refusal::Range);
    }
    if !(points::agrees(step.before) & points::agrees(step.after)) {
        return Err(Refusal::Epoch);
    }
    if !profiles::has_step(profile, step) {
        return Err(Refusal::Profile);
    }
    if !kinds::kind_rule(step.kind, step.before, step.after) {
        return Err(Refusal::Kind);
    }
    Ok(())
}

// The refusal that a profile alone decides: Range for a year that is no edition's.
#[tactic(auto, unfolding(crate::specs::Faults::profile_fault))]
pub fn profile_fault(profile: i64) -> Result<(), Refusal>
    ensures { fault_number result ≡ profile_fault profile }
{
    if !ranges::is_profile(profile) {
        return Err(Refusal::Range);
    }
    Ok(())
}
