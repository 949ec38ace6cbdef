// What a chain, and a point for it, are refused for.
ghost use Rattle.std.specs.Prelude.{◌≡◌, ◌++◌, ◌∷◌, [], ◌≤◌};
ghost use Rattle.refusal.specs.Order.{first};
ghost use Rattle.refusal.specs.Refusals.{fault_number};
ghost use Rattle.chain.specs.Faults.{step_tests, join_test, steps_tests, chain_tests, point_tests, steps_of};
ghost use Rattle.chain.specs.Convert.{realization_and_area_tests};

use crate::{Chain, Point, Realization, Step, faults, points};
use refusal::Refusal;

// A step that follows another: its own faults, then Join where it doesn't begin where the other ended.
#[tactic(auto, unfolding(crate::specs::Faults::step_fault))]
fn later_fault(profile: i64, previous: Step, step: Step) -> Result<(), Refusal>
    ensures { fault_number result ≡ first (step_tests profile step ++ (join_test previous step ∷ [])) }
{
    faults::step_fault(profile, step)?;
    if previous.after != step.before {
        return Err(Refusal::Join);
    }
    Ok(())
}

// The steps within the length, one after another.
fn steps_fault(chain: Chain) -> Result<(), Refusal>
    requires { chain.length ≤ 8 }
    ensures { fault_number result ≡ first (steps_tests chain.profile (steps_of chain)) }
{
    let n = chain.length;
    if n == 0 {
        return Ok(());
    }
    let mut previous = chain.steps[0];
    faults::step_fault(chain.profile, previous)?;
    for i in 1..n {
        let step = chain.steps[i];
        later_fault(chain.profile, previous, step)?;
        previous = step;
    }
    Ok(())
}

// The refusal that a chain alone decides, before any point is looked at: Range for its profile, Ninth for its length, then of each step in turn Range, Epoch,
// Profile, Kind, Join. Units and ranges as of `forward`.
pub fn chain_fault(chain: Chain) -> Result<(), Refusal>
    ensures { fault_number result ≡ first (chain_tests chain) }
{
    if !ranges::is_profile(chain.profile) {
        return Err(Refusal::Range);
    }
    if chain.length > 8 {
        return Err(Refusal::Ninth);
    }
    steps_fault(chain)
}

// The refusal of a point for a conversion of a profile that wants it at a realization: its numbers, Profile, Start, Area.
#[tactic(auto, unfolding(crate::specs::Faults::point_fault))]
pub(crate) fn entry_fault(profile: i64, point: Point, wanted: Realization) -> Result<(), Refusal>
    ensures { fault_number result ≡ first (point_tests profile point ++ realization_and_area_tests point wanted) }
{
    faults::point_fault(profile, point)?;
    if point.realization != wanted {
        return Err(Refusal::Start);
    }
    if !points::in_area(point.position) {
        return Err(Refusal::Area);
    }
    Ok(())
}
