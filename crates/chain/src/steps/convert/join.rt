// Joining two chains.
ghost use Rattle.std.specs.Prelude.{◌≡◌, ◌+◌, ◌≤◌};
ghost use Rattle.refusal.specs.Order.{first as Order·first};
ghost use Rattle.refusal.specs.Refusals.{told, fault_number};
ghost use Rattle.chain.specs.Faults.{steps_of};
ghost use Rattle.chain.specs.Join.{meet, pair_tests, joined_of, join_fault, join_of};

use crate::steps::convert;
use crate::{Chain, Realization, checks};
use refusal::Refusal;

// Whether the second chain begins where the first ends; an empty chain joins any.
fn chains_meet(first: Chain, second: Chain) -> bool
    requires { first.length ≤ 8 }
    ensures { result ≡ meet (steps_of first) (steps_of second) }
{
    let anywhere = Realization { datum: 0, epoch: 0 };
    let end = convert::end_of(first, convert::start_of(second, anywhere));
    let start = convert::start_of(second, end);
    end == start
}

// What two good chains are refused for together: Join, Ninth, Profile.
fn pair_fault(first: Chain, second: Chain) -> Result<(), Refusal>
    requires { (first.length ≤ 8) × (second.length ≤ 8) }
    ensures { fault_number result ≡ Order·first (pair_tests first second) }
{
    if !chains_meet(first, second) {
        return Err(Refusal::Join);
    }
    if first.length + second.length > 8 {
        return Err(Refusal::Ninth);
    }
    if !ranges::equal(first.profile, second.profile) {
        return Err(Refusal::Profile);
    }
    Ok(())
}

// The two chains' steps one after the other.
fn joined(first: Chain, second: Chain) -> Chain
    requires { first.length + second.length ≤ 8 }
    ensures { result ≡ joined_of first second }
{
    let length = first.length + second.length;
    let mut steps = first.steps;
    steps[first.length..length].copy_from_slice(&second.steps[..second.length]);
    Chain {
        steps,
        length,
        profile: first.profile,
    }
}

// What joining is refused for: the first chain's own fault, the second's, then that of the two.
fn join_fault(first: Chain, second: Chain) -> Result<(), Refusal>
    ensures { fault_number result ≡ join_fault first second }
{
    checks::chain_fault(first)?;
    checks::chain_fault(second)?;
    pair_fault(first, second)
}

// Joins a chain to another: the second's steps after the first's, under their one profile. Refusals, the
// first that applies: the first chain's own Range (its profile), Ninth, and of each step Range, Epoch, Profile, Kind, Join; the second chain's own; then Join
// where the second doesn't begin where the first ends, Ninth where they have more than eight steps together, Profile where their profiles differ. An empty
// chain joins any of its profile.
pub fn join(first: Chain, second: Chain) -> Result<Chain, Refusal>
    ensures { told result ≡ join_of first second }
{
    join_fault(first, second)?;
    Ok(joined(first, second))
}
