// Whether a chain that is lent as numbers, 13 to a step, is good: told by the numbers, with no chain made of them.
ghost use Rattle.std.specs.Prelude.{◌≡◌, ◌+◌, ◌*◌, ◌/◌, ◌≤◌, length, drop};
ghost use Rattle.refusal.specs.Order.{first};
ghost use Rattle.refusal.specs.Refusals.{fault_number};
ghost use Rattle.chain.specs.Faults.{chain_tests};
ghost use Rattle.chain.specs.Numbers.{kind_from, step_from, chain_from, steps_in, dated, good_kind, follows, good_steps};

use crate::{Kind, Realization, checks, kinds, numbers, points, profiles};
use refusal::Refusal;

// Whether a datum at an epoch is one that a step under a profile may say.
#[tactic(auto, unfolding(crate::specs::Numbers::dated))]
fn is_dated(profile: i64, r: Realization) -> bool
    ensures { result ≡ dated profile r }
{
    points::realization_in_range(r) & points::agrees(r) & profiles::has_datum(profile, r)
}

// Whether a kind's numbers are in range, its rule is kept and the profile has it.
#[tactic(auto, unfolding(crate::specs::Numbers::good_kind))]
fn is_good(profile: i64, kind: Kind, before: Realization, after: Realization) -> bool
    ensures { result ≡ good_kind profile kind before after }
{
    kinds::kind_in_range(kind)
        & kinds::kind_rule(kind, before, after)
        & profiles::has_kind(profile, kind)
}

// The same of a step's numbers. Its letter is asked once, and each kind's tests stand where the kind is known.
#[tactic(auto, unfolding(crate::specs::Numbers::kind_from))]
fn is_good_kind(profile: i64, n: &[i64], before: Realization, after: Realization) -> bool
    requires { 13 ≤ length n.now }
    ensures { result ≡ good_kind profile (kind_from n.now) before after }
{
    let kind = n[0];
    if kind == numbers::SHIFT {
        return is_good(profile, numbers::shift_from(n), before, after);
    }
    if kind == numbers::VELOCITY {
        return is_good(profile, numbers::velocity_from(n), before, after);
    }
    if kind == numbers::BURSA_WOLF {
        return is_good(profile, numbers::turned_from(n), before, after);
    }
    if kind == numbers::FRAME {
        return is_good(profile, Kind::Frame, before, after);
    }
    false
}

// Whether a step begins where the one before it ended, and is good by itself if that is.
#[tactic(auto, unfolding(crate::specs::Numbers::follows))]
fn does_follow(profile: i64, end: Realization, n: &[i64]) -> bool
    requires { 13 ≤ length n.now }
    ensures { result ≡ follows profile end (step_from n.now) }
{
    let before = numbers::before_in(n);
    let after = numbers::after_in(n);
    if !((end == before) & is_dated(profile, after)) {
        return false;
    }
    is_good_kind(profile, n, before, after)
}

// Whether the steps are good, each by itself and after the one before it.
fn are_good(profile: i64, steps: &[i64]) -> bool
    requires { length steps.now / 13 ≤ 8 }
    ensures { result ≡ good_steps profile (steps_in steps.now) }
{
    let n = steps.len() / numbers::STEP;
    if n == 0 {
        return true;
    }
    let mut end = numbers::before_in(steps);
    if !is_dated(profile, end) {
        return false;
    }
    for i in 0..n {
        let at = numbers::STEP * i;
        if !does_follow(profile, end, &steps[at..]) {
            return false;
        }
        end = numbers::after_at(steps, i);
    }
    true
}

// The refusal of the chain that the numbers say, which is made. Never inlined: the room for the chain would be cleared where none is made.
#[inline(never)]
fn fault_made(profile: i64, steps: &[i64]) -> Result<(), Refusal>
    ensures { fault_number result ≡ first (chain_tests (chain_from profile steps.now)) }
{
    checks::chain_fault(numbers::chain_from(profile, steps))
}

// The refusal that a chain of lent numbers alone decides: that of `chain_fault` for the chain that they say. Only of a bad one is the chain made.
pub fn fault_in(profile: i64, steps: &[i64]) -> Result<(), Refusal>
    ensures { fault_number result ≡ first (chain_tests (chain_from profile steps.now)) }
{
    if ranges::is_profile(profile) & (steps.len() / numbers::STEP <= 8) {
        if are_good(profile, steps) {
            return Ok(());
        }
    }
    fault_made(profile, steps)
}
