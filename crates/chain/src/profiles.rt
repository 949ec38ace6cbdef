// What an edition of the circular has: that of 2009 datums 1 to 5 and 7, and of the steps T and B alone; any other year has them all, and
// whether it is a profile is the chain's matter.
ghost use Rattle.std.specs.Prelude.{◌≡◌};
ghost use Rattle.chain.specs.Faults.{has_datum, has_kind, has_step};

use crate::{Kind, Realization, Step};
use ranges::equal;

// The year whose edition has no time-dependent frame.
const WITHOUT_TIME: i64 = 2009;

// Whether an edition has the datum.
#[tactic(auto, unfolding(crate::specs::Faults::has_datum))]
pub(crate) fn has_datum(profile: i64, r: Realization) -> bool
    ensures { result ≡ has_datum profile r }
{
    !equal(WITHOUT_TIME, profile) | ranges::within(1, r.datum, 5) | equal(7, r.datum)
}

#[tactic(auto, unfolding(crate::specs::Faults::has_kind))]
pub(crate) fn has_kind(profile: i64, kind: Kind) -> bool
    ensures { result ≡ has_kind profile kind }
{
    match kind {
        Kind::Shift(_) => true,
        Kind::Velocity(_) => !equal(WITHOUT_TIME, profile),
        Kind::BursaWolf(_) => true,
        Kind::Frame => !equal(WITHOUT_TIME, profile),
    }
}

// Whether an edition has a step: its kind, and both its datums. Only one edition lacks any, so nothing is looked at under another.
#[tactic(auto, unfolding(crate::specs::Faults::has_step))]
pub(crate) fn has_step(profile: i64, step: Step) -> bool
    ensures { result ≡ has_step profile step }
{
    if !equal(WITHOUT_TIME, profile) {
        return true;
    }
    let kind = step.kind;
    let before = step.before;
    let after = step.after;
    has_kind(profile, kind) & has_datum(profile, before) & has_datum(profile, after)
}
