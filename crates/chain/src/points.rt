// Whether the numbers of points and of what they hold lie in their ranges. Tests are joined by `&` and `|`, so that each function is one expression with no
// branch.
ghost use Rattle.std.specs.Prelude.{◌≡◌};
ghost use Rattle.chain.specs.Faults.{realization_range, agrees, given_position, in_area, label_range, point_range};

use crate::{Label, Point, Position, Realization};
use ranges::{equal, within};

// Whether datum and epoch are in their ranges.
#[tactic(auto, unfolding(crate::specs::Faults::realization_range))]
pub(crate) fn realization_in_range(r: Realization) -> bool
    ensures { result ≡ realization_range r }
{
    within(1, r.datum, 10) & (equal(0, r.epoch) | within(1980000, r.epoch, 2100000))
}

// Whether the epoch is 0 exactly with datums 1 and 2.
#[tactic(auto, unfolding(crate::specs::Faults::agrees))]
pub(crate) fn agrees(r: Realization) -> bool
    ensures { result ≡ agrees r }
{
    equal(0, r.epoch) == within(1, r.datum, 2)
}

// Whether each coordinate is in the range as given.
#[tactic(auto, unfolding(crate::specs::Faults::given_position))]
pub(crate) fn given(p: Position) -> bool
    ensures { result ≡ given_position p }
{
    ranges::three_within(-640000000000, p.x, p.y, p.z, 640000000000)
}

// Whether a position lies in the area.
#[tactic(auto, unfolding(crate::specs::Faults::in_area))]
pub(crate) fn in_area(p: Position) -> bool
    ensures { result ≡ in_area p }
{
    ranges::in_area(p.x, p.y, p.z)
}

// Whether issue and order are in their ranges. The id is not looked at.
#[tactic(auto, unfolding(crate::specs::Faults::label_range))]
fn label_in_range(label: Label) -> bool
    ensures { result ≡ label_range label }
{
    within(1, label.issue, 65535) & within(1, label.order, 4)
}

// Whether a point's numbers are in their ranges.
// stays beside `kinds::step_in_range`: other parts
#[tactic(auto, unfolding(crate::specs::Faults::point_range))]
pub(crate) fn point_in_range(point: Point) -> bool
    ensures { result ≡ point_range point }
{
    let label = point.label;
    let r = point.realization;
    let p = point.position;
    label_in_range(label) & realization_in_range(r) & given(p)
}
