// The rows of a prepared chain: a step's figures as eight numbers, and back. The caller's numbers can be anything, so a row says whether a
// step can have given it.
ghost use Rattle.std.specs.Prelude.{◌≡◌, ◌&&◌, [], ◌∷◌, ◌*◌, ◌<◌};
ghost use Rattle.std.proofs.lemmas.List.Edits.{sets};
ghost use Rattle.chain.specs.Axes.{Small};
ghost use Rattle.chain.specs.Ready.{ready_parts};
ghost use Rattle.chain.specs.Prepared.{numbers_of, form_range, ready_of, ready_range, row_at, stepped};

use crate::steps::{Ready, Scale, Turn};
use crate::{Direction, Position, Prepared, steps};

// The forms of a row: the same gain everywhere, Bursa-Wolf, a frame. They stay numbers, as all that a prepared chain holds is.
const FIXED: i64 = 0;

const TURNED: i64 = 1;

const SCALED: i64 = 2;

#[tactic(auto, unfolding(crate::specs::Prepared::ready_range))]
fn fixed_in_range(g: Position) -> bool
    ensures { result ≡ ready_range (Ready.Fixed g) }
{
    ranges::three_within(-100000000, g.x, g.y, g.z, 100000000)
}

// stays beside `kinds::bursa_wolf_in_range`: other bounds, of what is made ready
#[tactic(auto, unfolding(crate::specs::Prepared::ready_range))]
fn turn_in_range(t: Turn) -> bool
    ensures { result ≡ ready_range (Ready.Turned t) }
{
    ranges::three_within(-100000000, t.dx, t.dy, t.dz, 100000000)
        & (ranges::three_within(-4848234, t.rx, t.ry, t.rz, 4848234)
            & ranges::within(-2000000, t.s, 2000000))
}

#[tactic(auto, unfolding(crate::specs::Prepared::ready_range))]
fn scale_in_range(t: Scale) -> bool
    ensures { result ≡ ready_range (Ready.Scaled t) }
{
    ranges::three_within(-1971000000000000000, t.kx, t.ky, t.kz, 1971000000000000000)
        & ranges::within(-1202000, t.slope, 1202000)
}

// Where a gain that is the same everywhere leads, if it is no larger than any step gives. It is inlined, as all that takes a direction (steps.rt).
#[inline(always)]
fn fixed_moved(direction: Direction, g: Position, p: Position) -> Option<Position>
    requires { Small 640000000000 p }
    ensures { result ≡ stepped direction (ready_range (Ready.Fixed g)) (ready_parts (Ready.Fixed g)) p }
{
    if !fixed_in_range(g) {
        return None;
    }
    Some(steps::fixed_by(direction, g, p))
}

#[inline(always)]
fn turn_moved(direction: Direction, t: Turn, p: Position) -> Option<Position>
    requires { Small 640000000000 p }
    ensures { result ≡ stepped direction (ready_range (Ready.Turned t)) (ready_parts (Ready.Turned t)) p }
{
    if !turn_in_range(t) {
        return None;
    }
    Some(steps::turn_by(direction, t, p))
}

#[inline(always)]
fn scale_moved(direction: Direction, t: Scale, p: Position) -> Option<Position>
    requires { Small 640000000000 p }
    ensures { result ≡ stepped direction (ready_range (Ready.Scaled t)) (ready_parts (Ready.Scaled t)) p }
{
    if !scale_in_range(t) {
        return None;
    }
    Some(steps::scale_by(direction, t, p))
}

// Where eight numbers lead. The form is asked for once, and not by the ranges and by the gain again.
#[inline(always)]
fn moved_by(
    direction: Direction,
    form: i64,
    a: i64,
    b: i64,
    c: i64,
    d: i64,
    e: i64,
    f: i64,
    g: i64,
    p: Position,
) -> Option<Position>
    requires { Small 640000000000 p }
    ensures { result ≡ stepped direction (form_range form && ready_range (ready_of form a b c d e f g)) (ready_parts (ready_of form a b c d e f g)) p }
{
    if !ranges::within(FIXED, form, SCALED) {
        return None;
    }
    if ranges::equal(FIXED, form) {
        return fixed_moved(direction, Position { x: a, y: b, z: c }, p);
    }
    if ranges::equal(TURNED, form) {
        let turn = Turn {
            dx: a,
            dy: b,
            dz: c,
            rx: d,
            ry: e,
            rz: f,
            s: g,
        };
        return turn_moved(direction, turn, p);
    }
    let scale = Scale {
        kx: a,
        ky: b,
        kz: c,
        slope: d,
    };
    scale_moved(direction, scale, p)
}

// Where a row's step leads, if a step can have given the row: the caller's numbers can be anything.
#[inline(always)]
pub(crate) fn moved(
    direction: Direction,
    numbers: &Prepared,
    index: usize,
    p: Position,
) -> Option<Position>
    requires { (index < 9) × Small 640000000000 p }
    ensures { result ≡ stepped direction (row_at numbers.now index).good (ready_parts (row_at numbers.now index).ready) p }
{
    let at = 8 * index;
    moved_by(
        direction,
        numbers[at],
        numbers[at + 1],
        numbers[at + 2],
        numbers[at + 3],
        numbers[at + 4],
        numbers[at + 5],
        numbers[at + 6],
        numbers[at + 7],
        p,
    )
}

// Eight numbers into a row.
fn put(
    numbers: &mut Prepared,
    index: usize,
    form: i64,
    a: i64,
    b: i64,
    c: i64,
    d: i64,
    e: i64,
    f: i64,
    g: i64,
)
    requires { index < 9 }
    ensures { numbers.new ≡ sets numbers.old (8 * index) (form ∷ a ∷ b ∷ c ∷ d ∷ e ∷ f ∷ g ∷ []) }
{
    let at = 8 * index;
    numbers[at] = form;
    numbers[at + 1] = a;
    numbers[at + 2] = b;
    numbers[at + 3] = c;
    numbers[at + 4] = d;
    numbers[at + 5] = e;
    numbers[at + 6] = f;
    numbers[at + 7] = g;
}

pub(crate) fn put_ready(r: Ready, numbers: &mut Prepared, index: usize)
    requires { index < 9 }
    ensures { numbers.new ≡ sets numbers.old (8 * index) (numbers_of r) }
{
    match r {
        Ready::Fixed(g) => put(numbers, index, FIXED, g.x, g.y, g.z, 0, 0, 0, 0),
        Ready::Turned(t) => put(
            numbers, index, TURNED, t.dx, t.dy, t.dz, t.rx, t.ry, t.rz, t.s,
        ),
        Ready::Scaled(t) => put(numbers, index, SCALED, t.kx, t.ky, t.kz, t.slope, 0, 0, 0),
    }
}
