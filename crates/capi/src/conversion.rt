// Conversion of a point by a chain, forward and inverse.
ghost use Rattle.std.specs.Prelude.{◌≡◌, ◌≤◌, length};
ghost use Rattle.refusal.specs.Refusals.{told};
ghost use Rattle.capi.specs.Outcome.{Returns};
ghost use Rattle.capi.specs.Chains.{whole_steps, point_from, point_numbers};
ghost use Rattle.capi.specs.Calls.{of_answer, forward_call, inverse_call};

use crate::WRONG_LENGTH;
use crate::status::{give, status};
use chain::{Id, Label, Point, Position, Realization};
use refusal::Refusal;

// Whether the chain has whole steps, the point its seven numbers, and the output room for seven.
fn are_sized(chain: usize, point: usize, out: usize) -> bool
    ensures { result ≡ whole_steps chain point out }
{
    (chain % 13 == 0) & (point == 7) & (out == 7)
}

// A point, from its seven numbers: issue, order, datum, epoch, X, Y, Z. Its id stays with the caller.
// stays a function: the numbers are what C lends, and the record is chain's, so no From can stand here
pub(crate) fn point_from(n: &[i64]) -> Point
    requires { 7 ≤ length n.now }
    ensures { result ≡ point_from n.now }
{
    Point {
        label: Label {
            id: Id { high: 0, low: 0 },
            issue: n[0],
            order: n[1],
        },
        realization: Realization {
            datum: n[2],
            epoch: n[3],
        },
        position: Position {
            x: n[4],
            y: n[5],
            z: n[6],
        },
    }
}

// Its seven numbers again.
pub(crate) fn point_numbers(p: Point) -> [i64; 7]
    ensures { result ≡ point_numbers p }
{
    [
        p.label.issue,
        p.label.order,
        p.realization.datum,
        p.realization.epoch,
        p.position.x,
        p.position.y,
        p.position.z,
    ]
}

// Writes a converted point, or answers the refusal.
fn give_point(answer: Result<Point, Refusal>, out: &mut [i64]) -> i64
    requires { length out.old ≡ 7 }
    ensures { Returns (of_answer (told answer)) out.old out.new result }
{
    match answer {
        Err(refusal) => status(refusal),
        Ok(p) => give(&point_numbers(p), out),
    }
}

// A point forward by a chain of a profile, 2009 or 2021 (document 01: along).
pub fn swivelcrane_forward(profile: i64, chain: &[i64], point: &[i64], out: &mut [i64]) -> i64
    ensures { Returns (forward_call profile chain.now point.now out.old) out.old out.new result }
{
    if !are_sized(chain.len(), point.len(), out.len()) {
        return WRONG_LENGTH;
    }
    give_point(chain::forward_by(profile, chain, point_from(point)), out)
}

// A point inverse by a chain of a profile, 2009 or 2021 (document 01: back).
pub fn swivelcrane_inverse(profile: i64, chain: &[i64], point: &[i64], out: &mut [i64]) -> i64
    ensures { Returns (inverse_call profile chain.now point.now out.old) out.old out.new result }
{
    if !are_sized(chain.len(), point.len(), out.len()) {
        return WRONG_LENGTH;
    }
    give_point(chain::inverse_by(profile, chain, point_from(point)), out)
}
