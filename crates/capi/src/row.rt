// A day's points in one call: rows of numbers, seven to a point and eight to an answer.
ghost use Rattle.std.specs.Prelude.{◌≡◌, ◌+◌, ◌*◌, ◌/◌, ◌≤◌, length, Some, None};
ghost use Rattle.std.proofs.lemmas.List.Edits.{sets};
ghost use Rattle.refusal.specs.Order.{pick};
ghost use Rattle.chain.specs.PointRow.{convert_ready};
ghost use Rattle.capi.specs.Outcome.{Returns};
ghost use Rattle.capi.specs.PointRow.{answer_numbers, answers_of, direction_from, direction_range, whole_rows, row_call};

use crate::WRONG_LENGTH;
use crate::conversion::{point_from, point_numbers};
use crate::joining::copy;
use crate::status::status;
use chain::{Direction, Point, ReadyChain, chain_from};
use refusal::Refusal;

// Numbers to a point, and to an answer: the refusal number or 0, then the point's.
const POINT: usize = 7;

const ANSWER: usize = 8;

// Whether the chain has whole steps, and the rows whole points and whole answers.
fn are_whole(chain: usize, points: usize, answers: usize) -> bool
    ensures { result ≡ whole_rows chain points answers }
{
    (chain % 13 == 0) & (points % POINT == 0) & (answers % ANSWER == 0)
}

// Which way: 0 along the chain, 1 back.
// Stays a function: neither TryFrom nor Direction is this crate's, so no impl can stand here.
fn direction_from(direction: i64) -> Option<Direction>
    ensures { result ≡ pick (direction_range direction) (Some (direction_from direction)) None }
{
    match direction {
        0 => Some(Direction::Forward),
        1 => Some(Direction::Inverse),
        _ => None,
    }
}

// An answer's numbers from an index on: a refusal has zeros beside its own. Each is written where it is known: as one array they go through memory.
fn put_answer(answer: Result<Point, u8>, out: &mut [i64], at: usize)
    requires { at + 8 ≤ length out.old }
    ensures { out.new ≡ sets out.old at (answer_numbers answer) }
{
    match answer {
        Err(number) => copy(&[i64::from(number), 0, 0, 0, 0, 0, 0, 0], out, at),
        Ok(p) => {
            let [issue, order, datum, epoch, x, y, z] = point_numbers(p);
            copy(&[0, issue, order, datum, epoch, x, y, z], out, at);
        }
    }
}

// The answer of each point, in their order.
fn put_answers(ready: ReadyChain, direction: Direction, points: &[i64], out: &mut [i64])
    requires { length points.now / 7 * 8 ≤ length out.old }
    ensures { out.new ≡ sets out.old 0 (answers_of (convert_ready ready direction) (length points.now / 7) points.now) }
{
    let count = points.len() / POINT;
    for i in 0..count {
        let point = point_from(&points[POINT * i..]);
        let answer = chain::convert_ready(ready, direction, point);
        put_answer(answer, out, ANSWER * i);
    }
}

// Each point of a row by one chain of a profile, 2009 or 2021, along it (direction 0) or back (1). Each answer is that of `swivelcrane_forward` or
// `swivelcrane_inverse` for its point, the number first; answers past the points stay. The call gives 0, or the number of what it is refused for as a whole, with
// nothing written: WRONG_LENGTH; ROW for fewer answers than points; RANGE for another direction; then the chain's own.
pub fn swivelcrane_row(
    profile: i64,
    chain: &[i64],
    direction: i64,
    points: &[i64],
    answers: &mut [i64],
) -> i64
    ensures { Returns (row_call profile chain.now direction points.now answers.old) answers.old answers.new result }
{
    if !are_whole(chain.len(), points.len(), answers.len()) {
        return WRONG_LENGTH;
    }
    if answers.len() / ANSWER < points.len() / POINT {
        return status(Refusal::Row);
    }
    let Some(direction) = direction_from(direction) else {
        return status(Refusal::Range);
    };
    let ready = chain::ready_chain(chain_from(profile, chain));
    if ready.refusal != 0 {
        return i64::from(ready.refusal);
    }
    put_answers(ready, direction, points, answers);
    0
}
