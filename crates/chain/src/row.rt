// A row of points in one call: the chain is made ready once, and each point goes by it.
ghost use Rattle.std.specs.Prelude.{◌≡◌, Ok, Err};
ghost use Rattle.refusal.specs.Order.{first, unless};
ghost use Rattle.refusal.specs.Refusals.{told, fault_number};
ghost use Rattle.chain.specs.Faults.{point_fault, chain_tests, steps_of};
ghost use Rattle.chain.specs.PointRow.{no_numbers, extended_all, ready_chain_of, convert_prepared, convert_ready, row_fault_of, row_answers};

use crate::steps::kept;
use crate::{Chain, Direction, Point, Prepared, ReadyChain, checks, faults};
use refusal::Refusal;

pub mod answers;

// A chain's steps, put to the prepared chain of no steps, the first first; or what the chain is refused for, and then none is put.
// The numbers are lent: handed back in a Result they are copied twice more, which a row of few points pays for.
fn prepare(chain: Chain, numbers: &mut Prepared) -> Result<(), Refusal>
    requires { numbers.old ≡ no_numbers }
    ensures { (fault_number result ≡ first (chain_tests chain))
        × (numbers.new ≡ unless (first (chain_tests chain)) (λ n. no_numbers) (extended_all chain.profile no_numbers (steps_of chain))) }
{
    checks::chain_fault(chain)?;
    for i in 0..chain.length {
        kept::extend(chain.profile, chain.steps[i], numbers)?;
    }
    Ok(())
}

// A chain made ready for many points. A bad chain has its own refusal's number in it (Range for its profile, Ninth, then each step's), and no steps.
pub fn ready_chain(chain: Chain) -> ReadyChain
    ensures { result ≡ ready_chain_of chain }
{
    let mut numbers = [0i64; 72];
    let refusal = match prepare(chain, &mut numbers) {
        Ok(()) => 0,
        Err(refusal) => refusal.number(),
    };
    ReadyChain {
        refusal,
        profile: chain.profile,
        numbers,
    }
}

// A point by the numbers of a good chain, either way.
fn convert_by(
    profile: i64,
    numbers: &Prepared,
    direction: Direction,
    point: Point,
) -> Result<Point, Refusal>
    ensures { told result ≡ unless (point_fault profile point) Err (convert_prepared direction numbers.now point) }
{
    faults::point_fault(profile, point)?;
    match direction {
        Direction::Forward => kept::forward_prepared(numbers, point),
        Direction::Inverse => kept::inverse_prepared(numbers, point),
    }
}

// A point by a chain that is ready, either way: what `forward` or `inverse` gives by the chain itself, in the same units and with the same refusals.
// The u8 stays: a ready chain is the caller's, can hold any number as its refusal, and every one is answered.
#[tactic(auto, unfolding(crate::specs::PointRow::convert_ready))]
pub fn convert_ready(ready: ReadyChain, direction: Direction, point: Point) -> Result<Point, u8>
    ensures { result ≡ convert_ready ready direction point }
{
    if ready.refusal != 0 {
        return Err(ready.refusal);
    }
    Ok(convert_by(ready.profile, &ready.numbers, direction, point)?)
}

// Each point of a lent row by one chain. The first answers are those of `forward` or `inverse` for each point, in order, refused or not; answers past the
// points are left as they were. A row of answers that is too short (Row), or a bad chain, is refused and nothing is written.
// The u8 is that of `convert_ready`: what is lent is the caller's, and a refusal past the points can be any number. `answers::convert_row` is lent refusals.
pub fn convert_row_numbered(
    chain: Chain,
    direction: Direction,
    points: &[Point],
    answers: &mut [Result<Point, u8>],
) -> Result<(), Refusal>
    ensures { (fault_number result ≡ row_fault_of chain points.now answers.old)
        × (answers.new ≡ row_answers chain direction points.now answers.old) }
{
    if answers.len() < points.len() {
        return Err(Refusal::Row);
    }
    let mut numbers = [0i64; 72];
    prepare(chain, &mut numbers)?;
    let ready = ReadyChain {
        refusal: 0,
        profile: chain.profile,
        numbers,
    };
    for i in 0..points.len() {
        answers[i] = convert_ready(ready, direction, points[i]);
    }
    Ok(())
}
