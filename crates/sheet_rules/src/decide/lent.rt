// A point line over a chain that is lent as numbers, 13 to a step: the chain stays as it is, and one point doesn't pay for preparing it.
ghost use Rattle.std.specs.Prelude.{◌≡◌, true, false};
ghost use Rattle.refusal.specs.Refusals.{number};
ghost use Rattle.chain.specs.Numbers.{chain_from};
ghost use Rattle.line.specs.Answers.{Good};
ghost use Rattle.line.specs.Readers.{read_point, datum_place};
ghost use Rattle.sheet_rules.specs.declared.Reply.TheVariants as reply;
ghost use Rattle.sheet_rules.specs.OneLine.{sound_at, where_good, point_answered, PointPrinted};

use crate::LentPoint;
use crate::decide::standing::is_counted;
use chain::Point;
use line::Unread;
use refusal::Refusal;

// Numbers to a step.
const STEP: usize = 13;

// A refusal of the line, once the chain is tested.
// stays: line, profile and steps go one by one; tried as a struct, which lends the steps, and so each clause has to say `lent.entry.profile`.
fn print_tested(
    line: u64,
    profile: i64,
    steps: &[i64],
    refusal: Refusal,
    place: u8,
    closes: bool,
    out: &mut [u8],
    at: usize,
) -> Option<LentPoint>
    ensures { PointPrinted (where_good (chain_from profile steps.now) (reply.Refused line (number refusal) place) closes) out.old at out.new result }
{
    chain::fault_in(profile, steps).ok()?;
    Some(LentPoint {
        at: line::write_refusal(out, at, line, refusal.number(), place),
        closes,
    })
}

// A point whose line is good by itself, and where its datum begins in the line: what stands before it is written as it stands. A chain that converts a point needs
// no other test.
fn print_moved(
    line: u64,
    profile: i64,
    steps: &[i64],
    text: &[u8],
    point: Point,
    place: usize,
    out: &mut [u8],
    at: usize,
) -> Option<LentPoint>
    requires { (read_point profile text.now ≡ Good point) × (place ≡ datum_place text.now) }
    ensures { PointPrinted (point_answered (chain_from profile steps.now) line false text.now) out.old at out.new result }
{
    match chain::arrive_by(profile, steps, point) {
        Err(refusal) => print_tested(line, profile, steps, refusal, 0, true, out, at),
        Ok(arrival) => Some(LentPoint {
            at: line::write_moved(out, at, text, place, arrival.realization, arrival.position),
            closes: true,
        }),
    }
}

// Any line, whatever is wrong with it.
fn print_any(
    line: u64,
    profile: i64,
    steps: &[i64],
    refused: bool,
    text: &[u8],
    out: &mut [u8],
    at: usize,
) -> Option<LentPoint>
    ensures { PointPrinted (point_answered (chain_from profile steps.now) line refused text.now) out.old at out.new result }
{
    let read = line::read_one(profile, text);
    match read.line {
        Err(Unread::Malformed(fault)) => print_tested(
            line,
            profile,
            steps,
            fault.refusal,
            fault.place,
            false,
            out,
            at,
        ),
        Err(Unread::Refused(refusal)) => print_tested(
            line, profile, steps, refusal, 0, true, out, at,
        ),
        Ok(point) => {
            if refused {
                return print_tested(line, profile, steps, Refusal::Earlier, 0, true, out, at);
            }
            print_moved(line, profile, steps, text, point, read.place, out, at)
        }
    }
}

// A line of this number read as a point line, after a refused step or none, its point converted by the lent chain, and its answer printed from `at` on, as far as there
// is room. Where the chain is bad, nothing is printed.
pub fn print_lent(
    line: u64,
    refused: bool,
    profile: i64,
    steps: &[i64],
    text: &[u8],
    out: &mut [u8],
    at: usize,
) -> Option<LentPoint>
    ensures { PointPrinted (point_answered (chain_from profile steps.now) line refused text.now) out.old at out.new result }
{
    // Most lines are good points: they are taken as they are first read, and what is read is not put together with another reading.
    let first = line::read_placed(profile, text, 0);
    if (first.end == text.len()) & !refused {
        if let Ok(point) = first.line {
            return print_moved(line, profile, steps, text, point, first.place, out, at);
        }
    }
    print_any(line, profile, steps, refused, text, out, at)
}

// Whether a sheet can stand before the line of this number with the lent chain: what `is_sound` says of a standing.
pub fn is_sound_at(line: u64, profile: i64, steps: &[i64]) -> bool
    ensures { result ≡ sound_at line (chain_from profile steps.now) }
{
    is_counted(line, steps.len() / STEP) & chain::fault_in(profile, steps).is_ok()
}
