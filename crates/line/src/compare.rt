// The later of two point lines: the one with the greater issue, by number and not by text; the first where they are byte-equal.
ghost use Rattle.std.specs.Prelude.{◌≡◌};
ghost use Rattle.refusal.specs.Refusals.{number};
ghost use Rattle.line.specs.Answers.{line_told};
ghost use Rattle.line.specs.Later.{refused_in, unread_in, weighed, compared, later_of, later_fault_of, reason_told, verdict_told, later_fault_told, Refused, Handed};

use crate::point_line::read_point;
use crate::{LaterFault, Neither, Unread, Which};
use refusal::Refusal;

// A line, 1 or 2, that is not read as a point.
fn unread(line: u8, why: Unread) -> LaterFault
    ensures { Refused (reason_told result) ≡ unread_in line why }
{
    match why {
        Unread::Malformed(fault) => LaterFault {
            refusal: fault.refusal,
            line,
            place: fault.place,
        },
        Unread::Refused(refusal) => LaterFault {
            refusal,
            line,
            place: 0,
        },
    }
}

// What two points together say is refused.
fn between(refusal: Refusal) -> Result<Which, LaterFault>
    ensures { verdict_told result ≡ refused_in 0 (number refusal) }
{
    Err(LaterFault {
        refusal,
        line: 0,
        place: 0,
    })
}

fn weigh(p: chain::Point, q: chain::Point, equal: bool) -> Result<Which, LaterFault>
    ensures { verdict_told result ≡ weighed p q equal }
{
    if p.label.id.high != q.label.id.high {
        return between(Refusal::Ids);
    }
    if p.label.id.low != q.label.id.low {
        return between(Refusal::Ids);
    }
    if p.label.issue < q.label.issue {
        return Ok(Which::Second);
    }
    if q.label.issue < p.label.issue {
        return Ok(Which::First);
    }
    if equal {
        Ok(Which::First)
    } else {
        between(Refusal::Same)
    }
}

fn by_issue(
    a: Result<chain::Point, Unread>,
    b: Result<chain::Point, Unread>,
    equal: bool,
) -> Result<Which, LaterFault>
    ensures { verdict_told result ≡ compared (line_told a) (line_told b) equal }
{
    match a {
        Err(why) => Err(unread(1, why)),
        Ok(p) => match b {
            Err(why) => Err(unread(2, why)),
            Ok(q) => weigh(p, q, equal),
        },
    }
}

// Which of two point lines is the later one, or why neither is: for callers that want no part.
pub fn later_verdict(first: &[u8], second: &[u8]) -> Result<Which, LaterFault>
    ensures { verdict_told result ≡ later_of first.now second.now }
{
    let a = read_point(chain::LATEST, first);
    let b = read_point(chain::LATEST, second);
    let equal = first == second;
    by_issue(a, b, equal)
}

// Why neither of two point lines is the later one, if so.
pub fn later_fault(first: &[u8], second: &[u8]) -> Result<(), LaterFault>
    ensures { later_fault_told result ≡ later_fault_of (later_of first.now second.now) }
{
    later_verdict(first, second)?;
    Ok(())
}

// The later of two lent point lines, each with its line feed: that part of the caller's bytes. Refused: the first line's form, RANGE or
// EPOCH, then the second's, then IDS, then SAME, with an empty part of the first.
pub fn later_of_two<'a>(first: &'a [u8], second: &'a [u8]) -> Result<&'a [u8], Neither<'a>>
    ensures { Handed (later_of first.now second.now) first.entry second.entry result }
{
    match later_verdict(first, second) {
        Ok(Which::First) => Ok(first),
        Ok(Which::Second) => Ok(second),
        Err(fault) => Err(Neither {
            fault,
            part: &first[..0],
        }),
    }
}
