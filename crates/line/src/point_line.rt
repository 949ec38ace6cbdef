// P, id, issue, order, datum, epoch, X, Y, Z.
ghost use Rattle.std.specs.Prelude.{◌≡◌, ◌<◌, ◌≤◌, IfSome, length};
ghost use Rattle.line.specs.FirstLine.{Ended, First};
ghost use Rattle.line.specs.Forms.{point_form, point_of};
ghost use Rattle.line.specs.Answers.{Good, Refused, line_told, placed_told};
ghost use Rattle.line.specs.Readers.{read_point, placed_point, one_point, judged};
ghost use Rattle.line.specs.Reading.{Told, capped_placed};
ghost use Rattle.chain.specs.Faults.{point_fault};

use crate::ends::line_end;
use crate::field::{LINE_FEED, letter};
use crate::form::Fields;
use crate::name::name;
use crate::number::counted::{
    of_few, of_last_eleven, of_minus_twelve, of_one, of_seven, of_twelve,
};
use crate::number::{Integer, number};
use crate::second_look::fault_of;
use crate::{PlacedLine, Unread};

// A line has at most so many bytes.
const LONGEST: usize = 200;

// The first line of some bytes, where it says a point: its fields, where the datum begins, and where the line ends.
#[derive(Clone, Copy)]
struct FirstLine {
    point: chain::Point,
    place: usize,
    end: usize,
}

// The point that its fields tell.
fn told(
    id: chain::Id,
    issue: Integer,
    order: Integer,
    datum: Integer,
    epoch: Integer,
    x: Integer,
    y: Integer,
    z: Integer,
) -> chain::Point
    ensures { result ≡ point_of id issue.value order.value datum.value epoch.value x.value y.value z.value }
{
    chain::Point {
        label: chain::Label {
            id,
            issue: issue.value,
            order: order.value,
        },
        realization: chain::Realization {
            datum: datum.value,
            epoch: epoch.value,
        },
        position: chain::Position {
            x: x.value,
            y: y.value,
            z: z.value,
        },
    }
}

// A point line's point, and where its datum begins.
fn point_fields(s: &[u8]) -> Fields<(chain::Point, usize)>
    ensures { Told s.now capped_placed point_form 0 result.record result.next }
{
    let at = letter(s, 0, b'P');
    let named = name(s, at);
    let issue = number(s, named.next);
    let order = number(s, issue.next);
    let datum = number(s, order.next);
    let epoch = number(s, datum.next);
    let x = number(s, epoch.next);
    let y = number(s, x.next);
    let z = number(s, y.next);
    let id = named.id;
    Fields {
        record: (told(id, issue, order, datum, epoch, x, y, z), order.next),
        next: z.next,
    }
}

fn judge_point(profile: i64, p: chain::Point) -> Result<chain::Point, Unread>
    ensures { line_told result ≡ judged (point_fault profile) Good Refused p }
{
    chain::point_fault(profile, p)?;
    Ok(p)
}

// A line by itself. Nearly every one that comes here is malformed, so that is asked first.
fn read_alone(profile: i64, line: &[u8]) -> PlacedLine
    ensures { placed_told result ≡ one_point profile line.now }
{
    // As a new slice, as where `read_placed` says why.
    if let Err(fault) = fault_of(&line[..line.len()], b'P') {
        return PlacedLine {
            line: Err(Unread::Malformed(fault)),
            place: 0,
            end: line.len(),
        };
    }
    let (p, place) = point_fields(&line[..line.len() - 1]).record;
    PlacedLine {
        line: judge_point(profile, p),
        place,
        end: line.len(),
    }
}

// A guess at the place of the line feed after the last field: most often after eleven digits. Who reads the field finds out whether it is.
fn feed_after(s: &[u8], at: usize) -> usize
    requires { at < length s.now }
    ensures { (at ≤ result) × (result < length s.now) }
{
    if 11 < s.len() - at && s[at + 11] == LINE_FEED {
        return at + 11;
    }
    line_end(s, at) - 1
}

// A number that a line ends with: the place where a next field would begin is then where the line ends.
fn last_field(s: &[u8], at: usize) -> Option<Integer>
    ensures { IfSome result (λ z. Ended s.now at z.value z.next) }
{
    if s.len() <= at {
        return None;
    }
    let feed = feed_after(s, at);
    let z = of_last_eleven(&s[..feed], at);
    if (z.next == feed + 1) & (s[feed] == LINE_FEED) & (feed < LONGEST) {
        Some(z)
    } else {
        None
    }
}

// The first line of some bytes: its fields tell where it ends, so that no line feed is looked for before they are read.
fn first_line(s: &[u8]) -> Option<FirstLine>
    ensures { IfSome result (λ r. First s.now (r.point, r.place) r.end) }
{
    let at = letter(s, 0, b'P');
    let named = name(s, at);
    let issue = of_few(s, named.next);
    let order = of_one(s, issue.next);
    let place = order.next;
    let datum = of_one(s, place);
    let epoch = of_seven(s, datum.next);
    let x = of_minus_twelve(s, epoch.next);
    let y = of_twelve(s, x.next);
    let z = last_field(s, y.next)?;
    let id = named.id;
    Some(FirstLine {
        point: told(id, issue, order, datum, epoch, x, y, z),
        place,
        end: z.next,
    })
}

// The line of an input that begins at `from`, under a profile (2009 or 2021), as `read_point` reads it; where its datum begins; and where it ends.
// Past the end of the input there is a line of no bytes.
pub fn read_placed(profile: i64, input: &[u8], from: usize) -> PlacedLine
    ensures { placed_told result ≡ placed_point profile input.now from }
{
    if input.len() < from {
        let none = read_alone(profile, &input[..0]);
        let l = none.line;
        return PlacedLine {
            line: l,
            place: none.place,
            end: from,
        };
    }
    if let Some(first) = first_line(&input[from..]) {
        let p = first.point;
        return PlacedLine {
            line: judge_point(profile, p),
            place: first.place,
            end: from + first.end,
        };
    }
    // As a new slice: one that is handed on as it came is stored by halves and read whole, and its reader waits for the stores.
    let end = line_end(&input[..input.len()], from);
    let r = read_alone(profile, &input[from..end]);
    let l = r.line;
    PlacedLine {
        line: l,
        place: r.place,
        end,
    }
}

// One line under a profile (2009 or 2021), whatever its bytes: as `read_point` reads it; where its datum begins, 0 where it is malformed; and its length.
pub fn read_one(profile: i64, line: &[u8]) -> PlacedLine
    ensures { placed_told result ≡ one_point profile line.now }
{
    let r = read_placed(profile, line, 0);
    if r.end == line.len() {
        return r;
    }
    read_alone(profile, line)
}

// A point line under a profile (2009 or 2021): its point; malformed (LENGTH, LETTER, COUNT, ID, PLAIN); or RANGE, EPOCH, PROFILE.
pub fn read_point(profile: i64, line: &[u8]) -> Result<chain::Point, Unread>
    ensures { line_told result ≡ read_point profile line.now }
{
    let r = read_one(profile, line);
    r.line
}
