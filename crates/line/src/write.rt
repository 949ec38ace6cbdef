// Lines into a lent slice, from a place on. What has no room is dropped, so no caller has to show that there is room; the answer is the
// place past the line, the slice's end where the line is cut off there. A place past the end stays as it is and nothing is written.
// A line that surely has room is written by the module below; the functions here write what may be cut off, byte by byte.
// stay two writers: one for both would test the room at each byte of every good line
ghost use Rattle.std.specs.Prelude.{◌≡◌, true, [], ◌∷◌, ◌++◌, take};
ghost use Rattle.line.specs.Text.{decimal, integer, letters, name_text, point_text, moved_text, projected_text, refusal_text, Wrote, Copied};

use crate::field::{LINE_FEED, TAB, reaches};
use crate::number::wide;

mod roomy;

// The most that a line takes: its letter 2, a name 17, a number 22 with its sign and the byte after it; a line's number 21, a refusal's or a place 5.
const POINT_ROOM: usize = 173;

const PROJECTED_ROOM: usize = 63;

const REFUSAL_ROOM: usize = 33;

pub mod feeds;
pub mod lot;

const MINUS: u8 = 45;

const HIGHEST: u64 = 72057594037927936;

fn byte(out: &mut [u8], at: usize, b: u8) -> usize
    ensures { Wrote out.old at (b ∷ []) out.new result }
{
    if at < out.len() {
        out[at] = b;
        at + 1
    } else {
        at
    }
}

// A number in decimal, a digit at a time.
fn natural(out: &mut [u8], at: usize, n: u64) -> usize
    ensures { Wrote out.old at (decimal n) out.new result }
{
    if n < 10 {
        byte(out, at, 48 + (n as u8))
    } else {
        let e = natural(out, at, n / 10);
        byte(out, e, 48 + ((n % 10) as u8))
    }
}

// A number with its sign, and the byte after it.
fn whole(out: &mut [u8], at: usize, z: i64, after: u8) -> usize
    ensures { Wrote out.old at (integer z ++ (after ∷ [])) out.new result }
{
    let n = z.unsigned_abs();
    if z < 0 {
        let a = byte(out, at, MINUS);
        let b = natural(out, a, n);
        byte(out, b, after)
    } else {
        let b = natural(out, at, n);
        byte(out, b, after)
    }
}

// The bytes of one word of a name, up to a zero byte.
fn word(out: &mut [u8], at: usize, w: u64) -> usize
    ensures { Wrote out.old at (letters 8 w) out.new result }
{
    let mut p = at;
    let mut v = w;
    for _ in 0..8u64 {
        let b = v / HIGHEST;
        if b == 0 {
            break;
        }
        p = byte(out, p, b as u8);
        v = v % HIGHEST * 256;
    }
    p
}

// A name, and the tab after it.
fn name(out: &mut [u8], at: usize, id: chain::Id) -> usize
    ensures { Wrote out.old at (name_text id ++ (9 ∷ [])) out.new result }
{
    let a = word(out, at, id.high);
    let b = word(out, a, id.low);
    byte(out, b, TAB)
}

// A first letter, and the tab after it.
fn letter(out: &mut [u8], at: usize, l: u8) -> usize
    ensures { Wrote out.old at (l ∷ 9 ∷ []) out.new result }
{
    let a = byte(out, at, l);
    byte(out, a, TAB)
}

// A point's line, as far as there is room.
fn cut_point(out: &mut [u8], at: usize, p: chain::Point) -> usize
    ensures { Wrote out.old at (point_text p) out.new result }
{
    let a = letter(out, at, b'P');
    let b = name(out, a, p.label.id);
    let c = whole(out, b, p.label.issue, TAB);
    let d = whole(out, c, p.label.order, TAB);
    let r = p.realization;
    let q = p.position;
    cut_moved(out, d, r, q)
}

// The bytes of a line before a place, or all of them where it has no more, as far as there is room.
fn cut_copy(out: &mut [u8], at: usize, line: &[u8], place: usize) -> usize
    ensures { Wrote out.old at (take place line.now) out.new result }
{
    let mut p = at;
    for b in &line[..place.min(line.len())] {
        p = byte(out, p, *b);
    }
    p
}

// Datum, epoch, X, Y, Z, as far as there is room.
fn cut_moved(out: &mut [u8], at: usize, r: chain::Realization, p: chain::Position) -> usize
    ensures { Wrote out.old at (moved_text r p) out.new result }
{
    let a = whole(out, at, r.datum, TAB);
    let b = whole(out, a, r.epoch, TAB);
    let c = whole(out, b, p.x, TAB);
    let d = whole(out, c, p.y, TAB);
    whole(out, d, p.z, LINE_FEED)
}

// A projected point's line, as far as there is room.
fn cut_projected(out: &mut [u8], at: usize, id: chain::Id, e: i64, n: i64) -> usize
    ensures { Wrote out.old at (projected_text id e n) out.new result }
{
    let a = letter(out, at, b'C');
    let b = name(out, a, id);
    let c = whole(out, b, e, TAB);
    whole(out, c, n, LINE_FEED)
}

// A refusal's line, as far as there is room.
fn cut_refusal(out: &mut [u8], at: usize, line: u64, number: u8, place: u8) -> usize
    ensures { Wrote out.old at (refusal_text line number place) out.new result }
{
    let a = letter(out, at, b'R');
    let b = natural(out, a, line);
    let c = byte(out, b, TAB);
    let d = natural(out, c, wide(number));
    let e = byte(out, d, TAB);
    let f = natural(out, e, wide(place));
    byte(out, f, LINE_FEED)
}

// P, id, issue, order, datum, epoch, X, Y, Z.
pub fn write_point(out: &mut [u8], at: usize, p: chain::Point) -> usize
    ensures { Wrote out.old at (point_text p) out.new result }
{
    if reaches(out.len(), at, POINT_ROOM) {
        return roomy::point(out, at, p);
    }
    cut_point(out, at, p)
}

// Whether 32 bytes of a line may be copied for those before a place: there are so many, and what follows them is as long as what is too much.
fn is_copied_whole(line: &[u8], place: usize, p: chain::Position) -> bool
    ensures { result ≡ true → Copied line.now place p }
{
    if line.len() < 32 {
        return false;
    }
    if 32 < place {
        return false;
    }
    if -10000000000 < p.x {
        return false;
    }
    100000000000 <= p.y
}

// The bytes of a line before a place, then a datum, an epoch, X, Y, Z, each handed over as a number: a record would be stored in parts and read whole, and its reader
// wait for the stores.
fn write_apart(
    out: &mut [u8],
    at: usize,
    line: &[u8],
    place: usize,
    datum: i64,
    epoch: i64,
    x: i64,
    y: i64,
    z: i64,
) -> usize
    ensures { Wrote out.old at (take place line.now ++ moved_text (record { datum = datum; epoch = epoch }) (record { x = x; y = y; z = z })) out.new result }
{
    let r = chain::Realization { datum, epoch };
    let p = chain::Position { x, y, z };
    if reaches(out.len(), at, POINT_ROOM) && is_copied_whole(line, place, p) {
        return roomy::relabelled(out, at, line, place, r, p);
    }
    let a = cut_copy(out, at, line, place);
    cut_moved(out, a, r, p)
}

// The line of a point that was moved: the bytes of its line before a place, which is where the datum begins (`read_placed`), then datum, epoch, X, Y, Z. What stands
// before the datum is as it was read, and need not be made again.
pub fn write_moved(
    out: &mut [u8],
    at: usize,
    line: &[u8],
    place: usize,
    r: chain::Realization,
    p: chain::Position,
) -> usize
    ensures { Wrote out.old at (take place line.now ++ moved_text r p) out.new result }
{
    write_apart(out, at, line, place, r.datum, r.epoch, p.x, p.y, p.z)
}

// C, id, E, N; millimetres.
// stays beside `write_refusal`, which is alike by chance: another line, other fields
pub fn write_projected(out: &mut [u8], at: usize, id: chain::Id, e: i64, n: i64) -> usize
    ensures { Wrote out.old at (projected_text id e n) out.new result }
{
    if reaches(out.len(), at, PROJECTED_ROOM) {
        return roomy::projected(out, at, id, e, n);
    }
    cut_projected(out, at, id, e, n)
}

// R, line number, refusal number, place in the line.
pub fn write_refusal(out: &mut [u8], at: usize, line: u64, number: u8, place: u8) -> usize
    ensures { Wrote out.old at (refusal_text line number place) out.new result }
{
    if reaches(out.len(), at, REFUSAL_ROOM) {
        return roomy::refused(out, at, line, number, place);
    }
    cut_refusal(out, at, line, number, place)
}
