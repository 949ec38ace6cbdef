// Lines and their parts where there is room for the longest: one test for a whole line, and then none for its bytes. Digits go two at a time.
ghost use Rattle.std.specs.Prelude.{◌+◌, ◌<◌, ◌≤◌, [], ◌∷◌, ◌++◌, length, take};
ghost use Rattle.line.specs.Text.{decimal, integer, letters, name_text, point_text, moved_text, projected_text, refusal_text, Put, Copied, two, sign_of};

use crate::field::{LINE_FEED, TAB};
use crate::number::wide;
use crate::write::roomy::packed::{
    copied, eight_digits, four_digits, leading, mostly_four, seven_digits,
};
use crate::write::{HIGHEST, MINUS, natural};

mod packed;

const MILLION: u64 = 1000000;

const TEN_MILLION: u64 = 10000000;

const HUNDRED_MILLION: u64 = 100000000;

const MILLION_MILLION: u64 = 1000000000000;

pub fn put(out: &mut [u8], at: usize, b: u8) -> usize
    requires { at < length out.old }
    ensures { Put 1 out.old at (b ∷ []) out.new result }
{
    out[at] = b;
    at + 1
}

// Both digits as one number of two bytes: tens + 256·ones, each 48 up, where ones = v - 10·tens. They become one store of two bytes.
pub fn pair(out: &mut [u8], at: usize, v: u64) -> usize
    requires { (v < 100) × (at + 2 ≤ length out.old) }
    ensures { Put 2 out.old at (two v) out.new result }
{
    let x = v * 256 + 12336 - (v / 10) * 2559;
    out[at] = (x % 256) as u8;
    out[at + 1] = (x / 256) as u8;
    at + 2
}

// stay apart: one, two, four and eight digits are written in a row each; one for all would loop over pairs of digits
fn up_to_two(out: &mut [u8], at: usize, n: u64) -> usize
    requires { (n < 100) × (at + 2 ≤ length out.old) }
    ensures { Put 2 out.old at (decimal n) out.new result }
{
    if n < 10 {
        put(out, at, 48 + (n as u8))
    } else {
        pair(out, at, n)
    }
}

fn up_to_four(out: &mut [u8], at: usize, n: u64) -> usize
    requires { (n < 10000) × (at + 4 ≤ length out.old) }
    ensures { Put 4 out.old at (decimal n) out.new result }
{
    if n < 100 {
        up_to_two(out, at, n)
    } else {
        let a = up_to_two(out, at, n / 100);
        pair(out, a, n % 100)
    }
}

fn up_to_eight(out: &mut [u8], at: usize, n: u64) -> usize
    requires { (n < 100000000) × (at + 8 ≤ length out.old) }
    ensures { Put 8 out.old at (decimal n) out.new result }
{
    if n < 10000 {
        up_to_four(out, at, n)
    } else {
        let a = leading(out, at, n / 10000);
        four_digits(out, a, n % 10000)
    }
}

// A number of nine to twelve digits.
fn long(out: &mut [u8], at: usize, n: u64) -> usize
    requires { (100000000 ≤ n) × (n < 1000000000000) × (at + 20 ≤ length out.old) }
    ensures { Put 20 out.old at (decimal n) out.new result }
{
    let a = mostly_four(out, at, n / HUNDRED_MILLION);
    eight_digits(out, a, n % HUNDRED_MILLION)
}

// Any number. Few have more than twelve digits: these go one by one, in a function that this one ends with, so that it keeps nothing for after it.
pub fn digits(out: &mut [u8], at: usize, n: u64) -> usize
    requires { at + 20 ≤ length out.old }
    ensures { Put 20 out.old at (decimal n) out.new result }
{
    if n < HUNDRED_MILLION {
        return up_to_eight(out, at, n);
    }
    if n < MILLION_MILLION {
        return long(out, at, n);
    }
    natural(out, at, n)
}

// Any number; issue, order and datum mostly have one digit.
fn mostly_one(out: &mut [u8], at: usize, n: u64) -> usize
    requires { at + 20 ≤ length out.old }
    ensures { Put 20 out.old at (decimal n) out.new result }
{
    if n < 10 {
        put(out, at, 48 + (n as u8))
    } else {
        digits(out, at, n)
    }
}

fn sign(out: &mut [u8], at: usize, z: i64) -> usize
    requires { at < length out.old }
    ensures { Put 1 out.old at (sign_of z) out.new result }
{
    if z < 0 { put(out, at, MINUS) } else { at }
}

// A number with its sign, and the byte after it.
fn number(out: &mut [u8], at: usize, z: i64, after: u8) -> usize
    requires { at + 22 ≤ length out.old }
    ensures { Put 22 out.old at (integer z ++ (after ∷ [])) out.new result }
{
    let a = sign(out, at, z);
    let b = mostly_one(out, a, z.unsigned_abs());
    put(out, b, after)
}

// Any number, and the byte after it; an epoch mostly has seven digits.
fn mostly_seven(out: &mut [u8], at: usize, n: u64, after: u8) -> usize
    requires { at + 21 ≤ length out.old }
    ensures { Put 21 out.old at (decimal n ++ (after ∷ [])) out.new result }
{
    if MILLION <= n {
        if n < TEN_MILLION {
            let a = seven_digits(out, at, n);
            return put(out, a, after);
        }
    }
    let a = digits(out, at, n);
    put(out, a, after)
}

// An epoch, and the byte after it.
fn epoch(out: &mut [u8], at: usize, z: i64, after: u8) -> usize
    requires { at + 22 ≤ length out.old }
    ensures { Put 22 out.old at (integer z ++ (after ∷ [])) out.new result }
{
    if z < 0 {
        return number(out, at, z, after);
    }
    mostly_seven(out, at, z.unsigned_abs(), after)
}

// The bytes of one word of a name, up to a zero byte.
fn word(out: &mut [u8], at: usize, w: u64) -> usize
    requires { at + 8 ≤ length out.old }
    ensures { Put 8 out.old at (letters 8 w) out.new result }
{
    let mut p = at;
    let mut v = w;
    for _ in 0..8u64 {
        let b = v / HIGHEST;
        if b == 0 {
            break;
        }
        p = put(out, p, b as u8);
        v = v % HIGHEST * 256;
    }
    p
}

// A name, and the tab after it.
fn name(out: &mut [u8], at: usize, id: chain::Id) -> usize
    requires { at + 17 ≤ length out.old }
    ensures { Put 17 out.old at (name_text id ++ (9 ∷ [])) out.new result }
{
    let a = word(out, at, id.high);
    let b = word(out, a, id.low);
    put(out, b, TAB)
}

// A first letter, and the tab after it.
pub fn letter(out: &mut [u8], at: usize, l: u8) -> usize
    requires { at + 2 ≤ length out.old }
    ensures { Put 2 out.old at (l ∷ 9 ∷ []) out.new result }
{
    let a = put(out, at, l);
    put(out, a, TAB)
}

// Two numbers, each with the byte after it.
fn two_numbers(out: &mut [u8], at: usize, y: i64, z: i64, after: u8) -> usize
    requires { at + 44 ≤ length out.old }
    ensures { Put 44 out.old at ((integer y ++ (9 ∷ [])) ++ (integer z ++ (after ∷ []))) out.new result }
{
    let a = number(out, at, y, TAB);
    number(out, a, z, after)
}

// Id, issue, order.
fn label(out: &mut [u8], at: usize, l: chain::Label) -> usize
    requires { at + 61 ≤ length out.old }
    ensures { Put 61 out.old at ((name_text l.id ++ (9 ∷ [])) ++ ((integer l.issue ++ (9 ∷ [])) ++ (integer l.order ++ (9 ∷ [])))) out.new result }
{
    let a = name(out, at, l.id);
    two_numbers(out, a, l.issue, l.order, TAB)
}

// Datum, epoch.
fn realization(out: &mut [u8], at: usize, r: chain::Realization) -> usize
    requires { at + 44 ≤ length out.old }
    ensures { Put 44 out.old at ((integer r.datum ++ (9 ∷ [])) ++ (integer r.epoch ++ (9 ∷ []))) out.new result }
{
    let a = number(out, at, r.datum, TAB);
    epoch(out, a, r.epoch, TAB)
}

// X, Y, Z.
fn position(out: &mut [u8], at: usize, p: chain::Position) -> usize
    requires { at + 66 ≤ length out.old }
    ensures { Put 66 out.old at ((integer p.x ++ (9 ∷ [])) ++ ((integer p.y ++ (9 ∷ [])) ++ (integer p.z ++ (10 ∷ [])))) out.new result }
{
    let a = number(out, at, p.x, TAB);
    two_numbers(out, a, p.y, p.z, LINE_FEED)
}

// Datum, epoch, X, Y, Z.
fn moved(out: &mut [u8], at: usize, r: chain::Realization, p: chain::Position) -> usize
    requires { at + 110 ≤ length out.old }
    ensures { Put 110 out.old at (moved_text r p) out.new result }
{
    let a = realization(out, at, r);
    position(out, a, p)
}

// P, id, issue, order, datum, epoch, X, Y, Z.
pub fn point(out: &mut [u8], at: usize, p: chain::Point) -> usize
    requires { at + 173 ≤ length out.old }
    ensures { Put 173 out.old at (point_text p) out.new result }
{
    let a = letter(out, at, b'P');
    let l = p.label;
    let b = label(out, a, l);
    let r = p.realization;
    let q = p.position;
    moved(out, b, r, q)
}

// The bytes of a line before a place, then datum, epoch, X, Y, Z: 32 bytes are copied whatever the place, with no branch by it.
pub fn relabelled(
    out: &mut [u8],
    at: usize,
    line: &[u8],
    place: usize,
    r: chain::Realization,
    p: chain::Position,
) -> usize
    requires { (at + 173 ≤ length out.old) × Copied line.now place p }
    ensures { Put 142 out.old at (take place line.now ++ moved_text r p) out.new result }
{
    copied(out, at, line);
    moved(out, at + place, r, p)
}

// C, id, E, N; millimetres.
pub fn projected(out: &mut [u8], at: usize, id: chain::Id, e: i64, n: i64) -> usize
    requires { at + 63 ≤ length out.old }
    ensures { Put 63 out.old at (projected_text id e n) out.new result }
{
    let a = letter(out, at, b'C');
    let b = name(out, a, id);
    two_numbers(out, b, e, n, LINE_FEED)
}

// A refusal's number or a place in a line, and the byte after it.
fn short(out: &mut [u8], at: usize, n: u8, after: u8) -> usize
    requires { at + 5 ≤ length out.old }
    ensures { Put 5 out.old at (decimal n ++ (after ∷ [])) out.new result }
{
    let a = up_to_four(out, at, wide(n));
    put(out, a, after)
}

// R, line number, refusal number, place in the line.
pub fn refused(out: &mut [u8], at: usize, line: u64, number: u8, place: u8) -> usize
    requires { at + 33 ≤ length out.old }
    ensures { Put 33 out.old at (refusal_text line number place) out.new result }
{
    let a = letter(out, at, b'R');
    let b = digits(out, a, line);
    let c = put(out, b, TAB);
    let d = short(out, c, number, TAB);
    short(out, d, place, LINE_FEED)
}
