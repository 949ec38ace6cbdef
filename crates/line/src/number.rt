// A number in plain form: decimal, no plus, no spare zeros, no -0. It may have any length: from 10^13 on it is carried as 10^13,
// which no range reaches, so that a number too large is told from a bad one and nothing wraps.
ghost use Rattle.std.specs.Prelude.{◌≡◌, ◌<◌, ◌≤◌, pos, neg_ℤ};
ghost use Rattle.line.specs.Number.{digits, plain, number_of};
ghost use Rattle.line.specs.Reading.{Got, capped, capped_z, cap, Long, Sized, Onto, Carried};

use crate::field::{closed, nowhere, reaches};
use crate::number::words::{ZEROS, eight, other_eight, word};

pub mod counted;
pub(crate) mod words;

const CAP: u64 = 10000000000000;
// One digit more on a number below this is still far from wrapping.
const ROOM: u64 = 100000000000000000;

const MINUS: u8 = 45;

const ZERO: u8 = 48;

const NINE: u8 = 57;

// A number with its sign, and where the next field begins.
#[derive(Clone, Copy)]
pub struct Integer {
    pub value: i64,
    pub next: usize,
}

// A number without a sign.
#[derive(Clone, Copy)]
struct Natural {
    value: u64,
    next: usize,
}

pub fn wide(b: u8) -> u64
    ensures { (result ≡ b) × (result < 256) }
{
    b as u64
}

fn at_most_cap(a: u64) -> u64
    ensures { result ≡ capped a }
{
    a.min(CAP)
}

// The digits from `at` on, of a number that is past the cap already: only the field's end is told.
fn rest(s: &[u8], at: usize) -> usize
    ensures { Long s.now at result }
{
    let mut i = at;
    // stays a while: it goes on as long as there are digits, and tells where they end
    while i < s.len() && s[i].is_ascii_digit() {
        i += 1;
    }
    closed(s, i)
}

// The digits from `at` on, after a first digit: eight of them at once where there are eight, else none.
fn ahead(s: &[u8], at: usize, first: u64) -> Natural
    requires { first < 10 }
    ensures { Carried s.now at first result.next result.value }
{
    if reaches(s.len(), at, 8) {
        let d = word(s, at) ^ ZEROS;
        if !other_eight(d) {
            return Natural {
                value: first * 100000000 + eight(d),
                next: at + 8,
            };
        }
    }
    Natural {
        value: first,
        next: at,
    }
}

// Up to four digits more, which stay below the cap: with no test of it, and in a row in the compiled code.
fn few(s: &[u8], at: usize, first: u64) -> Natural
    requires { first < 1000000000 }
    ensures { Onto s.now at first result.next result.value × (result.value < 10000000000000) }
{
    let mut a = first;
    let mut i = at;
    for _ in 0..4u64 {
        if s.len() <= i {
            break;
        }
        let b = s[i];
        if !b.is_ascii_digit() {
            break;
        }
        a = a * 10 + (wide(b) - 48);
        i += 1;
    }
    Natural { value: a, next: i }
}

// The digits from `at` to the field's end, after a first digit.
fn magnitude(s: &[u8], at: usize, first: u64) -> Natural
    requires { first < 10 }
    ensures { Sized s.now (digits first) at result.value result.next }
{
    let nine = ahead(s, at, first);
    let begun = few(s, nine.next, nine.value);
    let mut a = begun.value;
    let mut i = begun.next;
    // stays a while, likewise
    while i < s.len() && s[i].is_ascii_digit() {
        if ROOM <= a {
            return Natural {
                value: CAP,
                next: rest(s, i),
            };
        }
        a = a * 10 + (wide(s[i]) - 48);
        i += 1;
    }
    Natural {
        value: at_most_cap(a),
        next: closed(s, i),
    }
}

// A number without a sign: at least one digit, and no spare zero in front.
fn unsigned(s: &[u8], at: usize) -> Natural
    ensures { Sized s.now plain at result.value result.next }
{
    if at < s.len() {
        let b = s[at];
        if b == ZERO {
            return Natural {
                value: 0,
                next: closed(s, at + 1),
            };
        }
        if b.is_ascii_digit() {
            return magnitude(s, at + 1, wide(b) - 48);
        }
    }
    Natural {
        value: 0,
        next: nowhere(s),
    }
}

fn below_zero(n: u64) -> i64
    requires { n ≤ cap }
    ensures { result ≡ neg_ℤ (pos n) }
{
    0 - (n as i64)
}

fn above_zero(n: u64) -> i64
    requires { n ≤ cap }
    ensures { result ≡ pos n }
{
    n as i64
}

// The number in the field at `at`.
pub fn number(s: &[u8], at: usize) -> Integer
    ensures { Got s.now capped_z number_of at result.value result.next }
{
    if s.len() <= at {
        return Integer {
            value: 0,
            next: nowhere(s),
        };
    }
    if s[at] == MINUS {
        let m = unsigned(s, at + 1);
        let n = m.value;
        let next = if n == 0 { nowhere(s) } else { m.next };
        Integer {
            value: below_zero(n),
            next,
        }
    } else {
        let m = unsigned(s, at);
        Integer {
            value: above_zero(m.value),
            next: m.next,
        }
    }
}
