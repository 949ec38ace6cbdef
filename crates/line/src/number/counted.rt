// Numbers in fields that mostly have one count of digits: where the field ends after so many, they are taken at once.
ghost use Rattle.std.specs.Prelude.{◌≡◌, ◌+◌, ◌^◌, ◌<◌, ◌≤◌, true, length, IfSome};
ghost use Rattle.line.specs.Number.{number_of};
ghost use Rattle.line.specs.Reading.{Got, capped_z, Alone, Counted};

use crate::field::{TAB, closed, reaches};
use crate::number::words::{
    ZEROS, ZEROS_AND_TAB, digits_before, eight, last_four, other_eight, other_seven, seven, word,
};
use crate::number::{Integer, MINUS, NINE, ZERO, above_zero, below_zero, number, wide};

// What digits say of which the first is no 0, at the least.
const LEAST_OF_SEVEN: u64 = 1000000;

const LEAST_OF_EIGHT: u64 = 10000000;

// One digit and a tab?
fn one_alone(s: &[u8], at: usize) -> bool
    ensures { result ≡ true → Alone 1 s.now at }
{
    reaches(s.len(), at, 2) && s[at + 1] == TAB && s[at].is_ascii_digit()
}

// The number in the field at `at`: an order or a datum, which mostly have one digit.
pub fn of_one(s: &[u8], at: usize) -> Integer
    ensures { Got s.now capped_z number_of at result.value result.next }
{
    if one_alone(s, at) {
        return Integer {
            value: above_zero(wide(s[at]) - 48),
            next: closed(s, at + 1),
        };
    }
    number(s, at)
}

// Seven digits of which the first is no 0, and a tab: what they say.
fn seven_alone(s: &[u8], at: usize) -> Option<u64>
    requires { at + 8 ≤ length s.now }
    ensures { IfSome result (λ v. Alone 7 s.now at × Counted 7 10000000 s.now at v) }
{
    let d = word(s, at) ^ ZEROS_AND_TAB;
    if other_seven(d) {
        return None;
    }
    let v = seven(d);
    if v < LEAST_OF_SEVEN {
        return None;
    }
    Some(v)
}

// Twelve digits of which the first is no 0: eight bytes and eight, of which four are the same.
fn twelve(s: &[u8], at: usize) -> Option<u64>
    requires { at + 12 ≤ length s.now }
    ensures { IfSome result (λ v. Counted 12 1000000000000 s.now at v) }
{
    let d = word(s, at) ^ ZEROS;
    let e = word(s, at + 4) ^ ZEROS;
    if other_eight(d) | other_eight(e) {
        return None;
    }
    let v = eight(d);
    if v < LEAST_OF_EIGHT {
        return None;
    }
    Some(v * 10000 + last_four(e))
}

// Eleven digits likewise: of the first eight bytes seven.
fn eleven(s: &[u8], at: usize) -> Option<u64>
    requires { at + 11 ≤ length s.now }
    ensures { IfSome result (λ v. Counted 11 100000000000 s.now at v) }
{
    let d = word(s, at) ^ ZEROS;
    let e = word(s, at + 3) ^ ZEROS;
    if other_eight(d) | other_eight(e) {
        return None;
    }
    let v = seven(d);
    if v < LEAST_OF_SEVEN {
        return None;
    }
    Some(v * 10000 + last_four(e))
}

// How many digits stand before a tab, and what they say.
#[derive(Clone, Copy)]
struct Few {
    count: usize,
    value: u64,
}

// One digit to seven, the first no 0, and a tab. They are moved up until the last is the eighth byte, and are eight digits then, with zeros in front.
fn few_alone(s: &[u8], at: usize) -> Option<Few>
    requires { at + 8 ≤ length s.now }
    ensures { IfSome result (λ few. (0 < few.count) × (few.count ≤ 7) × Alone few.count s.now at × Counted few.count (10 ^ few.count) s.now at few.value) }
{
    let d = word(s, at) ^ ZEROS;
    let k = digits_before(d);
    if (k == 0) | (k == 8) {
        return None;
    }
    let e = d << (64 - 8 * k);
    let count = k as usize;
    if other_eight(e) | (d % 256 == 0) | (s[at + count] != TAB) {
        return None;
    }
    Some(Few {
        count,
        value: eight(e),
    })
}

// stay apart: each of the four below tests its field's own digits, sign and end, with its counts fixed, and is tuned to a good line
// The number in the field at `at`: an issue, which has one digit to five.
pub fn of_few(s: &[u8], at: usize) -> Integer
    ensures { Got s.now capped_z number_of at result.value result.next }
{
    if reaches(s.len(), at, 8) {
        if let Some(few) = few_alone(s, at) {
            return Integer {
                value: above_zero(few.value),
                next: at + few.count + 1,
            };
        }
    }
    number(s, at)
}

// The number in the field at `at`: an epoch, which mostly has seven digits.
pub fn of_seven(s: &[u8], at: usize) -> Integer
    ensures { Got s.now capped_z number_of at result.value result.next }
{
    if reaches(s.len(), at, 8) {
        if let Some(v) = seven_alone(s, at) {
            return Integer {
                value: above_zero(v),
                next: at + 8,
            };
        }
    }
    number(s, at)
}

// The number in the field at `at`: X, which mostly has a minus and twelve digits.
pub fn of_minus_twelve(s: &[u8], at: usize) -> Integer
    ensures { Got s.now capped_z number_of at result.value result.next }
{
    if reaches(s.len(), at, 14) && s[at] == MINUS && s[at + 13] == TAB {
        if let Some(v) = twelve(s, at + 1) {
            return Integer {
                value: below_zero(v),
                next: at + 14,
            };
        }
    }
    number(s, at)
}

// The number in the field at `at`: Y, which mostly has twelve digits.
pub fn of_twelve(s: &[u8], at: usize) -> Integer
    ensures { Got s.now capped_z number_of at result.value result.next }
{
    if reaches(s.len(), at, 13) && s[at + 12] == TAB {
        if let Some(v) = twelve(s, at) {
            return Integer {
                value: above_zero(v),
                next: at + 13,
            };
        }
    }
    number(s, at)
}

// The number in the field at `at`: Z or a position's longitude, which mostly have eleven digits and are a line's last.
pub fn of_last_eleven(s: &[u8], at: usize) -> Integer
    ensures { Got s.now capped_z number_of at result.value result.next }
{
    if reaches(s.len(), at, 11) && s.len() - at == 11 {
        if let Some(v) = eleven(s, at) {
            return Integer {
                value: above_zero(v),
                next: at + 12,
            };
        }
    }
    number(s, at)
}
