// Eight bytes of a line in one number, the first lowest: they are tested for digits, and become a value, side by side. Each word is loaded once and
// all is made of it: where a byte is also read by itself, the compiler loads every byte by itself.
ghost use Rattle.std.specs.Prelude.{◌≡◌, ◌+◌, ◌≤◌, false, length};
ghost use Rattle.line.specs.Reading.{Word, Clear, higher_halves, sixes, seven_halves_and_byte, seven_sixes};
ghost use Rattle.line.specs.Reading.{nines, four_sums, eight_of, last_four, seven_after_zero};

use crate::number::wide;

// The digit 0 in each of eight bytes; 6 in each; the higher half of each; and every second byte.
pub const ZEROS: u64 = 3472328296227680304;

const SIXES: u64 = 434041037028460038;

const HIGHER_HALVES: u64 = 17361641481138401520;

const EVERY_SECOND: u64 = 71777214294589695;

// The same of seven bytes, with a tab in the eighth, of which no bit may differ.
pub const ZEROS_AND_TAB: u64 = 662082128748490800;

const SEVEN_SIXES: u64 = 1695472800892422;

const SEVEN_HALVES_AND_BYTE: u64 = 18442505391707320560;

// Eight bytes as one number: one load in the compiled code. The last byte stands first, so that it is still loaded with the others where it is dropped.
pub fn word(s: &[u8], at: usize) -> u64
    requires { at + 8 ≤ length s.now }
    ensures { Word s.now at result }
{
    wide(s[at + 7]) * 72057594037927936
        + wide(s[at + 6]) * 281474976710656
        + wide(s[at + 5]) * 1099511627776
        + wide(s[at + 4]) * 4294967296
        + wide(s[at + 3]) * 16777216
        + wide(s[at + 2]) * 65536
        + wide(s[at + 1]) * 256
        + wide(s[at])
}

// Is a bit of the mask set, or would it be with `more` added? A digit without the bits of the digit 0 is below 16, and still is with 6 more.
fn other(d: u64, mask: u64, more: u64) -> bool
    ensures { result ≡ false → Clear mask more d }
{
    (d & mask) | (std::num::wrapping_add_u64(d, more) & mask) != 0
}

// Of eight bytes without the bits of the digit 0: how many were digits before one that was none, and 8 where all were. It is a guess, of which nothing
// is told but that it is 8 at the most: who takes so many for digits tests them.
pub fn digits_before(d: u64) -> u64
    ensures { result ≤ 8 }
{
    let other = (d | std::num::wrapping_add_u64(d, SIXES)) & HIGHER_HALVES;
    (u64::trailing_zeros(other) / 8) as u64
}

// Of eight bytes without the bits of the digit 0: was one of them no digit?
pub fn other_eight(d: u64) -> bool
    ensures { result ≡ false → Clear higher_halves sixes d }
{
    other(d, HIGHER_HALVES, SIXES)
}

// Of eight bytes without the bits of seven digits 0 and a tab: were they anything but seven digits and a tab?
pub fn other_seven(d: u64) -> bool
    ensures { result ≡ false → Clear seven_halves_and_byte seven_sixes d }
{
    other(d, SEVEN_HALVES_AND_BYTE, SEVEN_SIXES)
}

// Eight digits side by side: two become one of up to 99, then two of these one of up to 9999, in every second of the sixteen bits.
fn fours(d: u64) -> u64
    requires { d ≤ nines }
    ensures { result ≡ four_sums d }
{
    let pairs = (d * 10 + d / 256) & EVERY_SECOND;
    pairs * 100 + pairs / 65536
}

// What eight digits say.
pub fn eight(d: u64) -> u64
    requires { d ≤ nines }
    ensures { result ≡ eight_of d }
{
    let sums = fours(d);
    sums % 65536 * 10000 + sums / 4294967296 % 65536
}

// What the last four of eight digits say.
pub fn last_four(d: u64) -> u64
    requires { d ≤ nines }
    ensures { result ≡ last_four d }
{
    fours(d) / 4294967296 % 65536
}

// What the first seven of eight digits say: they are the last seven after a 0.
pub fn seven(d: u64) -> u64
    requires { seven_after_zero d ≤ nines }
    ensures { result ≡ eight_of (seven_after_zero d) }
{
    eight(d % 72057594037927936 * 256)
}
