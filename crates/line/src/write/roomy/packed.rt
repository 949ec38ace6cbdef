// Digits side by side in one number: pairs of them in sixteen bits each, then each in a byte, and all are one store in the compiled code. The leading digits of a
// number are written four bytes at a time whatever their count, so that no branch goes by it: what is too much is taken away by the digits after them.
ghost use Rattle.std.specs.Prelude.{◌≡◌, ◌+◌, ◌<◌, ◌≤◌, length, take, drop};
ghost use Rattle.line.specs.Text.{decimal, Put, four, eight, pair_bytes, half_bytes, word_bytes, Pairs, pairs_of, Spread, Further, Begun};

use crate::number::words::word;

// 127 in each half of a number; 15 in each quarter; the digit 0 in each byte.
const HUNDREDS: u64 = 545460846719;

const TENS: u64 = 4222189076152335;

const ZEROS: u64 = 3472328296227680304;

fn put_pair(out: &mut [u8], at: usize, w: u64) -> usize
    requires { at + 2 ≤ length out.old }
    ensures { Put 2 out.old at (pair_bytes w) out.new result }
{
    out[at] = (w % 256) as u8;
    out[at + 1] = (w / 256 % 256) as u8;
    at + 2
}

fn put_half(out: &mut [u8], at: usize, w: u64) -> usize
    requires { at + 4 ≤ length out.old }
    ensures { Put 4 out.old at (half_bytes w) out.new result }
{
    let a = put_pair(out, at, w);
    put_pair(out, a, w / 65536)
}

fn put_word(out: &mut [u8], at: usize, w: u64) -> usize
    requires { at + 8 ≤ length out.old }
    ensures { Put 8 out.old at (word_bytes w) out.new result }
{
    let a = put_half(out, at, w);
    put_half(out, a, w / 4294967296)
}

// Eight bytes of a line as they are: one load and one store in the compiled code.
fn copy_word(out: &mut [u8], at: usize, line: &[u8], from: usize) -> usize
    requires { (at + 8 ≤ length out.old) × (from + 8 ≤ length line.now) }
    ensures { Put 8 out.old at (take 8 (drop from line.now)) out.new result }
{
    put_word(out, at, word(line, from))
}

// The first 32 bytes of a line.
pub fn copied(out: &mut [u8], at: usize, line: &[u8]) -> usize
    requires { (at + 32 ≤ length out.old) × (32 ≤ length line.now) }
    ensures { Put 32 out.old at (take 32 line.now) out.new result }
{
    let a = copy_word(out, at, line, 0);
    let b = copy_word(out, a, line, 8);
    let c = copy_word(out, b, line, 16);
    copy_word(out, c, line, 24)
}

// Eight digits as four pairs: 10486/2^20 is 1/100 for numbers of four digits, and no product reaches its neighbour.
fn pairs_of(n: u64) -> u64
    requires { n < 100000000 }
    ensures { result ≡ pairs_of n }
{
    let fours = n % 10000 * 4294967296 + n / 10000;
    let hundreds = (fours * 10486 / 1048576) & HUNDREDS;
    fours * 65536 - hundreds * 6553599
}

// Four pairs as eight bytes, by 103/2^10 for 1/10.
fn spread(pairs: u64) -> u64
    requires { Pairs pairs }
    ensures { Spread pairs result }
{
    let tens = (pairs * 103 / 1024) & TENS;
    pairs * 256 - tens * 2559 + ZEROS
}

pub fn four_digits(out: &mut [u8], at: usize, n: u64) -> usize
    requires { (n < 10000) × (at + 4 ≤ length out.old) }
    ensures { Put 4 out.old at (four n) out.new result }
{
    let w = spread(n % 100 * 65536 + n / 100);
    put_half(out, at, w)
}

pub fn eight_digits(out: &mut [u8], at: usize, n: u64) -> usize
    requires { (n < 100000000) × (at + 8 ≤ length out.old) }
    ensures { Put 8 out.old at (eight n) out.new result }
{
    let w = spread(pairs_of(n));
    put_word(out, at, w)
}

// 1 where n has as many digits as `least`, else 0.
fn reaches(n: u64, least: u64) -> u64
    ensures { (n < least → result ≡ 0) × (least ≤ n → result ≡ 1) }
{
    if n < least { 0 } else { 1 }
}

// How many digits follow the first of a number below 10,000.
fn further(n: u64) -> u64
    requires { n < 10000 }
    ensures { Further n result }
{
    reaches(n, 10) + reaches(n, 100) + reaches(n, 1000)
}

// The digits of a number below 10,000, where at least three more bytes follow them.
pub fn leading(out: &mut [u8], at: usize, n: u64) -> usize
    requires { (n < 10000) × (at + 4 ≤ length out.old) }
    ensures { Begun 4 3 out.old at (decimal n) out.new result }
{
    let w = spread(n % 100 * 65536 + n / 100);
    let more = further(n);
    put_half(out, at, w >> (24 - 8 * more));
    at + 1 + (more as usize)
}

// The same of a number that mostly has four digits or three: branches that go one way take less than the count.
pub fn mostly_four(out: &mut [u8], at: usize, n: u64) -> usize
    requires { (n < 10000) × (at + 4 ≤ length out.old) }
    ensures { Begun 4 3 out.old at (decimal n) out.new result }
{
    if 1000 <= n {
        return four_digits(out, at, n);
    }
    if 100 <= n {
        four_digits(out, at, n * 10);
        return at + 3;
    }
    leading(out, at, n)
}

// Seven digits, where at least one more byte follows them.
pub fn seven_digits(out: &mut [u8], at: usize, n: u64) -> usize
    requires { (1000000 ≤ n) × (n < 10000000) × (at + 8 ≤ length out.old) }
    ensures { Begun 8 1 out.old at (decimal n) out.new result }
{
    eight_digits(out, at, n * 10);
    at + 7
}
