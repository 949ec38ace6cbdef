// The state of a sheet in fragments, out of numbers and bytes and back.
ghost use Rattle.std.specs.Prelude.{◌≡◌, true, not, ◌&&◌, ◌+◌, ◌*◌, ◌<◌, ◌≤◌, nat_abs, pos, length};
ghost use Rattle.ranges.specs.Ranges.{within};
ghost use Rattle.sheet_rules.specs.OneLine.{sound_standing};
ghost use Rattle.sheet_stream.specs.Fragments.{Countable};
ghost use Rattle.chain.specs.Numbers.{number};
ghost use Rattle.capi.specs.Fragments.{is_flag, state_range, bit as Fragments·bit, flag as Fragments·flag, convention_number, chain_in, standing_in, stream_from, head_of, step_numbers, with_new_step, numbers_with};

use crate::joining::copy;
use chain::{Chain, Convention, Kind, Step, chain_from};
use sheet_rules::Standing;
use sheet_stream::Stream;

// The state's numbers before its steps, and the numbers to a step.
pub(crate) const HEAD: usize = 7;

const STEP: usize = 13;

fn is_flag(n: i64) -> bool
    ensures { result ≡ is_flag n }
{
    ranges::within(0, n, 1)
}

// Whether the counts and the flags are in their ranges: lines answered, bytes kept, refused, closed, finished, steps.
pub(crate) fn in_range(n: &[i64]) -> bool
    requires { length n.now ≡ 111 }
    ensures { result ≡ state_range n.now }
{
    let counts = ranges::within(0, n[0], 1000000)
        & ranges::within(0, n[1], 200)
        & ranges::within(0, n[6], 8);
    let flags = is_flag(n[2]) & is_flag(n[3]) & is_flag(n[4]);
    counts & flags
}

// A number in one of those ranges, as a count.
fn count(n: i64) -> usize
    requires { within (pos 0) n (pos 1000000) ≡ true }
    ensures { result ≡ nat_abs n }
{
    n as usize
}

pub(crate) fn flag(n: i64) -> bool
    ensures { result ≡ Fragments·flag n }
{
    !ranges::equal(0, n)
}

pub(crate) fn bytes_from(bytes: &[u8]) -> [u8; 200]
    requires { length bytes.now ≡ 200 }
    ensures { result ≡ bytes.now }
{
    let mut kept = [0u8; 200];
    kept.copy_from_slice(bytes);
    kept
}

// How many lines were answered.
pub(crate) fn lines_in(n: &[i64]) -> usize
    requires { (length n.now ≡ 111) × (state_range n.now ≡ true) }
    ensures { (result ≡ nat_abs (number n.now 0)) × (result ≤ 1000000) }
{
    count(n[0])
}

// How many steps the state's chain has.
pub(crate) fn steps_in(n: &[i64]) -> usize
    requires { (length n.now ≡ 111) × (state_range n.now ≡ true) }
    ensures { result ≡ nat_abs (number n.now 6) }
{
    count(n[6])
}

// Where the numbers of those steps end.
pub(crate) fn steps_end(n: &[i64]) -> usize
    requires { (length n.now ≡ 111) × (state_range n.now ≡ true) }
    ensures { (result ≡ 7 + 13 * nat_abs (number n.now 6)) × (result ≤ 111) }
{
    HEAD + STEP * steps_in(n)
}

// The chain of the steps within the state's count.
fn chain_in(n: &[i64]) -> Chain
    requires { (length n.now ≡ 111) × (state_range n.now ≡ true) }
    ensures { result ≡ chain_in n.now }
{
    let profile = n[5];
    let end = steps_end(n);
    chain_from(profile, &n[HEAD..end])
}

// How many bytes of the open line are kept.
pub(crate) fn kept_in(n: &[i64]) -> usize
    requires { (length n.now ≡ 111) × (state_range n.now ≡ true) }
    ensures { result ≡ nat_abs (number n.now 1) }
{
    count(n[1])
}

// Whether a call on the state is answered: it is not finished, and a sheet can stand there.
pub(crate) fn is_answered(n: &[i64]) -> bool
    requires { (length n.now ≡ 111) × (state_range n.now ≡ true) }
    ensures { result ≡ (not (Fragments·flag (number n.now 4)) && sound_standing (standing_in n.now)) }
{
    let finished = flag(n[4]);
    let line = lines_in(n) as u64 + 1;
    let profile = n[5];
    let end = steps_end(n);
    !finished & sheet_rules::is_sound_at(line, profile, &n[HEAD..end])
}

// The whole state, put together at once: a chain is not copied from one part of it into the next.
// Stays a function: what C lends has no type of its own.
pub(crate) fn stream_from(n: &[i64], bytes: &[u8]) -> Stream
    requires { (length n.now ≡ 111) × (length bytes.now ≡ 200) × (state_range n.now ≡ true) }
    ensures { result ≡ stream_from n.now bytes.now }
{
    let lines = count(n[0]);
    let kept_count = kept_in(n);
    let refused = flag(n[2]);
    let closed = flag(n[3]);
    let finished = flag(n[4]);
    let chain = chain_in(n);
    let kept = bytes_from(bytes);
    Stream {
        standing: Standing {
            line: lines as u64 + 1,
            chain,
            refused,
            closed,
        },
        count: kept_count,
        kept,
        finished,
    }
}

pub(crate) fn bit(b: bool) -> i64
    ensures { result ≡ Fragments·bit b }
{
    if b {
        return 1;
    }
    0
}

// The state's first seven numbers.
fn head_of(stream: Stream) -> [i64; 7]
    requires { Countable stream }
    ensures { result ≡ head_of stream }
{
    let standing = stream.standing;
    let chain = standing.chain;
    let lines = (standing.line - 1) as i64;
    let kept = stream.count as i64;
    let refused = bit(standing.refused);
    let closed = bit(standing.closed);
    let finished = bit(stream.finished);
    let steps = chain.length as i64;
    [lines, kept, refused, closed, finished, chain.profile, steps]
}

// The letter that C knows a convention by. It stays here: how a step stands in numbers is not chain's to say
fn convention_number(convention: Convention) -> i64
    ensures { result ≡ convention_number convention }
{
    match convention {
        Convention::PositionVector => b'P' as i64,
        Convention::CoordinateFrame => b'C' as i64,
    }
}

// A step's 13 numbers.
fn row_of(step: Step) -> [i64; 13]
    ensures { result ≡ step_numbers step }
{
    let p = step.before.datum;
    let q = step.before.epoch;
    let r = step.after.datum;
    let s = step.after.epoch;
    let kind = step.kind;
    match kind {
        Kind::Shift(t) => [b'T' as i64, 0, p, q, r, s, t.dx, t.dy, t.dz, 0, 0, 0, 0],
        Kind::Velocity(t) => [b'V' as i64, 0, p, q, r, s, t.vx, t.vy, t.vz, 0, 0, 0, 0],
        Kind::BursaWolf(t) => {
            let turned = t.convention;
            let convention = convention_number(turned);
            [
                b'B' as i64,
                convention,
                p,
                q,
                r,
                s,
                t.dx,
                t.dy,
                t.dz,
                t.rx,
                t.ry,
                t.rz,
                t.s,
            ]
        }
        Kind::Frame => [b'F' as i64, 0, p, q, r, s, 0, 0, 0, 0, 0, 0, 0],
    }
}

// A step that was taken in stands past those that were there; where the chain has no more steps than before, none was.
fn put_new_step(n: &mut [i64], chain: Chain)
    requires { (length n.old ≡ 111) × (state_range n.old ≡ true) × (chain.length ≤ 8) }
    ensures { n.new ≡ with_new_step n.old chain }
{
    let steps = steps_in(n);
    if chain.length <= steps {
        return;
    }
    let row = row_of(chain.steps[steps]);
    copy(&row, n, HEAD + STEP * steps);
}

// The state's numbers after a call. Only a call that took a step in has one to put.
pub(crate) fn put_numbers(n: &mut [i64], stream: Stream)
    requires { (length n.old ≡ 111) × (state_range n.old ≡ true) × Countable stream }
    ensures { n.new ≡ numbers_with n.old stream }
{
    put_new_step(n, stream.standing.chain);
    copy(&head_of(stream), n, 0);
}
