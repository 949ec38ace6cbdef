// A point line that has come whole: it is answered over the lent numbers, and of the state only what it moves is written.
ghost use Rattle.std.specs.Prelude.{◌≡◌, true, false, ◌+◌, ◌<◌, ◌≤◌, eqb, nat_abs, length, get_or};
ghost use Rattle.chain.specs.Numbers.{number};
ghost use Rattle.line.specs.Bytes.{letter_p};
ghost use Rattle.sheet_rules.specs.OneLine.{point_answered, PointPrinted};
ghost use Rattle.sheet_stream.specs.Fragments.{between, ends_with};
ghost use Rattle.capi.specs.Fragments.{state_range, flag as Fragments·flag, chain_in, stream_from, numbers_with, point_time, point_passed, FedCall};

use crate::joining::copy;
use crate::state;
use crate::status::minus;
use refusal::Refusal;
use sheet_rules::LentPoint;

// At most so many lines of a sheet are answered.
const MOST_LINES: usize = 1000000;

// Whether a point line can come next: the sheet is not finished, the limit is far, and there are no more steps than lines.
pub(crate) fn can_come(n: &[i64]) -> bool
    requires { (length n.now ≡ 111) × (state_range n.now ≡ true) }
    ensures { result ≡ point_time n.now }
{
    let finished = state::flag(n[4]);
    let lines = state::lines_in(n);
    let steps = state::steps_in(n);
    !finished & (lines < MOST_LINES) & (steps <= lines)
}

// What the line is answered by the state's chain, printed.
fn print_in(n: &[i64], text: &[u8], out: &mut [u8]) -> Option<LentPoint>
    requires { (length n.now ≡ 111) × (state_range n.now ≡ true) }
    ensures { PointPrinted (point_answered (chain_in n.now) (nat_abs (number n.now 0) + 1) (Fragments·flag (number n.now 2)) text.now) out.old 0 out.new result }
{
    let line = state::lines_in(n) as u64 + 1;
    let refused = state::flag(n[2]);
    let profile = n[5];
    let end = state::steps_end(n);
    sheet_rules::print_lent(line, refused, profile, &n[state::HEAD..end], text, out, 0)
}

// The state's numbers after the line: it is counted, no byte is kept, and where it closes the chain, the chain is closed.
fn put_passed(n: &mut [i64], closes: bool)
    requires { (length n.old ≡ 111) × (state_range n.old ≡ true) × (point_time n.old ≡ true) }
    ensures { n.new ≡ numbers_with n.old (between (point_passed n.old closes) false) }
{
    let lines = (state::lines_in(n) + 1) as i64;
    let closed = state::bit(state::flag(n[3]) | closes);
    let head = [lines, 0, n[2], closed, n[4], n[5], n[6]];
    copy(&head, n, 0);
}

// The answer to the line, with `end` bytes of a fragment taken for it; or refusal STATE, which changes nothing.
pub(crate) fn feed_point(
    numbers: &mut [i64],
    bytes: &mut [u8],
    text: &[u8],
    end: usize,
    out: &mut [u8],
    told: &mut [i64],
) -> i64
    requires { (length numbers.old ≡ 111) × (state_range numbers.old ≡ true) × (length bytes.old ≡ 200) × (200 ≤ length out.old) × (length told.old ≡ 2)
        × (end < 9223372036854775808) × (point_time numbers.old ≡ true) × (eqb (get_or text.now 0 0) letter_p ≡ true) }
    ensures { FedCall (ends_with (stream_from numbers.old bytes.old) text.now end false) numbers.old numbers.new bytes.old bytes.new out.old out.new told.old told.new result }
{
    let Some(printed) = print_in(numbers, text, out) else {
        return minus(Refusal::State);
    };
    put_passed(numbers, printed.closes);
    bytes.fill(0);
    told.copy_from_slice(&[end as i64, 1]);
    printed.at as i64
}
