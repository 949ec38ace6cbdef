// A sheet in fragments, whose state the caller keeps as numbers and bytes.
ghost use Rattle.std.specs.Prelude.{◌≡◌, true, false, ◌<◌, ◌≤◌, length};
ghost use Rattle.line.specs.Lines.{line_end};
ghost use Rattle.sheet_stream.specs.Fragments.{Countable, Short, fed_at, feed_of};
ghost use Rattle.capi.specs.Fragments.{sized_state, state_range, called, told_of, stream_from, Stated, OpenCall, FedCall, Streamed, Ended};

use crate::status::minus;
use crate::{NO_ROOM, point_line, state};
use line::LINE_FEED;
use refusal::Refusal;
use sheet_rules::Reply;
use sheet_stream::Fed;

// Whether the state's arrays are as long as the calls ask, with room for an answer.
fn are_sized(numbers: usize, bytes: usize, out: usize) -> bool
    ensures { result ≡ sized_state numbers bytes out }
{
    (numbers == 111) & (bytes == 200) & (200 <= out)
}

// Writes the state after a call and what the line prints that ended, or answers the refusal.
fn give(fed: Fed, numbers: &mut [i64], bytes: &mut [u8], out: &mut [u8]) -> i64
    requires { (length numbers.old ≡ 111) × (state_range numbers.old ≡ true) × (length bytes.old ≡ 200) × (200 ≤ length out.old) × Countable fed.stream × Short fed.outcome }
    ensures { Stated (called fed) numbers.old numbers.new bytes.old bytes.new out.old out.new result }
{
    let stream = fed.stream;
    let kept = stream.kept;
    match fed.outcome {
        Err(refusal) => minus(refusal),
        Ok(ended) => {
            state::put_numbers(numbers, stream);
            bytes.copy_from_slice(&kept);
            match ended {
                None => 0,
                Some(reply) => sheet_rules::write_reply(out, 0, reply) as i64,
            }
        }
    }
}

// Tells how many bytes were taken, and whether a line was answered.
fn tell(taken: usize, outcome: Result<Option<Reply>, Refusal>, told: &mut [i64])
    requires { (length told.old ≡ 2) × (taken < 9223372036854775808) }
    ensures { told.new ≡ told_of taken outcome told.old }
{
    if let Ok(ended) = outcome {
        told.copy_from_slice(&[taken as i64, state::bit(ended.is_some())]);
    }
}

// Where the first line of a fragment ends. It is handed on as a new slice: one that is handed on as it came is stored by halves and read whole, and its reader waits for
// the stores.
fn first_end(fragment: &[u8]) -> usize
    ensures { result ≡ line_end fragment.now 0 }
{
    line::line_end(&fragment[..fragment.len()], 0)
}

// A fragment that ends no line, of which `end` bytes are taken: its bytes stand behind those kept, and nothing but their count moves.
fn feed_open(
    numbers: &mut [i64],
    bytes: &mut [u8],
    fragment: &[u8],
    end: usize,
    told: &mut [i64],
) -> i64
    requires { (length numbers.old ≡ 111) × (state_range numbers.old ≡ true) × (length bytes.old ≡ 200) × (length told.old ≡ 2) × (end ≡ line_end fragment.now 0) × (fed_at fragment.now end ≡ false) }
    ensures { OpenCall fragment.now numbers.old numbers.new bytes.old bytes.new told.old told.new result }
{
    if !state::is_answered(numbers) {
        return minus(Refusal::State);
    }
    let kept = sheet_stream::keep_bytes(bytes, state::kept_in(numbers), fragment);
    numbers[1] = kept as i64;
    told.copy_from_slice(&[end as i64, 0]);
    0
}

// A fragment that ends a line, by value: the state is made of the numbers and bytes, and written back.
fn feed_value(
    numbers: &mut [i64],
    bytes: &mut [u8],
    fragment: &[u8],
    out: &mut [u8],
    told: &mut [i64],
) -> i64
    requires { (length numbers.old ≡ 111) × (state_range numbers.old ≡ true) × (length bytes.old ≡ 200) × (200 ≤ length out.old) × (length told.old ≡ 2) }
    ensures { FedCall (feed_of (stream_from numbers.old bytes.old) fragment.now) numbers.old numbers.new bytes.old bytes.new out.old out.new told.old told.new result }
{
    // a sheet that is finished: its state is not made
    if state::flag(numbers[4]) {
        return minus(Refusal::State);
    }
    let fed = sheet_stream::feed(state::stream_from(numbers, bytes), fragment);
    let taken = fed.taken;
    let outcome = fed.outcome;
    tell(taken, outcome, told);
    give(fed, numbers, bytes, out)
}

// A fragment that ends a line with its byte before `end`. Most lines are points: one that fits in the room is answered with no state made.
fn feed_line(
    numbers: &mut [i64],
    bytes: &mut [u8],
    fragment: &[u8],
    end: usize,
    out: &mut [u8],
    told: &mut [i64],
) -> i64
    requires { (length numbers.old ≡ 111) × (state_range numbers.old ≡ true) × (length bytes.old ≡ 200) × (200 ≤ length out.old) × (length told.old ≡ 2)
        × (end ≡ line_end fragment.now 0) × (fed_at fragment.now end ≡ true) }
    ensures { FedCall (feed_of (stream_from numbers.old bytes.old) fragment.now) numbers.old numbers.new bytes.old bytes.new out.old out.new told.old told.new result }
{
    let last = end - 1;
    let mut room = state::bytes_from(bytes);
    let n = sheet_stream::keep_bytes(&mut room, state::kept_in(numbers), &fragment[..last]);
    if n < 200 {
        room[n] = LINE_FEED;
        if (room[0] == b'P') & point_line::can_come(numbers) {
            return point_line::feed_point(numbers, bytes, &room[..n + 1], end, out, told);
        }
    }
    feed_value(numbers, bytes, fragment, out, told)
}

// The bytes of a fragment up to and with its first line feed, or all of them, and what the line prints that they end.
pub fn swivelcrane_feed(
    numbers: &mut [i64],
    bytes: &mut [u8],
    fragment: &[u8],
    out: &mut [u8],
    told: &mut [i64],
) -> i64
    ensures { Streamed fragment.now numbers.old numbers.new bytes.old bytes.new out.old out.new told.old told.new result }
{
    if !(are_sized(numbers.len(), bytes.len(), out.len()) & (told.len() == 2)) {
        return NO_ROOM;
    }
    if !state::in_range(numbers) {
        return minus(Refusal::State);
    }
    let end = first_end(fragment);
    if !sheet_stream::is_fed(fragment, end) {
        return feed_open(numbers, bytes, fragment, end, told);
    }
    feed_line(numbers, bytes, fragment, end, out, told)
}

// The end of the sheet, and what a line prints that is left open.
pub fn swivelcrane_finish(numbers: &mut [i64], bytes: &mut [u8], out: &mut [u8]) -> i64
    ensures { Ended numbers.old numbers.new bytes.old bytes.new out.old out.new result }
{
    if !are_sized(numbers.len(), bytes.len(), out.len()) {
        return NO_ROOM;
    }
    if !state::in_range(numbers) {
        return minus(Refusal::State);
    }
    // a sheet that is finished: its state is not made
    if state::flag(numbers[4]) {
        return minus(Refusal::State);
    }
    let fed = sheet_stream::finish(state::stream_from(numbers, bytes));
    give(fed, numbers, bytes, out)
}
