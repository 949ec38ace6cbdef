// A sheet that arrives in fragments of whatever length. The caller keeps the state; each call takes bytes up to and with the first line feed and answers the line
// that it ends, so that there is never more than one answer to a call, and room is asked for one line.
#![tactic(auto)]

ghost use Rattle.std.specs.Prelude.{◌≡◌, ◌+◌, ◌-◌, ◌<◌, ◌≤◌, min, length, take, replicate};
ghost use Rattle.std.proofs.lemmas.List.Edits.{sets};
ghost use Rattle.sheet_stream.specs.Fragments.{spare_step, fresh as Fragments·fresh, unended, unsound, ends_with, fed_at, feed_of, finish_of};

use chain::{Chain, Kind, Realization, Step};
use line::LINE_FEED;
use refusal::Refusal;
use sheet_rules::{Reply, Standing};

// The longest line, in bytes, with its line feed.
const ROOM: usize = 200;

// What stands past a chain's steps.
const SPARE_STEP: Step = Step {
    kind: Kind::Frame,
    before: Realization { datum: 0, epoch: 0 },
    after: Realization { datum: 0, epoch: 0 },
};

// A sheet part of which has come. `fresh` makes the first; it has no other than what `feed` and `finish` give back.
#[derive(Clone, Copy)]
pub struct Stream {
    // Where the sheet stands after the lines that have ended.
    pub standing: Standing,
    // How many bytes of the open line are kept, 0 to 200; 200 also where it has more.
    pub count: usize,
    // Those bytes; 0 past them.
    pub kept: [u8; ROOM],
    pub finished: bool,
}

// The state after a call, how many bytes of the fragment it took, and what it answers.
#[derive(Clone, Copy)]
pub struct Fed {
    pub stream: Stream,
    pub taken: usize,
    // The reply to the line that ended, which may print nothing; none where no line ended. Or refusal STATE: the sheet is finished, a count is out of range, or the
    // chain is bad.
    pub outcome: Result<Option<Reply>, Refusal>,
}

// Nothing has come yet.
pub fn fresh() -> Stream
    ensures { result ≡ Fragments·fresh (replicate 8 spare_step) }
{
    Stream {
        standing: Standing {
            line: 1,
            chain: Chain {
                steps: [SPARE_STEP; 8],
                length: 0,
                profile: chain::LATEST,
            },
            refused: false,
            closed: false,
        },
        count: 0,
        kept: [0; ROOM],
        finished: false,
    }
}

// A call that takes and changes nothing.
fn refused(stream: Stream) -> Fed
    ensures { result ≡ unsound stream }
{
    Fed {
        stream,
        taken: 0,
        outcome: Err(Refusal::State),
    }
}

// A line has ended, by its line feed or by the finish: the reply to it, and the state with no line open.
fn end_line(stream: Stream, line: &[u8], taken: usize, finished: bool) -> Fed
    ensures { result ≡ ends_with stream line.now taken finished }
{
    let answered = sheet_rules::answer_line(stream.standing, line);
    let Some(reply) = answered.response else {
        return refused(stream);
    };
    Fed {
        stream: Stream {
            standing: answered.standing,
            count: 0,
            kept: [0; ROOM],
            finished,
        },
        taken,
        outcome: Ok(Some(reply)),
    }
}

// The room for a line whose first `count` bytes no line feed ends: 0 for the last of them where it is one.
fn without_end(mut kept: [u8; ROOM], count: usize) -> [u8; ROOM]
    requires { (0 < count) × (count ≤ 200) }
    ensures { (length result ≡ 200) × (take count result ≡ unended (take count kept)) }
{
    if kept[count - 1] == LINE_FEED {
        kept[count - 1] = 0;
    }
    kept
}

// A line that has not ended, or is too long: the reply to the bytes that are kept of it.
fn end_open(stream: Stream, kept: [u8; ROOM], count: usize, taken: usize, finished: bool) -> Fed
    requires { (0 < count) × (count ≤ 200) }
    ensures { result ≡ ends_with stream (unended (take count kept)) taken finished }
{
    let bytes = without_end(kept, count);
    end_line(stream, &bytes[..count], taken, finished)
}

// Whether the first `end` bytes end in a line feed. None do, and more than there are don't.
pub fn is_fed(bytes: &[u8], end: usize) -> bool
    ensures { result ≡ fed_at bytes.now end }
{
    if end == 0 {
        return false;
    }
    if bytes.len() < end {
        return false;
    }
    bytes[end - 1] == LINE_FEED
}

// More bytes behind the first `count` of a line's room, as far as it goes, and how many are kept then. Past a count that the room doesn't have nothing is written.
pub fn keep_bytes(room: &mut [u8], count: usize, bytes: &[u8]) -> usize
    ensures { (room.new ≡ sets room.old count (take (length room.old - count) bytes.now)) × (result ≡ min (count + length bytes.now) (length room.old)) }
{
    let size = room.len();
    if size <= count {
        return size;
    }
    let n = bytes.len().min(size - count);
    // stays byte by byte: a copy of the whole would have the archive for C ask for memmove, and costs more where a byte comes at a time
    for i in 0..n {
        room[count + i] = bytes[i];
    }
    count + n
}

// Takes bytes of a fragment up to and with its first line feed, or all of it, and answers the line that it ends. Refusal: STATE, which takes and changes nothing.
pub fn feed(stream: Stream, fragment: &[u8]) -> Fed
    ensures { result ≡ feed_of stream fragment.now }
{
    let count = stream.count;
    let mut kept = stream.kept;
    if stream.finished | (ROOM < count) {
        return refused(stream);
    }
    let end = line::line_end(fragment, 0);
    if is_fed(fragment, end) {
        let n = keep_bytes(&mut kept, count, &fragment[..end - 1]);
        if n < ROOM {
            kept[n] = LINE_FEED;
            return end_line(stream, &kept[..n + 1], end, false);
        }
        return end_open(stream, kept, n, end, false);
    }
    if !sheet_rules::is_sound(stream.standing) {
        return refused(stream);
    }
    let n = keep_bytes(&mut kept, count, fragment);
    Fed {
        stream: Stream {
            count: n,
            kept,
            finished: false,
            ..stream
        },
        taken: end,
        outcome: Ok(None),
    }
}

// Ends the sheet, and answers a line that is left open. Refusal: STATE, which changes nothing. After it every call is refused with STATE.
pub fn finish(stream: Stream) -> Fed
    ensures { result ≡ finish_of stream }
{
    if stream.finished | (ROOM < stream.count) {
        return refused(stream);
    }
    if stream.count != 0 {
        return end_open(stream, stream.kept, stream.count, 0, true);
    }
    if !sheet_rules::is_sound(stream.standing) {
        return refused(stream);
    }
    Fed {
        stream: Stream {
            count: 0,
            kept: [0; ROOM],
            finished: true,
            ..stream
        },
        taken: 0,
        outcome: Ok(None),
    }
}
