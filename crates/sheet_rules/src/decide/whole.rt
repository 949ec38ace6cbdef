// A whole sheet, from its bytes to what it prints.
ghost use Rattle.line.specs.Text.{Wrote};
ghost use Rattle.listing.specs.Fold.{Prints};
ghost use Rattle.sheet_rules.specs.Sheet.{fresh, reply_text, sheet_of};
ghost use Rattle.sheet_rules.specs.State.{Holds, passed_in};
ghost use Rattle.std.specs.Prelude.{◌≡◌, ◌+◌, ◌≤◌, pos, replicate};

use crate::decide::decide;
use crate::{Reply, State};
use line::LINE_FEED;
use refusal::Refusal;

mod printed;

// Nothing read yet.
fn fresh() -> State
    ensures { Holds result (replicate 72 (pos 0)) fresh }
{
    State {
        line: 1,
        profile: chain::LATEST,
        refused: false,
        closed: false,
    }
}

// The state after bare line feeds, which no program knows: their number is all that they change.
fn passed(state: State, lines: usize) -> State
    requires { state.line + lines ≤ 1000000 }
    ensures { result ≡ passed_in state lines }
{
    State {
        line: state.line + (lines as u64),
        ..state
    }
}

// Writes a reply from `at` on, as far as there is room, and answers the place past it.
pub fn write_reply(out: &mut [u8], at: usize, reply: Reply) -> usize
    ensures { Wrote out.old at (reply_text reply) out.new result }
{
    match reply {
        Reply::Nothing => at,
        Reply::Point(point) => line::write_point(out, at, point),
        Reply::Refused(line, number, place) => line::write_refusal(out, at, line, number, place),
    }
}

// Writes what the sheet prints at the start of `out`, as far as there is room, and answers the place past it. `listing::room_for` says how much room is always
// enough.
pub fn sheet(input: &[u8], out: &mut [u8]) -> usize
    ensures { Prints (sheet_of input.now) input.now out.old out.new result }
{
    if listing::LONGEST_INPUT < input.len() {
        return line::write_refusal(out, 0, 0, Refusal::Long.number(), 0);
    }
    let mut numbers = [0i64; 72];
    let mut state = fresh();
    let mut at: usize = 0;
    let mut from: usize = 0;
    // stays: a turn takes a line, or a row of feeds, of whatever length; no iterator has those pieces
    // and so do its three arms by the first byte: the first two go past what any other line goes through, for speed
    while from < input.len() {
        if input[from] == LINE_FEED {
            let feeds = line::write_feeds(input, from, out, at, state.line);
            at = feeds.at;
            state = passed(state, feeds.lines);
            from += feeds.lines;
        } else if input[from] == b'P' {
            let read = line::read_placed(state.profile, input, from);
            let end = read.end;
            let done = printed::print_point(state, &numbers, &input[from..end], read, out, at);
            at = done.at;
            state = done.state;
            from = end;
        } else {
            let end = line::line_end(input, from);
            let decided = decide(state, &mut numbers, &input[from..end]);
            at = write_reply(out, at, decided.reply);
            state = decided.state;
            from = end;
        }
    }
    at
}
