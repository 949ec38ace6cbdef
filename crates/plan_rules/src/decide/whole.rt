// A whole plan, from its bytes to what it prints.
ghost use Rattle.line.specs.Text.{Wrote};
ghost use Rattle.listing.specs.Fold.{Prints};
ghost use Rattle.plan_rules.specs.Plan.{fresh, reply_text, plan_of};
ghost use Rattle.plan_rules.specs.State.{Holds};

use crate::{Reply, State};
use line::LINE_FEED;
use refusal::Refusal;

// Nothing read yet.
fn fresh() -> State
    ensures { Holds result fresh }
{
    State {
        line: 1,
        origin: None,
    }
}

// Writes a reply from `at` on, as far as there is room, and answers the place past it.
fn write_reply(out: &mut [u8], at: usize, reply: Reply) -> usize
    ensures { Wrote out.old at (reply_text reply) out.new result }
{
    match reply {
        Reply::Nothing => at,
        Reply::Projected(id, easting, northing) => line::write_projected(
            out, at, id, easting, northing,
        ),
        Reply::Refused(line, number, place) => line::write_refusal(out, at, line, number, place),
    }
}

// Writes what the plan prints at the start of `out`, as far as there is room, and answers the place past it. `listing::room_for` says how much room is always
// enough.
pub fn plan(input: &[u8], out: &mut [u8]) -> usize
    ensures { Prints (plan_of input.now) input.now out.old out.new result }
{
    if listing::LONGEST_INPUT < input.len() {
        return line::write_refusal(out, 0, 0, Refusal::Long.number(), 0);
    }
    let mut state = fresh();
    let mut at = 0;
    let mut from = 0;
    // stays a while: a turn goes on by a whole line or a whole row of line feeds
    while from < input.len() {
        if input[from] == LINE_FEED {
            let feeds = line::write_feeds(input, from, out, at, state.line);
            at = feeds.at;
            state.line += feeds.lines as u64;
            from += feeds.lines;
        } else {
            let end = line::line_end(input, from);
            let decided = state.decide(&input[from..end]);
            at = write_reply(out, at, decided.reply);
            state = decided.state;
            from = end;
        }
    }
    at
}
