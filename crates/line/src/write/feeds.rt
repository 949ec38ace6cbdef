// Bare line feeds, up to ten at once: their refusals differ in the line's number alone, and the numbers of one ten in the last digit alone.
ghost use Rattle.std.specs.Prelude.{◌≡◌, ◌+◌, ◌%◌, ◌<◌, ◌≤◌, true, [], ◌∷◌, ◌++◌, length};
ghost use Rattle.line.specs.Text.{Put, two, Wrote};
ghost use Rattle.line.specs.BareLines.{feeds_text, AnswersFeeds, Passes, Sooner};

use crate::Feeds;
use crate::field::{LINE_FEED, TAB, reaches};
use crate::write::roomy::{letter, pair, put};
use crate::write::write_refusal;
use refusal::Refusal;

// What ten lines with numbers of five digits take.
const TEN_ROOM: usize = 130;

// Where `most` bytes from `from` on end, or n before that.
fn sooner(n: usize, from: usize, most: usize) -> usize
    ensures { Sooner n from most result }
{
    n.min(from.saturating_add(most))
}

// The place past the line feeds from `from` on, at most so many of them.
fn past_feeds(input: &[u8], from: usize, most: usize) -> usize
    ensures { Passes input.now from most result }
{
    let end = sooner(input.len(), from, most);
    for place in from..end {
        if input[place] != LINE_FEED {
            return place;
        }
    }
    from.max(end)
}

// LETTER and the place 0, with the bytes around them.
fn ending(out: &mut [u8], at: usize) -> usize
    requires { at + 6 ≤ length out.old }
    ensures { Put 6 out.old at (9 ∷ 49 ∷ 57 ∷ 9 ∷ 48 ∷ 10 ∷ []) out.new result }
{
    let a = put(out, at, TAB);
    let b = put(out, a, b'1');
    let c = put(out, b, b'9');
    let d = put(out, c, TAB);
    let e = put(out, d, b'0');
    put(out, e, LINE_FEED)
}

// The refusal of a line with a number of five digits: `high` has two of them, `low` two.
fn refusal_of_five(out: &mut [u8], at: usize, high: u64, low: u64, last: u8) -> usize
    requires { (high < 100) × (low < 100) × (at + 13 ≤ length out.old) }
    ensures { Put 13 out.old at ((82 ∷ 9 ∷ []) ++ (two high ++ (two low ++ ((last ∷ []) ++ (9 ∷ 49 ∷ 57 ∷ 9 ∷ 48 ∷ 10 ∷ []))))) out.new result }
{
    let a = letter(out, at, b'R');
    let b = pair(out, a, high);
    let c = pair(out, b, low);
    let d = put(out, c, last);
    ending(out, d)
}

// The refusals of lines with numbers of five digits, of one ten.
fn of_one_ten(out: &mut [u8], at: usize, line: u64, lines: usize) -> usize
    requires { (10000 ≤ line) × (line < 100000) × (line % 10 + lines ≤ 10) × (at + 130 ≤ length out.old) }
    ensures { Wrote out.old at (feeds_text lines line) out.new result }
{
    let high = line / 1000;
    let low = line / 10 % 100;
    let first = b'0' + ((line % 10) as u8);
    let mut place = at;
    for last in first..first + (lines as u8) {
        place = refusal_of_five(out, place, high, low, last);
    }
    place
}

// The line's number has five digits, and ten such lines have room.
fn ten_at_once(room: usize, at: usize, line: u64) -> bool
    ensures { result ≡ true → (10000 ≤ line) × (line < 100000) × (at + 130 ≤ room) }
{
    10000 <= line && line < 100000 && reaches(room, at, TEN_ROOM)
}

// One line feed, whatever its number and room.
fn write_one(input: &[u8], from: usize, out: &mut [u8], at: usize, line: u64) -> Feeds
    ensures { AnswersFeeds input.now from out.old at line out.new result }
{
    if from < input.len() {
        if input[from] == LINE_FEED {
            let past = write_refusal(out, at, line, Refusal::Letter.number(), 0);
            return Feeds { lines: 1, at: past };
        }
    }
    Feeds { lines: 0, at }
}

// Answers bare line feeds from `from` on, where their program knows no such line and the first has the number `line`: at least one, if any stands there.
pub fn write_feeds(input: &[u8], from: usize, out: &mut [u8], at: usize, line: u64) -> Feeds
    ensures { AnswersFeeds input.now from out.old at line out.new result }
{
    if ten_at_once(out.len(), at, line) {
        let past = past_feeds(input, from, 10 - ((line % 10) as usize));
        let lines = past - from;
        let written = of_one_ten(out, at, line, lines);
        return Feeds { lines, at: written };
    }
    write_one(input, from, out, at, line)
}
