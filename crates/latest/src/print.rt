// What each line of a pile prints, in the order of the lines.
ghost use Rattle.std.specs.Prelude.{◌≡◌, ◌≤◌, length};
ghost use Rattle.line.specs.Lines.{lines};
ghost use Rattle.line.specs.Text.{Wrote, point_text};
ghost use Rattle.latest.specs.Pile.{goods, good_text};
ghost use Rattle.latest.specs.Columns.{prints_from};

use line::Unread;
use refusal::Refusal;

// A good line by its verdict. It is written from its point: a line that is read as a point is the line that is written for it.
fn print_good(
    out: &mut [u8],
    at: usize,
    number: u64,
    verdict: u64,
    stop: bool,
    p: chain::Point,
) -> usize
    ensures { Wrote out.old at (good_text stop number verdict (point_text p)) out.new result }
{
    if verdict == 17 {
        return line::write_refusal(out, at, number, Refusal::Same.number(), 0);
    }
    if verdict == 1 {
        if stop {
            return at;
        }
        return line::write_point(out, at, p);
    }
    at
}

// Prints all lines from the start of `out` on, as far as there is room: the good ones by the verdicts of v.
pub fn print(x: &[u8], v: &[u64], stop: bool, out: &mut [u8]) -> usize
    requires { length (goods (lines x.now)) ≤ length v.now }
    ensures { Wrote out.old 0 (prints_from stop v.now 1 0 (lines x.now)) out.new result }
{
    let mut at: usize = 0;
    let mut from: usize = 0;
    let mut number: u64 = 1;
    let mut row: usize = 0;
    // stays a while: a turn goes on by a whole line
    while from < x.len() {
        let read = line::read_placed(chain::LATEST, x, from);
        let end = read.end;
        match read.line {
            Ok(p) => {
                at = print_good(out, at, number, v[row], stop, p);
                row += 1;
                number += 1;
                from = end;
            }
            Err(Unread::Malformed(f)) => {
                at = line::write_refusal(out, at, number, f.refusal.number(), f.place);
                number += 1;
                from = end;
            }
            Err(Unread::Refused(refusal)) => {
                at = line::write_refusal(out, at, number, refusal.number(), 0);
                number += 1;
                from = end;
            }
        }
    }
    at
}
