// Of a pile of point lines, the latest line of every point: of each id the line of its highest issue, and none where one line is bad.
#![tactic(auto)]

mod gather;
mod judge;
mod print;
mod rows;
mod sorting;

ghost use Rattle.std.specs.Prelude.{◌≡◌, ◌≤◌, length};
ghost use Rattle.line.specs.Text.{Wrote};
ghost use Rattle.latest.specs.Pile.{longest_pile, latest_of};
ghost use Rattle.latest.specs.Call.{rows_for, room_for, rows_in, Answered};

use refusal::Refusal;

// The longest pile that is read, in bytes. Of a longer one nothing is read.
pub const LONGEST_PILE: usize = 2097152;

// The rows that a pile of n bytes asks for: one for each good line, which has 18 bytes or more.
pub fn rows_for(n: usize) -> usize
    ensures { result ≡ rows_for n }
{
    n.min(LONGEST_PILE) / 18
}

// The room that a pile of n bytes asks for, in bytes: a line prints at most 15 for each of its own.
pub fn room_for(n: usize) -> usize
    ensures { result ≡ room_for n }
{
    15 * n.min(LONGEST_PILE) + 9
}

// A pile that is not too long, with enough work space: what it prints, as far as there is room.
fn hand_out(
    x: &[u8],
    h: &mut [u64],
    l: &mut [u64],
    s: &mut [u64],
    b: &mut [usize],
    o: &mut [usize],
    w: &mut [usize],
    v: &mut [u64],
    out: &mut [u8],
) -> usize
    requires { (length x.now ≤ longest_pile) × (rows_for (length x.now) ≤ rows_in (length h.old) (length l.old) (length s.old) (length b.old) (length o.old) (length w.old) (length v.old)) }
    ensures { Wrote out.old 0 (latest_of x.now) out.new result }
{
    let found = gather::gather(x, h, l, s, b);
    let c = found.count;
    judge::exact(
        &h[..c],
        &l[..c],
        &s[..c],
        &b[..c],
        x,
        &mut o[..c],
        &mut w[..c],
        &mut v[..c],
    );
    print::print(x, v, found.stop, out)
}

// What a whole pile prints, at the start of `out`, with seven columns of work space, whose numbers are of no use afterwards: the place past it. Nothing is written, and there
// is no place, where a column has fewer than `rows_for` rows or `out` less than `room_for` bytes.
pub fn latest(
    x: &[u8],
    h: &mut [u64],
    l: &mut [u64],
    s: &mut [u64],
    b: &mut [usize],
    o: &mut [usize],
    w: &mut [usize],
    v: &mut [u64],
    out: &mut [u8],
) -> Option<usize>
    ensures { Answered x.now (rows_in (length h.old) (length l.old) (length s.old) (length b.old) (length o.old) (length w.old) (length v.old)) out.old result out.new }
{
    let first = h.len().min(l.len()).min(s.len().min(b.len()));
    let rows = first.min(o.len().min(w.len()).min(v.len()));
    if rows < rows_for(x.len()) {
        return None;
    }
    if out.len() < room_for(x.len()) {
        return None;
    }
    if LONGEST_PILE < x.len() {
        return Some(line::write_refusal(out, 0, 0, Refusal::Long.number(), 0));
    }
    Some(hand_out(x, h, l, s, b, o, w, v, out))
}
