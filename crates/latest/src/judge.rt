// The verdict of each good line. The places of the rows are put in order by id, issue and place; a pass forward marks where lines of
// one id and issue differ, and one backward, from the highest issue of each id on, gives the verdicts.
ghost use Rattle.std.specs.Prelude.{◌≡◌, ℕ, ◌+◌, ◌≤◌, ◌<◌, eqb, length, get_or};
ghost use Rattle.latest.specs.Rank.{Below};
ghost use Rattle.latest.specs.Counts.{Order, Places};
ghost use Rattle.latest.specs.Rows.{size, key, group, rank, text, listed};
ghost use Rattle.latest.specs.Columns.{rows_of, verdicts_of};
ghost use Rattle.latest.specs.Marks.{next_mark, mark_of, fresh, stand, settle};

use crate::rows::Rows;

// The mark of a place, from that of the place before it: 0, 1, or SAME's number.
// stays a number: marks and verdicts stand in the columns of numbers that the caller lends
fn next_mark(prior: usize, same: bool, alike: bool) -> usize
    ensures { result ≡ next_mark prior same alike }
{
    if same {
        if prior == 17 {
            return 17;
        }
        if alike {
            return 0;
        }
        return 17;
    }
    1
}

// The places 0, 1, 2, .. in their order.
fn number(o: &mut [usize])
    ensures { Places o.new (length o.old) }
{
    for (i, place) in o.iter_mut().enumerate() {
        *place = i;
    }
}

// The mark of each place.
fn marks(rows: &Rows, o: &[usize], w: &mut [usize])
    requires { (length o.now ≤ length w.old) × Below o.now (size rows.now) }
    ensures { (k : ℕ) → k < length o.now → get_or w.new k 0 ≡ mark_of (group rows.now) (text rows.now) o.now k }
{
    let n = o.len();
    if 0 < n {
        w[0] = 1;
        for k in 1..n {
            let i = o[k - 1];
            let j = o[k];
            let prior = w[k - 1];
            let mark = next_mark(prior, rows.same_top(i, j), rows.same_line(i, j));
            w[k] = mark;
        }
    }
}

fn fresh_standing(mark: usize) -> u64
    ensures { result ≡ fresh mark }
{
    if mark == 17 {
        return 17;
    }
    1
}

// The standing of the row at a place, from that at the next.
fn standing_at(rows: &Rows, o: &[usize], k: usize, after: u64, mark: usize) -> u64
    requires { (k < length o.now) × Below o.now (size rows.now) }
    ensures { result ≡ stand (eqb (k + 1) (length o.now))
        (eqb (key rows.now (get_or o.now k 0)) (key rows.now (get_or o.now (k + 1) 0)))
        (eqb (group rows.now (get_or o.now k 0)) (group rows.now (get_or o.now (k + 1) 0))) after mark }
{
    let e = k + 1;
    if e == o.len() {
        return fresh_standing(mark);
    }
    let i = o[k];
    let j = o[e];
    if rows.same_top(i, j) {
        return after;
    }
    if rows.same_key(i, j) {
        return 0;
    }
    fresh_standing(mark)
}

fn settled(standing: u64, mark: usize) -> u64
    ensures { result ≡ settle standing mark }
{
    if standing == 1 {
        return mark as u64;
    }
    standing
}

// The verdict of each row, from the places in order.
fn judge(rows: &Rows, o: &[usize], w: &mut [usize], v: &mut [u64])
    requires room { (length o.now ≤ length w.old) × (length v.old ≡ size rows.now) }
    requires order { Order (rank rows.now) o.now (size rows.now) }
    ensures { v.new ≡ verdicts_of (listed rows.now) }
{
    marks(rows, o, w);
    let mut standing: u64 = 0;
    for k in (0..o.len()).rev() {
        let mark = w[k];
        standing = standing_at(rows, o, k, standing, mark);
        let i = o[k];
        v[i] = settled(standing, mark);
    }
}

// The verdicts of all rows, into v; o and w are work space.
// stays with its columns apart (tried: Rows made in hand_out; the search for its proof did not end in ten minutes)
pub fn exact(
    h: &[u64],
    l: &[u64],
    s: &[u64],
    b: &[usize],
    x: &[u8],
    o: &mut [usize],
    w: &mut [usize],
    v: &mut [u64],
)
    requires { (length l.now ≡ length h.now) × (length s.now ≡ length h.now) × (length b.now ≡ length h.now) × (length o.old ≡ length h.now) × (length h.now ≤ length w.old) × (length v.old ≡ length h.now) × ((i : ℕ) → i < length h.now → get_or b.now i 0 < length x.now) }
    ensures { v.new ≡ verdicts_of (rows_of x.now h.now l.now s.now b.now) }
{
    let rows = Rows {
        high: h,
        low: l,
        issue: s,
        begin: b,
        pile: x,
    };
    number(o);
    crate::sorting::sort(&rows, o, w);
    judge(&rows, o, w, v);
}
