// The good lines of a pile into columns: two words for the id, the issue, and where in the pile the line begins.
ghost use Rattle.std.specs.Prelude.{◌≡◌, ◌≤◌, ◌<◌, ◌/◌, nat_abs, length, set};
ghost use Rattle.latest.specs.Columns.{Gathered};

// What was found: how many good lines, and whether there is a bad one.
#[derive(Clone, Copy)]
pub struct Found {
    pub count: usize,
    pub stop: bool,
}

// One good line more: row k.
fn put_row(
    h: &mut [u64],
    l: &mut [u64],
    s: &mut [u64],
    b: &mut [usize],
    k: usize,
    label: chain::Label,
    at: usize,
)
    requires { (k < length h.old) × (k < length l.old) × (k < length s.old) × (k < length b.old) }
    ensures { (h.new ≡ set h.old k label.id.high) × (l.new ≡ set l.old k label.id.low) × (s.new ≡ set s.old k (nat_abs label.issue)) × (b.new ≡ set b.old k at) }
{
    h[k] = label.id.high;
    l[k] = label.id.low;
    s[k] = label.issue.unsigned_abs();
    b[k] = at;
}

// Every good line into its row. A good line has 18 bytes or more, so there is a row for each.
pub fn gather(x: &[u8], h: &mut [u64], l: &mut [u64], s: &mut [u64], b: &mut [usize]) -> Found
    requires { (length x.now / 18 ≤ length h.old) × (length x.now / 18 ≤ length l.old) × (length x.now / 18 ≤ length s.old) × (length x.now / 18 ≤ length b.old) }
    ensures { Gathered x.now h.new l.new s.new b.new result.count result.stop }
{
    let mut count: usize = 0;
    let mut stop = false;
    let mut at: usize = 0;
    // stays a while: a turn goes on by a whole line
    while at < x.len() {
        let read = line::read_placed(chain::LATEST, x, at);
        let end = read.end;
        match read.line {
            Ok(p) => {
                put_row(h, l, s, b, count, p.label, at);
                count += 1;
                at = end;
            }
            Err(_) => {
                stop = true;
                at = end;
            }
        }
    }
    Found { count, stop }
}
