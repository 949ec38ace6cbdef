// The line of a lot plan. It is not the plan program's C line: that one has neither issue nor order.
ghost use Rattle.line.specs.Text.{Wrote};
ghost use Rattle.line.specs.Lot.{lot_text};

use crate::field::{LINE_FEED, TAB};
use crate::write::{letter, name, whole};

// C, id, issue, order, E, N; millimetres.
pub fn write_lot(out: &mut [u8], at: usize, label: chain::Label, e: i64, n: i64) -> usize
    ensures { Wrote out.old at (lot_text label e n) out.new result }
{
    let a = letter(out, at, b'C');
    let b = name(out, a, label.id);
    let c = whole(out, b, label.issue, TAB);
    let d = whole(out, c, label.order, TAB);
    let f = whole(out, d, e, TAB);
    whole(out, f, n, LINE_FEED)
}
