// Whole sheets and plans, from bytes to bytes.
ghost use Rattle.sheet_rules.specs.Sheet.{sheet_of};
ghost use Rattle.plan_rules.specs.Plan.{plan_of};
ghost use Rattle.capi.specs.Printing.{Printed};

use crate::NO_ROOM;

// What a whole sheet prints, at the start of `out`. The answer is the place past it, or NO_ROOM.
pub fn swivelcrane_sheet(input: &[u8], out: &mut [u8]) -> i64
    ensures { Printed (sheet_of input.now) input.now out.old out.new result }
{
    if out.len() < listing::room_for(input.len()) {
        return NO_ROOM;
    }
    sheet_rules::sheet(input, out) as i64
}

// What a whole plan prints, at the start of `out`. The answer is the place past it, or NO_ROOM.
pub fn swivelcrane_plan(input: &[u8], out: &mut [u8]) -> i64
    ensures { Printed (plan_of input.now) input.now out.old out.new result }
{
    if out.len() < listing::room_for(input.len()) {
        return NO_ROOM;
    }
    plan_rules::plan(input, out) as i64
}
