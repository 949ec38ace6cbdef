// Whole sheets and plans, from bytes to bytes.
ghost use Rattle.sheet_rules.specs.Sheet.{sheet_of};
ghost use Rattle.plan_rules.specs.Plan.{plan_of};
ghost use Rattle.capi.specs.Printing.{Printed};

// What a whole sheet prints, at the start of `out`. The answer is the place past it, or NO_ROOM.
#[unsafe(no_mangle)]
pub extern "C" fn swivelcrane_sheet(input: &[u8], out: &mut [u8]) -> i64
    ensures { Printed (sheet_of input.now) input.now out.old out.new result }
{
    capi::printing::swivelcrane_sheet(input, out)
}

// What a whole plan prints, at the start of `out`. The answer is the place past it, or NO_ROOM.
#[unsafe(no_mangle)]
pub extern "C" fn swivelcrane_plan(input: &[u8], out: &mut [u8]) -> i64
    ensures { Printed (plan_of input.now) input.now out.old out.new result }
{
    capi::printing::swivelcrane_plan(input, out)
}
