// The later of two point lines: which of the two it is, and why neither is.
ghost use Rattle.capi.specs.Outcome.{Returns};
ghost use Rattle.capi.specs.Calls.{later_call, later_fault_call};

// 1 where the first of two lent point lines is the later one, 2 where the second is.
#[unsafe(no_mangle)]
pub extern "C" fn swivelcrane_later(first: &[u8], second: &[u8], which: &mut [i64]) -> i64
    ensures { Returns (later_call first.now second.now which.old) which.old which.new result }
{
    capi::later::swivelcrane_later(first, second, which)
}

// Why neither of two lent point lines is the later one: the refusal number, the line it is given for (1, 2, or 0 where neither alone is at fault) and the byte in
// that line, from 0 (0 but for a line of bad form). Three zeros where one of them is the later. Nothing is refused here.
#[unsafe(no_mangle)]
pub extern "C" fn swivelcrane_later_fault(first: &[u8], second: &[u8], out: &mut [i64]) -> i64
    ensures { Returns (later_fault_call first.now second.now out.old) out.old out.new result }
{
    capi::later::swivelcrane_later_fault(first, second, out)
}
