// The later of two point lines: which of the two it is, and why neither is.
ghost use Rattle.capi.specs.Outcome.{Returns};
ghost use Rattle.capi.specs.Calls.{later_call, later_fault_call};

use crate::WRONG_LENGTH;
use crate::status::{give, status};
use line::Which;

// 1 where the first of two lent point lines is the later one, 2 where the second is.
pub fn swivelcrane_later(first: &[u8], second: &[u8], which: &mut [i64]) -> i64
    ensures { Returns (later_call first.now second.now which.old) which.old which.new result }
{
    if which.len() != 1 {
        return WRONG_LENGTH;
    }
    match line::later_verdict(first, second) {
        Err(fault) => status(fault.refusal),
        Ok(Which::First) => give(&[1], which),
        Ok(Which::Second) => give(&[2], which),
    }
}

// Why neither of two lent point lines is the later one: the refusal number, the line it is given for (1, 2, or 0 where neither alone is at fault) and the byte in
// that line, from 0 (0 but for a line of bad form). Three zeros where one of them is the later. Nothing is refused here.
pub fn swivelcrane_later_fault(first: &[u8], second: &[u8], out: &mut [i64]) -> i64
    ensures { Returns (later_fault_call first.now second.now out.old) out.old out.new result }
{
    if out.len() != 3 {
        return WRONG_LENGTH;
    }
    match line::later_fault(first, second) {
        Ok(()) => give(&[0, 0, 0], out),
        Err(fault) => {
            let number = status(fault.refusal);
            give(
                &[number, i64::from(fault.line), i64::from(fault.place)],
                out,
            )
        }
    }
}
