// Rounding of an f64 at a decimal place.
ghost use Rattle.capi.specs.Outcome.{Returns};
ghost use Rattle.capi.specs.Calls.{round_call};

use crate::WRONG_LENGTH;
use crate::status::{give, status};
use rounding::round_places;

// The whole number nearest to the exact value of x times ten to the places, a half away from zero.
pub fn swivelcrane_round(x: f64, places: u32, out: &mut [i64]) -> i64
    ensures { Returns (round_call x places out.old) out.old out.new result }
{
    if out.len() != 1 {
        return WRONG_LENGTH;
    }
    match round_places(x, places) {
        Err(refusal) => status(refusal),
        Ok(n) => give(&[n], out),
    }
}
