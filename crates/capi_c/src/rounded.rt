// Rounding of an f64 at a decimal place.
ghost use Rattle.capi.specs.Outcome.{Returns};
ghost use Rattle.capi.specs.Calls.{round_call};

// The whole number nearest to the exact value of x times ten to the places, a half away from zero.
#[unsafe(no_mangle)]
pub extern "C" fn swivelcrane_round(x: f64, places: u32, out: &mut [i64]) -> i64
    ensures { Returns (round_call x places out.old) out.old out.new result }
{
    capi::rounded::swivelcrane_round(x, places, out)
}
