// Conversion of a point by a chain, forward and inverse.
ghost use Rattle.capi.specs.Outcome.{Returns};
ghost use Rattle.capi.specs.Calls.{forward_call, inverse_call};

// A point forward by a chain of a profile, 2009 or 2021 (document 01: along).
#[unsafe(no_mangle)]
pub extern "C" fn swivelcrane_forward(
    profile: i64,
    chain: &[i64],
    point: &[i64],
    out: &mut [i64],
) -> i64
    ensures { Returns (forward_call profile chain.now point.now out.old) out.old out.new result }
{
    capi::conversion::swivelcrane_forward(profile, chain, point, out)
}

// A point inverse by a chain of a profile, 2009 or 2021 (document 01: back).
#[unsafe(no_mangle)]
pub extern "C" fn swivelcrane_inverse(
    profile: i64,
    chain: &[i64],
    point: &[i64],
    out: &mut [i64],
) -> i64
    ensures { Returns (inverse_call profile chain.now point.now out.old) out.old out.new result }
{
    capi::conversion::swivelcrane_inverse(profile, chain, point, out)
}
