// RSO: latitude and longitude to easting and northing, and back.
ghost use Rattle.capi.specs.Outcome.{Returns};
ghost use Rattle.capi.specs.Rso.{rso_forward_call, rso_reverse_call};

// Easting and northing in metres.
#[unsafe(no_mangle)]
pub extern "C" fn swivelcrane_rso_forward(
    parameters: &[i64],
    latitude: i64,
    longitude: i64,
    out: &mut [f64],
) -> i64
    ensures { Returns (rso_forward_call parameters.now latitude longitude out.old) out.old out.new result }
{
    capi::rso::swivelcrane_rso_forward(parameters, latitude, longitude, out)
}

// Latitude and longitude in units of 0.00001".
#[unsafe(no_mangle)]
pub extern "C" fn swivelcrane_rso_reverse(
    parameters: &[i64],
    easting: f64,
    northing: f64,
    out: &mut [i64],
) -> i64
    ensures { Returns (rso_reverse_call parameters.now easting northing out.old) out.old out.new result }
{
    capi::rso::swivelcrane_rso_reverse(parameters, easting, northing, out)
}
