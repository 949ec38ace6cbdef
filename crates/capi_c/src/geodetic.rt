// Geodetic to Cartesian.
ghost use Rattle.capi.specs.Outcome.{Returns};
ghost use Rattle.capi.specs.Calls.{cartesian_call, units_call};

// X, Y and Z in metres.
#[unsafe(no_mangle)]
pub extern "C" fn swivelcrane_cartesian(
    ellipsoid: i64,
    latitude: i64,
    longitude: i64,
    height: i64,
    out: &mut [f64],
) -> i64
    ensures { Returns (cartesian_call ellipsoid latitude longitude height out.old) out.old out.new result }
{
    capi::geodetic::swivelcrane_cartesian(ellipsoid, latitude, longitude, height, out)
}

// X, Y and Z in whole units of 0.00001 m.
#[unsafe(no_mangle)]
pub extern "C" fn swivelcrane_cartesian_units(
    ellipsoid: i64,
    latitude: i64,
    longitude: i64,
    height: i64,
    out: &mut [i64],
) -> i64
    ensures { Returns (units_call ellipsoid latitude longitude height out.old) out.old out.new result }
{
    capi::geodetic::swivelcrane_cartesian_units(ellipsoid, latitude, longitude, height, out)
}
