// Cartesian to geodetic.
ghost use Rattle.capi.specs.Outcome.{Returns};
ghost use Rattle.capi.specs.Calls.{geodetic_call};

// Latitude and longitude in whole units of 0.00001", height in whole units of 0.00001 m.
#[unsafe(no_mangle)]
pub extern "C" fn swivelcrane_geodetic(
    ellipsoid: i64,
    x: i64,
    y: i64,
    z: i64,
    out: &mut [i64],
) -> i64
    ensures { Returns (geodetic_call ellipsoid x y z out.old) out.old out.new result }
{
    capi::from_xyz::swivelcrane_geodetic(ellipsoid, x, y, z, out)
}
