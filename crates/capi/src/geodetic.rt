// Geodetic to Cartesian.
ghost use Rattle.capi.specs.Outcome.{Returns};
ghost use Rattle.capi.specs.Calls.{cartesian_call, units_call};

use crate::WRONG_LENGTH;
use crate::status::{give, status};

// X, Y and Z in metres.
pub fn swivelcrane_cartesian(
    ellipsoid: i64,
    latitude: i64,
    longitude: i64,
    height: i64,
    out: &mut [f64],
) -> i64
    ensures { Returns (cartesian_call ellipsoid latitude longitude height out.old) out.old out.new result }
{
    if out.len() != 3 {
        return WRONG_LENGTH;
    }
    match angle::cartesian_metres(ellipsoid, latitude, longitude, height) {
        Err(refusal) => status(refusal),
        Ok(m) => give(&[m.x, m.y, m.z], out),
    }
}

// X, Y and Z in whole units of 0.00001 m.
pub fn swivelcrane_cartesian_units(
    ellipsoid: i64,
    latitude: i64,
    longitude: i64,
    height: i64,
    out: &mut [i64],
) -> i64
    ensures { Returns (units_call ellipsoid latitude longitude height out.old) out.old out.new result }
{
    if out.len() != 3 {
        return WRONG_LENGTH;
    }
    match angle::cartesian_units(ellipsoid, latitude, longitude, height) {
        Err(refusal) => status(refusal),
        Ok(p) => give(&[p.x, p.y, p.z], out),
    }
}
