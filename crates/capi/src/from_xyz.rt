// Cartesian to geodetic.
ghost use Rattle.capi.specs.Outcome.{Returns};
ghost use Rattle.capi.specs.Calls.{geodetic_call};

use crate::WRONG_LENGTH;
use crate::status::{give, status};

// Latitude and longitude in whole units of 0.00001", height in whole units of 0.00001 m.
pub fn swivelcrane_geodetic(ellipsoid: i64, x: i64, y: i64, z: i64, out: &mut [i64]) -> i64
    ensures { Returns (geodetic_call ellipsoid x y z out.old) out.old out.new result }
{
    if out.len() != 3 {
        return WRONG_LENGTH;
    }
    match angle::geodetic_units(ellipsoid, x, y, z) {
        Err(refusal) => status(refusal),
        Ok(p) => give(&[p.latitude, p.longitude, p.height], out),
    }
}
