// Cassini-Soldner eastings and northings.
ghost use Rattle.std.specs.Prelude.{◌≡◌, length};
ghost use Rattle.refusal.specs.Refusals.{told};
ghost use Rattle.capi.specs.Outcome.{Returns};
ghost use Rattle.capi.specs.Calls.{of_projected, origin_from, cassini_call, millimetres_call};

use crate::WRONG_LENGTH;
use crate::status::{give, status};
use angle::{OriginNumbers, Projected};
use refusal::Refusal;

// Writes easting and northing, or answers the refusal.
pub(crate) fn give_metres(answer: Result<Projected, Refusal>, out: &mut [f64]) -> i64
    requires { length out.old ≡ 2 }
    ensures { Returns (of_projected (told answer)) out.old out.new result }
{
    match answer {
        Err(refusal) => status(refusal),
        Ok(p) => give(&[p.easting, p.northing], out),
    }
}

// stays a function, as `point_from` does
fn origin_from(
    ellipsoid: i64,
    latitude: i64,
    longitude: i64,
    false_easting: i64,
    false_northing: i64,
) -> OriginNumbers
    ensures { result ≡ origin_from ellipsoid latitude longitude false_easting false_northing }
{
    OriginNumbers {
        ellipsoid,
        latitude,
        longitude,
        false_easting,
        false_northing,
    }
}

// Easting and northing in metres.
pub fn swivelcrane_cassini(
    ellipsoid: i64,
    origin_latitude: i64,
    origin_longitude: i64,
    false_easting: i64,
    false_northing: i64,
    latitude: i64,
    longitude: i64,
    out: &mut [f64],
) -> i64
    ensures { Returns (cassini_call (origin_from ellipsoid origin_latitude origin_longitude false_easting false_northing) latitude longitude out.old) out.old out.new result }
{
    if out.len() != 2 {
        return WRONG_LENGTH;
    }
    let origin = origin_from(
        ellipsoid,
        origin_latitude,
        origin_longitude,
        false_easting,
        false_northing,
    );
    give_metres(angle::cassini(origin, latitude, longitude), out)
}

// Easting and northing in whole millimetres.
pub fn swivelcrane_cassini_millimetres(
    ellipsoid: i64,
    origin_latitude: i64,
    origin_longitude: i64,
    false_easting: i64,
    false_northing: i64,
    latitude: i64,
    longitude: i64,
    out: &mut [i64],
) -> i64
    ensures { Returns (millimetres_call (origin_from ellipsoid origin_latitude origin_longitude false_easting false_northing) latitude longitude out.old) out.old out.new result }
{
    if out.len() != 2 {
        return WRONG_LENGTH;
    }
    let origin = origin_from(
        ellipsoid,
        origin_latitude,
        origin_longitude,
        false_easting,
        false_northing,
    );
    match angle::cassini_millimetres(origin, latitude, longitude) {
        Err(refusal) => status(refusal),
        Ok(m) => give(&[m.easting, m.northing], out),
    }
}
