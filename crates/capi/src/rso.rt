// RSO: latitude and longitude to easting and northing, and back.
ghost use Rattle.std.specs.Prelude.{◌≡◌, length};
ghost use Rattle.capi.specs.Outcome.{Returns};
ghost use Rattle.capi.specs.Rso.{parameters_from, rso_forward_call, rso_reverse_call};

use crate::WRONG_LENGTH;
use crate::projected::give_metres;
use crate::status::{give, status};
use oblique_mercator::Parameters;

// A projection's eight numbers: ellipsoid, centre's latitude and longitude, azimuth, rectified angle, scale, false easting, false northing.
// Stays a function, as `point_from` does.
fn parameters_from(n: &[i64]) -> Parameters
    requires { length n.now ≡ 8 }
    ensures { result ≡ parameters_from n.now }
{
    Parameters {
        ellipsoid: n[0],
        latitude: n[1],
        longitude: n[2],
        azimuth: n[3],
        rectified: n[4],
        scale: n[5],
        false_easting: n[6],
        false_northing: n[7],
    }
}

// Easting and northing in metres.
pub fn swivelcrane_rso_forward(
    parameters: &[i64],
    latitude: i64,
    longitude: i64,
    out: &mut [f64],
) -> i64
    ensures { Returns (rso_forward_call parameters.now latitude longitude out.old) out.old out.new result }
{
    if parameters.len() != 8 {
        return WRONG_LENGTH;
    }
    if out.len() != 2 {
        return WRONG_LENGTH;
    }
    let p = parameters_from(parameters);
    give_metres(oblique_mercator::forward(p, latitude, longitude), out)
}

// Latitude and longitude in units of 0.00001".
pub fn swivelcrane_rso_reverse(
    parameters: &[i64],
    easting: f64,
    northing: f64,
    out: &mut [i64],
) -> i64
    ensures { Returns (rso_reverse_call parameters.now easting northing out.old) out.old out.new result }
{
    if parameters.len() != 8 {
        return WRONG_LENGTH;
    }
    if out.len() != 2 {
        return WRONG_LENGTH;
    }
    let p = parameters_from(parameters);
    match oblique_mercator::reverse(p, easting, northing) {
        Err(refusal) => status(refusal),
        Ok(p) => give(&[p.latitude, p.longitude], out),
    }
}
