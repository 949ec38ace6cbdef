// Cartesian to geodetic: the circular's reverse without iteration, in the order of docs/ORDERS.md, section 4.
ghost use Rattle.std.specs.Prelude.{◌≡◌, true, pos, ◌+ℤ◌};
ghost use Rattle.refusal.specs.Refusals.{told};
ghost use Rattle.ranges.specs.Ranges.{area};
ghost use Rattle.angle.specs.Geodetic.{tangent_of, height_of, found_at, in_ranges, in_angles, geodetic_units_of};

use crate::ellipsoids::{ellipsoid, prime_vertical};
use crate::numbers::{QUARTER, SECONDS};
use crate::{Angles, Ellipsoid, Found};
use elementary::{arctan_small, cosine, root, sine};
use refusal::Refusal;
use rounding::round_places;

// The range of longitudes, less 90 degrees.
const PAST_LOW: i64 = 3240000000;

const PAST_HIGH: i64 = 10800000000;

// The tangent of the latitude, of p, the distance from the axis, and z, both in metres.
fn tangent(e: Ellipsoid, p: f64, z: f64) -> f64
    ensures { result ≡ tangent_of e p z }
{
    let b = e.a * (1.0 - e.f);
    let epsilon = e.e2 / (1.0 - e.e2);
    let t = e.a * z / (b * p);
    let cu = 1.0 / root(1.0 + t * t);
    let su = t * cu;
    (z + epsilon * b * (su * su * su)) / (p - e.e2 * e.a * (cu * cu * cu))
}

// The height in metres at a latitude in radians.
fn height_at(e: Ellipsoid, p: f64, z: f64, latitude: f64) -> f64
    ensures { result ≡ height_of e p z latitude }
{
    let s = sine(latitude);
    let c = cosine(latitude);
    let v = e.e2 * (s * s);
    let nu = prime_vertical(e, s);
    p * c + z * s - (1.0 - v) * nu
}

// The formulas, for a position of the area.
fn found(e: Ellipsoid, x: i64, y: i64, z: i64) -> Found
    requires { area x y z ≡ true }
    ensures { result ≡ found_at e x y z }
{
    let across = x as f64;
    let along = y as f64;
    let up = z as f64;
    let q = -across / along;
    let r = root(1.0 + q * q);
    let p = along / 100000.0 * r;
    let z_metres = up / 100000.0;
    let phi = arctan_small(tangent(e, p, z_metres));
    let w = 2.0 * arctan_small(q / (1.0 + r));
    let h = height_at(e, p, z_metres, phi);
    Found {
        latitude: phi * SECONDS,
        longitude: w * SECONDS,
        height: h,
    }
}

// Latitude, longitude past 90 degrees and height in whole units, each tested: Geodetic outside its range.
fn in_ranges(latitude: i64, past: i64, height: i64) -> Result<Angles, Refusal>
    ensures { told result ≡ in_ranges latitude (past +ℤ pos 32400000000) height }
{
    if !ranges::is_latitude(latitude) {
        return Err(Refusal::Geodetic);
    }
    if !ranges::within(PAST_LOW, past, PAST_HIGH) {
        return Err(Refusal::Geodetic);
    }
    if !ranges::is_height(height) {
        return Err(Refusal::Geodetic);
    }
    let longitude = past + QUARTER;
    Ok(Angles {
        latitude,
        longitude,
        height,
    })
}

// Each rounded at 5 places by itself, and only then tested. What a rounding refuses is Geodetic.
fn in_angles(f: Found) -> Result<Angles, Refusal>
    ensures { told result ≡ in_angles f }
{
    let latitude = round_places(f.latitude, 5).or(Err(Refusal::Geodetic))?;
    let past = round_places(f.longitude, 5).or(Err(Refusal::Geodetic))?;
    let height = round_places(f.height, 5).or(Err(Refusal::Geodetic))?;
    in_ranges(latitude, past, height)
}

// Latitude and longitude in units of 0.00001" and height in units of 0.00001 m, of X, Y and Z in units of 0.00001 m on the ellipsoid of a code
// (1 to 4). Refused: Range for the code, then Area for a position outside the area, whatever its size, then Geodetic for a rounded result
// outside its range.
pub fn geodetic_units(code: i64, x: i64, y: i64, z: i64) -> Result<Angles, Refusal>
    ensures { told result ≡ geodetic_units_of code x y z }
{
    if !ranges::is_ellipsoid(code) {
        return Err(Refusal::Range);
    }
    if !ranges::in_area(x, y, z) {
        return Err(Refusal::Area);
    }
    in_angles(found(ellipsoid(code), x, y, z))
}
