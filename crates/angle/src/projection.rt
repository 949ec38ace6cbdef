// Cassini-Soldner, forward, from a state origin.
ghost use Rattle.std.specs.Prelude.{◌≡◌, true, ◌-ℤ◌, Ok};
ghost use Rattle.refusal.specs.Order.{first};
ghost use Rattle.refusal.specs.Refusals.{told, fault_number};
ghost use Rattle.ranges.specs.Ranges.{offset_range};
ghost use Rattle.angle.specs.Ranges.{nearby, angles_and_meridian_tests, origin_fault};
ghost use Rattle.angle.specs.Units.{metres as Units·metres, radians as Units·radians};
ghost use Rattle.angle.specs.Ellipsoids.{ellipsoid_of, meridian_arc};
ghost use Rattle.angle.specs.Terms.{parallel_of};
ghost use Rattle.angle.specs.Cassini.{origin_made, origin_of, cassini_with, cassini_at, cassini_from_of, cassini_of};
ghost use Rattle.angle.specs.Cassini.{in_millimetres, cassini_millimetres_from_of, cassini_millimetres_of};

use crate::ellipsoids::{ellipsoid, known, known_of, meridian_arc, prime_vertical};
use crate::faults::{angles_fault, origin_fault};
use crate::numbers::radians;
use crate::{Ellipsoid, Known, Latitude, Millimetres, Origin, OriginNumbers, Parallel, Projected};
use elementary::{cosine, sine};
use refusal::Refusal;
use rounding::round_places;

// How far apart the longitudes may be: 4 degrees.
const APART: i64 = 1440000000;

// Millimetres in metres, for a number in its range.
fn metres(n: i64) -> f64
    requires { offset_range n ≡ true }
    ensures { result ≡ Units·metres n }
{
    n as f64 / 1000.0
}

// A latitude in radians.
fn latitude_radians(latitude: Latitude) -> f64
    ensures { result ≡ Units·radians latitude.units }
{
    radians(latitude.units as f64)
}

// The difference of two longitudes in radians, where they are not too far apart.
fn apart_radians(longitude: i64, origin: i64) -> f64
    requires { nearby longitude origin ≡ true }
    ensures { result ≡ Units·radians (longitude -ℤ origin) }
{
    radians((longitude - origin) as f64)
}

// The meridian's length to an origin's latitude. It stands apart from `made`, which the compiler then puts into its callers: with it, a single
// call got its origin through memory.
fn origin_arc(code: i64, latitude: Latitude) -> f64
    ensures { result ≡ meridian_arc (ellipsoid_of code) (Units·radians latitude.units) }
{
    let phi = latitude_radians(latitude);
    meridian_arc(known_of(code), phi)
}

// The origin's values, for numbers in their ranges and the meridian's length to its latitude.
fn made(o: OriginNumbers, m0: f64) -> Origin
    requires { (origin_fault o ≡ 0) × (m0 ≡ meridian_arc (ellipsoid_of o.ellipsoid) (Units·radians o.latitude)) }
    ensures { result ≡ origin_made o }
{
    let e = ellipsoid(o.ellipsoid);
    let east = metres(o.false_easting);
    let north = metres(o.false_northing);
    Origin {
        ellipsoid: e,
        longitude: o.longitude,
        m0,
        false_easting: east,
        false_northing: north,
    }
}

// An origin made ready for many points. Refused: Range for the code, false easting or northing, then Geodetic for the angles.
pub fn make_origin(o: OriginNumbers) -> Result<Origin, Refusal>
    ensures { told result ≡ origin_of o }
{
    origin_fault(o)?;
    let latitude = Latitude { units: o.latitude };
    let m0 = origin_arc(o.ellipsoid, latitude);
    Ok(made(o, m0))
}

// Geodetic for the point's angles, then Apart where the longitudes are over 4 degrees apart. The longitudes are compared as whole numbers, and
// no sum passes an i64: the point's longitude is in its range by then.
fn meridian_fault(origin: i64, latitude: i64, longitude: i64) -> Result<(), Refusal>
    ensures { fault_number result ≡ first (angles_and_meridian_tests origin latitude longitude) }
{
    angles_fault(latitude, longitude)?;
    if !ranges::within(longitude - APART, origin, longitude + APART) {
        return Err(Refusal::Apart);
    }
    Ok(())
}

// What a latitude decides on an ellipsoid.
fn parallel_at(e: Ellipsoid, latitude: Latitude) -> Parallel
    ensures { result ≡ parallel_of e latitude.units }
{
    let phi = latitude_radians(latitude);
    let s = sine(phi);
    let c = cosine(phi);
    let nu = prime_vertical(e, s);
    Parallel {
        phi,
        sine: s,
        cosine: c,
        nu,
    }
}

// The formulas, of the point's parallel, the meridian's length m to it and the difference of longitudes in radians.
fn lay(o: Origin, k: Known, p: Parallel, m: f64, difference: f64) -> Projected
    requires { k.ellipsoid ≡ o.ellipsoid }
    ensures { result ≡ cassini_with o p.sine p.cosine p.nu m difference }
{
    let s = p.sine;
    let c = p.cosine;
    let nu = p.nu;
    let a = difference * c;
    let t = s / c;
    let t2 = t * t;
    let cc = k.terms.second * c * c;
    let a2 = a * a;
    let a3 = a2 * a;
    let a4 = a2 * a2;
    let a5 = a4 * a;
    let east = o.false_easting + nu * (a - t2 * a3 / 6.0 - (8.0 - t2 + 8.0 * cc) * t2 * a5 / 120.0);
    let north = o.false_northing
        + (m - o.m0 + nu * t * (a2 / 2.0 + (5.0 - t2 + 6.0 * cc) * a4 / 24.0));
    Projected {
        easting: east,
        northing: north,
    }
}

// The same on an origin whose ellipsoid is known, for longitudes that are not too far apart. It goes into both callers: a code's terms are
// constants there, and of a made origin's ellipsoid they are worked out.
#[inline(always)]
fn project(o: Origin, k: Known, latitude: Latitude, longitude: i64) -> Projected
    requires { (k.ellipsoid ≡ o.ellipsoid) × (nearby longitude o.longitude ≡ true) }
    ensures { result ≡ cassini_at o latitude.units longitude }
{
    let p = parallel_at(k.ellipsoid, latitude);
    let m = meridian_arc(k, p.phi);
    let difference = apart_radians(longitude, o.longitude);
    lay(o, k, p, m, difference)
}

// A point on a made origin, whatever the origin holds: easting and northing in metres. Refused: Geodetic for the point's angles, then
// Apart where the longitudes are over 4 degrees apart.
fn cassini_from(origin: Origin, latitude: i64, longitude: i64) -> Result<Projected, Refusal>
    ensures { told result ≡ cassini_from_of origin latitude longitude }
{
    meridian_fault(origin.longitude, latitude, longitude)?;
    let known = known(origin.ellipsoid);
    let latitude = Latitude { units: latitude };
    Ok(project(origin, known, latitude, longitude))
}

// A point on an origin as it is written, in metres. Refused: Range, then Geodetic, of the origin or the point, then Apart.
pub fn cassini(o: OriginNumbers, latitude: i64, longitude: i64) -> Result<Projected, Refusal>
    ensures { told result ≡ cassini_of o latitude longitude }
{
    origin_fault(o)?;
    meridian_fault(o.longitude, latitude, longitude)?;
    let origin_latitude = Latitude { units: o.latitude };
    let m0 = origin_arc(o.ellipsoid, origin_latitude);
    let known = known_of(o.ellipsoid);
    let latitude = Latitude { units: latitude };
    Ok(project(made(o, m0), known, latitude, longitude))
}

// Each to the nearest millimetre, half away from zero. Both, or the first refusal.
fn in_millimetres(g: Projected) -> Result<Millimetres, Refusal>
    ensures { told result ≡ in_millimetres (Ok g) }
{
    let easting = round_places(g.easting, 3)?;
    let northing = round_places(g.northing, 3)?;
    Ok(Millimetres { easting, northing })
}

// As cassini_from, in whole millimetres: each rounded by itself, and its Size comes last.
pub fn cassini_millimetres_from(
    origin: Origin,
    latitude: i64,
    longitude: i64,
) -> Result<Millimetres, Refusal>
    ensures { told result ≡ cassini_millimetres_from_of origin latitude longitude }
{
    in_millimetres(cassini_from(origin, latitude, longitude)?)
}

// As cassini, in whole millimetres: each rounded by itself, and its Size comes last. It makes the origin and does not call cassini, so that the compiler puts
// cassini into its one caller in the C library.
pub fn cassini_millimetres(
    o: OriginNumbers,
    latitude: i64,
    longitude: i64,
) -> Result<Millimetres, Refusal>
    ensures { told result ≡ cassini_millimetres_of o latitude longitude }
{
    cassini_millimetres_from(make_origin(o)?, latitude, longitude)
}
