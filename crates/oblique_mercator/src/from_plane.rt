// Easting and northing to latitude and longitude.
ghost use Rattle.std.specs.Prelude.{◌≡◌, ◌+ℤ◌};
ghost use Rattle.refusal.specs.Refusals.{told};
ghost use Rattle.oblique_mercator.specs.Reverse.{in_plane, turned_of, gate_of, latitude_of, found_of, in_ranges, in_units, reverse_from_of, reverse_of};

use crate::making::make_projection;
use crate::{Longitude, Parameters, Place, Projection};
use angle::SECONDS;
use elementary::{arctan_small, arctangent, artanh_small, cosh, cosine, sine, sinh};
use refusal::Refusal;
use rounding::round_places;

// A turned back by the rectified angle, as angles of the sphere: theta across the initial line, mu along it.
#[derive(Clone, Copy)]
struct Turned {
    theta: f64,
    mu: f64,
}

// In seconds: the latitude, and the longitude less the centre's.
#[derive(Clone, Copy)]
struct Found {
    latitude: f64,
    difference: f64,
}

// Whether an easting or northing is below 10,000,000 m in size. A NaN is not.
fn in_plane(x: f64) -> bool
    ensures { result ≡ in_plane x }
{
    (-10000000.0 < x) & (x < 10000000.0)
}

fn turn(p: Projection, easting: f64, northing: f64) -> Turned
    ensures { result ≡ turned_of p easting northing }
{
    let east = easting - p.false_easting;
    let north = northing - p.false_northing;
    let v = east * p.cos_rectified - north * p.sin_rectified;
    let u = north * p.cos_rectified + east * p.sin_rectified;
    Turned {
        theta: v * p.rho,
        mu: u * p.rho,
    }
}

// Whether both lie from -1 to 1. Every point of the ranges does; with mu past a right angle an arctangent would fold the far side of the earth into them.
fn gate(t: Turned) -> bool
    ensures { result ≡ gate_of t }
{
    (-1.0 <= t.theta) & (t.theta <= 1.0) & (-1.0 <= t.mu) & (t.mu <= 1.0)
}

// The latitude in radians, by its series from the conformal latitude.
fn latitude_at(p: Projection, u: f64) -> f64
    ensures { result ≡ latitude_of p u }
{
    let l = 0.5 * ((artanh_small(u) - p.ln_h) / p.b);
    let chi = 2.0 * arctan_small(sinh(l) / cosh(l));
    chi + sine(2.0 * chi) * p.k2
        + sine(4.0 * chi) * p.k4
        + sine(6.0 * chi) * p.k6
        + sine(8.0 * chi) * p.k8
}

// The angle at the natural origin stands in both formulas, not the rectified one.
fn find(p: Projection, t: Turned) -> Found
    ensures { result ≡ found_of p t }
{
    let s = -sinh(t.theta);
    let c = cosh(t.theta);
    let sm = sine(t.mu);
    let cm = cosine(t.mu);
    let big_u = (sm * p.cos_natural + s * p.sin_natural) / c;
    let n = (s * p.cos_natural - sm * p.sin_natural) / cm;
    let phi = latitude_at(p, big_u);
    let w = -p.omega - arctangent(n) / p.b;
    Found {
        latitude: phi * SECONDS,
        difference: w * SECONDS,
    }
}

// Latitude and longitude, each tested: Geodetic outside its range. The longitude is tested less the centre's, so that no sum passes an i64.
fn in_ranges(centre: Longitude, latitude: i64, difference: i64) -> Result<Place, Refusal>
    ensures { told result ≡ in_ranges latitude (difference +ℤ centre.units) }
{
    if !ranges::is_latitude(latitude) {
        return Err(Refusal::Geodetic);
    }
    if !ranges::within(
        35640000000 - centre.units,
        difference,
        43200000000 - centre.units,
    ) {
        return Err(Refusal::Geodetic);
    }
    let longitude = difference + centre.units;
    Ok(Place {
        latitude,
        longitude,
    })
}

// Each rounded at 5 places by itself. What a rounding refuses is Geodetic.
fn in_units(centre: Longitude, f: Found) -> Result<Place, Refusal>
    ensures { told result ≡ in_units centre.units f }
{
    let latitude = round_places(f.latitude, 5).or(Err(Refusal::Geodetic))?;
    let difference = round_places(f.difference, 5).or(Err(Refusal::Geodetic))?;
    in_ranges(centre, latitude, difference)
}

// A point on a made projection, whatever the projection holds: latitude and longitude. Refused: Range where the projection's longitude is out
// of its range, which make_projection never makes; Plane where easting or northing is 10,000,000 m or more in size or not finite; then
// Geodetic for a result out of its range or not finite.
pub fn reverse_from(p: Projection, easting: f64, northing: f64) -> Result<Place, Refusal>
    ensures { told result ≡ reverse_from_of p easting northing }
{
    if !ranges::is_longitude(p.centre) {
        return Err(Refusal::Range);
    }
    let centre = Longitude { units: p.centre };
    if !(in_plane(easting) & in_plane(northing)) {
        return Err(Refusal::Plane);
    }
    let t = turn(p, easting, northing);
    if !gate(t) {
        return Err(Refusal::Geodetic);
    }
    in_units(centre, find(p, t))
}

// A point on a projection as it is written. Refused: Range for the parameters, then Plane, then Geodetic.
pub fn reverse(p: Parameters, easting: f64, northing: f64) -> Result<Place, Refusal>
    ensures { told result ≡ reverse_of p easting northing }
{
    reverse_from(make_projection(p)?, easting, northing)
}
