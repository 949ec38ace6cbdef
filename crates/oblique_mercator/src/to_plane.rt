// Latitude and longitude to easting and northing.
ghost use Rattle.std.specs.Prelude.{◌≡◌, true};
ghost use Rattle.refusal.specs.Refusals.{told};
ghost use Rattle.ranges.specs.Ranges.{latitude_range, longitude_range};
ghost use Rattle.oblique_mercator.specs.Forward.{plane_of, plane_at, forward_from_of, forward_of};

use crate::making::{isometric, make_projection};
use crate::{Parameters, Projection};
use angle::Projected;
use elementary::{arctangent, artanh, cosh, cosine, sine, sinh};
use refusal::Refusal;

// The formulas, of the latitude and of the longitude less the centre's, both in radians.
fn plane(p: Projection, latitude: f64, difference: f64) -> Projected
    ensures { result ≡ plane_of p latitude difference }
{
    let l = isometric(p.e2, sine(latitude));
    let ln_q = p.ln_h + p.b * l;
    let s = sinh(ln_q);
    let t = cosh(ln_q);
    let x = p.b * (difference + p.omega);
    let sx = sine(x);
    let cx = cosine(x);
    let big_u = (s * p.sin_natural - sx * p.cos_natural) / t;
    let n = (s * p.cos_natural + sx * p.sin_natural) / cx;
    let v = -(p.r * artanh(big_u));
    let u = p.r * arctangent(n);
    let easting = v * p.cos_rectified + u * p.sin_rectified + p.false_easting;
    let northing = u * p.cos_rectified - v * p.sin_rectified + p.false_northing;
    Projected { easting, northing }
}

// The same of whole units, for longitudes in their range: the difference is taken in whole numbers.
fn project(p: Projection, latitude: i64, longitude: i64) -> Projected
    requires { (latitude_range latitude ≡ true) × (longitude_range longitude ≡ true) × (longitude_range p.centre ≡ true) }
    ensures { result ≡ plane_at p latitude longitude }
{
    let phi = angle::radians(latitude as f64);
    let difference = angle::radians((longitude - p.centre) as f64);
    plane(p, phi, difference)
}

// A point on a made projection, whatever the projection holds: easting and northing in metres. Refused: Range where the projection's longitude
// is out of its range, which make_projection never makes, then Geodetic for the point's angles.
pub fn forward_from(p: Projection, latitude: i64, longitude: i64) -> Result<Projected, Refusal>
    ensures { told result ≡ forward_from_of p latitude longitude }
{
    if !ranges::is_longitude(p.centre) {
        return Err(Refusal::Range);
    }
    angle::angles_fault(latitude, longitude)?;
    Ok(project(p, latitude, longitude))
}

// A point on a projection as it is written, in metres. Refused: Range for the parameters, then Geodetic for the point's angles.
pub fn forward(p: Parameters, latitude: i64, longitude: i64) -> Result<Projected, Refusal>
    ensures { told result ≡ forward_of p latitude longitude }
{
    forward_from(make_projection(p)?, latitude, longitude)
}
