// Geodetic to Cartesian.
ghost use Rattle.std.specs.Prelude.{◌≡◌, true, Ok};
ghost use Rattle.refusal.specs.Refusals.{told};
ghost use Rattle.ranges.specs.Ranges.{latitude_range, longitude_range, height_range};
ghost use Rattle.angle.specs.Cartesian.{cartesian_at, cartesian_of, in_units, cartesian_units_of};

use crate::ellipsoids::{ellipsoid, prime_vertical};
use crate::faults::angles_fault;
use crate::numbers::{QUARTER, radians, whole};
use crate::{Ellipsoid, Metres, Units};
use elementary::{cosine, sine};
use refusal::Refusal;
use rounding::round_places;

// The formulas, for numbers in their ranges.
fn position(e: Ellipsoid, latitude: i64, longitude: i64, height: i64) -> Metres
    requires { (latitude_range latitude ≡ true) × (longitude_range longitude ≡ true) × (height_range height ≡ true) }
    ensures { result ≡ cartesian_at e latitude longitude height }
{
    let phi = radians(whole(latitude));
    let w = radians(whole(longitude - QUARTER));
    let cos_l = -sine(w);
    let sin_l = cosine(w);
    let h = height as f64 / 100000.0;
    let sin_phi = sine(phi);
    let cos_phi = cosine(phi);
    let nu = prime_vertical(e, sin_phi);
    let d = (nu + h) * cos_phi;
    Metres {
        x: d * cos_l,
        y: d * sin_l,
        z: ((1.0 - e.e2) * nu + h) * sin_phi,
    }
}

// X, Y and Z in metres. Refused: Range for the code, then Geodetic for the latitude, longitude or height.
pub fn cartesian_metres(
    code: i64,
    latitude: i64,
    longitude: i64,
    height: i64,
) -> Result<Metres, Refusal>
    ensures { told result ≡ cartesian_of code latitude longitude height }
{
    if !ranges::is_ellipsoid(code) {
        return Err(Refusal::Range);
    }
    angles_fault(latitude, longitude)?;
    if !ranges::is_height(height) {
        return Err(Refusal::Geodetic);
    }
    Ok(position(ellipsoid(code), latitude, longitude, height))
}

// Each coordinate to the nearest whole unit of 0.00001 m, half away from zero. All three, or the first refusal.
fn in_units(m: Metres) -> Result<Units, Refusal>
    ensures { told result ≡ in_units (Ok m) }
{
    let x = round_places(m.x, 5)?;
    let y = round_places(m.y, 5)?;
    let z = round_places(m.z, 5)?;
    Ok(Units { x, y, z })
}

// X, Y and Z in whole units of 0.00001 m, each rounded by itself. Refused as cartesian_metres refuses, and then Size by a rounding.
pub fn cartesian_units(
    code: i64,
    latitude: i64,
    longitude: i64,
    height: i64,
) -> Result<Units, Refusal>
    ensures { told result ≡ cartesian_units_of code latitude longitude height }
{
    in_units(cartesian_metres(code, latitude, longitude, height)?)
}
