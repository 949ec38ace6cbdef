// East, north and up turned to X, Y and Z.
ghost use Rattle.std.specs.Prelude.{◌≡◌, true};
ghost use Rattle.refusal.specs.Refusals.{told};
ghost use Rattle.ranges.specs.Ranges.{latitude_range, longitude_range};
ghost use Rattle.velocity_grid.specs.AtPoint.{PartsOk};
ghost use Rattle.velocity_grid.specs.Turn.{turned_by, turned_at, in_units};

use crate::Turned;
use angle::radians;
use chain::Velocity;
use elementary::{cosine, sine};
use line::VelocityParts;
use refusal::Refusal;
use rounding::round_places;

// 90 degrees.
const QUARTER: i64 = 32400000000;

// The matrix, of the sines and cosines of latitude and longitude.
fn turned(sin_phi: f64, cos_phi: f64, sin_l: f64, cos_l: f64, e: f64, n: f64, u: f64) -> Turned
    ensures { result ≡ turned_by sin_phi cos_phi sin_l cos_l e n u }
{
    Turned {
        x: (-sin_l) * e - (sin_phi * cos_l) * n + (cos_phi * cos_l) * u,
        y: cos_l * e - (sin_phi * sin_l) * n + (cos_phi * sin_l) * u,
        z: cos_phi * n + sin_phi * u,
    }
}

// At a point's angles, in their ranges.
pub(crate) fn turn(p: VelocityParts, latitude: i64, longitude: i64) -> Turned
    requires { PartsOk p × (latitude_range latitude ≡ true) × (longitude_range longitude ≡ true) }
    ensures { result ≡ turned_at p latitude longitude }
{
    let phi = radians(latitude as f64);
    let w = radians((longitude - QUARTER) as f64);
    let sin_phi = sine(phi);
    let cos_phi = cosine(phi);
    let cos_l = -sine(w);
    let sin_l = cosine(w);
    turned(
        sin_phi,
        cos_phi,
        sin_l,
        cos_l,
        p.east as f64,
        p.north as f64,
        p.up as f64,
    )
}

// Each to the nearest whole unit a year, a half away from zero.
// stays beside angle's of this name: another record, other places
pub(crate) fn in_units(t: Turned) -> Result<Velocity, Refusal>
    ensures { told result ≡ in_units t }
{
    let vx = round_places(t.x, 0)?;
    let vy = round_places(t.y, 0)?;
    let vz = round_places(t.z, 0)?;
    Ok(Velocity { vx, vy, vz })
}
