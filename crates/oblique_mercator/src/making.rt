// The projection made from its parameters, in document 004's order. ln t0, ln F and ln H stand for t0, F and H.
ghost use Rattle.std.specs.Prelude.{◌≡◌, true};
ghost use Rattle.refusal.specs.Refusals.{told};
ghost use Rattle.oblique_mercator.specs.Parameters.{parameters_range};
ghost use Rattle.oblique_mercator.specs.Projection.{isometric_of, centre_of, natural_of, series_of, projection_made, projection_of};

use crate::limits::{in_range, reduced};
use crate::{Parameters, Projection};
use angle::Ellipsoid;
use elementary::{arcsine, arctan_series, artanh_small, cosine, root, sine};
use refusal::Refusal;

// At the centre: A, B, D, G, which is the root of D * D - 1, and ln H.
#[derive(Clone, Copy)]
struct Centre {
    a: f64,
    b: f64,
    d: f64,
    g: f64,
    ln_h: f64,
}

// At the natural origin: sine and cosine of the angle there, and how far west of the centre it lies, in radians.
#[derive(Clone, Copy)]
struct Natural {
    sin: f64,
    cos: f64,
    omega: f64,
}

// The coefficients of the latitude's series.
#[derive(Clone, Copy)]
struct Series {
    k2: f64,
    k4: f64,
    k6: f64,
    k8: f64,
}

// -ln t, for the sine of a latitude.
pub(crate) fn isometric(e2: f64, s: f64) -> f64
    ensures { result ≡ isometric_of e2 s }
{
    artanh_small(s) - arctan_series(-(e2 * (s * s))) * (e2 * s)
}

// For the centre's latitude in radians and the scale.
fn centre_at(e: Ellipsoid, latitude: f64, scale: f64) -> Centre
    ensures { result ≡ centre_of e latitude scale }
{
    let e2 = e.e2;
    let s = sine(latitude);
    let c = cosine(latitude);
    let c2 = c * c;
    let m = 1.0 - e2;
    let g = 1.0 - e2 * (s * s);
    let b = root(1.0 + e2 * (c2 * c2) / m);
    let rm = root(m);
    let rg = root(g);
    let a = e.a * b * scale * rm / g;
    let l0 = isometric(e2, s);
    let d = b * rm / (c * rg);
    let gg = rm * (s / c) / rg;
    let ln_f = artanh_small(gg / d);
    Centre {
        a,
        b,
        d,
        g: gg,
        ln_h: ln_f - b * l0,
    }
}

// For the azimuth at the centre, in radians.
fn natural_at(c: Centre, azimuth: f64) -> Natural
    ensures { result ≡ natural_of c azimuth }
{
    let s = sine(azimuth);
    let t = cosine(azimuth);
    let j = c.g / c.d;
    let i = s / t * j;
    let sin = s / c.d;
    let cos = t * root(1.0 + i * i);
    let omega = arcsine(c.g * (sin / cos)) / c.b;
    Natural { sin, cos, omega }
}

fn series_of(e2: f64) -> Series
    ensures { result ≡ series_of e2 }
{
    let e4 = e2 * e2;
    let e6 = e4 * e2;
    let e8 = e4 * e4;
    Series {
        k2: e2 / 2.0 + 5.0 * e4 / 24.0 + e6 / 12.0 + 13.0 * e8 / 360.0,
        k4: 7.0 * e4 / 48.0 + 29.0 * e6 / 240.0 + 811.0 * e8 / 11520.0,
        k6: 7.0 * e6 / 120.0 + 81.0 * e8 / 1120.0,
        k8: 4279.0 * e8 / 161280.0,
    }
}

// The projection's values, for parameters in their ranges.
fn made(p: Parameters) -> Projection
    requires { parameters_range p ≡ true }
    ensures { result ≡ projection_made p }
{
    let e = angle::ellipsoid_of(p.ellipsoid);
    let c = centre_at(
        e,
        angle::radians(p.latitude as f64),
        p.scale as f64 / 100000000000.0,
    );
    let o = natural_at(c, angle::radians(reduced(p.azimuth) as f64));
    let gamma = angle::radians(reduced(p.rectified) as f64);
    let k = series_of(e.e2);
    Projection {
        centre: p.longitude,
        e2: e.e2,
        b: c.b,
        ln_h: c.ln_h,
        sin_natural: o.sin,
        cos_natural: o.cos,
        omega: o.omega,
        sin_rectified: sine(gamma),
        cos_rectified: cosine(gamma),
        r: c.a / c.b,
        rho: c.b / c.a,
        false_easting: p.false_easting as f64 / 1000.0,
        false_northing: p.false_northing as f64 / 1000.0,
        k2: k.k2,
        k4: k.k4,
        k6: k.k6,
        k8: k.k8,
    }
}

// A projection made ready for many points. Refused: Range for any parameter out of its range.
pub fn make_projection(p: Parameters) -> Result<Projection, Refusal>
    ensures { told result ≡ projection_of p }
{
    if !in_range(p) {
        return Err(Refusal::Range);
    }
    Ok(made(p))
}
