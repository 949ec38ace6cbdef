// The four ellipsoids, the prime vertical radius and the meridian's length.
ghost use Rattle.std.specs.Prelude.{◌≡◌};
ghost use Rattle.angle.specs.Ellipsoids.{shape, ellipsoid_of, prime_vertical, arc_with, meridian_arc};
ghost use Rattle.angle.specs.Terms.{terms_of};

use crate::{Ellipsoid, Figure, Known, Terms};
use elementary::sine;

// Codes 1 to 4: GRS80, WGS84, Everest 1830 Modified, Everest 1967.
const ELLIPSOIDS: [Figure; 4] = [
    Figure {
        a: 6378137.0,
        inverse_flattening: 298.257222101,
    },
    Figure {
        a: 6378137.0,
        inverse_flattening: 298.257223563,
    },
    Figure {
        a: 6377304.063,
        inverse_flattening: 300.8017,
    },
    Figure {
        a: 6377298.556,
        inverse_flattening: 300.8017,
    },
];

// What a code that is not of the table has: nobody uses it, since its caller refuses the code.
const NO_FIGURE: Figure = Figure {
    a: 0.0,
    inverse_flattening: 0.0,
};

// The ellipsoid of a row.
fn shape(r: Figure) -> Ellipsoid
    ensures { result ≡ shape r }
{
    let f = 1.0 / r.inverse_flattening;
    Ellipsoid {
        a: r.a,
        f,
        e2: f * (2.0 - f),
    }
}

// The ellipsoid of a code from 1 to 4. Any other code has an ellipsoid of no use, which its caller refuses. Each arm takes a row that is
// known, so that the compiler works it out: by an index it would store the table anew at each call, and divide.
pub fn ellipsoid(code: i64) -> Ellipsoid
    ensures { result ≡ ellipsoid_of code }
{
    match code {
        1 => shape(ELLIPSOIDS[0]),
        2 => shape(ELLIPSOIDS[1]),
        3 => shape(ELLIPSOIDS[2]),
        4 => shape(ELLIPSOIDS[3]),
        _ => shape(NO_FIGURE),
    }
}

// The radius of curvature in the prime vertical, in metres, for the sine of the latitude.
pub fn prime_vertical(e: Ellipsoid, sine: f64) -> f64
    ensures { result ≡ prime_vertical e sine }
{
    let q = e.e2 * (sine * sine);
    e.a * (1.0 + q * (0.5 + q * (0.375 + q * (0.3125 + q * 0.2734375))))
}

// What e2 alone decides.
fn terms_from(e: Ellipsoid) -> Terms
    ensures { result ≡ terms_of e }
{
    let e2 = e.e2;
    let e4 = e2 * e2;
    let e6 = e4 * e2;
    Terms {
        m0: 1.0 - e2 / 4.0 - 3.0 * e4 / 64.0 - 5.0 * e6 / 256.0,
        m2: 3.0 * e2 / 8.0 + 3.0 * e4 / 32.0 + 45.0 * e6 / 1024.0,
        m4: 15.0 * e4 / 256.0 + 45.0 * e6 / 1024.0,
        m6: 35.0 * e6 / 3072.0,
        second: e2 / (1.0 - e2),
    }
}

// An ellipsoid with its own terms.
pub(crate) fn known(ellipsoid: Ellipsoid) -> Known
    ensures { result.ellipsoid ≡ ellipsoid }
{
    let terms = terms_from(ellipsoid);
    Known { ellipsoid, terms }
}

// The same of a code. The compiler works each arm out, so that nothing of it is left to a call.
pub(crate) fn known_of(code: i64) -> Known
    ensures { result.ellipsoid ≡ ellipsoid_of code }
{
    match code {
        1 => known(ellipsoid(1)),
        2 => known(ellipsoid(2)),
        3 => known(ellipsoid(3)),
        4 => known(ellipsoid(4)),
        _ => known(ellipsoid(0)),
    }
}

// The meridian's length from the equator in metres, by the sines of twice, four and six times the latitude in radians.
fn arc_with(k: Known, latitude: f64, s2: f64, s4: f64, s6: f64) -> f64
    ensures { result ≡ arc_with k.ellipsoid latitude s2 s4 s6 }
{
    let t = k.terms;
    k.ellipsoid.a * (t.m0 * latitude - t.m2 * s2 + t.m4 * s4 - t.m6 * s6)
}

// The meridian's length from the equator to a latitude in radians, in metres.
pub(crate) fn meridian_arc(k: Known, latitude: f64) -> f64
    ensures { result ≡ meridian_arc k.ellipsoid latitude }
{
    let s2 = sine(2.0 * latitude);
    let s4 = sine(4.0 * latitude);
    let s6 = sine(6.0 * latitude);
    arc_with(k, latitude, s2, s4, s6)
}
