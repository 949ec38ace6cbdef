// Sine, cosine and arctangent in f64: Horner in x * x. The reciprocals of the factorials are worked out and not stored.
ghost use Rattle.std.specs.Prelude.{◌≡◌, ◌<◌, length};
ghost use Rattle.elementary.specs.Series.{horner, sine_table, cosine_table, arctan_table, sine_of, cosine_of, arctan_small_of};
ghost use Rattle.elementary.specs.Hyperbolic.{arctan_series_of};

// 1/15!, 1/13!, .. 1/1!, the signs alternating so that the last is +1. Each factorial is a whole product, exact in f64, and each reciprocal one division.
pub(crate) fn sine_table() -> [f64; 8]
    ensures { result ≡ sine_table }
{
    let f3 = 2.0 * 3.0;
    let f5 = f3 * 4.0 * 5.0;
    let f7 = f5 * 6.0 * 7.0;
    let f9 = f7 * 8.0 * 9.0;
    let f11 = f9 * 10.0 * 11.0;
    let f13 = f11 * 12.0 * 13.0;
    let f15 = f13 * 14.0 * 15.0;
    [
        -(1.0 / f15),
        1.0 / f13,
        -(1.0 / f11),
        1.0 / f9,
        -(1.0 / f7),
        1.0 / f5,
        -(1.0 / f3),
        1.0 / 1.0,
    ]
}

// 1/16! down to 1, likewise.
pub(crate) fn cosine_table() -> [f64; 9]
    ensures { result ≡ cosine_table }
{
    let f4 = 2.0 * 3.0 * 4.0;
    let f6 = f4 * 5.0 * 6.0;
    let f8 = f6 * 7.0 * 8.0;
    let f10 = f8 * 9.0 * 10.0;
    let f12 = f10 * 11.0 * 12.0;
    let f14 = f12 * 13.0 * 14.0;
    let f16 = f14 * 15.0 * 16.0;
    [
        1.0 / f16,
        -(1.0 / f14),
        1.0 / f12,
        -(1.0 / f10),
        1.0 / f8,
        -(1.0 / f6),
        1.0 / f4,
        -(1.0 / 2.0),
        1.0 / 1.0,
    ]
}

// 1/25, 1/23, .. 1/1, likewise.
fn arctan_table() -> [f64; 13]
    ensures { result ≡ arctan_table }
{
    [
        1.0 / 25.0,
        -(1.0 / 23.0),
        1.0 / 21.0,
        -(1.0 / 19.0),
        1.0 / 17.0,
        -(1.0 / 15.0),
        1.0 / 13.0,
        -(1.0 / 11.0),
        1.0 / 9.0,
        -(1.0 / 7.0),
        1.0 / 5.0,
        -(1.0 / 3.0),
        1.0 / 1.0,
    ]
}

// From the first coefficient on: times y, plus the next.
pub(crate) fn polynomial(t: &[f64], y: f64) -> f64
    requires { 0 < length t.now }
    ensures { result ≡ horner y t.now }
{
    let mut s = t[0];
    for c in &t[1..] {
        s = s * y + *c;
    }
    s
}

// The sine of x radians.
pub fn sine(x: f64) -> f64
    ensures { result ≡ sine_of x }
{
    let t = sine_table();
    polynomial(&t, x * x) * x
}

// The cosine of x radians.
pub fn cosine(x: f64) -> f64
    ensures { result ≡ cosine_of x }
{
    let t = cosine_table();
    polynomial(&t, x * x)
}

// The arctangent's series at y: of x * x it is the arctangent of x over x, of -(x * x) the artanh of x over x.
pub fn arctan_series(y: f64) -> f64
    ensures { result ≡ arctan_series_of y }
{
    let t = arctan_table();
    polynomial(&t, y)
}

// The arctangent of x in radians, for a small x: to 1.4e-16 where |x| is at most 0.29.
pub fn arctan_small(x: f64) -> f64
    ensures { result ≡ arctan_small_of x }
{
    arctan_series(x * x) * x
}
