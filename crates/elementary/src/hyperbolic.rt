// Hyperbolic functions in f64: the series of sine, cosine and arctangent at -(x * x). They stand for the exponential and the logarithm:
// sinh and cosh are the halves of Q - 1/Q and Q + 1/Q for Q = e^x, artanh is half the logarithm of (1 + x) / (1 - x).
ghost use Rattle.std.specs.Prelude.{◌≡◌};
ghost use Rattle.elementary.specs.Hyperbolic.{sinh_of, cosh_of, artanh_small_of, artanh_of};

use crate::heron::root;
use crate::series::{arctan_series, cosine_table, polynomial, sine_table};

// The hyperbolic sine of x: to 1.4e-16 where |x| is at most 0.4.
pub fn sinh(x: f64) -> f64
    ensures { result ≡ sinh_of x }
{
    let t = sine_table();
    polynomial(&t, -(x * x)) * x
}

// The hyperbolic cosine of x: to 1.4e-16 where |x| is at most 0.4.
pub fn cosh(x: f64) -> f64
    ensures { result ≡ cosh_of x }
{
    let t = cosine_table();
    polynomial(&t, -(x * x))
}

// The artanh of x, for a small x: to 3.0e-17 where |x| is at most 0.141.
pub fn artanh_small(x: f64) -> f64
    ensures { result ≡ artanh_small_of x }
{
    arctan_series(-(x * x)) * x
}

// The artanh of x: to 1.3e-16 where |x| is at most 0.377.
pub fn artanh(x: f64) -> f64
    ensures { result ≡ artanh_of x }
{
    2.0 * artanh_small(x / (1.0 + root(1.0 - x * x)))
}
