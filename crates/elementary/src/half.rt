// Inverse functions in f64, by the half of their result.
ghost use Rattle.std.specs.Prelude.{◌≡◌};
ghost use Rattle.elementary.specs.Half.{arctangent_of, arcsine_of};

use crate::heron::root;
use crate::series::arctan_small;

// The arctangent of x in radians: to 3e-16 where |x| is at most 0.62.
pub fn arctangent(x: f64) -> f64
    ensures { result ≡ arctangent_of x }
{
    2.0 * arctan_small(x / (1.0 + root(1.0 + x * x)))
}

// The arcsine of x in radians: to 5e-17 where |x| is at most 0.234.
pub fn arcsine(x: f64) -> f64
    ensures { result ≡ arcsine_of x }
{
    2.0 * arctan_small(x / (1.0 + root(1.0 - x * x)))
}
