// Between the four nodes of a cell: the bilinear rule, in whole numbers.
ghost use Rattle.std.specs.Prelude.{◌≡◌};
ghost use Rattle.velocity_grid.specs.Bilinear.{blend, bilinear, BlendOk, CellOk};

use crate::Corners;
use rounding::quotient::round_div_away;

// a·(m - x) + b·x: m times what stands x of the way m from a to b.
fn blend(m: i64, x: i64, a: i64, b: i64) -> i64
    requires { BlendOk m x a b }
    ensures { result ≡ blend m x a b }
{
    a * (m - x) + b * x
}

// The value x east and y north of a cell's south-west node, on a mesh of m: one fraction over m·m, rounded once, a half away from zero. With nodes within
// 2,500 and a mesh of 10 minutes its numerator reaches 9·10^18, which fits.
pub(crate) fn bilinear(m: i64, x: i64, y: i64, c: Corners) -> i64
    requires { CellOk m x y c }
    ensures { result ≡ bilinear m x y c }
{
    let south = blend(m, x, c.south_west, c.south_east);
    let north = blend(m, x, c.north_west, c.north_east);
    round_div_away(blend(m, y, south, north), m * m)
}
