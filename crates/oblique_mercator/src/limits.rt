// What whole numbers alone decide: the ranges of the parameters, and an angle used less a full turn.
ghost use Rattle.std.specs.Prelude.{◌≡◌};
ghost use Rattle.oblique_mercator.specs.Parameters.{past_turn, angle_range, reduced, parameters_range};

use crate::Parameters;
use ranges::within;

// Units of 0.00001": 300 to 330 degrees.
fn is_past_turn(z: i64) -> bool
    ensures { result ≡ past_turn z }
{
    within(108000000000, z, 118800000000)
}

// Units of 0.00001": 30 to 60 degrees, or 300 to 330.
fn is_angle(z: i64) -> bool
    ensures { result ≡ angle_range z }
{
    within(10800000000, z, 21600000000) | is_past_turn(z)
}

// An angle from 300 to 330 degrees less a full turn; any other number as it is.
pub(crate) fn reduced(z: i64) -> i64
    ensures { result ≡ reduced z }
{
    if is_past_turn(z) {
        return z - 129600000000;
    }
    z
}

// Whether all parameters are in their ranges.
pub(crate) fn in_range(p: Parameters) -> bool
    ensures { result ≡ parameters_range p }
{
    ranges::is_ellipsoid(p.ellipsoid)
        & within(360000000, p.latitude, 2880000000)
        & ranges::is_longitude(p.longitude)
        & is_angle(p.azimuth)
        & is_angle(p.rectified)
        & within(99000000000, p.scale, 101000000000)
        & ranges::is_offset(p.false_easting)
        & ranges::is_offset(p.false_northing)
}
