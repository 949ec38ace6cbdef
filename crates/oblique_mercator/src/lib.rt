// RSO: the Hotine oblique Mercator, variant A, in f64, from latitude and longitude to easting and northing and back. Latitudes and longitudes
// are whole units of 0.00001", eastings and northings metres, false eastings and northings whole millimetres. A projection is made once from
// its parameters and serves many points. Every call answers for every i64 and every f64, NaN and infinities among them. The order of
// operations is docs/ORDERS.md's.
#![tactic(auto)]

ghost use Rattle.std.specs.Prelude.{◌≡◌, true};
ghost use Rattle.ranges.specs.Ranges.{longitude_range};

mod from_plane;
mod limits;
mod making;
mod to_plane;

pub use from_plane::{reverse, reverse_from};
pub use making::make_projection;
pub use to_plane::{forward, forward_from};

// The parameters as they are written: the ellipsoid's code (1 to 4), the centre's latitude (1 to 8 degrees) and longitude (99 to 120 degrees),
// the azimuth and the rectified angle (each 30 to 60 degrees, or 300 to 330 and then used less a full turn), the scale in 10^-11 (0.99 to
// 1.01), the false easting and northing.
#[derive(Clone, Copy)]
pub struct Parameters {
    pub ellipsoid: i64,
    pub latitude: i64,
    pub longitude: i64,
    pub azimuth: i64,
    pub rectified: i64,
    pub scale: i64,
    pub false_easting: i64,
    pub false_northing: i64,
}

// A projection made ready for many points. The centre's longitude stays whole. b, ln_h: B and ln H; sin_natural, cos_natural: of the angle at
// the natural origin; omega: the centre's longitude less the natural origin's, in radians; sin_rectified, cos_rectified: of the rectified
// angle; r, rho: A/B in metres, and B/A; the false origin in metres; k2 to k8: the coefficients of the latitude's series.
#[derive(Clone, Copy)]
pub struct Projection {
    pub centre: i64,
    pub e2: f64,
    pub b: f64,
    pub ln_h: f64,
    pub sin_natural: f64,
    pub cos_natural: f64,
    pub omega: f64,
    pub sin_rectified: f64,
    pub cos_rectified: f64,
    pub r: f64,
    pub rho: f64,
    pub false_easting: f64,
    pub false_northing: f64,
    pub k2: f64,
    pub k4: f64,
    pub k6: f64,
    pub k8: f64,
}

// Latitude and longitude in whole units of 0.00001".
#[derive(Clone, Copy)]
pub struct Place {
    pub latitude: i64,
    pub longitude: i64,
}

// A longitude in its range.
#[derive(Clone, Copy)]
struct Longitude {
    units: i64,
    ghost in_range: { longitude_range units ≡ true },
}
