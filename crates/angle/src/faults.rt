// What whole numbers alone decide: the faults of angles and of origins, by their ranges.
ghost use Rattle.std.specs.Prelude.{◌≡◌};
ghost use Rattle.refusal.specs.Refusals.{fault_number};
ghost use Rattle.angle.specs.Ranges.{origin_fault, angles_fault};

use crate::OriginNumbers;
use refusal::Refusal;

// Geodetic where the latitude or the longitude is out of its range.
pub fn angles_fault(latitude: i64, longitude: i64) -> Result<(), Refusal>
    ensures { fault_number result ≡ angles_fault latitude longitude }
{
    if !ranges::is_latitude(latitude) {
        return Err(Refusal::Geodetic);
    }
    if !ranges::is_longitude(longitude) {
        return Err(Refusal::Geodetic);
    }
    Ok(())
}

// Range where the code, the false easting or the false northing is out of its range, and then Geodetic for the angles.
pub fn origin_fault(o: OriginNumbers) -> Result<(), Refusal>
    ensures { fault_number result ≡ origin_fault o }
{
    if !ranges::is_ellipsoid(o.ellipsoid) {
        return Err(Refusal::Range);
    }
    if !ranges::is_offset(o.false_easting) {
        return Err(Refusal::Range);
    }
    if !ranges::is_offset(o.false_northing) {
        return Err(Refusal::Range);
    }
    angles_fault(o.latitude, o.longitude)
}
