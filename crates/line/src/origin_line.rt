// O, ellipsoid, latitude, longitude, FE, FN.
ghost use Rattle.std.specs.Prelude.{◌≡◌};
ghost use Rattle.line.specs.Forms.{origin_form};
ghost use Rattle.line.specs.Answers.{line_told};
ghost use Rattle.line.specs.Readers.{read_origin};
ghost use Rattle.line.specs.Reading.{Told, capped_origin};

use crate::Unread;
use crate::form::{Fields, five, read_form};

fn origin_fields(s: &[u8]) -> Fields<angle::OriginNumbers>
    ensures { Told s.now capped_origin origin_form 0 result.record result.next }
{
    five(
        s,
        b'O',
        |ellipsoid, latitude, longitude, false_easting, false_northing| angle::OriginNumbers {
            ellipsoid,
            latitude,
            longitude,
            false_easting,
            false_northing,
        },
    )
}

// An origin line: its numbers; malformed (LENGTH, LETTER, COUNT, PLAIN); or RANGE, GEODETIC.
pub fn read_origin(line: &[u8]) -> Result<angle::OriginNumbers, Unread>
    ensures { line_told result ≡ read_origin line.now }
{
    let origin = read_form(line, b'O', origin_fields)?;
    angle::origin_fault(origin)?;
    Ok(origin)
}
