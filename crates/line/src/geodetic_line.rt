// G, id, latitude, longitude.
ghost use Rattle.std.specs.Prelude.{◌≡◌};
ghost use Rattle.line.specs.Forms.{geodetic_form};
ghost use Rattle.line.specs.Answers.{line_told};
ghost use Rattle.line.specs.Readers.{read_geodetic};
ghost use Rattle.line.specs.Reading.{Told, capped_geodetic};

use crate::field::letter;
use crate::form::{Fields, read_form};
use crate::name::name;
use crate::number::counted::of_last_eleven;
use crate::number::number;
use crate::{Geodetic, Unread};

fn geodetic_fields(s: &[u8]) -> Fields<Geodetic>
    ensures { Told s.now capped_geodetic geodetic_form 0 result.record result.next }
{
    let at = letter(s, 0, b'G');
    let named = name(s, at);
    let id = named.id;
    let latitude = number(s, named.next);
    let longitude = of_last_eleven(s, latitude.next);
    Fields {
        record: Geodetic {
            id,
            latitude: latitude.value,
            longitude: longitude.value,
        },
        next: longitude.next,
    }
}

// A position line: its position; malformed (LENGTH, LETTER, COUNT, ID, PLAIN); or GEODETIC.
pub fn read_geodetic(line: &[u8]) -> Result<Geodetic, Unread>
    ensures { line_told result ≡ read_geodetic line.now }
{
    let g = read_form(line, b'G', geodetic_fields)?;
    angle::angles_fault(g.latitude, g.longitude)?;
    Ok(g)
}
