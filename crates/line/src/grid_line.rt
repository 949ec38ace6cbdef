// G, latitude, longitude, rows, columns, mesh: the header of a velocity grid.
ghost use Rattle.std.specs.Prelude.{◌≡◌};
ghost use Rattle.line.specs.Answers.{form_told};
ghost use Rattle.line.specs.Forms.{grid_form};
ghost use Rattle.line.specs.Readers.{read_grid_header};
ghost use Rattle.line.specs.Reading.{Told, capped_header};

use crate::awaited::GRID;
use crate::form::{Fields, five, read_form};
use crate::{Fault, GridHeader};

fn header_fields(s: &[u8]) -> Fields<GridHeader>
    ensures { Told s.now capped_header grid_form 0 result.record result.next }
{
    five(s, b'G', |latitude, longitude, rows, columns, mesh| {
        GridHeader {
            latitude,
            longitude,
            rows,
            columns,
            mesh,
        }
    })
}

// The header line of a velocity grid: its numbers; or malformed (LENGTH, LETTER, COUNT, PLAIN). The numbers are not examined, and are carried up to 10^13
// in size, a larger one as 10^13: their ranges are for the grid.
pub fn read_grid_header(line: &[u8]) -> Result<GridHeader, Fault>
    ensures { form_told result ≡ read_grid_header line.now }
{
    read_form(line, GRID, header_fields)
}
