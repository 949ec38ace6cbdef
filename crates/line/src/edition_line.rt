// E, year.
ghost use Rattle.std.specs.Prelude.{◌≡◌};
ghost use Rattle.line.specs.Answers.{form_told};
ghost use Rattle.line.specs.Forms.{edition_form};
ghost use Rattle.line.specs.Readers.{read_edition};
ghost use Rattle.line.specs.Reading.{Told, capped_z};

use crate::Fault;
use crate::field::letter;
use crate::form::{Fields, read_form};
use crate::number::number;

fn edition_fields(s: &[u8]) -> Fields<i64>
    ensures { Told s.now capped_z edition_form 0 result.record result.next }
{
    let at = letter(s, 0, b'E');
    let year = number(s, at);
    Fields {
        record: year.value,
        next: year.next,
    }
}

// An edition line: the year of the edition of the circular that a job is under; or malformed (LENGTH, LETTER, COUNT, PLAIN). The year is not examined: that is
// for whoever knows where the line may stand. It is carried up to 10^13 in size, and a larger one as 10^13.
pub fn read_edition(line: &[u8]) -> Result<i64, Fault>
    ensures { form_told result ≡ read_edition line.now }
{
    read_form(line, b'E', edition_fields)
}
