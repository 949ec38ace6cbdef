// East, north, up, or a single hyphen: a node of a velocity grid.
ghost use Rattle.std.specs.Prelude.{◌≡◌};
ghost use Rattle.line.specs.Answers.{form_told};
ghost use Rattle.line.specs.Forms.{node_form};
ghost use Rattle.line.specs.Readers.{hyphen_line, read_node};
ghost use Rattle.line.specs.Reading.{Told, capped_parts};

use crate::awaited::NODE;
use crate::field::LINE_FEED;
use crate::form::{Fields, read_form, three};
use crate::{Fault, VelocityParts};

fn node_fields(s: &[u8]) -> Fields<VelocityParts>
    ensures { Told s.now capped_parts node_form 0 result.record result.next }
{
    three(s, 0, |east, north, up| VelocityParts { east, north, up })
}

// Whether a line is a hyphen and its line feed.
fn hyphen_line(line: &[u8]) -> bool
    ensures { result ≡ hyphen_line line.now }
{
    if line.len() != 2 {
        return false;
    }
    (line[0] == b'-') & (line[1] == LINE_FEED)
}

// The line of a node of a velocity grid: its parts, carried as a header's numbers are; no value, which is a single hyphen; or malformed (LENGTH, COUNT, PLAIN).
pub fn read_node(line: &[u8]) -> Result<Option<VelocityParts>, Fault>
    ensures { form_told result ≡ read_node line.now }
{
    if hyphen_line(line) {
        return Ok(None);
    }
    let parts = read_form(line, NODE, node_fields)?;
    Ok(Some(parts))
}
