// A line whose first letter its program does not know.
ghost use Rattle.std.specs.Prelude.{◌≡◌};
ghost use Rattle.line.specs.Answers.{fault_told};
ghost use Rattle.line.specs.Readers.{strange_fault};

use crate::Fault;
use crate::form::body;
use crate::second_look::found;
use refusal::Refusal;

// What is wrong with the form of a line that begins with no letter which its program reads: LENGTH, or LETTER at 0.
pub fn strange(line: &[u8]) -> Fault
    ensures { fault_told result ≡ strange_fault line.now }
{
    match body(line) {
        Ok(_) => found(Refusal::Letter, 0),
        Err(fault) => fault,
    }
}
