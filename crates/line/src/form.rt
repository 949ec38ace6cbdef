// A line by its form: its fields are read first, and only where they are not what the form has is it asked what is wrong.
ghost use Rattle.std.specs.Prelude.{◌≡◌, ℕ, List};
ghost use Rattle.std.proofs.Math.Option.{Option};
ghost use Rattle.line.specs.Answers.{form_told};
ghost use Rattle.line.specs.Fields.{body};
ghost use Rattle.line.specs.Forms.{three_form, five_form};
ghost use Rattle.line.specs.Malformed.{end_of, fault_of};
ghost use Rattle.line.specs.Reading.{Bodied, Told, Tail, TellsFields, WrongUnsaid, MakesThree, CarriesThree, MakesFive, CarriesFive, in_line, form_as};
ghost use Rattle.line.specs.SecondLook.{shape_of};

use crate::Fault;
use crate::field::{body_end, letter};
use crate::number::number;
use crate::second_look::{end_of, fault_of, found};
use refusal::Refusal;

// A record as the fields of a line say it, with numbers up to the cap, and where the field after them would begin.
#[derive(Clone, Copy)]
pub struct Fields<T> {
    pub record: T,
    pub next: usize,
}

// The line's bytes before its line feed; LENGTH where it is too long or has none.
pub fn body(line: &[u8]) -> Result<&[u8], Fault>
    ensures { Bodied (body line.now) (end_of line.now) result }
{
    let end = body_end(line);
    if end < line.len() {
        Ok(&line[..end])
    } else {
        let last = end_of(line);
        Err(found(Refusal::Length, last))
    }
}

// The record of a line with this mark, whose fields are read so; or what is wrong with the line.
pub fn read_form<T: Copy, F: Fn(&[u8]) -> Fields<T>>(
    line: &[u8],
    mark: u8,
    fields: F,
) -> Result<T, Fault>
    requires { F.IsAlwaysCallable fields }
    ensures { (says : List ℕ → Option T) → TellsFields (F.post fields) says → WrongUnsaid says line.now (fault_of (shape_of mark) line.now)
        → form_told result ≡ form_as (fault_of (shape_of mark) line.now) (in_line says (body line.now)) }
{
    let s = body(line)?;
    let r = fields(s);
    if r.next != s.len() + 1 {
        // As a new slice, as where `read_placed` (point_line.rt) says why.
        fault_of(&line[..line.len()], mark)?;
    }
    Ok(r.record)
}

// Three numbers in a row from `at` on, and the record that they make.
pub fn three<T: Copy, F: Fn(i64, i64, i64) -> T>(s: &[u8], at: usize, make: F) -> Fields<T>
    requires { F.IsAlwaysCallable make }
    ensures { (image : T → T) (of : _) → MakesThree (F.post make) of → CarriesThree image of → Tail s.now image (three_form of) at result.record result.next }
{
    let first = number(s, at);
    let second = number(s, first.next);
    let third = number(s, second.next);
    Fields {
        record: make(first.value, second.value, third.value),
        next: third.next,
    }
}

// The letter that a line begins with, then five numbers, and the record that they make.
pub fn five<T: Copy, F: Fn(i64, i64, i64, i64, i64) -> T>(s: &[u8], l: u8, make: F) -> Fields<T>
    requires { F.IsAlwaysCallable make }
    ensures { (image : T → T) (of : _) → MakesFive (F.post make) of → CarriesFive image of → Told s.now image (five_form l of) 0 result.record result.next }
{
    let at = letter(s, 0, l);
    let v = number(s, at);
    let w = number(s, v.next);
    let x = number(s, w.next);
    let y = number(s, x.next);
    let z = number(s, y.next);
    Fields {
        record: make(v.value, w.value, x.value, y.value, z.value),
        next: z.next,
    }
}
