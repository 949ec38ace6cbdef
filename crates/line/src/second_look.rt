// A second look at a line that its reader has found bad: what is wrong with it, and at which byte. Good lines never come here.
ghost use Rattle.std.specs.Prelude.{◌≡◌, ◌+◌, ◌≤◌, length, ◌==◌, nat_le};
ghost use Rattle.refusal.specs.Numbers as numbers;
ghost use Rattle.refusal.specs.Refusals as refusals;
ghost use Rattle.line.specs.Answers.{fault_told, form_fault_told};
ghost use Rattle.line.specs.Fields.{fields};
ghost use Rattle.line.specs.Reading.{from};
ghost use Rattle.line.specs.Malformed.{kind_of, end_of, fault, fields_fault, fault_of};
ghost use Rattle.line.specs.SecondLook.{classes_of, class_of, first_fault, Passed, Looked, shape_of};

use crate::Fault;
use crate::awaited::{Awaited, class_at, count_of};
use crate::field::{LINE_FEED, TAB, body_end, single};
use crate::name::name;
use crate::number::number;
use crate::second_look::letters::letter_place;
use refusal::Refusal;

mod letters;

// Where the first field begins that is wrong as an id, and as a number.
#[derive(Clone, Copy)]
struct Seen {
    id: Option<usize>,
    plain: Option<usize>,
}

// Where the field after the one at `at` begins.
pub(crate) fn after(s: &[u8], at: usize) -> usize
    requires { at ≤ length s.now }
    ensures { Passed s.now at result }
{
    for i in at..s.len() {
        if s[i] == TAB {
            return i + 1;
        }
    }
    s.len() + 1
}

// The kind of a step: its second field, 0 where that is not one byte.
// stays a byte: the classes go by any byte, and no kind is 0
fn kind_of(s: &[u8]) -> u8
    ensures { result ≡ kind_of (fields s.now) }
{
    let c = single(s, after(s, 0));
    if is_read(s, c.next) { c.byte } else { 0 }
}

// The kind by which the classes of the line's fields go. Only a step has one, and no other line is asked for it.
fn kind_in(s: &[u8], mark: u8) -> u8
    ensures { classes_of mark result ≡ shape_of mark (fields s.now) }
{
    if mark == b'S' { kind_of(s) } else { 0 }
}

// How many tabs there are: one fewer than fields. Every byte is asked and none ends the loop, and the count is a byte as they are: so the compiler
// compares and adds many of them side by side.
fn tabs(s: &[u8]) -> u8
    requires { length s.now ≤ 200 }
    ensures { result + 1 ≡ length (fields s.now) }
{
    let mut count: u8 = 0;
    for b in s {
        if *b == TAB {
            count += 1;
        }
    }
    count
}

// Has the field's reader told a place for the next one?
pub(crate) fn is_read(s: &[u8], next: usize) -> bool
    ensures { result ≡ nat_le next (length s.now + 1) }
{
    next <= s.len() + 1
}

// Is the field at `at` to be an id, and none?
fn is_bad_id(s: &[u8], at: usize, awaited: Awaited) -> bool
    requires { at ≤ length s.now }
    ensures { result ≡ (first_fault (class_of awaited) (from s.now at) == numbers.id) }
{
    match awaited {
        Awaited::Identifier => !is_read(s, name(s, at).next),
        _ => false,
    }
}

// Is it to be a number, and none?
// stays beside `is_bad_id`: each asks the reader of its own class; one over a closure is no shorter
fn is_bad_number(s: &[u8], at: usize, awaited: Awaited) -> bool
    requires { at ≤ length s.now }
    ensures { result ≡ (first_fault (class_of awaited) (from s.now at) == numbers.plain) }
{
    match awaited {
        Awaited::Number => !is_read(s, number(s, at).next),
        _ => false,
    }
}

// Every field, once, for ids and numbers.
fn look(s: &[u8], first: u8, kind: u8) -> Seen
    ensures { Looked s.now (classes_of first kind) result.id result.plain }
{
    let mut id = None;
    let mut plain = None;
    let mut count: usize = 0;
    let mut at: usize = 0;
    // stays a while: a turn goes on to the next field, wherever `after` finds it
    while at <= s.len() {
        let awaited = class_at(first, kind, count);
        id = id.or(is_bad_id(s, at, awaited).then_some(at));
        plain = plain.or(is_bad_number(s, at, awaited).then_some(at));
        at = after(s, at);
        count += 1;
    }
    Seen { id, plain }
}

// A refusal and its place, which is within a line.
pub(crate) fn found(refusal: Refusal, place: usize) -> Fault
    requires { place ≤ 200 }
    ensures { fault_told result ≡ fault (refusals.number refusal) place }
{
    Fault {
        refusal,
        place: place as u8,
    }
}

// Whether there are as many fields as a line of this mark, and of a step of this kind, is to have.
fn has_count(s: &[u8], mark: u8, kind: u8) -> bool
    requires { length s.now ≤ 200 }
    ensures { result ≡ (length (fields s.now) == length (classes_of mark kind)) }
{
    let parted = tabs(s) as usize;
    parted + 1 == count_of(mark, kind)
}

// The same before a line is read, where nearly every bad one is cut short: no number of such a line need be read.
pub(crate) fn is_counted(s: &[u8], mark: u8) -> bool
    requires { length s.now ≤ 200 }
    ensures { result ≡ (length (fields s.now) == length (shape_of mark (fields s.now))) }
{
    has_count(s, mark, kind_in(s, mark))
}

// The fields of a line that ends at `end`: LETTER, COUNT, ID, PLAIN, or 0. Most bad lines have a wrong letter or a wrong count, which take little to see:
// ids and numbers are read only where both are right.
fn fields_fault(s: &[u8], first: u8, end: usize) -> Result<(), Fault>
    requires s_len_bound { length s.now ≤ 200 }
    requires end_bound { end ≤ 200 }
    ensures { form_fault_told result ≡ fields_fault (shape_of first (fields s.now)) end (fields s.now) }
{
    let kind = kind_in(s, first);
    if let Some(place) = letter_place(s, first, kind) {
        return Err(found(Refusal::Letter, place));
    }
    if !has_count(s, first, kind) {
        return Err(found(Refusal::Count, end));
    }
    let seen = look(s, first, kind);
    if let Some(place) = seen.id {
        return Err(found(Refusal::Id, place));
    }
    if let Some(place) = seen.plain {
        return Err(found(Refusal::Plain, place));
    }
    Ok(())
}

// The line's length without the line feed at its end, at most 200.
pub fn end_of(line: &[u8]) -> usize
    ensures { result ≡ end_of line.now }
{
    let n = line.len();
    if n == 0 {
        return 0;
    }
    if 200 < n {
        return 200;
    }
    let e = n - 1;
    if line[e] == LINE_FEED { e } else { n }
}

// A line that the reader of lines with this mark (P, S, O, G, E, or that of a velocity grid's header or node) has found bad: LENGTH, LETTER, COUNT, ID, PLAIN, and the place.
pub fn fault_of(line: &[u8], first: u8) -> Result<(), Fault>
    ensures { form_fault_told result ≡ fault_of (shape_of first) line.now }
{
    let last = end_of(line);
    let end = body_end(line);
    if end < line.len() {
        let s = &line[..end];
        return fields_fault(s, first, last);
    }
    Err(found(Refusal::Length, last))
}
