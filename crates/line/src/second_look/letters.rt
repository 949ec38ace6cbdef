// The letters of a bad line, which come before everything else: a line's own first letter, a step's kind, and the convention of a Bursa-Wolf step.
// Only the fields of letters are read, and those up to them are passed.
ghost use Rattle.std.specs.Prelude.{◌≡◌, ◌==◌, length, nat_le};
ghost use Rattle.std.specs.Bool.{then_some};
ghost use Rattle.refusal.specs.Numbers.{letter};
ghost use Rattle.refusal.specs.Order.{pick};
ghost use Rattle.line.specs.Bytes.{letter_g};
ghost use Rattle.line.specs.SecondLook.{step_rest, classes_of, grid_mark, FirstWrong, Skipped};

use crate::awaited::{GRID, NODE};
use crate::field::letter;
use crate::second_look::{after, is_read};
use crate::step_line::{convention_letter, kind_letter};

// Where the field begins that comes so many numbers after the place `at`: past the end where there are fewer.
fn skip(s: &[u8], at: usize, many: usize) -> usize
    ensures { Skipped s.now many at result }
{
    let mut i = at;
    for _ in 0..many {
        if s.len() < i {
            return i;
        }
        i = after(s, i);
    }
    i
}

// A field that begins at this place; none where the line has ended.
fn here(s: &[u8], at: usize) -> Option<usize>
    ensures { result ≡ then_some (nat_le at (length s.now)) at }
{
    (at <= s.len()).then_some(at)
}

// Of a step's fields after its first letter, which begin at `at`.
fn step_letter(s: &[u8], kind: u8, at: usize) -> Option<usize>
    ensures { FirstWrong letter s.now at (step_rest kind) result }
{
    let c = kind_letter(s, at);
    if !is_read(s, c.next) {
        return here(s, at);
    }
    if kind != b'B' {
        return None;
    }
    let seventh = skip(s, c.next, 4);
    let d = convention_letter(s, seventh);
    if is_read(s, d.next) {
        None
    } else {
        here(s, seventh)
    }
}

// The letter that a line of this mark begins with, where it begins with one.
fn initial(mark: u8) -> u8
    ensures { result ≡ pick (mark == grid_mark) letter_g mark }
{
    if mark == GRID { b'G' } else { mark }
}

// Of a whole line.
// stays a row of ifs: a line without a letter, one of one letter and a step ask for different things
pub fn letter_place(s: &[u8], mark: u8, kind: u8) -> Option<usize>
    ensures { FirstWrong letter s.now 0 (classes_of mark kind) result }
{
    if mark == NODE {
        return None;
    }
    let l = initial(mark);
    let next = letter(s, 0, l);
    if !is_read(s, next) {
        return Some(0);
    }
    if mark == b'S' {
        step_letter(s, kind, next)
    } else {
        None
    }
}
