// Where fields begin and end. A reader is handed the line's bytes before its line feed and the place where its field begins, and tells
// the place where the next field begins: one past the length where there is none, and two past it where its own field is bad or missing.
// So a bad field makes every later one bad, and a line is read in one pass with a single test at its end.
// stays a place, and no Option: an Option would be tested after each of a good line's nine fields
ghost use Rattle.std.specs.Prelude.{◌≡◌, ◌+◌, ◌<◌, ◌≤◌, true, length};
ghost use Rattle.line.specs.Fields.{single, letter, body};
ghost use Rattle.line.specs.Reading.{Got, Framed, empty, itself, unit};

pub const TAB: u8 = 9;

pub const LINE_FEED: u8 = 10;

// A field of one byte.
#[derive(Clone, Copy)]
pub struct ByteField {
    pub byte: u8,
    pub next: usize,
}

// What a bad field tells as the place of the next.
pub fn nowhere(s: &[u8]) -> usize
    ensures { result ≡ length s.now + 2 }
{
    s.len() + 2
}

// Are there so many bytes from `at` on, of so many in all?
pub fn reaches(length: usize, at: usize, many: usize) -> bool
    ensures { result ≡ true → at + many ≤ length }
{
    many <= length && at <= length - many
}

// Where the next field begins, if this one ends at `at`.
pub fn closed(s: &[u8], at: usize) -> usize
    ensures { Got s.now itself empty at tt result }
{
    if at < s.len() {
        if s[at] == TAB {
            return at + 1;
        }
    } else {
        if at == s.len() {
            return at + 1;
        }
    }
    nowhere(s)
}

// The one byte of the field at `at`.
pub fn single(s: &[u8], at: usize) -> ByteField
    ensures { Got s.now itself single at result.byte result.next }
{
    if at < s.len() {
        if s[at] != TAB {
            return ByteField {
                byte: s[at],
                next: closed(s, at + 1),
            };
        }
    }
    ByteField {
        byte: 0,
        next: nowhere(s),
    }
}

// The field at `at` is this one letter.
pub fn letter(s: &[u8], at: usize, l: u8) -> usize
    ensures { Got s.now unit (letter l) at tt result }
{
    let c = single(s, at);
    if c.byte == l { c.next } else { nowhere(s) }
}

// The line's bytes before its line feed end here; the length of the line where it is too long or has none.
pub fn body_end(line: &[u8]) -> usize
    ensures { Framed line.now result (body line.now) }
{
    let n = line.len();
    if n == 0 {
        return n;
    }
    if 200 < n {
        return n;
    }
    let e = n - 1;
    if line[e] == LINE_FEED { e } else { n }
}
