// Where the lines of an input end: sixteen bytes are passed at a time, then one.
ghost use Rattle.std.specs.Prelude.{◌≡◌, ◌+◌, ◌≤◌, false, length};
ghost use Rattle.line.specs.Lines.{line_end, Clear, Onward};

use crate::field::LINE_FEED;

// Is there a line feed among four bytes? All are read and compared, with `|` and not `||`: no branch, so the compiler compares them side by side.
fn among_four(input: &[u8], at: usize) -> bool
    requires { at + 4 ≤ length input.now }
    ensures { result ≡ false → Clear 4 input.now at }
{
    let a = input[at];
    let b = input[at + 1];
    let c = input[at + 2];
    let d = input[at + 3];
    (a == LINE_FEED) | (b == LINE_FEED) | (c == LINE_FEED) | (d == LINE_FEED)
}

fn among_sixteen(input: &[u8], at: usize) -> bool
    requires { at + 16 ≤ length input.now }
    ensures { result ≡ false → Clear 16 input.now at }
{
    among_four(input, at)
        | among_four(input, at + 4)
        | among_four(input, at + 8)
        | among_four(input, at + 12)
}

// A place in the line that begins at `from`, with its line feed, or the input's end, less than sixteen bytes on.
// stays a while: it goes on by sixteen until one of three tests ends it
fn past_sixteens(input: &[u8], from: usize) -> usize
    ensures { Onward input.now from result }
{
    let mut place = from;
    while place < input.len() && 16 <= input.len() - place && !among_sixteen(input, place) {
        place += 16;
    }
    place
}

// Where the line that goes on at `from` ends, a byte at a time.
fn end_near(input: &[u8], from: usize) -> usize
    ensures { result ≡ line_end input.now from }
{
    for place in from..input.len() {
        if input[place] == LINE_FEED {
            return place + 1;
        }
    }
    from.max(input.len())
}

// The same where sixteen bytes are left: their number is fixed, so the compiler sets the sixteen tests in a row, with no test of the input's end between them.
fn end_in_sixteen(input: &[u8], from: usize) -> usize
    requires { from + 16 ≤ length input.now }
    ensures { result ≡ line_end input.now from }
{
    for clear in 0..16 {
        if input[from + clear] == LINE_FEED {
            return from + clear + 1;
        }
    }
    end_near(input, from + 16)
}

// Where the line that begins at `from` ends: past its line feed, or at the end of the input. At or past the end of the input it is `from` itself.
pub fn line_end(input: &[u8], from: usize) -> usize
    ensures { result ≡ line_end input.now from }
{
    let near = past_sixteens(input, from);
    if near < input.len() && 16 <= input.len() - near {
        return end_in_sixteen(input, near);
    }
    end_near(input, near)
}
