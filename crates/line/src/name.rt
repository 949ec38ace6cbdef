// A point's name: 1 to 16 of A-Z, 0-9 and hyphen, held as two words.
ghost use Rattle.std.specs.Prelude.{◌≡◌};
ghost use Rattle.line.specs.Name.{is_name_byte, name_of};
ghost use Rattle.line.specs.Reading.{Got, Packed, itself};

use crate::field::{closed, nowhere};
use crate::number::wide;

// The bytes of a name, each as the bit at its own place, less 64 from there on.
const NAME_BYTES: u64 = 287984085681307646;

// A name, and where the next field begins.
#[derive(Clone, Copy)]
pub struct Named {
    pub id: chain::Id,
    pub next: usize,
}

// Up to eight bytes of a name, the first highest, and the place past them.
#[derive(Clone, Copy)]
struct Word {
    value: u64,
    end: usize,
}

// By one bit for each byte from the hyphen to Z: fewer tests than by the three kinds of byte.
fn is_name_byte(b: u8) -> bool
    ensures { result ≡ is_name_byte b }
{
    if b < 45 {
        return false;
    }
    if 90 < b {
        return false;
    }
    (NAME_BYTES >> (b % 64)) % 2 == 1
}

// The bytes of a name from `at` on, at most eight.
fn eight(s: &[u8], at: usize) -> Word
    ensures { Packed s.now at result.value result.end }
{
    let mut value: u64 = 0;
    let mut scale: u64 = 72057594037927936;
    let mut i = at;
    for _ in 0..8u64 {
        if s.len() <= i {
            break;
        }
        let b = s[i];
        if !is_name_byte(b) {
            break;
        }
        value += wide(b) * scale;
        scale /= 256;
        i += 1;
    }
    Word { value, end: i }
}

// The name in the field at `at`.
pub fn name(s: &[u8], at: usize) -> Named
    ensures { Got s.now itself name_of at result.id result.next }
{
    let first = eight(s, at);
    let second = eight(s, first.end);
    let end = second.end;
    let next = if end == at {
        nowhere(s)
    } else {
        closed(s, end)
    };
    Named {
        id: chain::Id {
            high: first.value,
            low: second.value,
        },
        next,
    }
}
