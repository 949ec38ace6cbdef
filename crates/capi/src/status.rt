// What a call returns, and what it writes.
ghost use Rattle.std.specs.Prelude.{◌≡◌, pos, neg_ℤ, length};
ghost use Rattle.refusal.specs.Refusals.{number};
ghost use Rattle.capi.specs.Outcome.{Returns, gives};

use refusal::Refusal;

// A refusal as a call returns it.
pub(crate) fn status(refusal: Refusal) -> i64
    ensures { result ≡ pos (number refusal) }
{
    i64::from(refusal.number())
}

// Minus its number, as a call returns it that else answers with a length or a count.
pub(crate) fn minus(refusal: Refusal) -> i64
    ensures { result ≡ neg_ℤ (pos (number refusal)) }
{
    -i64::from(refusal.number())
}

// Writes the numbers that a call gives, which are all of its array.
pub(crate) fn give<T: Copy>(numbers: &[T], out: &mut [T]) -> i64
    requires { length out.old ≡ length numbers.now }
    ensures { Returns (gives numbers.now) out.old out.new result }
{
    out.copy_from_slice(numbers);
    0
}
