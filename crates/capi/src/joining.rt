// Two chains made one.
ghost use Rattle.std.specs.Prelude.{◌≡◌, ◌+◌, ◌≤◌, length, true};
ghost use Rattle.std.proofs.lemmas.List.Edits.{sets};
ghost use Rattle.capi.specs.Joining.{room_for_eight, join_call, Counted};

use crate::NO_ROOM;
use crate::status::minus;
use chain::chain_from;

// Whether both chains have whole steps, and the output room for eight.
fn are_sized(first: usize, second: usize, out: usize) -> bool
    ensures { result ≡ room_for_eight first second out }
{
    (first % 13 == 0) & (second % 13 == 0) & (out == 104)
}

// All of a row into another, from an index on.
pub(crate) fn copy(from: &[i64], out: &mut [i64], at: usize)
    requires { at + length from.now ≤ length out.old }
    ensures { out.new ≡ sets out.old at from.now }
{
    // stays number by number: a copy of the whole would have the archive for C ask for memmove
    for i in 0..from.len() {
        out[at + i] = from[i];
    }
}

// Two chains joined where the rows are sized. Never inlined: a call that is refused for its lengths would clear the room for two chains.
#[inline(never)]
fn join_sized(
    first_profile: i64,
    first: &[i64],
    second_profile: i64,
    second: &[i64],
    out: &mut [i64],
) -> i64
    requires { room_for_eight (length first.now) (length second.now) (length out.old) ≡ true }
    ensures { Counted (join_call first_profile first.now second_profile second.now out.old) out.old out.new result }
{
    let joined = chain::join(
        chain_from(first_profile, first),
        chain_from(second_profile, second),
    );
    if let Err(refusal) = joined {
        return minus(refusal);
    }
    copy(first, out, 0);
    copy(second, out, first.len());
    (first.len() + second.len()) as i64
}

// The steps of the first chain and then of the second, at the start of `out`. The answer is the count of their numbers, or minus the refusal, or NO_ROOM.
pub fn swivelcrane_join(
    first_profile: i64,
    first: &[i64],
    second_profile: i64,
    second: &[i64],
    out: &mut [i64],
) -> i64
    ensures { Counted (join_call first_profile first.now second_profile second.now out.old) out.old out.new result }
{
    if !are_sized(first.len(), second.len(), out.len()) {
        return NO_ROOM;
    }
    join_sized(first_profile, first, second_profile, second, out)
}
