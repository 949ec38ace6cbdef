// Two chains made one.
ghost use Rattle.capi.specs.Joining.{join_call, Counted};

// The steps of the first chain and then of the second, at the start of `out`. The answer is the count of their numbers, or minus the refusal, or NO_ROOM.
#[unsafe(no_mangle)]
pub extern "C" fn swivelcrane_join(
    first_profile: i64,
    first: &[i64],
    second_profile: i64,
    second: &[i64],
    out: &mut [i64],
) -> i64
    ensures { Counted (join_call first_profile first.now second_profile second.now out.old) out.old out.new result }
{
    capi::joining::swivelcrane_join(first_profile, first, second_profile, second, out)
}
