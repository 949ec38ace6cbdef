// A day's points in one call: rows of numbers, seven to a point and eight to an answer.
ghost use Rattle.capi.specs.Outcome.{Returns};
ghost use Rattle.capi.specs.PointRow.{row_call};

// Each point of a row by one chain of a profile, 2009 or 2021, along it (direction 0) or back (1). Each answer is that of `swivelcrane_forward` or
// `swivelcrane_inverse` for its point, the number first; answers past the points stay. The call gives 0, or the number of what it is refused for as a whole, with
// nothing written: WRONG_LENGTH; ROW for fewer answers than points; RANGE for another direction; then the chain's own.
#[unsafe(no_mangle)]
pub extern "C" fn swivelcrane_row(
    profile: i64,
    chain: &[i64],
    direction: i64,
    points: &[i64],
    answers: &mut [i64],
) -> i64
    ensures { Returns (row_call profile chain.now direction points.now answers.old) answers.old answers.new result }
{
    capi::row::swivelcrane_row(profile, chain, direction, points, answers)
}
