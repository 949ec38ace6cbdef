// A sheet in fragments, whose state the caller keeps as numbers and bytes.
ghost use Rattle.capi.specs.Fragments.{Streamed, Ended};

// The bytes of a fragment up to and with its first line feed, or all of them, and what the line prints that they end.
#[unsafe(no_mangle)]
pub extern "C" fn swivelcrane_feed(
    numbers: &mut [i64],
    bytes: &mut [u8],
    fragment: &[u8],
    out: &mut [u8],
    told: &mut [i64],
) -> i64
    ensures { Streamed fragment.now numbers.old numbers.new bytes.old bytes.new out.old out.new told.old told.new result }
{
    capi::fragments::swivelcrane_feed(numbers, bytes, fragment, out, told)
}

// The end of the sheet, and what a line prints that is left open.
#[unsafe(no_mangle)]
pub extern "C" fn swivelcrane_finish(numbers: &mut [i64], bytes: &mut [u8], out: &mut [u8]) -> i64
    ensures { Ended numbers.old numbers.new bytes.old bytes.new out.old out.new result }
{
    capi::fragments::swivelcrane_finish(numbers, bytes, out)
}
