// A program that answers its input line by line: how long an input may be, and how much room its text asks for.
#![tactic(auto)]

ghost use Rattle.std.specs.Prelude.{◌+◌, ◌≡◌};
ghost use Rattle.listing.specs.Fold.{longest_input, short_input, room_for, cleared};

// The longest input that is read, in bytes. Of a longer one nothing is read.
pub const LONGEST_INPUT: usize = 65536;

// A short input, in bytes: the programs answer it in a room of its own, since a room is cleared before it is used and the largest one takes longer than the
// answer.
pub const SHORT_INPUT: usize = 4096;

// Room for the longest input and one byte more, by which a longer one shows.
const INPUT_ROOM: usize = LONGEST_INPUT + 1;

// Room for what any input prints, and for what a short one does.
const OUTPUT_ROOM: usize = 13 * LONGEST_INPUT + 9;

const SHORT_OUTPUT_ROOM: usize = 13 * SHORT_INPUT + 9;

// The room that an input of n bytes asks for, in bytes: a line prints at most 13 for each of its own.
pub fn room_for(n: usize) -> usize
    ensures { result ≡ room_for n }
{
    13 * n.min(LONGEST_INPUT) + 9
}

// The three rooms are functions of their own, and no one function with a const parameter: which size is meant is what each of them promises.
// Room for the longest input that is read and one byte more, by which a longer one shows: zeros.
pub fn input_space() -> [u8; INPUT_ROOM]
    ensures { result ≡ cleared (longest_input + 1) }
{
    [0; INPUT_ROOM]
}

// Room for what any input prints: zeros.
pub fn output_space() -> [u8; OUTPUT_ROOM]
    ensures { result ≡ cleared (room_for longest_input) }
{
    [0; OUTPUT_ROOM]
}

// Room for what a short input prints: zeros.
pub fn short_output_space() -> [u8; SHORT_OUTPUT_ROOM]
    ensures { result ≡ cleared (room_for short_input) }
{
    [0; SHORT_OUTPUT_ROOM]
}
