// Standard input, or any reader, read to its end.
#![tactic(auto)]

ghost use Rattle.std.specs.Prelude.{◌≡◌, ◌≤◌, IfOk, OnErr, Some, None, length};
ghost use Rattle.input.specs.Input.{after_read, Follows, Reads};

use std::io;
use std::io::Read;
use std::ops::ControlFlow;

// The decision after each read: to go on with this many bytes held, or what the whole reading answers. got: the bytes that the read gave, 0 at the end of the
// input, or None where it failed. held: bytes held before it. room: bytes that the buffer has.
fn after_read(room: usize, held: usize, got: Option<usize>) -> ControlFlow<Option<usize>, usize>
    ensures { result ≡ after_read room held got }
{
    let Some(bytes) = got else {
        return ControlFlow::Break(None);
    };
    if bytes == 0 {
        return ControlFlow::Break(Some(held));
    }
    if bytes < room.saturating_sub(held) {
        return ControlFlow::Continue(held + bytes);
    }
    ControlFlow::Break(Some(room))
}

// A read's answer: how many bytes it gave, or None where it failed.
fn got_of(answer: io::Result<usize>) -> Option<usize>
    ensures read { IfOk answer (λ n. result ≡ Some n) }
    ensures failed { OnErr answer (result ≡ None) }
{
    answer.ok()
}

// One read, into what is left of the buffer, and what follows from it.
fn one_read<R: Read>(
    reader: &mut R,
    buffer: &mut [u8],
    held: usize,
) -> ControlFlow<Option<usize>, usize>
    requires { held ≤ length buffer.old }
    ensures { Follows (length buffer.old) held result }
{
    let room = buffer.len();
    let got = got_of(reader.read(&mut buffer[held..]));
    after_read(room, held, got)
}

// Fills the buffer from a reader, as standard input is one, in fragments of whatever size a read gives, each read decided by `after_read`. Some: this many
// bytes stand at the start of the buffer, and the input ended there or the buffer is full. None: a read failed, and what was read before it is no input. What
// the bytes are no contract can say; they are never more than the buffer holds.
pub fn read_all<R: Read>(reader: &mut R, buffer: &mut [u8]) -> Option<usize>
    ensures { Reads (length buffer.new) 0 result }
{
    let mut held = 0;
    loop {
        match one_read(reader, buffer, held) {
            ControlFlow::Break(answer) => return answer,
            ControlFlow::Continue(bytes) => held = bytes,
        }
    }
}
