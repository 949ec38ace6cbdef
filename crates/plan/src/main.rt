// Reads a plan from standard input, to its end or to one byte past the longest that is read, and writes what it prints.
#![tactic(auto)]

ghost use Rattle.std.specs.Prelude.{◌≡◌, ◌≤◌, length};
ghost use Rattle.listing.specs.Fold.{short_input, room_for};
ghost use Rattle.plan_rules.specs.Plan.{plan_of};

use std::io;

// The sheet and the plan program stay two: each promises what its own definition prints.
// What the plan prints, whole, whatever the input: the very part of the room that is to be written.
fn answer<'a>(text: &[u8], printed: &'a mut [u8]) -> &'a mut [u8]
    requires { room_for (length text.now) ≤ length printed.old }
    ensures { result.now ≡ plan_of text.now }
{
    let past = plan_rules::plan(text, printed);
    &mut printed[..past]
}

// Writes what a short plan prints. The room is cleared first; the largest one would take longer than all the rest of an empty plan's run.
fn print_short(rt: &impl Print, text: &[u8]) -> io::Result<()>
    requires { length text.now ≤ short_input }
{
    let mut printed = listing::short_output_space();
    let whole = answer(text, &mut printed);
    rt.write_all(whole)
}

// Writes what any plan prints. It is compiled as a function of its own: as a part of `main` its room would be touched for every plan.
#[inline(never)]
fn print_any(rt: &impl Print, text: &[u8]) -> io::Result<()> {
    let mut printed = listing::output_space();
    let whole = answer(text, &mut printed);
    rt.write_all(whole)
}

fn main(rt: HostRuntime) -> io::Result<()> {
    let mut text = listing::input_space();
    let Some(held) = input::read_all(&mut rt.stdin(), &mut text) else {
        return Ok(());
    };
    if held <= listing::SHORT_INPUT {
        return print_short(&rt, &text[..held]);
    }
    if held <= listing::LONGEST_INPUT {
        print_any(&rt, &text[..held])
    } else {
        // one byte more than is read: all of it is held
        print_any(&rt, &text)
    }
}
