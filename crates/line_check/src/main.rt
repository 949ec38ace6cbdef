// Readers of lines over tables of good and damaged lines, each with its expected answer: the file stdout beside this folder, worked out by
// hand from document 01. An accepted line prints what was read of it, a refused one its number.
#![tactic(auto)]

mod show;
mod tables;

use crate::show::{edition, geodetic, later, origin, point, step};
use std::io;

// Shows what is answered of each line of a table, or of each pair of lines.
fn each<R: Print, T: Copy, F: Fn(&R, T) -> io::Result<()>>(
    rt: &R,
    lines: &[T],
    show: F,
) -> io::Result<()>
    requires { F.IsAlwaysCallable show }
{
    for line in lines {
        show(rt, *line)?;
    }
    Ok(())
}

fn main(rt: HostRuntime) -> io::Result<()> {
    each(&rt, &tables::GOOD_POINTS, point)?;
    each(&rt, &tables::POINTS_OF_BAD_FORM, point)?;
    each(&rt, &tables::POINTS_WITH_WRONG_FIELDS, point)?;
    each(&rt, &tables::POINTS_OUT_OF_RANGE, point)?;
    each(&rt, &tables::GOOD_STEPS, step)?;
    each(&rt, &tables::STEPS_OF_BAD_FORM, step)?;
    each(&rt, &tables::STEPS_OUT_OF_RANGE, step)?;
    each(&rt, &tables::ORIGINS, origin)?;
    each(&rt, &tables::POSITIONS, geodetic)?;
    each(&rt, &tables::LATER_OF_TWO, later)?;
    each(&rt, &tables::LATER_OF_REFUSED, later)?;
    each(&rt, &tables::NUMBERS, point)?;
    each(&rt, &tables::NAMES, geodetic)?;
    each(&rt, &tables::STEPS_OF_MANY_FAULTS, step)?;
    each(&rt, &tables::POINTS_OF_MANY_FAULTS, point)?;
    each(&rt, &tables::ORIGINS_OF_MANY_FAULTS, origin)?;
    each(&rt, &tables::POSITIONS_OF_MANY_FAULTS, geodetic)?;
    each(&rt, &tables::ORDERS, point)?;
    each(&rt, &tables::LATER_OF_ORDERS, later)?;
    each(&rt, &tables::EDITIONS, edition)
}
