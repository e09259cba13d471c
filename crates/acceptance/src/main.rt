// The factory test of a point with five motors, with a line for all that happens.
#![tactic(auto)]

mod printing;
mod throwing;

use factory::{five_motors, put_over};
use legs::End;
use printing::{print_heading, print_reversal, print_state, print_verdict, print_word};
use std::io;
use throwing::{move_for, throw};

fn main(rt: HostRuntime) -> io::Result<()> {
    let mut rig = five_motors();
    print_heading(&rt)?;
    print_state(&rt, "rigged", &rig)?;
    print_word(&rt, put_over(&mut rig))?;
    print_state(&rt, "ready", &rig)?;
    let right = throw(&rt, &mut rig, End::Right, 12)?;
    let left = throw(&rt, &mut rig, End::Left, 6)?;
    // The hard case: an order against a moving point, and the last leg there on the last tick.
    let away = move_for(&rt, &mut rig, End::Right, 3)?;
    print_reversal(&rt, away)?;
    let back = throw(&rt, &mut rig, End::Left, 3)?;
    print_verdict(&rt, &rig, [right, left, back])
}
