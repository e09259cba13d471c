// The factory test of a point with five motors, with a line for every call.
#![tactic(auto)]

mod planned;
mod printing;
mod words;

use anyhow::anyhow;
use point_rig::{endings, five_motors, test_calls};
use printing::{print_ending, print_entry, print_heading, print_result};
use runs::run_new;

fn main(rt: HostRuntime) -> anyhow::Result<()> {
    let heap = rt.alloc();
    let calls = test_calls(heap)?;
    let ran = run_new(heap, five_motors(), &calls).map_err(|_none| anyhow!(
        "no memory for the records"
    ))?;
    print_heading(&rt)?;
    for (number, entry) in ran.entries.iter().enumerate() {
        print_entry(&rt, number, *entry)?;
    }
    let endings = endings(heap, &ran.entries)?;
    println!(rt; "")?;
    for (number, ending) in endings.iter().enumerate() {
        print_ending(&rt, number + 1, *ending)?;
    }
    print_result(&rt, &endings)?;
    Ok(())
}
