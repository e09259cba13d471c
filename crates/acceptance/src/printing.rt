// Lines for people to read.
use factory::{CROSSED_LEG, CROSSED_TRAVEL, all_off, end_name};
use legs::{End, Numbered, ReadRefusal};
use machine::{KNOWN_LEGS, Machine, combined_position};
use std::io;

pub fn print_heading(rt: &impl Print) -> io::Result<()> {
    println!(rt; "Factory test of a point with five motors")?;
    println!(rt; "Legs 0 to 4 are models of travel 3, 4 (crossed), 5, 1 and 6")?;
    println!(rt; "Each leg is shown as position/drive: L left, R right, N no end position, - off")?;
    println!(rt; "")?;
    println!(rt; "          leg 0  leg 1  leg 2  leg 3  leg 4  together")
}

pub fn print_word(rt: &impl Print, answer: Result<(), ReadRefusal>) -> io::Result<()> {
    print!(rt; "word {CROSSED_TRAVEL} for leg {CROSSED_LEG}: ")?;
    match answer {
        Ok(()) => println!(rt; "read"),
        Err(refusal) => println!(rt; "refused, {}", refusal.number()),
    }
}

pub fn print_command(rt: &impl Print, end: End) -> io::Result<()> {
    println!(rt; "")?;
    println!(rt; "Command: {}", end_name(end))
}

// What every leg shows and how it is driven, and what they show together.
fn print_legs<M: Machine>(rt: &impl Print, machine: &M) -> io::Result<()> {
    for leg in 0..KNOWN_LEGS {
        let shown = machine.show(leg);
        let driven = machine.driven(leg);
        print!(rt; "  {shown}/{driven}  ")?;
    }
    print!(rt; "  {}", combined_position(machine))
}

pub fn print_state<M: Machine>(rt: &impl Print, when: &str, machine: &M) -> io::Result<()> {
    print!(rt; "{when:<8}")?;
    print_legs(rt, machine)?;
    println!(rt; "")
}

// One tick: the legs after it, and those that it brought to their end.
pub fn print_tick<M: Machine>(
    rt: &impl Print,
    tick: u16,
    machine: &M,
    arrived: &[bool; 5],
) -> io::Result<()> {
    print!(rt; "tick {tick:<3}")?;
    print_legs(rt, machine)?;
    for (leg, is_there) in arrived.iter().enumerate() {
        if *is_there {
            print!(rt; "   leg {leg} arrived: off")?;
        }
    }
    println!(rt; "")
}

pub fn print_arrival(rt: &impl Print, end: End, tick: u16, limit: u16) -> io::Result<()> {
    println!(rt;
        "All legs at the {} end on tick {tick} of {limit}",
        end_name(end)
    )
}

pub fn print_timeout(rt: &impl Print, end: End, limit: u16) -> io::Result<()> {
    println!(rt;
        "Timeout: not all legs at the {} end after {limit} ticks; halted",
        end_name(end)
    )
}

pub fn print_reversal(rt: &impl Print, arrived: Option<u16>) -> io::Result<()> {
    match arrived {
        Some(tick) => println!(rt; "Too early: all legs there on tick {tick}, nothing to reverse"),
        None => println!(rt; "Still moving: reversed"),
    }
}

pub fn print_verdict<M: Machine>(
    rt: &impl Print,
    machine: &M,
    throws: [Option<u16>; 3],
) -> io::Result<()> {
    println!(rt; "")?;
    match throws {
        [Some(right), Some(left), Some(back)] if all_off(machine) => {
            println!(rt;
                "Passed: right in {right} ticks, left in {left}, left again in {back} after a reversal; every drive off"
            )
        }
        [Some(_), Some(_), Some(_)] => println!(rt; "Failed: a drive is on"),
        _ => println!(rt; "Failed: a throw timed out"),
    }
}
