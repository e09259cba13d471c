// Lines for people to read.
use crate::planned::is_as_planned;
use crate::words::Words;
use point_rig::Ending;
use records::{Entry, Message, Snapshot, Verdict};
use std::fmt::InlineText;
use std::io;

// The longest words for a call have 35 letters.
const ROOM: usize = 40;

pub fn print_heading(rt: &impl Print) -> io::Result<()> {
    println!(rt; "Factory test of a point with five motors")?;
    println!(rt; "Legs 0 to 4 are models of travel 30, 40 (crossed), 50, 10 and 121")?;
    println!(rt; "Each leg is shown as position/drive: L left, R right, N no end position, - off")?;
    println!(rt; "")?;
    println!(rt; "call                                 leg 0 to leg 4           all")
}

// What every leg shows and how it is driven, and what they show together.
fn print_legs(rt: &impl Print, legs: Snapshot) -> io::Result<()> {
    for leg in legs.legs() {
        match leg {
            Some(leg) => print!(rt; "  {}/{}", leg.shows, leg.driven)?,
            None => print!(rt; "     ")?,
        }
    }
    print!(rt; "  {}", legs.combined_position())
}

fn print_verdict(rt: &impl Print, verdict: Verdict) -> io::Result<()> {
    match verdict {
        Verdict::Plain => Ok(()),
        _ => print!(rt; "  {}", Words(verdict)),
    }
}

fn print_messages(rt: &impl Print, first: Message, second: Message) -> io::Result<()> {
    match (first, second) {
        (Message::Nothing, _) => Ok(()),
        (_, Message::Nothing) => print!(rt; "  told: {}", Words(first)),
        _ => print!(rt; "  told: {}, {}", Words(first), Words(second)),
    }
}

// One call: its number, the call, the legs after it, and what came of it.
pub fn print_entry(rt: &impl Print, number: usize, entry: Entry) -> io::Result<()> {
    let call = InlineText::<ROOM>::of(Words(entry.call));
    let (verdict, first, second) = entry.answer;
    print!(rt; "{number:>4}  {:<29}", call.as_str())?;
    print_legs(rt, entry.legs)?;
    print_verdict(rt, verdict)?;
    print_messages(rt, first, second)?;
    println!(rt; "")
}

pub fn print_ending(rt: &impl Print, number: usize, ending: Ending) -> io::Result<()> {
    let how = Words(ending.verdict);
    println!(rt; "Movement {number}: {how} on tick {} of 120", ending.ticks)
}

pub fn print_result(rt: &impl Print, endings: &[Ending]) -> io::Result<()> {
    if is_as_planned(endings) {
        println!(rt;
            "Passed: with time to spare, on the very last tick after a reversal, and one tick too late"
        )
    } else {
        println!(rt; "Failed: these movements should end otherwise")
    }
}
