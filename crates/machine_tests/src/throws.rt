// A throw by the interface alone.
ghost use Rattle.factory.specs.Throwing.{Moved};

use legs::{End, Position};
use machine::{Machine, combined_position};

// Drives all legs to an end, and answers on which tick they are all there, if they are after so many.
pub fn ticks_to<M: Machine>(machine: &mut M, end: End, limit: u16) -> Option<u16>
    ensures { Moved limit end result (M.meaning machine.new) }
{
    machine.drive(end);
    for tick in 1..=limit {
        machine.pass();
        if combined_position(machine) == Position::from(end) {
            return Some(tick);
        }
    }
    None
}
