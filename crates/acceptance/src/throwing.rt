// One throw: all legs driven to an end, each switched off as it arrives, until all are there or the time is over.
ghost use Rattle.factory.specs.Throwing.{Moved, Thrown};
ghost use Rattle.std.specs.Prelude.{IfOk};

use crate::printing::{print_arrival, print_command, print_state, print_tick, print_timeout};
use factory::switch_off_arrived;
use legs::{End, Position};
use machine::{Machine, combined_position};
use std::io;

// Drives all legs to an end and lets at most so many ticks pass. Answers on which one all were there.
pub fn move_for<M: Machine>(
    rt: &impl Print,
    machine: &mut M,
    end: End,
    ticks: u16,
) -> io::Result<Option<u16>>
    ensures { IfOk result (λ o. Moved ticks end o (M.meaning machine.new)) }
{
    machine.drive(end);
    print_command(rt, end)?;
    print_state(rt, "driven", machine)?;
    for tick in 1..=ticks {
        machine.pass();
        let arrived = switch_off_arrived(machine);
        print_tick(rt, tick, machine, &arrived)?;
        if combined_position(machine) == Position::from(end) {
            return Ok(Some(tick));
        }
    }
    Ok(None)
}

// The same, and a halt where the time is over.
pub fn throw<M: Machine>(
    rt: &impl Print,
    machine: &mut M,
    end: End,
    limit: u16,
) -> io::Result<Option<u16>>
    ensures { IfOk result (λ o. Thrown limit end o (M.meaning machine.new)) }
{
    let Some(tick) = move_for(rt, machine, end, limit)? else {
        machine.halt();
        print_timeout(rt, end, limit)?;
        return Ok(None);
    };
    print_arrival(rt, end, tick, limit)?;
    Ok(Some(tick))
}
