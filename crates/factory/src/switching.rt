// Which legs are switched off after a tick.
ghost use Rattle.std.specs.Prelude.{◌≡◌, ◌↔◌, IsTrue};
ghost use Rattle.factory.specs.Switching.{AllOff, arrivals, arrived_at, off_if_arrived, off_below};

use legs::Drive;
use machine::{KNOWN_LEGS, Machine};

// Switches a leg off if it is where it is driven, and answers whether it was.
fn switch_off_if_arrived<M: Machine>(machine: &mut M, leg: u16) -> bool
    ensures answer { result ≡ arrived_at (M.meaning machine.old) leg }
    ensures legs { M.meaning machine.new ≡ off_if_arrived leg (M.meaning machine.old) }
{
    let arrived = machine.driven(leg).has_reached(machine.show(leg));
    if arrived {
        machine.switch_off(leg);
    }
    arrived
}

// Switches off the legs that have arrived, and answers which.
pub fn switch_off_arrived<M: Machine>(machine: &mut M) -> [bool; 5]
    ensures answer { result ≡ arrivals (M.meaning machine.old) }
    ensures legs { M.meaning machine.new ≡ off_below 5 (M.meaning machine.old) }
{
    [
        switch_off_if_arrived(machine, 0),
        switch_off_if_arrived(machine, 1),
        switch_off_if_arrived(machine, 2),
        switch_off_if_arrived(machine, 3),
        switch_off_if_arrived(machine, 4),
    ]
}

// Whether legs 0 to 4 are off.
pub fn all_off<M: Machine>(machine: &M) -> bool
    ensures { IsTrue result ↔ AllOff (M.meaning machine.now) }
{
    (0..KNOWN_LEGS).all(|leg| machine.driven(leg) == Drive::Off)
}
