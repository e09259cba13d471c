// What the legs of a machine show together.
ghost use Rattle.std.specs.Prelude.{◌≡◌, ◌≤◌, length};
ghost use Rattle.legs.specs.Combined.{combined};
ghost use Rattle.machine.specs.Legs.{positions};
ghost use Rattle.machine.specs.LegNumbers.{known_legs, known_part};

use crate::interface::{KNOWN_LEGS, Machine};
use legs::Position;

// The position that legs 0 to 4 make together; for a machine of at most five legs that is all of them.
pub fn combined_position<M: Machine>(machine: &M) -> Position
    ensures known { result ≡ combined (positions (known_part (M.meaning machine.now))) }
    ensures whole { length (M.meaning machine.now) ≤ known_legs → result ≡ combined (positions (M.meaning machine.now)) }
{
    (1..machine.count().min(KNOWN_LEGS))
        .map(|leg| machine.show(leg))
        .fold(machine.show(0), Position::join)
}
