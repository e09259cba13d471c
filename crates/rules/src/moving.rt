// An order to move.
ghost use Rattle.std.specs.Prelude.{◌≡◌};
ghost use Rattle.rules.specs.Decisions.{decided};
ghost use Rattle.rules.specs.Moving.{already_there, move_to, order, set_off};

use crate::decision::{Command, Decision};
use legs::{End, Position};
use records::{Message, Refusal, Verdict, silent};
use state::{Movement, State};

// An order, where the legs together show this.
pub fn order(state: State, a: u16, together: Position) -> Result<Decision, Refusal>
    ensures { decided state result ≡ order state a together }
{
    if !state.is_up() {
        return Err(Refusal::WrongConnection);
    }
    let end = End::try_from(a)?;
    Ok(move_to(state, end, together))
}

fn move_to(state: State, end: End, together: Position) -> Decision
    ensures { result ≡ move_to state state.movement end together }
{
    match state.movement {
        None if together == Position::from(end) => already_there(state, together),
        None => set_off(state, Verdict::Opened, end),
        // A repeated order restarts neither the clock nor a leg.
        Some(movement) if movement.end == end => {
            Decision::answered(state, silent(Verdict::AlreadyMoving), None)
        }
        Some(_) => set_off(state, Verdict::Reversed, end),
    }
}

// Told even if it is no news: the interlocking waits for it.
fn already_there(state: State, position: Position) -> Decision
    ensures { result ≡ already_there state position }
{
    let told = State {
        told: Some(position),
        ..state
    };
    let answer = (
        Verdict::AlreadyThere,
        Message::from(position),
        Message::Nothing,
    );
    Decision::answered(told, answer, None)
}

// All legs are driven, and the clock starts.
fn set_off(state: State, verdict: Verdict, end: End) -> Decision
    ensures { result ≡ set_off state verdict end }
{
    let movement = Some(Movement { end, elapsed: 0 });
    let moving = State { movement, ..state };
    Decision::answered(moving, silent(verdict), Some(Command::DriveTo(end)))
}
