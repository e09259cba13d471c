// The connection to the interlocking, step by step.
ghost use Rattle.std.specs.Prelude.{◌≡◌};
ghost use Rattle.rules.specs.Connecting.{connect, connected, telling};
ghost use Rattle.rules.specs.Decisions.{decided};

use crate::decision::Decision;
use legs::Position;
use records::{Message, Refusal, Verdict};
use state::{Connection, State};

// The version of the protocol that this point speaks.
const VERSION: u16 = 3;

// A step of making or losing the connection.
#[derive(Clone, Copy)]
pub enum Step {
    // with the version of the other side
    Check(u16),
    Report,
    Finish,
    Lost,
}

// A step in a state of the connection, where the legs are at this position as it is reported.
pub fn connect(state: State, step: Step, position: Position) -> Result<Decision, Refusal>
    ensures { decided state result ≡ connect state step position }
{
    let decision = match (state.connection, step) {
        (Connection::Down, Step::Check(VERSION)) => {
            connected(state, Connection::Checked, Message::VersionMatches)
        }
        (Connection::Down, Step::Check(_)) => {
            connected(state, Connection::Down, Message::VersionDiffers)
        }
        (Connection::Checked, Step::Report) => {
            telling(
                state,
                Connection::Reporting,
                Message::StartInitialisation,
                position,
            )
        }
        // The legs may have moved since the report: then the position is told once more.
        (Connection::Reporting, Step::Finish) if state.is_news(position) => {
            telling(
                state,
                Connection::Up,
                Message::InitialisationCompleted,
                position,
            )
        }
        (Connection::Reporting, Step::Finish) => {
            connected(state, Connection::Up, Message::InitialisationCompleted)
        }
        (_, Step::Lost) => connected(state, Connection::Down, Message::Nothing),
        _ => return Err(Refusal::WrongConnection),
    };
    Ok(decision)
}

// The connection is now like this.
fn connected(state: State, connection: Connection, message: Message) -> Decision
    ensures { result ≡ connected state connection message }
{
    let state = State {
        connection,
        ..state
    };
    let answer = (Verdict::Plain, message, Message::Nothing);
    Decision::answered(state, answer, None)
}

// The same, and the position is told.
fn telling(state: State, connection: Connection, message: Message, position: Position) -> Decision
    ensures { result ≡ telling state connection message position }
{
    let told = Some(position);
    let state = State {
        connection,
        told,
        ..state
    };
    let answer = (Verdict::Plain, message, Message::from(position));
    Decision::answered(state, answer, None)
}
