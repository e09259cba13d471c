// The start of service.
ghost use Rattle.std.specs.Prelude.{◌≡◌};
ghost use Rattle.rules.specs.Decisions.{decided};
ghost use Rattle.rules.specs.Starting.{start};

use crate::decision::{Command, Decision};
use records::{Refusal, Verdict, silent};
use state::{Service, State};

// For a point that is out of service, with the arguments of the call.
pub fn start(state: State, a: u16, b: u16, too_many_legs: bool) -> Result<Decision, Refusal>
    ensures { decided state result ≡ start state a b too_many_legs }
{
    if too_many_legs {
        return Err(Refusal::TooManyLegs);
    }
    let service = Service::asked(a, b).ok_or(Refusal::UnusableSettings)?;
    let started = State {
        service: Some(service),
        ..state
    };
    Ok(Decision::answered(started, silent(Verdict::Plain), Some(Command::HaltAll)))
}
