// What comes out of a decision: the state after it, the answer, and what is done to the machine.
ghost use Rattle.std.specs.Prelude.{◌≡◌, Option};
ghost use Rattle.rules.specs.Decisions.{answered, refused};

use crate::switches::Switches;
use legs::End;
use records::{Answer, Refusal, Verdict, silent};
use state::State;

// What is done to all legs at once.
#[derive(Clone, Copy)]
pub enum Command {
    DriveTo(End),
    HaltAll,
}

// First the legs to switch off, then what is done to all of them, if anything is.
#[derive(Clone, Copy)]
pub struct Commands {
    pub off: Switches,
    pub then: Option<Command>,
}

#[derive(Clone, Copy)]
pub struct Decision {
    pub state: State,
    pub answer: Answer,
    pub commands: Commands,
}

impl Decision {
    // Nothing changes and nothing is said but the refusal.
    pub fn refused(refusal: Refusal, state: State) -> Decision
        ensures { result ≡ refused refusal state }
    {
        Decision::answered(state, silent(Verdict::Refused(refusal)), None)
    }

    // No leg is switched off by itself.
    pub fn answered(state: State, answer: Answer, then: Option<Command>) -> Decision
        ensures { result ≡ answered state answer then }
    {
        let off = Switches::none();
        Decision {
            state,
            answer,
            commands: Commands { off, then },
        }
    }
}
