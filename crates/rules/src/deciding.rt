// What a point reads first on a call, and what it decides then.
ghost use Rattle.std.specs.Prelude.{◌≡◌};
ghost use Rattle.rules.specs.Decisions.{IfRefused, decided};
ghost use Rattle.rules.specs.Deciding.{decide, decide_in, decide_out, reading_for, sensed};

use crate::connecting::{Step, connect};
use crate::decision::Decision;
use crate::judging::judge;
use crate::moving::order;
use crate::starting::start;
use legs::ReadRefusal;
use records::{Call, CallKind, Refusal, Snapshot};
use state::{Service, State};

// What a call has the machine read before it is decided.
#[derive(Clone, Copy)]
pub enum Reading {
    Pass,
    // a word, for the leg with this number
    Word(u16, u16),
}

// Most calls have nothing read. Out of service the machine is left alone.
pub fn reads_first(state: State, call: Call) -> Option<Reading>
    ensures { result ≡ reading_for state call }
{
    state.service?;
    match call.kind {
        CallKind::Sense => Some(Reading::Word(call.a, call.b)),
        CallKind::Tick => Some(Reading::Pass),
        _ => None,
    }
}

// The decision on a call: `read` is what the machine answered to what was read first, `legs` are its legs after that.
pub fn decide(state: State, call: Call, read: Result<(), ReadRefusal>, legs: Snapshot) -> Decision
    ensures value { result ≡ decide call state read legs }
    ensures refusal { IfRefused state result }
{
    let decided = match state.service {
        None => decide_out(state, call, legs),
        Some(service) => decide_in(state, service, call, read, legs),
    };
    decided.unwrap_or_else(|refusal| Decision::refused(refusal, state))
}

// Out of service, only its start is taken.
fn decide_out(state: State, call: Call, legs: Snapshot) -> Result<Decision, Refusal>
    ensures { decided state result ≡ decide_out call state legs }
{
    match call.kind {
        CallKind::StartService => start(state, call.a, call.b, legs.more),
        _ => Err(Refusal::OutOfService),
    }
}

fn decide_in(
    state: State,
    service: Service,
    call: Call,
    read: Result<(), ReadRefusal>,
    legs: Snapshot,
) -> Result<Decision, Refusal>
    ensures { decided state result ≡ decide_in call.kind service call state read legs }
{
    let together = legs.combined_position();
    let position = service.profile.reported(together);
    match call.kind {
        CallKind::StartService => Err(Refusal::AlreadyInService),
        CallKind::CheckVersion => connect(state, Step::Check(call.a), position),
        CallKind::ReportStatus => connect(state, Step::Report, position),
        CallKind::FinishReport => connect(state, Step::Finish, position),
        CallKind::LoseConnection => connect(state, Step::Lost, position),
        CallKind::MovePoint => order(state, call.a, together),
        CallKind::Sense => sensed(state, service, read, legs),
        CallKind::Tick => Ok(judge(state, service, true, legs)),
    }
}

// A word that was not taken is not judged.
fn sensed(
    state: State,
    service: Service,
    read: Result<(), ReadRefusal>,
    legs: Snapshot,
) -> Result<Decision, Refusal>
    ensures { decided state result ≡ sensed read service state legs }
{
    read?;
    Ok(judge(state, service, false, legs))
}
