// What calls, verdicts and messages are called when people read them.
use factory::end_name;
use legs::{End, Numbered};
use records::{Call, CallKind, Message, Verdict};
use std::fmt;

#[derive(Drop)]
pub struct Words<T>(pub T);

impl fmt::Display for Words<Call> {
    fn fmt<W: fmt::Write>(&self, f: &mut fmt::Formatter<W>) -> fmt::Result {
        let Call { kind, a, b } = self.0;
        match kind {
            CallKind::StartService => write!(f, "service: limit {a}, profile {b}"),
            CallKind::CheckVersion => write!(f, "check of version {a}"),
            CallKind::ReportStatus => f.write_str("status report"),
            CallKind::FinishReport => f.write_str("end of the report"),
            CallKind::LoseConnection => f.write_str("connection lost"),
            CallKind::MovePoint => match End::try_from(a) {
                Ok(end) => write!(f, "order: {}", end_name(end)),
                Err(_none) => write!(f, "order: {a}"),
            },
            CallKind::Sense => write!(f, "word {b} for leg {a}"),
            CallKind::Tick => f.write_str("tick"),
        }
    }
}

impl fmt::Display for Words<Verdict> {
    fn fmt<W: fmt::Write>(&self, f: &mut fmt::Formatter<W>) -> fmt::Result {
        match self.0 {
            Verdict::Plain => Ok(()),
            Verdict::AlreadyThere => f.write_str("already there"),
            Verdict::Opened => f.write_str("movement opened"),
            Verdict::AlreadyMoving => f.write_str("already moving there"),
            Verdict::Reversed => f.write_str("movement reversed"),
            Verdict::Arrived => f.write_str("arrived"),
            Verdict::TimedOut => f.write_str("timed out"),
            Verdict::Refused(refusal) => write!(f, "refused, {}", refusal.number()),
        }
    }
}

impl fmt::Display for Words<Message> {
    fn fmt<W: fmt::Write>(&self, f: &mut fmt::Formatter<W>) -> fmt::Result {
        f.write_str(match self.0 {
            Message::Nothing => "",
            Message::VersionMatches => "version matches",
            Message::VersionDiffers => "version differs",
            Message::StartInitialisation => "initialisation begins",
            Message::InitialisationCompleted => "initialisation completed",
            Message::PositionLeft => "position left",
            Message::PositionRight => "position right",
            Message::PositionNoEnd => "no end position",
            Message::PositionTrailed => "trailed",
            Message::Timeout => "timeout",
        })
    }
}
