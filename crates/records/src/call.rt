// What a point can be asked for.
ghost use Rattle.std.specs.Prelude.{◌≡◌, [], ◌∷◌, Some};
ghost use Rattle.records.specs.Calls.{call_letter, call_of};
ghost use Rattle.std.proofs.Common.{rules};

use legs::Lettered;
use std::fmt;

#[derive(Clone, Copy, PartialEq, Eq, Debug)]
pub enum CallKind {
    StartService,
    CheckVersion,
    ReportStatus,
    FinishReport,
    LoseConnection,
    MovePoint,
    Sense,
    Tick,
}

impl Lettered for CallKind {
    ghost letter_of = { call_letter };

    ghost told_apart = { Prim.search rules };

    fn letter(self) -> char {
        match self {
            CallKind::StartService => 'B',
            CallKind::CheckVersion => 'C',
            CallKind::ReportStatus => 'R',
            CallKind::FinishReport => 'F',
            CallKind::LoseConnection => 'L',
            CallKind::MovePoint => 'M',
            CallKind::Sense => 'S',
            CallKind::Tick => 'T',
        }
    }
}

impl fmt::Display for CallKind {
    ghost output = { λ x. Some (call_letter x ∷ []) };

    fn fmt<W: fmt::Write>(&self, f: &mut fmt::Formatter<W>) -> fmt::Result {
        f.write_char(self.letter())
    }
}

// A call with its two arguments. What they are for depends on the kind; one that a kind does not use is only recorded.
#[derive(Clone, Copy, PartialEq, Eq, Debug)]
pub struct Call {
    pub kind: CallKind,
    pub a: u16,
    pub b: u16,
}

impl Call {
    pub fn new(kind: CallKind, a: u16, b: u16) -> Call
        ensures { result ≡ call_of kind a b }
    {
        Call { kind, a, b }
    }
}
