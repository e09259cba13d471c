// The calls of the test, in order.
ghost use Rattle.std.specs.Prelude.{◌≡◌, IfOk};
ghost use Rattle.point_rig.specs.Calling.{test_list};

use records::{Call, CallKind};
use std::alloc::{AllocError, Global};
use std::iter;

// The limit of every movement in the test: 12 seconds.
const LIMIT: u16 = 120;

const LEFT: u16 = 1;

const RIGHT: u16 = 2;

// A call with its two arguments, and how many times in a row it is made.
type Stretch = (CallKind, u16, u16, u16);

const PLAN: [Stretch; 18] = [
    // Service and connection. A new model stands at its left end, which is the right end of a crossed leg: leg 1 is put over.
    (CallKind::StartService, LIMIT, 1, 1),
    (CallKind::CheckVersion, 3, 0, 1),
    (CallKind::ReportStatus, 0, 0, 1),
    (CallKind::FinishReport, 0, 0, 1),
    (CallKind::Sense, 1, 40, 1),
    // Time to spare: leg 4 stands half-way, and has 60 places to go.
    (CallKind::Sense, 4, 61, 1),
    (CallKind::MovePoint, RIGHT, 0, 1),
    (CallKind::Tick, 0, 0, 60),
    // The hard case: leg 4 is at place 120 when the order is reversed, and is there on the very last tick.
    (CallKind::Sense, 4, 119, 1),
    (CallKind::MovePoint, RIGHT, 0, 1),
    (CallKind::Tick, 0, 0, 1),
    (CallKind::MovePoint, LEFT, 0, 1),
    (CallKind::Tick, 0, 0, LIMIT),
    // The same one tick later: leg 4 has one place more to go, and the time is over.
    (CallKind::Sense, 4, 119, 1),
    (CallKind::MovePoint, RIGHT, 0, 1),
    (CallKind::Tick, 0, 0, 2),
    (CallKind::MovePoint, LEFT, 0, 1),
    (CallKind::Tick, 0, 0, LIMIT),
];

// All calls of the test.
pub fn test_calls(heap: Global) -> Result<Vec<Call>, AllocError>
    ensures { IfOk result (λ v. v.items ≡ test_list) }
{
    let mut calls = Vec::new(heap);
    for (kind, a, b, times) in PLAN {
        calls.extend(iter::repeat_n(Call::new(kind, a, b), usize::from(times)))?;
    }
    Ok(calls)
}
