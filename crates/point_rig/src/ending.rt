// How the movements of a run ended.
ghost use Rattle.std.specs.Prelude.{◌≡◌, ◌+◌, ◌^◌, ◌<◌, IfOk};
ghost use Rattle.point_rig.specs.Ending.{endings_of};
ghost use Rattle.histories.specs.OneEntry.{closes, ticks_by};

use records::{CallKind, Entry, Verdict};
use std::alloc::{AllocError, Global};

// Arrived or timed out, so many ticks after it was opened or last reversed.
#[derive(Clone, Copy, PartialEq, Eq, Debug)]
pub struct Ending {
    pub verdict: Verdict,
    pub ticks: u64,
}

fn is_over(verdict: Verdict) -> bool
    ensures { result ≡ closes verdict }
{
    matches!(verdict, Verdict::Arrived | Verdict::TimedOut)
}

// The ticks of a movement after a call, if there were so many before it.
fn ticks_after(kind: CallKind, verdict: Verdict, ticks: u64) -> u64
    requires { ticks + 1 < 2 ^ 64 }
    ensures { result ≡ ticks_by kind verdict ticks }
{
    match verdict {
        Verdict::Opened | Verdict::Reversed => 0,
        _ if kind == CallKind::Tick => ticks + 1,
        _ => ticks,
    }
}

// The end of every movement, in order.
pub fn endings(heap: Global, entries: &[Entry]) -> Result<Vec<Ending>, AllocError>
    ensures { IfOk result (λ v. v.items ≡ endings_of entries.now) }
{
    let mut endings = Vec::new(heap);
    let mut ticks = 0;
    for entry in entries {
        let (verdict, _, _) = entry.answer;
        ticks = ticks_after(entry.call.kind, verdict, ticks);
        if is_over(verdict) {
            endings.push(Ending { verdict, ticks })?;
        }
    }
    Ok(endings)
}
