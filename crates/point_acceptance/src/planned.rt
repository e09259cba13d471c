// How the movements of the test have to end.
ghost use Rattle.std.specs.Prelude.{◌≡◌};
ghost use Rattle.point_acceptance.specs.Planned.{as_planned};

use point_rig::Ending;
use records::Verdict;

const WITH_TIME_TO_SPARE: Ending = Ending {
    verdict: Verdict::Arrived,
    ticks: 60,
};

const ON_THE_LAST_TICK: Ending = Ending {
    verdict: Verdict::Arrived,
    ticks: 120,
};

const ONE_TICK_TOO_LATE: Ending = Ending {
    verdict: Verdict::TimedOut,
    ticks: 120,
};

pub fn is_as_planned(endings: &[Ending]) -> bool
    ensures { result ≡ as_planned endings.now }
{
    endings == [WITH_TIME_TO_SPARE, ON_THE_LAST_TICK, ONE_TICK_TOO_LATE].as_slice()
}
