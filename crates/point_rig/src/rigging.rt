// The five motors of the test.
ghost use Rattle.std.specs.Prelude.{◌≡◌};
ghost use Rattle.point_rig.specs.Rigging.{five_motors};

use factory::{Rig, rig};

// Legs 0 to 4 are models of travel 30, 40, 50, 10 and 121; leg 1 is crossed.
pub fn five_motors() -> Rig
    ensures { result ≡ five_motors }
{
    rig([30, 40, 50, 10, 121])
}
