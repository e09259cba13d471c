// What tells left from right: positions, drives and ends.
ghost use Rattle.std.specs.Prelude.{◌≡◌};

pub trait Sided {
    // The same with left and right exchanged.
    ghost opposite_of: { Self → Self };

    // What stands in place of this in a crossed machine.
    fn opposite(self) -> Self
        ensures { result ≡ opposite_of self };

    // Crossed twice is as mounted.
    ghost undone: { (x : Self) → opposite_of (opposite_of x) ≡ x };
}
