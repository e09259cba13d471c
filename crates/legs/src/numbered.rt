// What is known by a number: refusals and messages.
ghost use Rattle.std.specs.Prelude.{◌≡◌, ℕ};

pub trait Numbered {
    ghost number_of: { Self → ℕ };

    // The number by which this is known.
    fn number(self) -> u8
        ensures { result ≡ number_of self };

    // No two have the same number.
    ghost told_apart: { (x y : Self) → number_of x ≡ number_of y → x ≡ y };
}
