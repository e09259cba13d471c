// What has a letter: positions, drives, ends, calls and verdicts.
ghost use Rattle.std.specs.Prelude.{◌≡◌, ℕ};

pub trait Lettered {
    // The letter, as its character code.
    ghost letter_of: { Self → ℕ };

    // The letter that stands for this in every output.
    fn letter(self) -> char
        ensures { result ≡ letter_of self };

    // No two have the same letter.
    ghost told_apart: { (x y : Self) → letter_of x ≡ letter_of y → x ≡ y };
}
