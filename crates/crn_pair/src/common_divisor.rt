//! The greatest common divisor, by Euclid's algorithm.
ghost use Rattle.std.specs.Prelude.{◌≤◌};
ghost use Rattle.std.specs.Int.{IsGcd};

// Returns the greatest common divisor of two words.
fn of_words(a: u64, b: u64) -> u64
    ensures { IsGcd a b result }
{
    let mut x = a;
    let mut y = b;
    while y != 0 {
        let rest = x % y;
        x = y;
        y = rest;
    }
    x
}

/// Returns that of a large number and a word: after one remainder all numbers are words.
pub(crate) fn greatest_common_divisor(a: u128, b: u64) -> u64
    requires { 1 ≤ b }
    ensures { IsGcd a b result }
{
    of_words(b, (a % u128::from(b)) as u64)
}
