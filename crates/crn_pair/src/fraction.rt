//! Fractions in lowest terms.
ghost use Rattle.std.specs.Prelude.{◌≡◌, ◌≤◌, pos, ◌*ℤ◌, unsigned_abs};
ghost use Prim.Native.Nat.{◌∣◌};
ghost use Rattle.crn_pair.specs.LowestTerms.{AreInLowestTerms};

use crate::common_divisor::greatest_common_divisor;

/// A fraction in lowest terms. Its type keeps that `den` is at least 1 and that no number but 1 divides
/// both `num` and `den`, so two equal fractions have equal fields, and zero is 0/1.
#[derive(Clone, Copy, Debug, PartialEq, Eq)]
pub struct Fraction {
    /// The numerator, which has the sign.
    pub num: i128,
    /// The denominator, at least 1.
    pub den: u64,
    pub ghost some: { 1 ≤ den },
    pub ghost lowest: { AreInLowestTerms num den },
}

impl Fraction {
    /// Returns the fraction `num / den` in lowest terms, for every `num`. Allocates nothing.
    ///
    /// # Asks
    ///
    /// `den` is 1 or more.
    pub fn new(num: i128, den: u64) -> Fraction
        requires { 1 ≤ den }
        ensures { (result.num *ℤ pos den) ≡ (num *ℤ pos result.den) }
    {
        let divisor = greatest_common_divisor(num.unsigned_abs(), den);
        Fraction {
            num: quotient(num, divisor),
            den: den / divisor,
        }
    }
}

// Returns a number over one that divides it.
fn quotient(num: i128, divisor: u64) -> i128
    requires some { 1 ≤ divisor }
    requires divides { divisor ∣ unsigned_abs num }
    ensures { (result *ℤ pos divisor) ≡ num }
{
    num / i128::from(divisor)
}
