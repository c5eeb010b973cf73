//! Laws of the definitions that contracts cite. They compute nothing.

ghost use Rattle.std.specs.Prelude.{◌≡◌, ◌↔◌, ℕ, ℤ, ◌≤◌, List, None};
ghost use Rattle.crn_pair.specs.Pairs.{IsQuotient};
ghost use Rattle.crn_pair.specs.Refused.{least_costs_fault, AreComparable};
ghost use Rattle.crn_pair.specs.declared.fraction.Fraction.{Fraction};

/// States that a quotient has just one fraction: two that are num / den have the same terms. So a contract that says of
/// which quotient a fraction is leaves nothing open.
#[tactic(auto, using(crate::proofs::Unique::same_num, crate::proofs::Unique::same_den))]
pub fn one_fraction()
    ensures num { (num : ℤ) (den : ℕ) (f g : Fraction) → 1 ≤ den → IsQuotient num den f → IsQuotient num den g → f.num ≡ g.num }
    ensures den { (num : ℤ) (den : ℕ) (f g : Fraction) → 1 ≤ den → IsQuotient num den f → IsQuotient num den g → f.den ≡ g.den }
{}

/// States that two lists of costs have no fault exactly if they can be compared: they are equally long, of 1 to
/// `REPLICATION_LIMIT` entries, and no entry is over `COST_LIMIT`.
pub fn without_fault()
    ensures { (a b : List ℕ) → least_costs_fault a b ≡ None ↔ AreComparable a b }
{}
