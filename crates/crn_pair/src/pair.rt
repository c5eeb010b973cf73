//! Two policies' costs as a pair, and the sums that it is made of.

// A `ghost use` of definitions that name these structs stands in an `impl`: a struct imports each `ghost use` at the head
// of its file, so there it would be a circle.

ghost use Rattle.std.specs.Prelude.{◌≡◌, ◌≤◌, ◌+ℤ◌, ◌-ℤ◌, ◌*ℤ◌, ◌-◌, pos, unsigned_abs};
ghost use Rattle.crn_pair.specs.declared.compare.TheConstants.{COST_LIMIT};
ghost use Rattle.crn_limits.specs.declared.TheConstants.{REPLICATION_LIMIT};

use crate::compare::least_fault;
use crate::fault::PairFault;
use crate::fraction::Fraction;

/// The costs of two policies compared replication by replication. Under common random numbers each
/// replication has met both policies with the same demands, lead times and returned items, so that
/// its two costs belong together.
///
/// Source: Law, "Simulation Modeling and Analysis", chapters 10 (paired comparison) and 11 (common
/// random numbers).
#[derive(Clone, Copy, Debug, PartialEq, Eq)]
pub struct Pair {
    replications: u64,
    // The sum of the differences.
    difference: i128,
    // The sums over pairs of replications.
    squares: i128,
    products: i128,
    pub ghost some: { 1 ≤ replications },
    pub ghost few: { replications ≤ REPLICATION_LIMIT },
}

impl Pair {
    ghost use Rattle.std.specs.Prelude.{IfOk, IfErr, Some, None};
    ghost use Rattle.crn_pair.specs.Pairs.{IsQuotient, IsQuotientIfAny};
    ghost use Rattle.crn_pair.specs.Pairs as spec;
    ghost use Rattle.crn_pair.specs.Refused as refused;

    /// Compares the costs `a` of a policy with the costs `b` of another one, which have an entry for each replication.
    /// Allocates nothing.
    ///
    /// # Errors
    ///
    /// The first of these faults that holds:
    /// - `Lengths`: the lists have different lengths;
    /// - `Empty`: they are empty;
    /// - `TooMany`: they have more than [`REPLICATION_LIMIT`](crn_limits::REPLICATION_LIMIT) entries;
    /// - `Entry`: an entry is over [`COST_LIMIT`](crate::COST_LIMIT).
    pub fn of(a: &[u64], b: &[u64]) -> Result<Pair, PairFault>
        ensures made { IfOk result (λ p. spec.IsPairOf a.now b.now p) }
        ensures fits { IfOk result (λ _. refused.least_costs_fault a.now b.now ≡ None) }
        ensures refused { IfErr result (λ fault. refused.least_costs_fault a.now b.now ≡ Some fault) }
    {
        match least_fault(a, b) {
            Some(fault) => Err(fault),
            None => Ok(Pair::made(a, b)),
        }
    }

    fn made(a: &[u64], b: &[u64]) -> Pair
        requires { refused.least_costs_fault a.now b.now ≡ None }
        ensures { spec.IsPairOf a.now b.now result }
    {
        let sums = Sums::of(a, b);
        let replications = a.len() as u64;
        Pair {
            replications,
            difference: sums.differences.x,
            squares: sums.differences.over_pairs(replications),
            products: sums.costs.over_pairs(replications),
        }
    }

    /// Returns the sum of the differences, the first policy's cost less the second one's in each replication.
    pub fn diff_total(&self) -> i128
        ensures { result ≡ spec.difference_of self.now }
    {
        self.difference
    }

    /// Returns the mean of the differences.
    pub fn mean_diff(&self) -> Fraction
        ensures { IsQuotient (spec.difference_of self.now) (spec.replications_of self.now) result }
    {
        Fraction::new(self.difference, self.replications)
    }

    /// Returns the variance of the mean difference, estimated from the sample: with R replications and the differences
    /// d the sum of (d_i - d_j)^2 over the pairs i < j, over R^2 (R - 1). `None` for one replication, which tells
    /// nothing of it.
    pub fn var_of_mean(&self) -> Option<Fraction>
        ensures { IsQuotientIfAny (spec.squares_of self.now) (spec.variance_parts (spec.replications_of self.now)) result }
    {
        let count = self.replications;
        Pair::estimate(self.squares, count * count * (count - 1))
    }

    /// Returns the covariance of the two policies' costs, estimated from the sample: with R replications the sum of
    /// (a_i - a_j) (b_i - b_j) over the pairs i < j, over R (R - 1). `None` for one replication. The larger it is, the
    /// more the common random numbers have narrowed the variance of the difference.
    pub fn covariance(&self) -> Option<Fraction>
        ensures { IsQuotientIfAny (spec.products_of self.now) (spec.covariance_parts (spec.replications_of self.now)) result }
    {
        let count = self.replications;
        Pair::estimate(self.products, count * (count - 1))
    }

    // Returns a sum over a number of parts, or `None` if that is 0.
    fn estimate(sum: i128, parts: u64) -> Option<Fraction>
        ensures { IsQuotientIfAny sum parts result }
    {
        if parts == 0 {
            return None;
        }
        Some(Fraction::new(sum, parts))
    }
}

// The sums of the differences with themselves, and of the costs.
#[derive(Clone, Copy)]
struct Sums {
    differences: Moments,
    costs: Moments,
}

impl Sums {
    ghost use Rattle.std.specs.Prelude.{length, true};
    ghost use Rattle.crn_pair.specs.Limits.{are_costs};
    ghost use Rattle.crn_pair.specs.Pairs.{signed, differences};
    ghost use Rattle.crn_pair.specs.Inner.Places.{AreSums, AreWithin};

    // Returns those of two policies' costs.
    fn of(a: &[u64], b: &[u64]) -> Sums
        requires same_length { length b.now ≡ length a.now }
        requires few { length a.now ≤ REPLICATION_LIMIT }
        requires a { are_costs a.now ≡ true }
        requires b { are_costs b.now ≡ true }
        ensures differences { AreSums (differences a.now b.now) (differences a.now b.now) result.differences }
        ensures differences_low { AreWithin REPLICATION_LIMIT result.differences }
        ensures costs { AreSums (signed a.now) (signed b.now) result.costs }
        ensures costs_low { AreWithin REPLICATION_LIMIT result.costs }
    {
        let mut differences = Moments::none();
        let mut costs = Moments::none();
        for i in 0..a.len() {
            let d = difference(a[i], b[i]);
            differences = differences.with(d, d);
            costs = costs.with(i128::from(a[i]), i128::from(b[i]));
        }
        Sums { differences, costs }
    }
}

// Returns a cost less the other policy's in the same replication.
fn difference(a: u64, b: u64) -> i128
    requires a { a ≤ COST_LIMIT }
    requires b { b ≤ COST_LIMIT }
    ensures is { result ≡ (pos a -ℤ pos b) }
    ensures low { unsigned_abs result ≤ COST_LIMIT }
{
    i128::from(a) - i128::from(b)
}

// The sums of the values of two lists, and of their products place by place.
#[derive(Clone, Copy)]
struct Moments {
    x: i128,
    y: i128,
    products: i128,
}

impl Moments {
    ghost use Rattle.crn_pair.specs.Inner.Places.{AreWithin};

    // Returns the sums over no place.
    fn none() -> Moments
        ensures x { result.x ≡ pos 0 }
        ensures y { result.y ≡ pos 0 }
        ensures products { result.products ≡ pos 0 }
    {
        Moments {
            x: 0,
            y: 0,
            products: 0,
        }
    }

    // Returns the sums with one more place.
    #[tactic(auto, using(crate::proofs::Stripped::sum_is))]
    fn with(self, x: i128, y: i128) -> Moments
        requires x { unsigned_abs x ≤ COST_LIMIT }
        requires y { unsigned_abs y ≤ COST_LIMIT }
        requires within { AreWithin (REPLICATION_LIMIT - 1) self }
        ensures x { result.x ≡ self.x +ℤ x }
        ensures y { result.y ≡ self.y +ℤ y }
        ensures products { result.products ≡ self.products +ℤ (x *ℤ y) }
    {
        Moments {
            x: self.x + x,
            y: self.y + y,
            products: self.products + x * y,
        }
    }

    // Returns the sum over the pairs of `count` places.
    fn over_pairs(self, count: u64) -> i128
        requires few { count ≤ REPLICATION_LIMIT }
        requires within { AreWithin REPLICATION_LIMIT self }
        ensures { result ≡ ((pos count *ℤ self.products) -ℤ (self.x *ℤ self.y)) }
    {
        i128::from(count) * self.products - self.x * self.y
    }
}
