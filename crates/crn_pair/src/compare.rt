//! Which two lists of costs are refused, and for which fault.

ghost use Rattle.std.specs.Prelude.{◌≡◌};
ghost use Rattle.crn_pair.specs.Limits.{are_costs};
ghost use Rattle.crn_pair.specs.Refused as spec;

use crate::fault::PairFault;
use crn_limits::REPLICATION_LIMIT;

/// The greatest cost of one replication that is compared. It leaves room above what the model's limits allow.
pub const COST_LIMIT: u64 = 230_000_000_000_000;

fn are_costs(costs: &[u64]) -> bool
    ensures { result ≡ are_costs costs.now }
{
    'costs: for cost in costs {
        if *cost > COST_LIMIT {
            return false;
        }
    }
    true
}

/// Returns the fault with the least number, or `None` if the lists can be compared.
pub(crate) fn least_fault(a: &[u64], b: &[u64]) -> Option<PairFault>
    ensures { result ≡ spec.least_costs_fault a.now b.now }
{
    if a.len() != b.len() {
        Some(PairFault::Lengths)
    } else if a.is_empty() {
        Some(PairFault::Empty)
    } else if a.len() > REPLICATION_LIMIT as usize {
        Some(PairFault::TooMany)
    } else if !(are_costs(a) && are_costs(b)) {
        Some(PairFault::Entry)
    } else {
        None
    }
}
