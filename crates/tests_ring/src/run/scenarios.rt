//! Scenarios of the zero key with policies A and B.

ghost use Rattle.std.specs.Prelude.{◌≡◌, ◌≤◌, ◌∷◌, [], length, IfOk};

use crn_stock::Scenario;
use std::alloc::{AllocError, Global};
use tests_model::scenarios::{Levels, Slots, scenario_of, steady_model};

// Replications of the steady model with lead times of 1.
pub(crate) fn steady(
    alloc: Global,
    slots: Slots,
    periods: u32,
    replications: u32,
) -> Result<Scenario, AllocError>
    requires periods { (1 ≤ periods) × (periods ≤ 1024) }
    requires replications { (1 ≤ replications) × (replications ≤ 256) }
    ensures total { IfOk result (λ s. (s.model.periods ≡ periods) × (s.model.replications ≡ replications)) }
    ensures key { IfOk result (λ s. s.key ≡ 0 ∷ 0 ∷ 0 ∷ 0 ∷ []) }
    ensures two { IfOk result (λ s. length s.policies ≡ 2) }
{
    let model = steady_model(alloc, periods, replications, 1, None)?;
    let a = Levels { low: 5, high: 10 };
    let b = Levels { low: 4, high: 10 };
    scenario_of(alloc, slots, model, a, b)
}
