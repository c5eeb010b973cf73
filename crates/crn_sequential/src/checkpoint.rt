//! Checkpoints: where all policies of a scenario stand between two blocks.

ghost use Rattle.std.specs.Prelude.{◌≡◌, IfOk};
ghost use Rattle.crn_sequential.specs.Runs.{IsCheckpointOf, EachAt};

use crn_stock::{Scenario, State};
use std::alloc::{AllocError, Global};

/// A place between two blocks of a run: how far the run has come, and each policy's state there.
#[derive(Drop)]
pub struct Checkpoint {
    /// The block that comes next.
    pub next: u64,
    /// One state for each policy, in the scenario's order.
    pub states: Vec<State>,
}

impl Checkpoint {
    /// Returns the beginning of a run: block 0 comes next, and no policy has run a period.
    ///
    /// # Errors
    ///
    /// `AllocError` if an allocation fails.
    pub fn start(alloc: Global, scenario: &Scenario) -> Result<Checkpoint, AllocError>
        ensures next { IfOk result (λ c. c.next ≡ 0) }
        ensures of { IfOk result (λ c. IsCheckpointOf scenario.now c.next c.states.items) }
        ensures at { IfOk result (λ c. EachAt scenario.now 0 c.states.items) }
    {
        let policies = scenario.policies();
        let mut states = Vec::with_capacity(alloc, policies.len())?;
        for _policy in 0..policies.len() {
            states.push(State::start(alloc, scenario.model())?)?;
        }
        Ok(Checkpoint { next: 0, states })
    }
}
