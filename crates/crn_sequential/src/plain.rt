//! The run of all policies on the calling thread.

ghost use Rattle.std.specs.Prelude.{◌≡◌, ◌≤◌, IfOk};
ghost use Rattle.crn_stock.specs.Models.{IsPolicy, total};
ghost use Rattle.crn_stock.specs.Stock.{OnwardAt, next_block};
ghost use Rattle.crn_sequential.specs.Runs.{IsCheckpointOf, StandsBefore, EachAt, EachOnward};

use crate::checkpoint::Checkpoint;
use crn_cipher::block;
use crn_stock::{Policy, Scenario, State};
use std::alloc::{AllocError, Global};

/// Runs all policies from `start` up to block `upto` on the calling thread, each on the blocks of the scenario's key.
/// `start` stays as it is.
///
/// # Asks
///
/// `start` is a checkpoint of the scenario, and `upto` is from `start.next` to the scenario's total.
///
/// # Errors
///
/// `AllocError` if an allocation fails.
pub fn run_plain(
    alloc: Global,
    scenario: &Scenario,
    start: &Checkpoint,
    upto: u64,
) -> Result<Checkpoint, AllocError>
    requires of { IsCheckpointOf scenario.now start.now.next start.now.states.items }
    requires from { start.now.next ≤ upto }
    requires below { upto ≤ total scenario.now.model }
    ensures next { IfOk result (λ c. c.next ≡ upto) }
    ensures of { IfOk result (λ c. IsCheckpointOf scenario.now upto c.states.items) }
    ensures at { IfOk result (λ c. EachAt scenario.now start.now.next start.now.states.items → EachAt scenario.now upto c.states.items) }
    ensures onward { IfOk result (λ c. EachOnward scenario.now start.now.states.items upto c.states.items) }
{
    let policies = scenario.policies();
    let mut states = Vec::with_capacity(alloc, policies.len())?;
    for i in 0..policies.len() {
        let policy = &policies[i];
        let from = &start.states[i];
        let state = run_policy_plain(alloc, scenario, policy, from, upto)?;
        states.push(state)?;
    }
    Ok(Checkpoint { next: upto, states })
}

// Returns the state that one policy's state becomes by the blocks up to `upto`.
fn run_policy_plain(
    alloc: Global,
    scenario: &Scenario,
    policy: &Policy,
    from: &State,
    upto: u64,
) -> Result<State, AllocError>
    requires policy { IsPolicy policy.now }
    requires stands { StandsBefore scenario.now.model (next_block from.now) from.now }
    requires from { next_block from.now ≤ upto }
    requires below { upto ≤ total scenario.now.model }
    ensures stands { IfOk result (λ s. StandsBefore scenario.now.model upto s) }
    ensures onward { IfOk result (λ s. OnwardAt scenario.now.model policy.now scenario.now.key from.now upto s) }
{
    let model = scenario.model();
    let key = scenario.key();
    let mut state = from.copy(alloc)?;
    for number in from.next_block()..upto {
        state.take_block(model, policy, &block(key, number));
    }
    Ok(state)
}
