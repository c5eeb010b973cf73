//! The run of all policies side by side.

ghost use Rattle.std.specs.Prelude.{◌≡◌, ◌≤◌, ◌<◌, ℕ, All, IfOk, Some, length, slice_get};
ghost use Rattle.crn_stock.specs.Parts.{Parts};
ghost use Rattle.crn_stock.specs.Models.{IsPolicy, total};
ghost use Rattle.crn_sequential.specs.Runs.{StandsBefore, IsCheckpointOf, EachAt, EachOnward};
ghost use Rattle.crn_lanes.specs.Inner.Groups.{AreRun};
ghost use Rattle.crn_lanes.specs.declared.arithmetic.TheConstants.{LANES};

use crate::arithmetic::LANES;
use crate::group::run_blocks;
use crate::load::{group_of, know_limits, levels_of};
use crate::unload::state_of;
use crn_limits::POLICY_LIMIT;
use crn_sequential::Checkpoint;
use crn_stock::{Model, Policy, Scenario, State};
use std::alloc::{AllocError, Global};

// There is a lane for each policy of a scenario.
const _: () = prove!(POLICY_LIMIT as usize <= LANES);

/// Runs all policies from `start` up to block `upto` on the calling thread, as [`run_plain`](crn_sequential::run_plain)
/// does. Each draw is made once for all of them. `start` stays as it is.
///
/// # Asks
///
/// `start` is a checkpoint of the scenario, and `upto` is from `start.next` to the scenario's total.
///
/// # Errors
///
/// `AllocError` if an allocation fails.
pub fn run_lanes(
    alloc: Global,
    scenario: &Scenario,
    start: &Checkpoint,
    upto: u64,
) -> Result<Checkpoint, AllocError>
    requires of { IsCheckpointOf scenario.now start.now.next start.now.states.items }
    requires from { start.now.next ≤ upto }
    requires below { upto ≤ total scenario.now.model }
    ensures next { IfOk result (λ c. c.next ≡ upto) }
    ensures of { IfOk result (λ c. IsCheckpointOf scenario.now upto c.states.items) }
    ensures at { IfOk result (λ c. EachAt scenario.now start.now.next start.now.states.items → EachAt scenario.now upto c.states.items) }
    ensures onward { IfOk result (λ c. EachOnward scenario.now start.now.states.items upto c.states.items) }
{
    let model = scenario.model();
    let key = scenario.key();
    let policies = scenario.policies();
    let from = start.states.as_slice();
    let states = run_states(alloc, model, key, policies, from, start.next, upto)?;
    Ok(Checkpoint { next: upto, states })
}

// Returns the states that the states of at most so many policies become by the blocks `next` to `upto - 1`.
fn run_states(
    alloc: Global,
    model: &Model,
    key: [u64; 4],
    policies: &[Policy],
    states: &[State],
    next: u64,
    upto: u64,
) -> Result<Vec<State>, AllocError>
    requires some { 0 < length policies.now }
    requires few { length policies.now ≤ LANES }
    requires ranges { All IsPolicy policies.now }
    requires count { length states.now ≡ length policies.now }
    requires stand { (i : ℕ) (v : Parts) → slice_get states.now i ≡ Some v → StandsBefore model.now next v }
    requires from { next ≤ upto }
    requires below { upto ≤ total model.now }
    ensures count { IfOk result (λ after. length after.items ≡ length policies.now) }
    ensures run { IfOk result (λ after. AreRun model.now key policies.now states.now upto after.items) }
{
    know_limits(states);
    let levels = levels_of(policies);
    let mut group = group_of(alloc, model, states, next)?;
    run_blocks(&mut group, &levels, model, key, next, upto);
    let mut after = Vec::with_capacity(alloc, policies.len())?;
    for k in 0..policies.len() {
        after.push(state_of(alloc, model, &group, k, upto)?)?;
    }
    Ok(after)
}
