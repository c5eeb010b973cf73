//! States and policies as lanes.

ghost use Rattle.std.specs.Prelude.{◌≡◌, ℕ, ◌+◌, ◌/◌, ◌≤◌, ◌<◌, All, IfOk, Some, length, slice_get, slice_index, vec_capacity};
ghost use Rattle.crn_stock.specs.Parts.{Parts, rotated};
ghost use Rattle.crn_stock.specs.Models.{IsPolicy, blocks_per_replication, total};
ghost use Rattle.crn_stock.specs.declared.policy.Policy.{Policy};
ghost use Rattle.crn_stock.specs.declared.limits.TheConstants.{LEAD_LIMIT};
ghost use Rattle.crn_sequential.specs.Runs.{StandsBefore};
ghost use Rattle.crn_lanes.specs.Inner.Lanes.{column, unbiased, AreLevels, IsRowOf};
ghost use Rattle.crn_lanes.specs.Inner.Groups.{seat, OfSeat, AreInLimits, IsLoaded, IsGroup, lane};
ghost use Rattle.crn_lanes.specs.declared.arithmetic.TheConstants.{LANES};

use crate::arithmetic::LANES;
use crate::group::Group;
use crate::lanes::{DUE_PERIODS, Lanes, Levels, biased};
use crn_cipher::STREAM_WORDS;
use crn_stock::{LEAD_LIMIT, Model, Policy, State};
use std::alloc::{AllocError, Global};

/// Returns a group of states of the model that stand before block `next`. A lane beyond the last state repeats it.
///
/// # Asks
///
/// There is a state.
///
/// # Errors
///
/// `AllocError` if an allocation fails.
pub(crate) fn group_of(
    alloc: Global,
    model: &Model,
    states: &[State],
    next: u64,
) -> Result<Group, AllocError>
    requires some { 0 < length states.now }
    requires limits { AreInLimits states.now }
    requires stand { (i : ℕ) (v : Parts) → slice_get states.now i ≡ Some v → StandsBefore model.now next v }
    requires below { next ≤ total model.now }
    ensures group { IfOk result (λ g. IsGroup model.now g) }
    ensures lanes { IfOk result (λ g. (k : ℕ) → k < LANES → OfSeat (λ j v. lane model.now g j ≡ v) states.now k) }
{
    let _ = model.periods();
    let blocks = model.blocks_per_replication();
    let period = STREAM_WORDS * (next % blocks) as u32;
    let done = (next / blocks) as usize;
    let replications = model.replications() as usize;
    Ok(Group {
        period,
        costs: costs_of(alloc, states, done, replications)?,
        lanes: lanes_of(states, (period % LEAD_LIMIT) as usize),
    })
}

/// Returns the levels of each lane's policy. A lane beyond the last policy repeats it.
///
/// # Asks
///
/// There is a policy, and all levels are within their range.
#[tactic(auto, using(crate::proofs::Rows::row_begun))]
pub(crate) fn levels_of(policies: &[Policy]) -> Levels
    requires some { 0 < length policies.now }
    requires ranges { All IsPolicy policies.now }
    ensures levels { AreLevels result }
    ensures low { (k : ℕ) (p : Policy) → k < LANES → slice_get policies.now (seat (length policies.now) k) ≡ Some p → unbiased (slice_index result.low k) ≡ p.low }
    ensures high { (k : ℕ) (p : Policy) → k < LANES → slice_get policies.now (seat (length policies.now) k) ≡ Some p → unbiased (slice_index result.high k) ≡ p.high }
{
    let mut low = [0; LANES];
    for k in 0..LANES {
        let policy = &policies[seat_of(policies.len(), k)];
        low[k] = biased(policy.low);
    }
    let mut high = [0; LANES];
    for j in 0..LANES {
        let policy = &policies[seat_of(policies.len(), j)];
        high[j] = biased(policy.high);
    }
    Levels { low, high }
}

/// Shows that states are within the ranges that each of them keeps.
pub(crate) fn know_limits(states: &[State])
    ensures { AreInLimits states.now }
{
    for i in 0..states.len() {
        let state = &states[i];
        let _ = state.costs();
    }
}

// Returns the place of what lane k runs, of so many.
fn seat_of(count: usize, k: usize) -> usize
    requires { 0 < count }
    ensures seat { result ≡ seat count k }
    ensures within { result < count }
{
    if k < count { k } else { count - 1 }
}

// Returns what each lane has of the replication under way, the amounts due from a place on.
fn lanes_of(states: &[State], place: usize) -> Lanes
    requires some { 0 < length states.now }
    requires limits { AreInLimits states.now }
    requires place { place < LEAD_LIMIT }
    ensures { (k : ℕ) → k < LANES → OfSeat (IsLoaded place result) states.now k }
{
    let mut stock = [0; LANES];
    let mut position = [0; LANES];
    let mut running = [0; LANES];
    for k in 0..LANES {
        let state = &states[seat_of(states.len(), k)];
        stock[k] = biased(state.stock());
        position[k] = biased(state.position());
        running[k] = state.running();
    }
    Lanes {
        stock,
        position,
        running,
        due: due_of(states, place),
    }
}

// Returns the amounts due of each lane, from a place on.
fn due_of(states: &[State], place: usize) -> [[u32; LANES]; DUE_PERIODS]
    requires some { 0 < length states.now }
    requires limits { AreInLimits states.now }
    requires place { place < LEAD_LIMIT }
    ensures { (k : ℕ) → k < LANES → OfSeat (λ j v. rotated (column result j) place ≡ v.due) states.now k }
{
    let mut due = [[0; LANES]; DUE_PERIODS];
    for j in 0..DUE_PERIODS {
        due[(place + j) % DUE_PERIODS] = due_row(states, j);
    }
    due
}

// Returns what arrives in each lane j periods after the next one.
#[tactic(auto, using(crate::proofs::Rows::row_begun))]
fn due_row(states: &[State], j: usize) -> [u32; LANES]
    requires some { 0 < length states.now }
    requires limits { AreInLimits states.now }
    requires j { j < LEAD_LIMIT }
    ensures { IsRowOf (λ k x. OfSeat (λ i v. x ≡ slice_index v.due j) states.now k) LANES result }
{
    let mut row = [0; LANES];
    for k in 0..LANES {
        let state = &states[seat_of(states.len(), k)];
        row[k] = state.due(j) as u32;
    }
    row
}

// Returns the costs of the replications that are done, with room for those of all.
fn costs_of(
    alloc: Global,
    states: &[State],
    done: usize,
    replications: usize,
) -> Result<Vec<[u64; LANES]>, AllocError>
    requires some { 0 < length states.now }
    requires done { (i : ℕ) (v : Parts) → slice_get states.now i ≡ Some v → length v.costs ≡ done }
    requires few { done ≤ replications }
    ensures rows { IfOk result (λ rows. (k : ℕ) → k < LANES → OfSeat (λ j v. column rows.items j ≡ v.costs) states.now k) }
    ensures room { IfOk result (λ rows. replications ≤ vec_capacity rows) }
{
    let mut rows = Vec::with_capacity(alloc, replications)?;
    for r in 0..done {
        rows.push_reserved(cost_row(states, r));
    }
    Ok(rows)
}

// Returns the cost of replication r in each lane.
#[tactic(auto, using(crate::proofs::Rows::row_begun))]
fn cost_row(states: &[State], r: usize) -> [u64; LANES]
    requires some { 0 < length states.now }
    requires done { (i : ℕ) (v : Parts) → slice_get states.now i ≡ Some v → r < length v.costs }
    ensures { IsRowOf (λ k x. OfSeat (λ i v. x ≡ slice_index v.costs r) states.now k) LANES result }
{
    let mut row = [0; LANES];
    for k in 0..LANES {
        let state = &states[seat_of(states.len(), k)];
        row[k] = state.costs()[r];
    }
    row
}
