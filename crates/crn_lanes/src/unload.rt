//! Lanes as states.

ghost use Rattle.std.specs.Prelude.{◌≡◌, ℕ, ◌≤◌, ◌<◌, IfOk, length};
ghost use Rattle.crn_stock.specs.Models.{total};
ghost use Rattle.crn_stock.specs.Parts.{rotated};
ghost use Rattle.crn_stock.specs.Stock.{next_block};
ghost use Rattle.crn_stock.specs.declared.limits.TheConstants.{LEAD_LIMIT};
ghost use Rattle.crn_lanes.specs.Inner.Lanes.{column};
ghost use Rattle.crn_lanes.specs.Inner.Groups.{IsGroup, lane};
ghost use Rattle.crn_lanes.specs.declared.arithmetic.TheConstants.{LANES};

use crate::arithmetic::LANES;
use crate::group::Group;
use crate::lanes::{DUE_PERIODS, without_bias};
use crn_stock::{LEAD_LIMIT, Model, RestoreFault, State};
use std::alloc::{AllocError, Global};

/// Returns the state of lane k of a group that stands before block `next`.
///
/// # Errors
///
/// `AllocError` if an allocation fails.
pub(crate) fn state_of(
    alloc: Global,
    model: &Model,
    group: &Group,
    k: usize,
    next: u64,
) -> Result<State, AllocError>
    requires group { IsGroup model.now group.now }
    requires k { k < LANES }
    requires next { next_block (lane model.now group.now k) ≡ next }
    requires below { next ≤ total model.now }
    ensures { IfOk result (λ s. s ≡ lane model.now group.now k) }
{
    let place = (group.period % LEAD_LIMIT) as usize;
    let due = due_from(&group.lanes.due, k, place);
    let costs = costs_from(alloc, &group.costs, k)?;
    let stock = without_bias(group.lanes.stock[k]);
    let running = group.lanes.running[k];
    match State::restore(alloc, model, next, stock, &due, running, &costs) {
        Ok(state) => Ok(state),
        Err(RestoreFault::Memory(refused)) => Err(refused),
        Err(RestoreFault::Range) => unreachable!(),
    }
}

// Returns the amounts due of lane k, in the order of their periods: the first stands at `place`.
fn due_from(rows: &[[u32; LANES]; DUE_PERIODS], k: usize, place: usize) -> [u32; DUE_PERIODS]
    requires k { k < LANES }
    requires place { place < LEAD_LIMIT }
    ensures { result ≡ rotated (column rows.now k) place }
{
    let mut due = [0; DUE_PERIODS];
    for j in 0..DUE_PERIODS {
        due[j] = rows[(place + j) % DUE_PERIODS][k];
    }
    due
}

// Returns the costs of lane k.
fn costs_from(alloc: Global, rows: &[[u64; LANES]], k: usize) -> Result<Vec<u64>, AllocError>
    requires { k < LANES }
    ensures { IfOk result (λ costs. costs.items ≡ column rows.now k) }
{
    let mut costs = Vec::with_capacity(alloc, rows.len())?;
    for r in 0..rows.len() {
        costs.push(rows[r][k])?;
    }
    Ok(costs)
}
