//! Writes the rows of a policy and its state.

ghost use Rattle.std.specs.Prelude.{◌≡◌, [], ◌∷◌, ◌++◌, All, IfOk, OnOk, length, true};
ghost use Rattle.crn_stock.specs.Models.{IsPolicy};
ghost use Rattle.crn_stock.specs.Parts.{AreInRange};
ghost use Rattle.crn_spelling.specs.Names.{is_name};
ghost use Rattle.crn_rows.specs.Rows.{row_text, rows_text};
ghost use Rattle.crn_checkpoint.specs.CheckpointText as spec;

use crate::write::rows::with_pair_row;
use crn_rows::Sheet;
use crn_stock::{Policy, State};
use itoa::Buffer;
use std::alloc::AllocError;

// Returns the sheet with the row of a policy.
fn with_policy_row(sheet: Sheet, policy: &Policy) -> Result<Sheet, AllocError>
    requires range { IsPolicy policy.now }
    requires name { is_name policy.now.name ≡ true }
    ensures { IfOk result (λ after. after ≡ sheet ++ row_text (spec.policy_row policy.now)) }
{
    let mut low = Buffer::new();
    let mut high = Buffer::new();
    sheet.with_row(&[
        b"policy",
        policy.name.as_str().as_bytes(),
        low.format(policy.low).as_bytes(),
        high.format(policy.high).as_bytes(),
        b"-",
    ])
}

// Counts the amounts due of a state that are above 0.
fn due_count(state: &State) -> u64
    requires { length state.now.due ≡ 32 }
    ensures { result ≡ length (spec.due_rows state.now.period state.now.due) }
{
    let mut count = 0;
    for k in 0..32usize {
        if state.due(k) > 0 {
            count += 1;
        }
    }
    count
}

// Returns the sheet with the row of a state's amounts, and of how many rows follow.
#[tactic(auto, using(crate::proofs::Rows::amounts_plain))]
fn with_state_row(sheet: Sheet, state: &State) -> Result<Sheet, AllocError>
    requires { length state.now.due ≡ 32 }
    ensures { IfOk result (λ after. after ≡ sheet ++ row_text (spec.state_row state.now)) }
{
    let mut stock = Buffer::new();
    let mut running = Buffer::new();
    let mut due = Buffer::new();
    let mut done = Buffer::new();
    sheet.with_row(&[
        b"state",
        stock.format(state.stock()).as_bytes(),
        running.format(state.running()).as_bytes(),
        due.format(due_count(state)).as_bytes(),
        done.format(state.costs().len()).as_bytes(),
    ])
}

// Returns the sheet with the row of an amount that is due in a period, where the amount is above 0.
fn with_due_row(sheet: Sheet, period: u64, amount: u64) -> Result<Sheet, AllocError>
    ensures { IfOk result (λ after. after ≡ sheet ++ rows_text (spec.due_rows period (amount ∷ []))) }
{
    if amount == 0 {
        return Ok(sheet);
    }
    with_pair_row(sheet, b"due", period, amount)
}

// Returns the sheet with a row for each period, from the given one on, in which an amount is due.
fn with_due_rows(sheet: Sheet, period: u32, state: &State) -> Result<Sheet, AllocError>
    requires { length state.now.due ≡ 32 }
    ensures { IfOk result (λ after. after ≡ sheet ++ rows_text (spec.due_rows period state.now.due)) }
{
    let mut sheet = sheet;
    for k in 0..32usize {
        sheet = with_due_row(sheet, u64::from(period) + k as u64, state.due(k))?;
    }
    Ok(sheet)
}

// Returns the sheet with a row for the cost of each replication that is done.
fn with_cost_rows(sheet: Sheet, costs: &[u64]) -> Result<Sheet, AllocError>
    ensures { IfOk result (λ after. after ≡ sheet ++ rows_text (spec.cost_rows 0 costs.now)) }
{
    let mut sheet = sheet;
    for (replication, cost) in costs.iter().enumerate() {
        sheet = with_pair_row(sheet, b"cost", replication as u64, *cost)?;
    }
    Ok(sheet)
}

// Returns the sheet with all rows of a policy and its state.
fn with_policy_rows(sheet: Sheet, policy: &Policy, state: &State) -> Result<Sheet, AllocError>
    requires range { IsPolicy policy.now }
    requires name { is_name policy.now.name ≡ true }
    ensures written { IfOk result (λ after. after ≡ sheet ++ rows_text (spec.policy_rows policy.now state.now)) }
    ensures range { AreInRange state.now }
{
    let period = state.period();
    let sheet = with_policy_row(sheet, policy)?;
    let sheet = with_state_row(sheet, state)?;
    let sheet = with_due_rows(sheet, period, state)?;
    with_cost_rows(sheet, state.costs())
}

/// Returns the sheet with the rows of each policy and its state.
pub(crate) fn with_all_policy_rows(
    sheet: Sheet,
    policies: &[Policy],
    states: &[State],
) -> Result<Sheet, AllocError>
    requires ranges { All IsPolicy policies.now }
    requires names { All (λ p. is_name p.name ≡ true) policies.now }
    requires count { length states.now ≡ length policies.now }
    ensures written { IfOk result (λ after. after ≡ sheet ++ rows_text (spec.all_policy_rows policies.now states.now)) }
    ensures ranges { OnOk result (All AreInRange states.now) }
{
    let mut sheet = sheet;
    for i in 0..policies.len() {
        sheet = with_policy_rows(sheet, &policies[i], &states[i])?;
    }
    Ok(sheet)
}
