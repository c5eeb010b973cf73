//! Reads the policies and their states from their rows.

ghost use Rattle.std.specs.Prelude.{◌≡◌, ◌∷◌, ◌++◌, ◌+◌, ◌<◌, ◌≤◌, ◌^◌, ℕ, List, [], All, IfOk, OnOk, MatchResult, Some, length, slice_get, true, alloc_error};
ghost use Rattle.crn_limits.specs.declared.TheConstants.{POLICY_LIMIT};
ghost use Rattle.crn_stock.specs.Models.{IsPolicy};
ghost use Rattle.crn_stock.specs.Parts.{first_period, Parts};
ghost use Rattle.crn_stock.specs.declared.policy.Policy.{Policy};
ghost use Rattle.crn_spelling.specs.Names.{is_name};
ghost use Rattle.crn_sequential.specs.Runs.{StandsBefore};
ghost use Rattle.crn_checkpoint.specs.CheckpointText.{due_rows, policy_row, policy_rows, all_policy_rows};
ghost use Rattle.crn_checkpoint.specs.Inner.Amounts.{IsRestorable, AreOf, ArePoliciesOf};

use crate::fault::Unread;
use crate::read::cells::{after, column, integer_in, natural_in, prefix, text_in};
use crn_cipher::STREAM_WORDS;
use crn_rows::Row;
use crn_stock::{Model, Name, Policy, State};
use std::alloc::{AllocError, Global};

/// Policies, and a state of each.
#[derive(Drop)]
pub(crate) struct Policies {
    pub(crate) policies: Vec<Policy>,
    pub(crate) states: Vec<State>,
}

impl Policies {
    fn add(&mut self, policy: Policy, state: State) -> Result<(), AllocError>
        ensures policies { OnOk result (self.new.policies.items ≡ self.old.policies.items ++ policy ∷ []) }
        ensures states { OnOk result (self.new.states.items ≡ self.old.states.items ++ state ∷ []) }
    {
        self.policies.push(policy)?;
        self.states.push(state)?;
        Ok(())
    }
}

// Reads the policy of the first row.
fn policy_of(alloc: Global, rows: &[Row]) -> Result<Policy, AllocError>
    ensures { (p : Policy) (rest : List (List (List ℕ))) → IsPolicy p → is_name p.name ≡ true → rows.now ≡ policy_row p ∷ rest → IfOk result (λ q. q ≡ p) }
{
    let name = String::from_str(alloc, text_in(rows, 0, 1))?;
    Ok(Policy {
        name: Name::from_string(name),
        low: integer_in(rows, 0, 2),
        high: integer_in(rows, 0, 3),
    })
}

// Returns the amount due in a period: 0 unless the first row is of this period.
fn amount_in(rows: &[Row], period: u64) -> u32
    ensures { (a : ℕ) (amounts : List ℕ) → a < 2 ^ 32 → period + length amounts < 2 ^ 32 → rows.now ≡ due_rows period (a ∷ amounts) → result ≡ a }
{
    if rows.is_empty() || natural_in(rows, 0, 1) != period {
        return 0;
    }
    natural_in(rows, 0, 2).min(u64::from(u32::MAX)) as u32
}

// Returns the rows after that of an amount: an amount of 0 has none.
fn after_amount(rows: &[Row], amount: u32) -> &[Row]
    ensures { (period : ℕ) (amounts : List ℕ) → rows.now ≡ due_rows period (amount ∷ amounts) → result.now ≡ due_rows (period + 1) amounts }
{
    if amount > 0 { after(rows, 1) } else { rows }
}

// Returns the amounts due in the 32 periods from `period` on.
fn due_of(rows: &[Row], period: u32) -> [u32; 32]
    requires { period < 2 ^ 12 }
    ensures { (amounts : List ℕ) → length amounts ≡ 32 → All (λ a. a < 2 ^ 32) amounts → rows.now ≡ due_rows period amounts → result ≡ amounts }
{
    let mut due = [0; 32];
    let mut rest = rows;
    for k in 0..32usize {
        let amount = amount_in(rest, u64::from(period) + k as u64);
        due[k] = amount;
        rest = after_amount(rest, amount);
    }
    due
}

// Returns the period that a block begins with, or 0 after the last block of a replication.
fn period_at(model: &Model, next: u64) -> u32
    ensures value { result ≡ first_period model.now next }
    ensures high { result < 2 ^ 12 }
{
    let _ = model.periods();
    STREAM_WORDS * (next % model.blocks_per_replication()) as u32
}

// The amounts of a state, in range or not.
#[derive(Drop)]
struct Amounts {
    stock: i64,
    due: [u32; 32],
    running: u64,
    costs: Vec<u64>,
}

// Reads the amounts of a state before block `next` from its rows, the first of which is its policy's.
fn amounts_of(alloc: Global, model: &Model, next: u64, rows: &[Row]) -> Result<Amounts, AllocError>
    ensures { (p : Policy) (v : Parts) (rest : List (List (List ℕ))) → IsRestorable model.now next v → rows.now ≡ policy_rows p v ++ rest
        → IfOk result (λ a. AreOf v a.stock a.due a.running a.costs.items) }
{
    let dues = natural_in(rows, 1, 3) as usize;
    let done = natural_in(rows, 1, 4) as usize;
    let amounts = after(rows, 2);
    let due = due_of(prefix(amounts, dues), period_at(model, next));
    let costs = column(alloc, prefix(after(amounts, dues), done), 2)?;
    Ok(Amounts {
        stock: integer_in(rows, 1, 1),
        due,
        running: natural_in(rows, 1, 2),
        costs,
    })
}

// Reads the state of a model before block `next` from its rows, the first of which is its policy's.
fn state_of(alloc: Global, model: &Model, next: u64, rows: &[Row]) -> Result<State, Unread>
    ensures reads { (p : Policy) (v : Parts) (rest : List (List (List ℕ))) → IsRestorable model.now next v → rows.now ≡ policy_rows p v ++ rest
        → MatchResult result (λ w. w ≡ v) (λ f. f ≡ Unread.Memory alloc_error) }
    ensures stands { IfOk result (λ w. StandsBefore model.now next w) }
{
    let a = amounts_of(alloc, model, next, rows)?;
    let costs = a.costs.as_slice();
    Ok(State::restore(alloc, model, next, a.stock, &a.due, a.running, costs)?)
}

// Returns the rows after those of a policy and its state.
fn after_policy(rows: &[Row]) -> &[Row]
    ensures { (p : Policy) (v : Parts) (rest : List (List (List ℕ))) → length v.due ≡ 32 → length v.costs < 2 ^ 64 → rows.now ≡ policy_rows p v ++ rest → result.now ≡ rest }
{
    let dues = natural_in(rows, 1, 3) as usize;
    let done = natural_in(rows, 1, 4) as usize;
    after(after(after(rows, 2), dues), done)
}

/// Reads the first `count` policies, each with its state before block `next`.
pub(crate) fn policies_of(
    alloc: Global,
    model: &Model,
    next: u64,
    rows: &[Row],
    count: usize,
) -> Result<Policies, Unread>
    requires { count ≤ POLICY_LIMIT }
    ensures reads { (ps : List Policy) (vs : List Parts) (rest : List (List (List ℕ))) → ArePoliciesOf model.now next ps vs → count ≡ length ps → rows.now ≡ all_policy_rows ps vs ++ rest
        → MatchResult result (λ r. (r.policies.items ≡ ps) × (r.states.items ≡ vs)) (λ f. f ≡ Unread.Memory alloc_error) }
    ensures count { IfOk result (λ r. length r.states.items ≡ length r.policies.items) }
    ensures stand { IfOk result (λ r. (i : ℕ) (v : Parts) → slice_get r.states.items i ≡ Some v → StandsBefore model.now next v) }
{
    let mut found = Policies {
        policies: Vec::new(alloc),
        states: Vec::new(alloc),
    };
    let mut rest = rows;
    for _turn in 0..count {
        let policy = policy_of(alloc, rest)?;
        let state = state_of(alloc, model, next, rest)?;
        found.add(policy, state)?;
        rest = after_policy(rest);
    }
    Ok(found)
}
