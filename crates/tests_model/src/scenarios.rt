//! The draws, models and scenarios that several tests run.

ghost use Rattle.std.specs.Prelude.{◌≡◌, ◌≤◌, ℕ, ◌∷◌, [], length, All, IfOk};
ghost use Rattle.crn_stock.specs.Models.{IsModel, IsPolicy, model_of, returned_values, total, AreForScenario};
ghost use Rattle.crn_limits.specs.Limits.{IsRingSize};

use crn_draw::Weights;
use crn_sequential::Checkpoint;
use crn_stock::{Costs, Model, Name, Policy, Scenario};
use std::alloc::{AllocError, Global};
use std::fmt::Display;

/// Returns draws of these values with these weights.
///
/// # Errors
///
/// `AllocError` if `Weights::new` fails.
pub fn draws(alloc: Global, values: &[u32], weights: &[u32]) -> Result<Weights, AllocError>
    ensures { IfOk result (λ w. w.values ≡ values.now) }
{
    match Weights::new(alloc, values, weights) {
        Ok(draws) => Ok(draws),
        Err(_) => Err(AllocError),
    }
}

/// Returns draws that always give one value.
///
/// # Errors
///
/// `AllocError` if an allocation fails.
pub fn always(alloc: Global, value: u32) -> Result<Weights, AllocError>
    ensures { IfOk result (λ w. w.values ≡ value ∷ []) }
{
    draws(alloc, &[value], &[1])
}

/// Returns draws that always give one demand, and draws that always give one lead time.
///
/// # Errors
///
/// `AllocError` if an allocation fails.
pub fn fixed_draws(alloc: Global, demand: u32, lead: u32) -> Result<(Weights, Weights), AllocError>
    ensures demand { IfOk result (λ r. r.0.values ≡ demand ∷ []) }
    ensures lead { IfOk result (λ r. r.1.values ≡ lead ∷ []) }
{
    let demands = always(alloc, demand)?;
    let leads = always(alloc, lead)?;
    Ok((demands, leads))
}

/// Returns costs of these rates.
pub fn costs_of(setup: u64, unit: u64, holding: u64, backlog: u64) -> Costs
    ensures { (result.setup ≡ setup) × (result.unit ≡ unit) × (result.holding ≡ holding) × (result.backlog ≡ backlog) }
{
    Costs {
        setup,
        unit,
        holding,
        backlog,
    }
}

/// Returns the model of these parts. Tests make all models here, so that a new key of a scenario changes no other call.
///
/// # Asks
///
/// The parts are as `Model::new` asks for.
pub fn model_with(
    periods: u32,
    replications: u32,
    initial: i64,
    costs: Costs,
    demand: Weights,
    lead: Weights,
    returns: Option<Weights>,
) -> Model
    requires { IsModel (model_of periods replications initial costs demand lead returns) }
    ensures { result ≡ model_of periods replications initial costs demand lead returns }
{
    Model::new(periods, replications, initial, costs, demand, lead, returns)
}

/// Returns the base model: an initial stock of 60, demands of 1 to 4 with the weights 1, 2, 2 and 1, and lead times of 1.
///
/// # Asks
///
/// `periods` is from 1 to 1,024 and `replications` from 1 to 256.
///
/// # Errors
///
/// `AllocError` if an allocation fails.
pub fn base_model(alloc: Global, periods: u32, replications: u32) -> Result<Model, AllocError>
    requires periods { (1 ≤ periods) × (periods ≤ 1024) }
    requires replications { (1 ≤ replications) × (replications ≤ 256) }
    ensures { IfOk result (λ m. (m.periods ≡ periods) × (m.replications ≡ replications)) }
{
    let costs = costs_of(32, 3, 1, 5);
    let demand = draws(alloc, &[1, 2, 3, 4], &[1, 2, 2, 1])?;
    let lead = always(alloc, 1)?;
    Ok(model_with(periods, replications, 60, costs, demand, lead, None))
}

/// Returns a model with an initial stock of 10, demands of 3, and these lead times and returned items.
///
/// # Asks
///
/// `periods` is from 1 to 1,024, `replications` from 1 to 256, `lead` from 1 to 32, and the returned items are at most
/// 10,000.
///
/// # Errors
///
/// `AllocError` if an allocation fails.
pub fn steady_model(
    alloc: Global,
    periods: u32,
    replications: u32,
    lead: u32,
    returns: Option<Weights>,
) -> Result<Model, AllocError>
    requires periods { (1 ≤ periods) × (periods ≤ 1024) }
    requires replications { (1 ≤ replications) × (replications ≤ 256) }
    requires lead { (1 ≤ lead) × (lead ≤ 32) }
    requires returns { All (λ v. v ≤ 10000) (returned_values returns) }
    ensures { IfOk result (λ m. (m.periods ≡ periods) × (m.replications ≡ replications)) }
{
    let costs = costs_of(7, 2, 1, 4);
    let (demand, lead) = fixed_draws(alloc, 3, lead)?;
    Ok(model_with(periods, replications, 10, costs, demand, lead, returns))
}

/// The levels s and S of a policy.
#[derive(Clone, Copy)]
pub struct Levels {
    /// The reorder point s.
    pub low: u32,
    /// The order-up-to level S.
    pub high: u32,
}

/// Returns a policy of any levels.
///
/// # Errors
///
/// `AllocError` if an allocation fails.
pub fn policy_of(alloc: Global, name: &str, low: i64, high: i64) -> Result<Policy, AllocError>
    ensures name { IfOk result (λ p. p.name ≡ name.now) }
    ensures levels { IfOk result (λ p. (p.low ≡ low) × (p.high ≡ high)) }
{
    Ok(Policy {
        name: Name::from_string(name.to_string(alloc)?),
        low,
        high,
    })
}

/// Returns a policy.
///
/// # Asks
///
/// `low` is at most `high`, and `high` at most 100.
///
/// # Errors
///
/// `AllocError` if an allocation fails.
pub fn policy(alloc: Global, name: &str, levels: Levels) -> Result<Policy, AllocError>
    requires levels { (levels.low ≤ levels.high) × (levels.high ≤ 100) }
    ensures ranges { IfOk result IsPolicy }
    ensures name { IfOk result (λ p. p.name ≡ name.now) }
{
    policy_of(alloc, name, i64::from(levels.low), i64::from(levels.high))
}

/// The number of slots of a ring.
#[derive(Clone, Copy)]
pub enum Slots {
    /// One slot.
    One,
    /// Two slots.
    Two,
    /// 64 slots.
    SixtyFour,
}

impl Slots {
    /// Returns that number.
    pub fn count(self) -> u64
        ensures { IsRingSize result }
    {
        match self {
            Slots::One => 1,
            Slots::Two => 2,
            Slots::SixtyFour => 64,
        }
    }
}

// Policies A and B of these levels.
fn two_policies(alloc: Global, a: Levels, b: Levels) -> Result<Vec<Policy>, AllocError>
    requires a { (a.low ≤ a.high) × (a.high ≤ 100) }
    requires b { (b.low ≤ b.high) × (b.high ≤ 100) }
    ensures two { IfOk result (λ ps. length ps.items ≡ 2) }
    ensures can { IfOk result (λ ps. (ring : ℕ) → IsRingSize ring → AreForScenario ring ps.items) }
{
    let first = policy(alloc, "A", a)?;
    let second = policy(alloc, "B", b)?;
    let policies = vec![in alloc; first, second]?;
    Ok(policies)
}

/// Returns the scenario of these parts. Tests make all scenarios here, so that a new part of a scenario changes no other
/// call.
///
/// # Asks
///
/// The ring size and the policies are as `Scenario::new` asks for.
pub fn scenario_with(key: [u64; 4], ring: u64, model: Model, policies: Vec<Policy>) -> Scenario
    requires { AreForScenario ring policies.items }
    ensures { result ≡ record { key = key; ring = ring; model = model; policies = policies.items } }
{
    Scenario::new(key, ring, model, policies)
}

/// Returns a scenario of the zero key and of a model, with policies A and B.
///
/// # Asks
///
/// The levels of each policy are at most 100, and `low` is at most `high`.
///
/// # Errors
///
/// `AllocError` if an allocation fails.
pub fn scenario_of(
    alloc: Global,
    slots: Slots,
    model: Model,
    a: Levels,
    b: Levels,
) -> Result<Scenario, AllocError>
    requires a { (a.low ≤ a.high) × (a.high ≤ 100) }
    requires b { (b.low ≤ b.high) × (b.high ≤ 100) }
    ensures model { IfOk result (λ s. s.model ≡ model) }
    ensures key { IfOk result (λ s. s.key ≡ 0 ∷ 0 ∷ 0 ∷ 0 ∷ []) }
    ensures two { IfOk result (λ s. length s.policies ≡ 2) }
{
    let policies = two_policies(alloc, a, b)?;
    Ok(scenario_with([0; 4], slots.count(), model, policies))
}

/// Returns the base scenario: four periods a replication of the base model, on a ring of two slots.
///
/// # Asks
///
/// `replications` is from 1 to 256.
///
/// # Errors
///
/// `AllocError` if an allocation fails.
pub fn base(alloc: Global, replications: u32) -> Result<Scenario, AllocError>
    requires replications { (1 ≤ replications) × (replications ≤ 256) }
    ensures total { IfOk result (λ s. total s.model ≡ replications) }
    ensures two { IfOk result (λ s. length s.policies ≡ 2) }
{
    let model = base_model(alloc, 4, replications)?;
    let a = Levels { low: 20, high: 40 };
    let b = Levels { low: 60, high: 80 };
    scenario_of(alloc, Slots::Two, model, a, b)
}

/// Returns whether a checkpoint has two states, which have these costs.
pub fn have_costs(checkpoint: &Checkpoint, a: &[u64], b: &[u64]) -> bool {
    let states = checkpoint.states.as_slice();
    states.len() == 2 && states[0].costs() == a && states[1].costs() == b
}

/// Returns whether a value is printed as this line.
///
/// # Errors
///
/// `AllocError` if an allocation fails.
pub fn prints<T: Display>(alloc: Global, value: &T, line: &str) -> Result<bool, AllocError> {
    let text = value.to_string(alloc)?;
    Ok(text.as_str() == line)
}

/// Returns the first line of a table of faults, with their numbers and their lines, whose fault has another number or
/// is printed in another way, or `None` if there is none.
///
/// # Asks
///
/// `number_of` may be called with every fault.
///
/// # Errors
///
/// `AllocError` if an allocation fails.
pub fn first_other_line<'a, T: Display, F: Fn(&T) -> u8>(
    alloc: Global,
    faults: &[(T, u8, &'a str)],
    number_of: F,
) -> Result<Option<&'a str>, AllocError>
    requires { F.IsAlwaysCallable number_of }
{
    for (fault, number, line) in faults {
        if number_of(fault) != *number || !prints(alloc, fault, line)? {
            return Ok(Some(line));
        }
    }
    Ok(None)
}
