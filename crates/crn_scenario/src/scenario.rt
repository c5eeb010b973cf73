//! Builds the scenario of a tree without a fault.

ghost use Rattle.std.specs.Prelude.{◌≡◌, map, nat_abs, pos, true, None, option_map, option_copied, option_and_then, codes, IfOk};
ghost use Rattle.toml.specs.View.{view, table_view, array_view};
ghost use Rattle.crn_draw.specs.declared.weights.TheConstants.{TOTAL_LIMIT};
ghost use Rattle.crn_scenario.specs.Tree.{array_at, tables_of, integers_of};
ghost use Rattle.crn_scenario.specs.Fields.{are_within};
ghost use Rattle.crn_scenario.specs.Reading as spec;
ghost use Rattle.crn_scenario.specs.Inner.Reading.{AreDraws, MayBeDraws};

use crate::tree::{array_at, integer_at, member_at, natural, table_at, text_at};
use crn_draw::{DrawFault, Weights};
use crn_spelling::hex;
use crn_stock::{Costs, Model, Name, Policy, Scenario};
use std::alloc::{AllocError, Global};
use toml::value::Array;
use toml::{Table, Value};

// Returns the number at a key of a table, and 0 if there is none.
fn natural_in(table: Option<&Table>, key: &str) -> u64
    ensures { result ≡ spec.natural_in key.now (option_map (λ t. table_view t.now) table.entry) }
{
    match table {
        Some(table) => natural(integer_at(table, key)),
        None => 0,
    }
}

fn costs_of(table: Option<&Table>) -> Costs
    ensures { result ≡ spec.cost_rates_of (option_map (λ t. table_view t.now) table.entry) }
{
    Costs {
        setup: natural_in(table, "setup"),
        unit: natural_in(table, "unit"),
        holding: natural_in(table, "holding"),
        backlog: natural_in(table, "backlog"),
    }
}

// Returns the numbers of an array.
fn naturals_of(alloc: Global, array: &Array) -> Result<Vec<u32>, AllocError>
    requires { are_within (pos 0) (pos TOTAL_LIMIT) (integers_of (array_view array.now)) ≡ true }
    ensures { IfOk result (λ v. v.items ≡ map nat_abs (integers_of (array_view array.now))) }
{
    let mut naturals = Vec::new(alloc);
    'items: for item in array {
        if let Some(number) = item.as_integer() {
            naturals.push(number.unsigned_abs() as u32)?;
        }
    }
    Ok(naturals)
}

// Returns the numbers at a key of a table, none if there is no array.
fn naturals_in(alloc: Global, table: Option<&Table>, key: &str) -> Result<Vec<u32>, AllocError>
    requires { are_within (pos 0) (pos TOTAL_LIMIT) (spec.integers_in (option_and_then (array_at key.now) (option_map (λ t. table_view t.now) table))) ≡ true }
    ensures { IfOk result (λ v. v.items ≡ spec.naturals_in key.now (option_map (λ t. table_view t.now) table.entry)) }
{
    let Some(table) = table else {
        return Ok(Vec::new(alloc));
    };
    match array_at(table, key) {
        Some(array) => naturals_of(alloc, array),
        None => Ok(Vec::new(alloc)),
    }
}

// Returns values with weights that are known to have no fault.
fn weights_of(alloc: Global, table: Option<&Table>) -> Result<Weights, AllocError>
    requires draws { AreDraws (option_map (λ t. table_view t.now) table) }
    ensures { IfOk result (λ w. w ≡ spec.weighted_of (option_map (λ t. table_view t.now) table.entry)) }
{
    let values = naturals_in(alloc, table, "values")?;
    let weights = naturals_in(alloc, table, "weights")?;
    match Weights::new(alloc, &values, &weights) {
        Ok(made) => Ok(made),
        Err(DrawFault::Memory(refused)) => Err(refused),
        Err(_) => unreachable!(),
    }
}

// Returns what customers return, if there is a table that says it.
fn returns_of(alloc: Global, table: Option<&Table>) -> Result<Option<Weights>, AllocError>
    requires draws { MayBeDraws (option_map (λ t. table_view t.now) table) }
    ensures { IfOk result (λ r. r ≡ spec.returns_of (option_map (λ t. table_view t.now) table.entry)) }
{
    match table {
        Some(table) => Ok(Some(weights_of(alloc, Some(table))?)),
        None => Ok(None),
    }
}

fn policy_of(alloc: Global, policy: &Table) -> Result<Policy, AllocError>
    ensures { IfOk result (λ p. p ≡ spec.policy_of (table_view policy.now)) }
{
    let name = String::from_str(alloc, text_at(policy, "name").unwrap_or(""))?;
    Ok(Policy {
        name: Name::from_string(name),
        low: integer_at(policy, "s").unwrap_or(0),
        high: integer_at(policy, "S").unwrap_or(0),
    })
}

fn policies_of(alloc: Global, array: &Array) -> Result<Vec<Policy>, AllocError>
    ensures { IfOk result (λ v. v.items ≡ map spec.policy_of (tables_of (array_view array.now))) }
{
    let mut policies = Vec::new(alloc);
    'items: for item in array {
        if let Some(policy) = item.as_table() {
            policies.push(policy_of(alloc, policy)?)?;
        }
    }
    Ok(policies)
}

fn policies_at(alloc: Global, table: &Table) -> Result<Vec<Policy>, AllocError>
    ensures { IfOk result (λ v. v.items ≡ map spec.policy_of (spec.policies_at (table_view table.now))) }
{
    match array_at(table, "policy") {
        Some(array) => policies_of(alloc, array),
        None => Ok(Vec::new(alloc)),
    }
}

// Returns the word at a place of the key, and 0 if there is none.
fn word_at(value: Option<&Value>, place: usize) -> u64
    ensures { result ≡ spec.word_at place (option_map (λ x. view x.now) value.entry) }
{
    let Some(value) = value else {
        return 0;
    };
    match value.get(place) {
        Some(item) => match item.as_str() {
            Some(text) => hex::word_of(text),
            None => 0,
        },
        None => 0,
    }
}

fn key_of(value: Option<&Value>) -> [u64; 4]
    ensures { result ≡ spec.key_of (option_map (λ x. view x.now) value.entry) }
{
    [
        word_at(value, 0),
        word_at(value, 1),
        word_at(value, 2),
        word_at(value, 3),
    ]
}

fn model_of(alloc: Global, table: &Table) -> Result<Model, AllocError>
    requires { spec.HasNone (table_view table.now) }
    ensures { IfOk result (λ m. m ≡ spec.model_of (table_view table.now)) }
{
    let demand = weights_of(alloc, table_at(table, "demand"))?;
    let lead = weights_of(alloc, table_at(table, "lead"))?;
    let returns = returns_of(alloc, table_at(table, "returns"))?;
    Ok(Model::new(
        natural(integer_at(table, "periods")) as u32,
        natural(integer_at(table, "replications")) as u32,
        integer_at(table, "initial").unwrap_or(0),
        costs_of(table_at(table, "costs")),
        demand,
        lead,
        returns,
    ))
}

/// Returns the scenario of a tree.
///
/// # Asks
///
/// The tree has no fault.
///
/// # Errors
///
/// `AllocError` if an allocation fails.
pub fn scenario_of(alloc: Global, table: &Table) -> Result<Scenario, AllocError>
    requires { spec.HasNone (table_view table.now) }
    ensures { IfOk result (λ s. s ≡ spec.scenario_of (table_view table.now)) }
{
    let model = model_of(alloc, table)?;
    let policies = policies_at(alloc, table)?;
    let key = key_of(member_at(table, "key"));
    let ring = natural(integer_at(table, "ring"));
    Ok(Scenario::new(key, ring, model, policies))
}
