//! The faults of a scenario's tree, each by itself, and the least of them.

ghost use Rattle.std.specs.Prelude.{◌≡◌, ◌≢◌, ◌^◌, pos, ◌+ℤ◌, ◌≤ℤ◌, map, option_map, option_copied, codes, false, true, Some, None, IfOk, IfErr, OnOk, alloc_error};
ghost use Rattle.std.specs.List.{list_all};
ghost use Rattle.toml.specs.View.{view, table_view, array_view};
ghost use Rattle.crn_spelling.specs.Names.{is_name};
ghost use Rattle.crn_scenario.specs.Tree.{table_at, integers_of, tables_of};
ghost use Rattle.crn_scenario.specs.Fields as tables;
ghost use Rattle.crn_scenario.specs.Inner.Fields.{entry_of};
ghost use Rattle.crn_scenario.specs.Reading as spec;
ghost use Rattle.crn_scenario.specs.Inner.Reading as inner;

use crate::fields::{
    COSTS, DEMAND, Field, LEAD, NEWEST_VERSION, POLICY, RETURNS, Rule, TOP, is_within, keeps,
};
use crate::scenario_fault::ScenarioFault;
use crate::tree::{array_at, count_items, integer_at, natural, table_at, text_at};
use crn_draw::TOTAL_LIMIT;
use crn_limits::POLICY_LIMIT;
use crn_spelling::names::is_name;
use std::alloc::{AllocError, Global};
use std::collections::BTreeSet;
use toml::value::Array;
use toml::{Table, Value};

// Returns the version that a document names, without its sign, and 0 if it names none.
#[tactic(auto, unfolding(crate::specs::Reading::version_of))]
fn version_of(table: &Table) -> u64
    ensures { result ≡ spec.version_of (table_view table.now) }
{
    natural(integer_at(table, "version"))
}

// Returns whether a table keeps a rule, if there is one.
fn keeps_in(rule: Rule, version: u64, fields: &[Field], table: Option<&Table>) -> bool
    ensures { result ≡ spec.keeps_in rule (tables.keys_of version (map entry_of fields.now)) (option_map (λ t. table_view t.now) table.entry) }
{
    match table {
        Some(table) => keeps(rule, version, fields, table),
        None => true,
    }
}

// Whether each table among the policies keeps a rule.
fn policies_keep(rule: Rule, version: u64, policies: &Array) -> bool
    ensures { result ≡ list_all (tables.keeps rule (tables.keys_of version tables.policy)) (tables_of (array_view policies.now)) }
{
    'items: for item in policies {
        if let Some(policy) = item.as_table() {
            if !keeps(rule, version, &POLICY, policy) {
                return false;
            }
        }
    }
    true
}

// One table each: the lists of their keys are long, and the proof of all of them goes by these names.
fn top_keeps(rule: Rule, version: u64, table: &Table) -> bool
    ensures { result ≡ tables.keeps rule (tables.keys_of version tables.top_table) (table_view table.now) }
{
    keeps(rule, version, &TOP, table)
}

fn costs_keep(rule: Rule, version: u64, table: &Table) -> bool
    ensures { result ≡ spec.keeps_in rule (tables.keys_of version tables.costs) (table_at (codes "costs") (table_view table.now)) }
{
    keeps_in(rule, version, &COSTS, table_at(table, "costs"))
}

fn demand_keeps(rule: Rule, version: u64, table: &Table) -> bool
    ensures { result ≡ spec.keeps_in rule (tables.keys_of version tables.demand) (table_at (codes "demand") (table_view table.now)) }
{
    keeps_in(rule, version, &DEMAND, table_at(table, "demand"))
}

fn lead_keeps(rule: Rule, version: u64, table: &Table) -> bool
    ensures { result ≡ spec.keeps_in rule (tables.keys_of version tables.lead) (table_at (codes "lead") (table_view table.now)) }
{
    keeps_in(rule, version, &LEAD, table_at(table, "lead"))
}

fn returns_keep(rule: Rule, version: u64, table: &Table) -> bool
    ensures { result ≡ spec.keeps_in rule (tables.keys_of version tables.returns) (table_at (codes "returns") (table_view table.now)) }
{
    keeps_in(rule, version, &RETURNS, table_at(table, "returns"))
}

// Whether each table in the document keeps a rule.
#[tactic(auto, unfolding(crate::specs::Reading::inner_keep))]
fn inner_keep(rule: Rule, version: u64, table: &Table) -> bool
    ensures { result ≡ spec.inner_keep rule version (table_view table.now) }
{
    costs_keep(rule, version, table)
        && demand_keeps(rule, version, table)
        && lead_keeps(rule, version, table)
        && returns_keep(rule, version, table)
}

// Whether each table that is looked at keeps a rule: the document, the tables in it and its policies.
#[tactic(auto, unfolding(crate::specs::Reading::all_keep))]
fn all_keep(rule: Rule, table: &Table) -> bool
    ensures { result ≡ spec.all_keep rule (table_view table.now) }
{
    let version = version_of(table);
    top_keeps(rule, version, table)
        && inner_keep(rule, version, table)
        && match array_at(table, "policy") {
            Some(policies) => policies_keep(rule, version, policies),
            None => true,
        }
}

// Fault 2: the version is none of those that there are.
#[tactic(auto, unfolding(crate::specs::Reading::has_other_version))]
fn has_other_version(table: &Table) -> bool
    ensures { result ≡ spec.has_other_version (table_view table.now) }
{
    match integer_at(table, "version") {
        Some(version) => !is_within(1, i64::from(NEWEST_VERSION), Some(version)),
        None => true,
    }
}

// Fault 3: a table has a key that is not one of its keys.
#[tactic(auto, unfolding(crate::specs::Reading::has_unknown_key))]
fn has_unknown_key(table: &Table) -> bool
    ensures { result ≡ spec.has_unknown_key (table_view table.now) }
{
    !all_keep(Rule::Known, table)
}

// Fault 4: a table lacks one of its keys.
#[tactic(auto, unfolding(crate::specs::Reading::lacks_key))]
fn lacks_key(table: &Table) -> bool
    ensures { result ≡ spec.lacks_key (table_view table.now) }
{
    !all_keep(Rule::Present, table)
}

// Fault 5: a value, or an entry of an array, is not of its kind.
#[tactic(auto, unfolding(crate::specs::Reading::has_other_kind))]
fn has_other_kind(table: &Table) -> bool
    ensures { result ≡ spec.has_other_kind (table_view table.now) }
{
    !all_keep(Rule::Kinds, table)
}

// Fault 6: a number, a list or the key is out of its range.
#[tactic(auto, unfolding(crate::specs::Reading::breaks_range))]
fn breaks_range(table: &Table) -> bool
    ensures { result ≡ spec.breaks_range (table_view table.now) }
{
    !all_keep(Rule::Ranges, table)
}

fn have_other_lengths(draws: &Table) -> bool
    ensures { result ≡ spec.has_other_lengths_in (Some (table_view draws.now)) }
{
    match (array_at(draws, "values"), array_at(draws, "weights")) {
        (Some(values), Some(weights)) => count_items(values) != count_items(weights),
        _ => false,
    }
}

// Whether the numbers of an array rise strictly.
fn rise(array: &Array) -> bool
    ensures { result ≡ spec.rise_above None (integers_of (array_view array.now)) }
{
    let mut last = None;
    'items: for item in array {
        if let Some(number) = item.as_integer() {
            if !is_above(last, number) {
                return false;
            }
            last = Some(number);
        }
    }
    true
}

fn is_above(last: Option<i64>, number: i64) -> bool
    ensures { result ≡ spec.is_above last number }
{
    match last {
        Some(last) => last < number,
        None => true,
    }
}

fn have_other_order(draws: &Table) -> bool
    ensures { result ≡ spec.has_other_order_in (Some (table_view draws.now)) }
{
    match array_at(draws, "values") {
        Some(values) => !rise(values),
        None => false,
    }
}

// The sum of a list of fewer than 2^64 numbers is far within 128 bits.
fn plus(total: i128, number: Option<i64>) -> i128
    requires low { pos 0 ≤ℤ (total +ℤ pos (2 ^ 126)) }
    requires high { total ≤ℤ pos (2 ^ 126) }
    ensures { result ≡ inner.plus total number }
{
    match number {
        Some(number) => total + i128::from(number),
        None => total,
    }
}

// The sum of the numbers of an array.
fn total_of(array: &Array) -> i128
    ensures { result ≡ spec.total_of (integers_of (array_view array.now)) }
{
    let mut total = 0;
    'items: for item in array {
        total = plus(total, item.as_integer());
    }
    total
}

fn have_other_total(draws: &Table) -> bool
    ensures { result ≡ spec.has_other_total_in (Some (table_view draws.now)) }
{
    match array_at(draws, "weights") {
        Some(weights) => {
            let total = total_of(weights);
            !(1 <= total && total <= i128::from(TOTAL_LIMIT))
        }
        None => false,
    }
}

// Fault 7: a table has not as many weights as values.
#[tactic(auto, unfolding(crate::specs::Reading::has_other_lengths))]
fn has_other_lengths(table: &Table) -> bool
    ensures { result ≡ spec.has_other_lengths (table_view table.now) }
{
    table_at(table, "demand").is_some_and(have_other_lengths)
        || table_at(table, "lead").is_some_and(have_other_lengths)
        || table_at(table, "returns").is_some_and(have_other_lengths)
}

// Fault 8: the values of a table do not rise strictly.
#[tactic(auto, unfolding(crate::specs::Reading::has_values_out_of_order))]
fn has_values_out_of_order(table: &Table) -> bool
    ensures { result ≡ spec.has_values_out_of_order (table_view table.now) }
{
    table_at(table, "demand").is_some_and(have_other_order)
        || table_at(table, "lead").is_some_and(have_other_order)
        || table_at(table, "returns").is_some_and(have_other_order)
}

// Fault 9: the weights of a table are 0 in sum, or too much.
#[tactic(auto, unfolding(crate::specs::Reading::has_weights_out_of_range))]
fn has_weights_out_of_range(table: &Table) -> bool
    ensures { result ≡ spec.has_weights_out_of_range (table_view table.now) }
{
    table_at(table, "demand").is_some_and(have_other_total)
        || table_at(table, "lead").is_some_and(have_other_total)
        || table_at(table, "returns").is_some_and(have_other_total)
}

// Whether a policy's s is not above its S.
fn has_levels_in_order(policy: &Table) -> bool
    ensures { result ≡ spec.has_levels_in_order (table_view policy.now) }
{
    match (integer_at(policy, "s"), integer_at(policy, "S")) {
        (Some(low), Some(high)) => low <= high,
        _ => true,
    }
}

fn have_levels_in_order(policies: &Array) -> bool
    ensures { result ≡ list_all spec.has_levels_in_order (tables_of (array_view policies.now)) }
{
    'items: for item in policies {
        if let Some(policy) = item.as_table() {
            if !has_levels_in_order(policy) {
                return false;
            }
        }
    }
    true
}

// Fault 10: a policy's s is above its S.
#[tactic(auto, unfolding(crate::specs::Reading::has_low_above_high))]
fn has_low_above_high(table: &Table) -> bool
    ensures { result ≡ spec.has_low_above_high (table_view table.now) }
{
    match array_at(table, "policy") {
        Some(policies) => !have_levels_in_order(policies),
        None => false,
    }
}

// The names that stand among the policies.
fn names_of<'a>(alloc: Global, policies: &'a Array) -> Result<Vec<&'a str>, AllocError>
    ensures { IfOk result (λ v. map (λ n. n.now) v.items ≡ spec.names_in (array_view policies.now)) }
{
    let mut names = Vec::new(alloc);
    'items: for item in policies {
        if let Some(name) = name_of(item) {
            names.push(name)?;
        }
    }
    Ok(names)
}

fn name_of<'a>(item: &'a Value) -> Option<&'a str>
    ensures { option_copied result ≡ spec.policy_name_of (view item.now) }
{
    match item.as_table() {
        Some(policy) => text_at(policy, "name"),
        None => None,
    }
}

fn are_names(names: &[&str]) -> bool
    ensures { result ≡ list_all is_name (map (λ n. n.now) names.now) }
{
    for name in names {
        if !is_name(*name) {
            return false;
        }
    }
    true
}

// Whether no name stands twice. From the last name on, each is put among the later ones, which are kept in order:
// many policies of different names cost no more than to sort them.
fn all_differ(alloc: Global, names: &[&str]) -> Result<bool, AllocError>
    ensures { IfOk result (λ b. b ≡ spec.all_differ (map (λ n. n.now) names.now)) }
{
    let mut later = BTreeSet::new(alloc);
    for i in 0..names.len() {
        let is_new = later.insert(names[names.len() - 1 - i])?;
        if !is_new {
            return Ok(false);
        }
    }
    Ok(true)
}

// Fault 11: a policy's name has not the form of one, or stands twice.
#[tactic(auto, unfolding(crate::specs::Reading::has_bad_name))]
fn has_bad_name(alloc: Global, table: &Table) -> Result<bool, AllocError>
    ensures { IfOk result (λ b. b ≡ spec.has_bad_name (table_view table.now)) }
{
    let Some(policies) = array_at(table, "policy") else {
        return Ok(false);
    };
    let names = names_of(alloc, policies)?;
    if !are_names(names.as_slice()) {
        return Ok(true);
    }
    Ok(!all_differ(alloc, names.as_slice())?)
}

// Whether a number is the size of a ring.
#[tactic(auto, unfolding(crate::specs::Reading::is_ring_size))]
fn is_ring_size(number: i64) -> bool
    ensures { result ≡ spec.is_ring_size number }
{
    match u64::try_from(number) {
        Ok(slots) => crn_limits::is_ring_size(slots),
        Err(_) => false,
    }
}

// Fault 12: there is no ring of this size.
#[tactic(auto, unfolding(crate::specs::Reading::has_other_ring))]
fn has_other_ring(table: &Table) -> bool
    ensures { result ≡ spec.has_other_ring (table_view table.now) }
{
    match integer_at(table, "ring") {
        Some(ring) => !is_ring_size(ring),
        None => false,
    }
}

// Fault 13: there is no policy, or there are too many.
#[tactic(auto, unfolding(crate::specs::Reading::has_other_policy_count))]
fn has_other_policy_count(table: &Table) -> bool
    ensures { result ≡ spec.has_other_policy_count (table_view table.now) }
{
    match array_at(table, "policy") {
        Some(policies) => {
            let count = count_items(policies);
            !(1 <= count && count <= POLICY_LIMIT as usize)
        }
        None => false,
    }
}

// Refuses with a fault if it holds.
fn refuse_where(holds: bool, fault: ScenarioFault) -> Result<(), ScenarioFault>
    ensures kept { OnOk result (holds ≡ false) }
    ensures refused { IfErr result (λ f. (holds ≡ true) × (f ≡ fault)) }
{
    if holds { Err(fault) } else { Ok(()) }
}

// Refuses a tree whose tables, keys or single values have a fault, with the first of these.
fn judge_form(table: &Table) -> Result<(), ScenarioFault>
    ensures sound { OnOk result (inner.first_true (inner.form_faults (table_view table.now)) ≡ None) }
    ensures fault { IfErr result (λ f. inner.first_true (inner.form_faults (table_view table.now)) ≡ Some (spec.scenario_fault_number f)) }
{
    refuse_where(has_other_version(table), ScenarioFault::Version)?;
    refuse_where(has_unknown_key(table), ScenarioFault::UnknownKey)?;
    refuse_where(lacks_key(table), ScenarioFault::MissingKey)?;
    refuse_where(has_other_kind(table), ScenarioFault::Kind)?;
    refuse_where(breaks_range(table), ScenarioFault::Range)
}

// Refuses a tree whose values or weights have a fault as lists, with the first of these.
fn judge_draws(table: &Table) -> Result<(), ScenarioFault>
    ensures sound { OnOk result (inner.first_true (inner.draw_faults (table_view table.now)) ≡ None) }
    ensures fault { IfErr result (λ f. inner.first_true (inner.draw_faults (table_view table.now)) ≡ Some (spec.scenario_fault_number f)) }
{
    refuse_where(has_other_lengths(table), ScenarioFault::Lengths)?;
    refuse_where(has_values_out_of_order(table), ScenarioFault::Order)?;
    refuse_where(has_weights_out_of_range(table), ScenarioFault::WeightSum)
}

// Refuses a tree whose policies or ring have a fault, with the first of these.
fn judge_policies(alloc: Global, table: &Table) -> Result<(), ScenarioFault>
    ensures sound { OnOk result (inner.first_true (inner.policy_faults (table_view table.now)) ≡ None) }
    ensures fault { IfErr result (λ f. f ≢ ScenarioFault.Memory alloc_error → inner.first_true (inner.policy_faults (table_view table.now)) ≡ Some (spec.scenario_fault_number f)) }
{
    refuse_where(has_low_above_high(table), ScenarioFault::Levels)?;
    refuse_where(has_bad_name(alloc, table)?, ScenarioFault::Name)?;
    refuse_where(has_other_ring(table), ScenarioFault::RingSize)?;
    refuse_where(has_other_policy_count(table), ScenarioFault::PolicyCount)
}

/// Checks that a tree has no fault.
///
/// # Errors
///
/// The fault with the least number that the tree has, or `Memory` if an allocation fails.
pub fn judge(alloc: Global, table: &Table) -> Result<(), ScenarioFault>
    ensures sound { OnOk result (inner.first_true (spec.faults (table_view table.now)) ≡ None) }
    ensures fault { IfErr result (λ f. f ≢ ScenarioFault.Memory alloc_error → inner.first_true (spec.faults (table_view table.now)) ≡ Some (spec.scenario_fault_number f)) }
{
    judge_form(table)?;
    judge_draws(table)?;
    judge_policies(alloc, table)
}
