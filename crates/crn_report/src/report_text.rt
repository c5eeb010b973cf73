//! The report of a scenario: each policy's figures, their texts, and the rows that have them.

ghost use Rattle.std.specs.Prelude.{◌≡◌, ◌*◌, ◌≤◌, ◌<◌, ◌^◌, ◌++◌, true, ℕ, length, map, sum, slice_get, decimal};
ghost use Rattle.std.specs.Prelude.{All, IfOk, Some};
ghost use Rattle.std.specs.Fmt.{signed_decimal};
ghost use Rattle.crn_limits.specs.declared.TheConstants.{PERIOD_LIMIT, REPLICATION_LIMIT};
ghost use Rattle.crn_spelling.specs.Names.{is_name};
ghost use Rattle.crn_stock.specs.Models.{total};
ghost use Rattle.crn_stock.specs.Parts.{Parts};
ghost use Rattle.crn_stock.specs.declared.limits.TheConstants.{PERIOD_COST_LIMIT};
ghost use Rattle.crn_pair.specs.Pairs.{IsPairOf};
ghost use Rattle.crn_sequential.specs.Runs.{StandsBefore, IsCheckpointOf};
ghost use Rattle.crn_rows.specs.Plain.{is_plain};
ghost use Rattle.crn_rows.specs.Rows.{row_text};
ghost use Rattle.crn_report.specs.Report.{IsFigures, AreFigures, header, fields, policy_rows_text, IsReportText};
ghost use Rattle.crn_report.specs.Report as spec;

use crn_limits::PERIOD_LIMIT;
use crn_pair::{COST_LIMIT, Fraction, Pair};
use crn_rows::Sheet;
use crn_sequential::Checkpoint;
use crn_spelling::decimal::put_number;
use crn_stock::{Model, PERIOD_COST_LIMIT, Policy, Scenario, State};
use itoa::Buffer;
use std::alloc::{AllocError, Global};

// ---- The figures of a row.

// The costs of a run's replications are never too great to be compared.
const _: () = prove!(PERIOD_LIMIT as u64 * PERIOD_COST_LIMIT <= COST_LIMIT);

// What a row says of a policy beside the first one.
#[derive(Clone, Copy)]
struct Figures {
    // Over all replications.
    total: u64,
    per_period: Fraction,
    diff_total: i128,
    diff_mean: Fraction,
    // None for one replication.
    diff_var: Option<Fraction>,
    cov: Option<Fraction>,
}

// Returns the costs by replication of a policy whose state has run all blocks of the model.
fn costs_at_end<'a>(model: &Model, state: &'a State) -> &'a [u64]
    requires { StandsBefore model.now (total model.now) state.now }
    ensures value { result.now ≡ state.now.costs }
    ensures count { length result.now ≡ model.now.replications }
    ensures high { All (λ k. k ≤ PERIOD_LIMIT * PERIOD_COST_LIMIT) result.now }
{
    state.costs()
}

// Returns the sum of the costs of all replications.
fn total_of(costs: &[u64]) -> u64
    requires few { length costs.now ≤ REPLICATION_LIMIT }
    requires high { All (λ k. k ≤ PERIOD_LIMIT * PERIOD_COST_LIMIT) costs.now }
    ensures sum { result ≡ sum costs.now }
    ensures high { result < 2 ^ 63 }
{
    let mut total = 0;
    for cost in costs {
        total += *cost;
    }
    total
}

// Returns two policies' costs as a pair, which is never refused.
fn pair_of(costs: &[u64], base: &[u64]) -> Pair
    requires count { length base.now ≡ length costs.now }
    requires some { 1 ≤ length costs.now }
    requires few { length costs.now ≤ REPLICATION_LIMIT }
    requires costs { All (λ k. k ≤ PERIOD_LIMIT * PERIOD_COST_LIMIT) costs.now }
    requires base { All (λ k. k ≤ PERIOD_LIMIT * PERIOD_COST_LIMIT) base.now }
    ensures { IsPairOf costs.now base.now result }
{
    match Pair::of(costs, base) {
        Ok(pair) => pair,
        Err(_) => unreachable!(),
    }
}

fn figures_of(model: &Model, state: &State, base: &State) -> Figures
    requires state { StandsBefore model.now (total model.now) state.now }
    requires base { StandsBefore model.now (total model.now) base.now }
    ensures { IsFigures model.now state.now.costs base.now.costs result }
{
    let periods = u64::from(model.periods()) * u64::from(model.replications());
    let costs = costs_at_end(model, state);
    let pair = pair_of(costs, costs_at_end(model, base));
    let total = total_of(costs);
    Figures {
        total,
        per_period: Fraction::new(i128::from(total), periods),
        diff_total: pair.diff_total(),
        diff_mean: pair.mean_diff(),
        diff_var: pair.var_of_mean(),
        cov: pair.covariance(),
    }
}

// Returns the figures of all policies, whose costs are those of their states.
fn all_figures(
    alloc: Global,
    scenario: &Scenario,
    states: &[State],
) -> Result<Vec<Figures>, AllocError>
    requires stand { (i : ℕ) (v : Parts) → slice_get states.now i ≡ Some v → StandsBefore scenario.now.model (total scenario.now.model) v }
    ensures { IfOk result (λ f. AreFigures scenario.now.model (map (λ v. v.costs) states.now) f.items) }
{
    let mut figures = Vec::with_capacity(alloc, states.len())?;
    for i in 0..states.len() {
        figures.push(figures_of(scenario.model(), &states[i], &states[0]))?;
    }
    Ok(figures)
}

// ---- The texts of its fields. None of their bytes calls for quotes.

// Returns a number's text, in the buffer that is lent. It calls for no quotes.
#[tactic(auto, using(crn_rows::proofs::Plainness::decimal_plain))]
fn decimal_field<'b>(buffer: &'b mut Buffer, number: u64) -> &'b [u8]
    ensures text { result.now ≡ decimal number }
    ensures plain { is_plain result.now ≡ true }
{
    buffer.format(number).as_bytes()
}

// Returns the text of a number, perhaps below 0, in the buffer that is lent. It calls for no quotes.
#[tactic(auto, using(crn_rows::proofs::Plainness::signed_plain))]
fn signed_field<'b>(buffer: &'b mut Buffer, number: i128) -> &'b [u8]
    ensures text { result.now ≡ signed_decimal number }
    ensures plain { is_plain result.now ≡ true }
{
    buffer.format(number).as_bytes()
}

#[tactic(auto, using(crate::proofs::Ratios::ratio_plain))]
fn fraction_text(alloc: Global, fraction: Fraction) -> Result<Vec<u8>, AllocError>
    ensures text { IfOk result (λ text. text.items ≡ spec.fraction_text fraction) }
    ensures plain { IfOk result (λ text. is_plain text.items ≡ true) }
{
    let mut text = Vec::new(alloc);
    put_number(&mut text, fraction.num)?;
    text.push(b'/')?;
    put_number(&mut text, fraction.den)?;
    Ok(text)
}

fn estimate_text(alloc: Global, estimate: Option<Fraction>) -> Result<Vec<u8>, AllocError>
    ensures text { IfOk result (λ text. text.items ≡ spec.estimate_text estimate) }
    ensures plain { IfOk result (λ text. is_plain text.items ≡ true) }
{
    match estimate {
        Some(fraction) => fraction_text(alloc, fraction),
        None => Vec::from_slice(alloc, b"-"),
    }
}

// ---- The rows.

// Returns the sheet with the row of the fields' names.
fn with_header(sheet: Sheet) -> Result<Sheet, AllocError>
    ensures { IfOk result (λ after. after ≡ sheet ++ row_text header) }
{
    sheet.with_row(&[
        b"policy",
        b"s",
        b"S",
        b"total",
        b"per_period",
        b"diff_total",
        b"diff_mean",
        b"diff_var",
        b"cov",
    ])
}

// Returns the sheet with the row of a policy and its figures.
#[tactic(auto, using(crn_rows::proofs::PlainFields::name_plain))]
fn with_policy_row(
    alloc: Global,
    sheet: Sheet,
    policy: &Policy,
    figures: &Figures,
) -> Result<Sheet, AllocError>
    requires { is_name policy.now.name ≡ true }
    ensures { IfOk result (λ after. after ≡ sheet ++ row_text (fields policy.now figures.now)) }
{
    let (mut low, mut high) = (Buffer::new(), Buffer::new());
    let (mut total, mut diff_total) = (Buffer::new(), Buffer::new());
    let per_period = fraction_text(alloc, figures.per_period)?;
    let diff_mean = fraction_text(alloc, figures.diff_mean)?;
    let diff_var = estimate_text(alloc, figures.diff_var)?;
    let cov = estimate_text(alloc, figures.cov)?;
    sheet.with_row(&[
        policy.name.as_str().as_bytes(),
        signed_field(&mut low, i128::from(policy.low)),
        signed_field(&mut high, i128::from(policy.high)),
        decimal_field(&mut total, figures.total),
        per_period.as_slice(),
        signed_field(&mut diff_total, figures.diff_total),
        diff_mean.as_slice(),
        diff_var.as_slice(),
        cov.as_slice(),
    ])
}

// Returns the sheet with a row for each policy and its figures.
fn with_policy_rows(
    alloc: Global,
    sheet: Sheet,
    policies: &[Policy],
    figures: &[Figures],
) -> Result<Sheet, AllocError>
    requires names { All (λ p. is_name p.name ≡ true) policies.now }
    requires count { length figures.now ≡ length policies.now }
    ensures { IfOk result (λ after. after ≡ sheet ++ policy_rows_text policies.now figures.now) }
{
    let mut sheet = sheet;
    for i in 0..policies.len() {
        sheet = with_policy_row(alloc, sheet, &policies[i], &figures[i])?;
    }
    Ok(sheet)
}

/// Returns the report of a scenario from the states of all its policies at the end of the run, as CSV: a row with the
/// names of the fields, then a row for each policy in the scenario's order.
///
/// A row has the policy's name and levels, the sum of its costs, that over all periods, and how its costs differ from
/// those of the first policy, replication by replication: the sum and the mean of the differences, the variance of that
/// mean, and the covariance of the two policies' costs. One replication tells nothing of the last two, and they are
/// `-`.
///
/// # Asks
///
/// The states are those of the scenario's policies, one for each, with all blocks run. The checkpoint's `next` is not
/// looked at.
///
/// # Errors
///
/// `AllocError` if an allocation fails.
pub fn report(
    alloc: Global,
    scenario: &Scenario,
    checkpoint: &Checkpoint,
) -> Result<Vec<u8>, AllocError>
    requires of { IsCheckpointOf scenario.now (total scenario.now.model) checkpoint.now.states.items }
    ensures { IfOk result (λ text. IsReportText scenario.now (map (λ v. v.costs) checkpoint.now.states.items) text.items) }
{
    let figures = all_figures(alloc, scenario, &checkpoint.states)?;
    let sheet = with_header(Sheet::new(alloc))?;
    let sheet = with_policy_rows(alloc, sheet, scenario.policies(), &figures)?;
    sheet.into_text()
}
