//! Writes the rows of a scenario.

ghost use Rattle.std.specs.Prelude.{◌≡◌, ◌∷◌, ◌++◌, ◌^◌, ◌<◌, All, IfOk, OnOk, Some, length, true};
ghost use Rattle.crn_stock.specs.Models.{AreForScenario, IsModel, returned_values};
ghost use Rattle.crn_rows.specs.Plain.{is_plain};
ghost use Rattle.crn_rows.specs.Rows.{row_text, rows_text};
ghost use Rattle.crn_checkpoint.specs.CheckpointText as spec;
ghost use Rattle.crn_checkpoint.specs.Reading.{CanDraw, IsScenario};

use crate::version::Version;
use crate::write::rows::{with_numbers_row, with_pair_row};
use crn_draw::Weights;
use crn_rows::Sheet;
use crn_spelling::hex::hex_word;
use crn_stock::{Costs, Model, Scenario};
use itoa::Buffer;
use std::alloc::AllocError;

// Returns the sheet with the row of the version, the next block, the periods and the replications.
fn with_head_row(
    sheet: Sheet,
    version: Version,
    model: &Model,
    next: u64,
) -> Result<Sheet, AllocError>
    ensures written { IfOk result (λ after. after ≡ sheet ++ row_text (spec.head_row version model.now next)) }
    ensures range { IsModel model.now }
{
    let periods = u64::from(model.periods());
    let replications = u64::from(model.replications());
    with_numbers_row(
        sheet,
        b"checkpoint",
        version.number(),
        next,
        periods,
        replications,
    )
}

// Returns the sheet with the row of the key.
#[tactic(auto, using(crate::proofs::Rows::words_plain))]
fn with_key_row(sheet: Sheet, key: [u64; 4]) -> Result<Sheet, AllocError>
    ensures written { IfOk result (λ after. after ≡ sheet ++ row_text (spec.key_row key)) }
    ensures words { All (λ w. w < 2 ^ 64) key }
{
    sheet.with_row(&[
        b"key",
        &hex_word(key[0]),
        &hex_word(key[1]),
        &hex_word(key[2]),
        &hex_word(key[3]),
    ])
}

// Returns the sheet with the row of the cost rates.
fn with_costs_row(sheet: Sheet, costs: &Costs) -> Result<Sheet, AllocError>
    ensures { IfOk result (λ after. after ≡ sheet ++ row_text (spec.costs_row costs.now)) }
{
    with_numbers_row(
        sheet,
        b"costs",
        costs.setup,
        costs.unit,
        costs.holding,
        costs.backlog,
    )
}

// Returns the sheet with the row of the initial stock, and of how many demands, lead times and policies there are.
fn with_sizes_row(sheet: Sheet, scenario: &Scenario) -> Result<Sheet, AllocError>
    ensures written { IfOk result (λ after. after ≡ sheet ++ row_text (spec.sizes_row scenario.now)) }
    ensures others { AreForScenario scenario.now.ring scenario.now.policies }
{
    let model = scenario.model();
    let mut initial = Buffer::new();
    let mut demands = Buffer::new();
    let mut leads = Buffer::new();
    let mut policies = Buffer::new();
    sheet.with_row(&[
        b"sizes",
        initial.format(model.initial()).as_bytes(),
        demands.format(model.demand().values().len()).as_bytes(),
        leads.format(model.lead().values().len()).as_bytes(),
        policies.format(scenario.policies().len()).as_bytes(),
    ])
}

// Counts the numbers of returned items that a model has.
fn returned_count(model: &Model) -> usize
    ensures { result ≡ length (returned_values model.now.returns) }
{
    match model.returns() {
        Some(returns) => returns.values().len(),
        None => 0,
    }
}

// Returns the sheet with the row of how many numbers of returned items there are, where the version has it.
#[tactic(auto, using(crate::proofs::Rows::count_plain))]
fn with_count_row(sheet: Sheet, version: Version, model: &Model) -> Result<Sheet, AllocError>
    ensures { IfOk result (λ after. after ≡ sheet ++ rows_text (spec.count_rows version model.now)) }
{
    match version {
        Version::First => Ok(sheet),
        Version::Second => {
            let mut count = Buffer::new();
            sheet.with_row(&[
                b"returns",
                count.format(returned_count(model)).as_bytes(),
                b"-",
                b"-",
                b"-",
            ])
        }
    }
}

// Returns the sheet with a row for each value and its weight.
fn with_weight_rows(
    sheet: Sheet,
    name: &[u8],
    values: &[u32],
    weights: &[u32],
) -> Result<Sheet, AllocError>
    requires name { is_plain name.now ≡ true }
    requires count { length values.now ≡ length weights.now }
    ensures { IfOk result (λ after. after ≡ sheet ++ rows_text (spec.weight_rows name.now values.now weights.now)) }
{
    let mut sheet = sheet;
    for i in 0..values.len() {
        sheet = with_pair_row(sheet, name, u64::from(values[i]), u64::from(weights[i]))?;
    }
    Ok(sheet)
}

// Returns the sheet with the rows of values with weights.
fn with_drawn_rows(sheet: Sheet, name: &[u8], drawn: &Weights) -> Result<Sheet, AllocError>
    requires { is_plain name.now ≡ true }
    ensures written { IfOk result (λ after. after ≡ sheet ++ rows_text (spec.drawn_rows name.now drawn.now)) }
    ensures can { CanDraw (Some drawn.now) }
{
    with_weight_rows(sheet, name, drawn.values(), drawn.weights())
}

// Returns the sheet with the rows of returned items with weights, where customers return any.
fn with_returned_rows(sheet: Sheet, model: &Model) -> Result<Sheet, AllocError>
    ensures written { IfOk result (λ after. after ≡ sheet ++ rows_text (spec.returned_rows model.now.returns)) }
    ensures can { CanDraw model.now.returns }
{
    match model.returns() {
        Some(returns) => with_drawn_rows(sheet, b"return", returns),
        None => Ok(sheet),
    }
}

// Returns the sheet with the rows of each list that is drawn from.
fn with_list_rows(sheet: Sheet, model: &Model) -> Result<Sheet, AllocError>
    ensures written { IfOk result (λ after. after ≡ sheet ++ rows_text (spec.list_rows model.now)) }
    ensures demand { OnOk result (CanDraw (Some model.now.demand)) }
    ensures lead { OnOk result (CanDraw (Some model.now.lead)) }
    ensures returns { OnOk result (CanDraw model.now.returns) }
{
    let sheet = with_drawn_rows(sheet, b"demand", model.demand())?;
    let sheet = with_drawn_rows(sheet, b"lead", model.lead())?;
    with_returned_rows(sheet, model)
}

/// Returns the sheet with all rows of a scenario before block `next`.
pub(crate) fn with_scenario_rows(
    sheet: Sheet,
    version: Version,
    scenario: &Scenario,
    next: u64,
) -> Result<Sheet, AllocError>
    ensures written { IfOk result (λ after. after ≡ sheet ++ rows_text (
        spec.head_row version scenario.now.model next ∷ spec.key_row scenario.now.key ∷ spec.costs_row scenario.now.model.costs ∷ spec.sizes_row scenario.now
        ∷ spec.count_rows version scenario.now.model ++ spec.list_rows scenario.now.model)) }
    ensures range { OnOk result (IsScenario scenario.now) }
{
    let model = scenario.model();
    let sheet = with_head_row(sheet, version, model, next)?;
    let sheet = with_key_row(sheet, scenario.key())?;
    let sheet = with_costs_row(sheet, model.costs())?;
    let sheet = with_sizes_row(sheet, scenario)?;
    let sheet = with_count_row(sheet, version, model)?;
    with_list_rows(sheet, model)
}
