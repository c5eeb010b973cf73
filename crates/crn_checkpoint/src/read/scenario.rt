//! Reads a scenario from its rows.

ghost use Rattle.std.specs.Prelude.{◌≡◌, ◌<◌, ◌^◌, ℕ, List, [], Option, None, Some, All, IfOk, MatchResult, alloc_error, length};
ghost use Rattle.crn_draw.specs.Spread.{Weighted};
ghost use Rattle.crn_draw.specs.Faults.{least_weights_fault};
ghost use Rattle.crn_stock.specs.Parts.{Parts};
ghost use Rattle.crn_stock.specs.Models.{IsModel, returned_values, ScenarioParts};
ghost use Rattle.crn_checkpoint.specs.CheckpointText as spec;
ghost use Rattle.crn_checkpoint.specs.Reading.{CanDraw, CanTell};
ghost use Rattle.crn_checkpoint.specs.Inner.Cells.{AreRowsOf};
ghost use Rattle.crn_checkpoint.specs.Inner.Sizes.{model_parts_of};

use crate::fault::Unread;
use crate::read::cells::{integer_in, natural_in, small_column, text_in};
use crate::read::layout::Layout;
use crate::version::Version;
use crn_draw::Weights;
use crn_rows::Row;
use crn_spelling::hex::word_of;
use crn_stock::{Costs, Model};
use std::alloc::Global;

/// Returns the version that the rows name, if there is such a version.
pub(crate) fn version_of(rows: &[Row]) -> Option<Version>
    ensures { (v : Version) (s : ScenarioParts) (next : ℕ) (states : List Parts) → AreRowsOf v s next states rows.now → result ≡ Some v }
{
    match natural_in(rows, 0, 1) {
        1 => Some(Version::First),
        2 => Some(Version::Second),
        _ => None,
    }
}

/// Returns the key of the stream.
pub(crate) fn key_of(rows: &[Row]) -> [u64; 4]
    ensures { (v : Version) (s : ScenarioParts) (next : ℕ) (states : List Parts) → AreRowsOf v s next states rows.now → result ≡ s.key }
{
    [
        word_of(text_in(rows, 1, 1)),
        word_of(text_in(rows, 1, 2)),
        word_of(text_in(rows, 1, 3)),
        word_of(text_in(rows, 1, 4)),
    ]
}

/// Returns the number of policies.
pub(crate) fn policy_count(rows: &[Row]) -> usize
    ensures { (v : Version) (s : ScenarioParts) (next : ℕ) (states : List Parts) → AreRowsOf v s next states rows.now → result ≡ length s.policies }
{
    natural_in(rows, 3, 4) as usize
}

// Reads values with their weights from their rows.
fn weights_of(alloc: Global, rows: &[Row]) -> Result<Weights, Unread>
    ensures { (name : List ℕ) (d : Weighted) → least_weights_fault d.values d.weights ≡ None → All (λ v. v < 2 ^ 32) d.values → rows.now ≡ spec.drawn_rows name d
        → MatchResult result (λ w. w ≡ d) (λ f. f ≡ Unread.Memory alloc_error) }
{
    let values = small_column(alloc, rows, 1)?;
    let weights = small_column(alloc, rows, 2)?;
    Ok(Weights::new(alloc, values.as_slice(), weights.as_slice())?)
}

// Reads the returned items with their weights from their rows: without rows there are none.
fn returns_of(alloc: Global, rows: &[Row]) -> Result<Option<Weights>, Unread>
    ensures none { rows.now ≡ [] → IfOk result (λ r. r ≡ None) }
    ensures reads { (d : Option Weighted) → CanDraw d → All (λ v. v < 2 ^ 32) (returned_values d) → rows.now ≡ spec.returned_rows d
        → MatchResult result (λ r. r ≡ d) (λ f. f ≡ Unread.Memory alloc_error) }
{
    if rows.is_empty() {
        return Ok(None);
    }
    Ok(Some(weights_of(alloc, rows)?))
}

/// The sizes, the initial stock and the cost rates of a model, whatever they are.
#[derive(Clone, Copy)]
pub(crate) struct Sizes {
    periods: u64,
    replications: u64,
    initial: i64,
    costs: Costs,
}

// Returns the model of these parts, which must be within their ranges.
fn model_with(
    sizes: Sizes,
    demand: Weights,
    lead: Weights,
    returns: Option<Weights>,
) -> Result<Model, Unread>
    ensures returns { IfOk result (λ m. m.returns ≡ returns) }
    ensures model { IsModel (model_parts_of sizes demand lead returns) → MatchResult result (λ m. m ≡ model_parts_of sizes demand lead returns) (λ f. f ≡ Unread.Memory alloc_error) }
{
    match Model::checked(
        sizes.periods,
        sizes.replications,
        sizes.initial,
        sizes.costs,
        demand,
        lead,
        returns,
    ) {
        Some(model) => Ok(model),
        None => Err(Unread::NoCheckpoint),
    }
}

// Reads the sizes, the initial stock and the cost rates.
fn sizes_of(rows: &[Row]) -> Sizes
    ensures { (v : Version) (s : ScenarioParts) (next : ℕ) (states : List Parts) → AreRowsOf v s next states rows.now
        → model_parts_of result s.model.demand s.model.lead s.model.returns ≡ s.model }
{
    Sizes {
        periods: natural_in(rows, 0, 3),
        replications: natural_in(rows, 0, 4),
        initial: integer_in(rows, 3, 1),
        costs: Costs {
            setup: natural_in(rows, 2, 1),
            unit: natural_in(rows, 2, 2),
            holding: natural_in(rows, 2, 3),
            backlog: natural_in(rows, 2, 4),
        },
    }
}

/// Reads the model, which must be within its ranges.
pub(crate) fn model_of(alloc: Global, layout: &Layout) -> Result<Model, Unread>
    ensures tells { IfOk result (λ m. CanTell layout.now.version m) }
    ensures model { (s : ScenarioParts) (next : ℕ) (states : List Parts) → AreRowsOf layout.now.version s next states layout.now.rows.now → MatchResult result (λ m. m ≡ s.model) (λ f. f ≡ Unread.Memory alloc_error) }
{
    let demand = weights_of(alloc, layout.demand)?;
    let lead = weights_of(alloc, layout.lead)?;
    let returns = returns_of(alloc, layout.returned)?;
    model_with(sizes_of(layout.rows), demand, lead, returns)
}
