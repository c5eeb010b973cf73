//! The parts of several policies that a period changes, side by side.

ghost use Rattle.std.specs.Prelude.{◌≡◌, ℕ, ◌+◌, ◌%◌, ◌^◌, ◌≤◌, ◌<◌, pos, ◌+ℤ◌, ◌≤ℤ◌, true, length, slice_index, sum};
ghost use Rattle.crn_stock.specs.Models.{AreCosts};
ghost use Rattle.crn_stock.specs.Parts.{rotated};
ghost use Rattle.crn_stock.specs.Inner.Steps.{next_due};
ghost use Rattle.crn_stock.specs.declared.limits.TheConstants.{LEAD_LIMIT, LEVEL_LIMIT};
ghost use Rattle.crn_limits.specs.declared.TheConstants.{PERIOD_LIMIT};
ghost use Rattle.crn_lanes.specs.Inner.Lanes.{column, unbiased, IsLane, IsFresh, AreLevels, HasRunOne};
ghost use Rattle.crn_lanes.specs.declared.arithmetic.TheConstants.{LANES, BIAS, STOCK_LIMIT};

use crate::arithmetic::{BIAS, LANES, changed, costs_after, orders_of, sums_of};
use crate::drawn::Drawn;
use crn_stock::{Costs, LEAD_LIMIT};

/// The number of the periods ahead for which amounts due are kept.
pub(crate) const DUE_PERIODS: usize = LEAD_LIMIT as usize;

/// The levels of each lane's policy, each with the bias added.
#[derive(Clone, Copy)]
pub(crate) struct Levels {
    pub low: [u32; LANES],
    pub high: [u32; LANES],
}

/// What a period changes of each lane. Stock and position have the bias added.
#[derive(Clone, Copy)]
pub(crate) struct Lanes {
    pub stock: [u32; LANES],
    pub position: [u32; LANES],
    pub running: [u64; LANES],
    // The row of a period has the index that is the period modulo `DUE_PERIODS`.
    pub due: [[u32; LANES]; DUE_PERIODS],
}

// Takes the row at `place` out and adds orders to the row `lead` places on.
#[inline(always)]
fn turn(
    due: &mut [[u32; LANES]; DUE_PERIODS],
    place: usize,
    lead: usize,
    orders: &[u32; LANES],
) -> [u32; LANES]
    requires place { place < LEAD_LIMIT }
    requires lead_low { 1 ≤ lead }
    requires lead_high { lead ≤ LEAD_LIMIT }
    requires room { (k : ℕ) → k < LANES → sum (column due.old k) + slice_index orders.now k < 2 ^ 32 }
    ensures arrived { (k : ℕ) → k < LANES → slice_index result k ≡ slice_index (rotated (column due.old k) place) 0 }
    ensures moved { (k : ℕ) → k < LANES → rotated (column due.new k) ((place + 1) % LEAD_LIMIT) ≡ next_due (rotated (column due.old k) place) lead (slice_index orders.now k) }
    ensures sum { (k : ℕ) → k < LANES → sum (column due.new k) + slice_index result k ≡ sum (column due.old k) + slice_index orders.now k }
    ensures rows { length due.new ≡ LEAD_LIMIT }
{
    let arrived = due[place];
    due[place] = [0; LANES];
    let late = (place + lead) % DUE_PERIODS;
    let row = due[late];
    due[late] = sums_of(&row, orders);
    arrived
}

/// Runs one period of all lanes with one draw.
///
/// # Asks
///
/// The cost rates and the levels are within their ranges, and so is what each lane has before the period.
#[inline(always)]
pub(crate) fn run_one(levels: &Levels, costs: &Costs, lanes: &mut Lanes, period: u32, drawn: &Drawn)
    requires costs { AreCosts costs.now }
    requires levels { AreLevels levels.now }
    requires period { period < PERIOD_LIMIT }
    requires lanes { (k : ℕ) → k < LANES → IsLane true period lanes.old k }
    ensures { (k : ℕ) → k < LANES → HasRunOne levels.now costs.now period drawn.now lanes.old lanes.new k }
{
    let place = (period % LEAD_LIMIT) as usize;
    let orders = orders_of(&levels.low, &levels.high, &lanes.position);
    let arrived = turn(&mut lanes.due, place, drawn.lead as usize, &orders);
    lanes.stock = changed(&lanes.stock, &arrived, drawn.returned, drawn.demand);
    lanes.position = changed(&lanes.position, &orders, drawn.returned, drawn.demand);
    lanes.running = costs_after(costs, &lanes.running, &orders, &lanes.stock);
}

/// Returns lanes before the first period of a replication, each with this stock.
///
/// # Asks
///
/// The stock is within the range of an initial stock.
pub(crate) fn fresh(initial: i64) -> Lanes
    requires low { pos 0 ≤ℤ initial }
    requires high { initial ≤ℤ LEVEL_LIMIT }
    ensures { (k : ℕ) → k < LANES → IsFresh initial result k }
{
    let stock = [biased(initial); LANES];
    Lanes {
        stock,
        position: stock,
        running: [0; LANES],
        due: [[0; LANES]; DUE_PERIODS],
    }
}

/// Returns an amount with the bias added.
///
/// # Asks
///
/// The amount is at least minus the bias, and with the bias below 2^32.
pub(crate) fn biased(amount: i64) -> u32
    requires low { pos 0 ≤ℤ (amount +ℤ pos BIAS) }
    requires high { (amount +ℤ pos BIAS) ≤ℤ pos STOCK_LIMIT }
    ensures { unbiased result ≡ amount }
{
    (amount + i64::from(BIAS)) as u32
}

/// Returns the amount that a number with the bias added stands for.
pub(crate) fn without_bias(number: u32) -> i64
    ensures { result ≡ unbiased number }
{
    i64::from(number) - i64::from(BIAS)
}
