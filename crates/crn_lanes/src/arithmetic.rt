//! The steps of a period, each for all lanes.

ghost use Rattle.std.specs.Prelude.{◌≡◌, ℕ, cond, nat_lt, ◌+◌, ◌-◌, ◌*◌, ◌^◌, ◌≤◌, ◌<◌, length, slice_index};
ghost use Rattle.crn_stock.specs.Stock.{cost_of};
ghost use Rattle.crn_stock.specs.Models.{AreCosts};
ghost use Rattle.crn_stock.specs.declared.limits.TheConstants.{PERIOD_COST_LIMIT, RATE_LIMIT};
ghost use Rattle.crn_lanes.specs.Inner.Lanes.{IsRow, order_of, unbiased};
ghost use Rattle.crn_lanes.specs.declared.arithmetic.TheConstants.{LANES, BIAS, ORDER_LIMIT, STOCK_LIMIT};

use crn_limits::PERIOD_LIMIT;
use crn_stock::{Costs, ITEM_LIMIT, LEVEL_LIMIT};

/// The number of policies that run side by side.
pub(crate) const LANES: usize = 16;

/// The number that is added to an amount that may be below 0: the most items that are demanded in one replication.
pub(crate) const BIAS: u32 = PERIOD_LIMIT * ITEM_LIMIT;

/// The most items of an order: from one period's demand below no stock up to the greatest level.
pub(crate) const ORDER_LIMIT: u32 = LEVEL_LIMIT as u32 + ITEM_LIMIT;

/// The most that a stock and a position can be with the bias added.
pub(crate) const STOCK_LIMIT: u32 = 2 * BIAS + LEVEL_LIMIT as u32;

/// Returns each lane's order of a review at its position.
///
/// # Asks
///
/// No lane's `low` is above its `high`. All amounts have the same bias.
#[tactic(auto, using(crate::proofs::Rows::row_begun, crate::proofs::Rows::row_more))]
#[inline(always)]
pub(crate) fn orders_of(
    low: &[u32; LANES],
    high: &[u32; LANES],
    position: &[u32; LANES],
) -> [u32; LANES]
    requires { (k : ℕ) → k < LANES → slice_index low.now k ≤ slice_index high.now k }
    ensures { IsRow (λ k. order_of (slice_index low.now k) (slice_index high.now k) (slice_index position.now k)) LANES result }
{
    let mut orders = [0; LANES];
    for k in 0..LANES {
        orders[k] = order_for(low[k], high[k], position[k]);
    }
    orders
}

// Returns the order of a review at a position.
#[inline(always)]
fn order_for(low: u32, high: u32, position: u32) -> u32
    requires { low ≤ high }
    ensures { result ≡ order_of low high position }
{
    if position < low { high - position } else { 0 }
}

/// Returns the sum of each lane's two amounts.
///
/// # Asks
///
/// Each sum is below 2^32.
#[tactic(auto, using(crate::proofs::Rows::row_begun, crate::proofs::Rows::row_more))]
#[inline(always)]
pub(crate) fn sums_of(amounts: &[u32; LANES], others: &[u32; LANES]) -> [u32; LANES]
    requires { (k : ℕ) → k < LANES → slice_index amounts.now k + slice_index others.now k < 2 ^ 32 }
    ensures { IsRow (λ k. slice_index amounts.now k + slice_index others.now k) LANES result }
{
    let mut sums = [0; LANES];
    for k in 0..LANES {
        sums[k] = amounts[k] + others[k];
    }
    sums
}

/// Returns each lane's amount after it has gone up by its own number and by one for all, and down by one for all.
///
/// # Asks
///
/// Each amount stays below 2^32, and goes down by no more than there is.
#[tactic(auto, using(crate::proofs::Rows::row_begun, crate::proofs::Rows::row_more))]
#[inline(always)]
pub(crate) fn changed(
    amounts: &[u32; LANES],
    ups: &[u32; LANES],
    up: u32,
    down: u32,
) -> [u32; LANES]
    requires high { (k : ℕ) → k < LANES → slice_index amounts.now k + slice_index ups.now k + up < 2 ^ 32 }
    requires low { (k : ℕ) → k < LANES → down ≤ slice_index amounts.now k + slice_index ups.now k + up }
    ensures { IsRow (λ k. slice_index amounts.now k + slice_index ups.now k + up - down) LANES result }
{
    let mut after = [0; LANES];
    for k in 0..LANES {
        after[k] = amounts[k] + ups[k] + up - down;
    }
    after
}

/// Returns each lane's cost after a period with its order that ends with its stock.
///
/// # Asks
///
/// The rates are within their ranges, and each order and stock is. No cost is so high that it could overflow.
#[tactic(auto, using(crate::proofs::Rows::row_begun, crate::proofs::Rows::row_more))]
#[inline(always)]
pub(crate) fn costs_after(
    costs: &Costs,
    running: &[u64; LANES],
    orders: &[u32; LANES],
    stock: &[u32; LANES],
) -> [u64; LANES]
    requires costs { AreCosts costs.now }
    requires orders { (k : ℕ) → k < LANES → slice_index orders.now k ≤ ORDER_LIMIT }
    requires stock { (k : ℕ) → k < LANES → slice_index stock.now k ≤ STOCK_LIMIT }
    requires running { (k : ℕ) → k < LANES → slice_index running.now k + PERIOD_COST_LIMIT < 2 ^ 64 }
    ensures { IsRow (λ k. slice_index running.now k + cost_of costs.now.setup costs.now.unit costs.now.holding costs.now.backlog (slice_index orders.now k) (unbiased (slice_index stock.now k))) LANES result }
{
    let mut after = [0; LANES];
    for k in 0..LANES {
        after[k] = running[k] + cost_for(costs, orders[k], stock[k]);
    }
    after
}

// Returns the cost of a period with this order that ends with this stock.
#[inline(always)]
fn cost_for(costs: &Costs, order: u32, stock: u32) -> u64
    requires costs { AreCosts costs.now }
    requires order { order ≤ ORDER_LIMIT }
    requires stock { stock ≤ STOCK_LIMIT }
    ensures value { result ≡ cost_of costs.now.setup costs.now.unit costs.now.holding costs.now.backlog order (unbiased stock) }
    ensures cap { result ≤ PERIOD_COST_LIMIT }
{
    let most = raised(stock);
    setup_for(costs, order)
        + product(costs.unit, order)
        + product(costs.holding, most - BIAS)
        + product(costs.backlog, most - stock)
}

// Returns the setup cost of an order, and 0 if nothing is ordered.
#[inline(always)]
fn setup_for(costs: &Costs, order: u32) -> u64
    ensures value { result ≡ cond (nat_lt 0 order) costs.now.setup 0 }
    ensures cap { result ≤ costs.now.setup }
{
    if order > 0 { costs.setup } else { 0 }
}

// Returns a stock's number, or the bias if that is greater.
#[inline(always)]
fn raised(stock: u32) -> u32
    ensures below { stock < BIAS → result ≡ BIAS }
    ensures above { BIAS ≤ stock → result ≡ stock }
{
    if stock < BIAS { BIAS } else { stock }
}

// Returns the product of a rate and an amount. Both factors have 32 bits, so that processors multiply several at once.
#[inline(always)]
fn product(rate: u64, amount: u32) -> u64
    requires { rate ≤ RATE_LIMIT }
    ensures { result ≡ rate * amount }
{
    u64::from(rate as u32) * u64::from(amount)
}
