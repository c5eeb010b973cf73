//! The limits of a model's parts, and what follows from them.

use crn_limits::PERIOD_LIMIT;

/// The most items that are demanded in one period, and the most that customers return in one.
pub const ITEM_LIMIT: u32 = 10_000;

/// The longest lead time of an order, in periods.
pub const LEAD_LIMIT: u32 = 32;

/// The greatest initial stock, reorder point and order-up-to level, in items.
pub const LEVEL_LIMIT: i64 = 1_000_000;

/// The greatest setup cost of an order.
pub const SETUP_LIMIT: u64 = 100_000_000;

/// The greatest cost of one item that is ordered, on hand or on backlog.
pub const RATE_LIMIT: u64 = 10_000;

/// A bound of what one period costs, in every model. It is a round number above the greatest cost that these limits allow,
/// and a range of the checkpoint format.
pub const PERIOD_COST_LIMIT: u64 = 200_000_000_000;

/// The most items that come or go by demands or returns in one replication.
pub(crate) const FLOW_LIMIT: u64 = PERIOD_LIMIT as u64 * ITEM_LIMIT as u64;

/// The most items of a stock and of a position: orders reach the greatest level, and returned items come on top.
pub(crate) const STOCK_LIMIT: u64 = LEVEL_LIMIT as u64 + FLOW_LIMIT;

/// The most items of an order: from one period's demand below no stock up to the greatest level.
pub(crate) const ORDER_LIMIT: u64 = LEVEL_LIMIT as u64 + ITEM_LIMIT as u64;

/// The most items on order: from the greatest backlog up to the greatest position.
pub(crate) const ON_ORDER_LIMIT: u64 = FLOW_LIMIT + STOCK_LIMIT;

/// The number of the periods ahead for which a state keeps the amounts due.
pub(crate) const DUE_PERIODS: usize = LEAD_LIMIT as usize;

// No period costs more than the bound: its order, and its holding or backlog cost.
const _: () = prove!(
    SETUP_LIMIT + RATE_LIMIT * ORDER_LIMIT + RATE_LIMIT * STOCK_LIMIT <= PERIOD_COST_LIMIT
);

// A backlog is no greater than a stock can be.
const _: () = prove!(FLOW_LIMIT <= STOCK_LIMIT);
