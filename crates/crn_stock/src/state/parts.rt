//! What a state reports of itself.

ghost use Rattle.std.specs.Prelude.{◌≡◌, ◌*◌, ◌≤◌, ◌<◌, ◌↔◌, ◌+ℤ◌, pos, All, IsTrue, length, sum, slice_index};
ghost use Rattle.crn_stock.specs.Parts.{AreInRange};
ghost use Rattle.crn_stock.specs.declared.limits.TheConstants.{LEAD_LIMIT, PERIOD_COST_LIMIT};
ghost use Rattle.crn_limits.specs.declared.TheConstants.{PERIOD_LIMIT};
ghost use Rattle.crn_stock.specs.Stock.{next_block};

use super::State;
use crate::limits::DUE_PERIODS;
use crn_cipher::STREAM_WORDS;

impl State {
    /// Returns the number of the first block of which no period has run.
    pub fn next_block(&self) -> u64
        ensures { result ≡ next_block self.now }
    {
        let done = self.costs.len() as u64 * u64::from(self.periods.div_ceil(STREAM_WORDS));
        done + u64::from(self.period.div_ceil(STREAM_WORDS))
    }

    /// Returns the amount that arrives `k` periods after the next one, of the orders placed so far: at 0 in the next period
    /// itself. An amount due after the replication's end never arrives.
    ///
    /// # Asks
    ///
    /// `k` is below [`LEAD_LIMIT`](crate::LEAD_LIMIT).
    pub fn due(&self, k: usize) -> u64
        requires { k < LEAD_LIMIT }
        ensures { result ≡ slice_index self.now.due k }
    {
        self.due[((self.period as usize) % DUE_PERIODS + k) % DUE_PERIODS]
    }

    /// Returns the position before the next review, in items: the stock and all that is on order. It is
    /// -[`ITEM_LIMIT`](crate::ITEM_LIMIT) to [`LEVEL_LIMIT`](crate::LEVEL_LIMIT), and with returns `ITEM_LIMIT` more for each
    /// period that has run.
    pub fn position(&self) -> i64
        ensures { result ≡ self.now.stock +ℤ pos (sum self.now.due) }
    {
        self.position
    }

    /// Returns whether some replication is still to be done.
    pub fn is_open(&self) -> bool
        ensures { IsTrue result ↔ (length self.now.costs < self.now.replications) }
    {
        self.costs.len() < self.replications as usize
    }

    /// Returns the costs of the replications that are done, in their order: each at most
    /// [`PERIOD_COST_LIMIT`](crate::PERIOD_COST_LIMIT) a period.
    pub fn costs(&self) -> &[u64]
        ensures value { result.now ≡ self.now.costs }
        ensures count { length result.now ≤ self.now.replications }
        ensures high { All (λ k. k ≤ self.now.periods * PERIOD_COST_LIMIT) result.now }
        ensures periods { self.now.periods ≤ PERIOD_LIMIT }
        ensures range { AreInRange self.now }
    {
        self.costs.as_slice()
    }

    /// Returns the next period of the replication under way: 0 if none of its periods has run.
    pub fn period(&self) -> u32
        ensures value { result ≡ self.now.period }
        ensures range { AreInRange self.now }
    {
        self.period
    }

    /// Returns the stock at the end of the last period, in items, below 0 if there is backlog, and the initial stock if no
    /// period of the replication has run. After `t` periods it is at least `-ITEM_LIMIT * t`, and at most
    /// [`LEVEL_LIMIT`](crate::LEVEL_LIMIT), or with returns `LEVEL_LIMIT + ITEM_LIMIT * t`.
    pub fn stock(&self) -> i64
        ensures { result ≡ self.now.stock }
    {
        self.stock
    }

    /// Returns the cost of the periods that have run in the replication under way.
    pub fn running(&self) -> u64
        ensures { result ≡ self.now.running }
    {
        self.running
    }
}
