//! The states of several policies side by side, between two blocks.

ghost use Rattle.std.specs.Prelude.{◌≡◌, ℕ, ◌+◌, ◌-◌, ◌≤◌, ◌<◌, false};
ghost use Rattle.crn_stock.specs.Models.{ModelParts, has_returns, total};
ghost use Rattle.crn_stock.specs.Inner.Steps.{drawn_from};
ghost use Rattle.crn_stock.specs.Stock.{CanTake, HasTaken, OnwardAt, terms_of, next_block};
ghost use Rattle.crn_stock.specs.declared.policy.Policy.{Policy};
ghost use Rattle.crn_limits.specs.declared.TheConstants.{PERIOD_LIMIT};
ghost use Rattle.crn_lanes.specs.Inner.Lanes.{IsLane, AreLevels, HaveRun, draw_in, terms_at};
ghost use Rattle.crn_lanes.specs.Inner.Groups.{IsGroup, lane};
ghost use Rattle.crn_lanes.specs.declared.arithmetic.TheConstants.{LANES};

use crate::arithmetic::LANES;
use crate::drawn::Drawn;
use crate::lanes::{Lanes, Levels, fresh, run_one};
use crn_cipher::{Block, STREAM_WORDS, block};
use crn_stock::Model;

/// The states of several policies of a model side by side, between two blocks: what is done, and what each has of the
/// replication under way before its next period.
#[derive(Drop)]
pub(crate) struct Group {
    pub period: u32,
    // A row for each replication that is done.
    pub costs: Vec<[u64; LANES]>,
    pub lanes: Lanes,
}

/// Runs the blocks `from` to `upto - 1` of a key.
///
/// # Asks
///
/// Each lane stands before block `from`, which is at most `upto`, which is at most the model's total.
pub(crate) fn run_blocks(
    group: &mut Group,
    levels: &Levels,
    model: &Model,
    key: [u64; 4],
    from: u64,
    upto: u64,
)
    requires levels { AreLevels levels.now }
    requires group { IsGroup model.now group.old }
    requires stand { (k : ℕ) → k < LANES → next_block (lane model.now group.old k) ≡ from }
    requires from { from ≤ upto }
    requires below { upto ≤ total model.now }
    ensures group { IsGroup model.now group.new }
    ensures stand { (k : ℕ) → k < LANES → next_block (lane model.now group.new k) ≡ upto }
    ensures onward { (k : ℕ) (policy : Policy) → k < LANES → terms_at levels.now model.now.costs k ≡ terms_of policy model.now.costs
        → OnwardAt model.now policy key (lane model.now group.old k) upto (lane model.now group.new k) }
{
    for number in from..upto {
        take_block(group, levels, model, &block(key, number));
    }
}

// Runs the periods of the next block.
#[inline(always)]
fn take_block(group: &mut Group, levels: &Levels, model: &Model, block: &Block)
    requires levels { AreLevels levels.now }
    requires group { IsGroup model.now group.old }
    requires can { (k : ℕ) → k < LANES → CanTake model.now block.now (lane model.now group.old k) }
    ensures group { IsGroup model.now group.new }
    ensures taken { (k : ℕ) → k < LANES → HasTaken model.now (terms_at levels.now model.now.costs k) block.now (lane model.now group.old k) (lane model.now group.new k) }
{
    let periods = model.periods();
    let count = STREAM_WORDS.min(periods - group.period);
    run_periods(levels, model, block, &mut group.lanes, group.period, count);
    group.period += count;
    if group.period == periods {
        group.costs.push_reserved(group.lanes.running);
        group.lanes = fresh(model.initial());
        group.period = 0;
    }
}

// Runs the first `count` periods of a block.
#[inline(always)]
fn run_periods(
    levels: &Levels,
    model: &Model,
    block: &Block,
    lanes: &mut Lanes,
    period: u32,
    count: u32,
)
    requires levels { AreLevels levels.now }
    requires period { period + count ≤ PERIOD_LIMIT }
    requires count { count ≤ 4 }
    requires lanes { (k : ℕ) → k < LANES → IsLane (has_returns model.now) period lanes.old k }
    ensures { HaveRun levels.now model.now.costs (drawn_from model.now block.now) (has_returns model.now) period count lanes.old lanes.new }
{
    let costs = model.costs();
    for k in 0..count {
        let drawn = draw(model, block, k as usize);
        run_one(levels, costs, lanes, period + k, &drawn);
    }
}

// Returns the draw of the period after `k` others of a block.
#[inline(always)]
fn draw(model: &Model, block: &Block, k: usize) -> Drawn
    requires { k < 4 }
    ensures value { draw_in result ≡ drawn_from model.now block.now k }
    ensures none { has_returns model.now ≡ false → result.returned ≡ 0 }
{
    Drawn {
        demand: model.demand().pick_nth(&block.demand, k),
        lead: model.lead().pick_nth(&block.lead, k),
        returned: model.returned(block.returns[k]),
    }
}
