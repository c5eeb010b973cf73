//! What decides a policy's periods: its terms, and what each period draws.

ghost use Rattle.std.specs.Prelude.{pos, ◌≤◌, ◌≤ℤ◌};
ghost use Rattle.crn_stock.specs.Models.{AreCosts};
ghost use Rattle.crn_stock.specs.declared.limits.TheConstants.{ITEM_LIMIT, LEAD_LIMIT, LEVEL_LIMIT};

use crate::model::{Costs, Model};
use crate::policy::Policy;
use crn_cipher::Block;

/// The terms of a policy, which decide each of its periods: its levels and the model's cost rates, read once for many
/// blocks ([`State::take_block_by`](crate::State::take_block_by)).
#[derive(Clone, Copy)]
pub struct Terms {
    pub(crate) low: i64,
    pub(crate) high: i64,
    pub(crate) costs: Costs,
    pub ghost low_range: { pos 0 ≤ℤ low },
    pub ghost order: { low ≤ℤ high },
    pub ghost high_range: { high ≤ℤ LEVEL_LIMIT },
    pub ghost costs_range: { AreCosts costs },
}

impl Terms {
    ghost use Rattle.std.specs.Prelude.{◌≡◌};
    ghost use Rattle.crn_stock.specs.Models.{IsPolicy};
    ghost use Rattle.crn_stock.specs.Stock.{terms_of, terms_in};

    /// Returns the terms of a policy under cost rates. Allocates nothing.
    ///
    /// # Asks
    ///
    /// The policy's levels and the cost rates are within their ranges.
    #[inline(always)]
    pub fn of(policy: &Policy, costs: &Costs) -> Terms
        requires policy { IsPolicy policy.now }
        requires costs { AreCosts costs.now }
        ensures { terms_in result ≡ terms_of policy.now costs.now }
    {
        Terms {
            low: policy.low,
            high: policy.high,
            costs: *costs,
        }
    }
}

/// The draw of one period: the demand, the lead time of an order placed in it, and the items that customers return.
#[derive(Clone, Copy)]
pub(crate) struct Drawn {
    pub demand: u32,
    pub lead: u32,
    pub returned: u32,
    pub ghost demand_high: { demand ≤ ITEM_LIMIT },
    pub ghost lead_low: { 1 ≤ lead },
    pub ghost lead_high: { lead ≤ LEAD_LIMIT },
    pub ghost returned_high: { returned ≤ ITEM_LIMIT },
}

/// The source that periods draw from, one after another.
#[derive(Clone, Copy)]
pub(crate) enum DrawSource<'a> {
    /// The draw of a single period, as it is given.
    Given(Drawn),
    /// The words of a block: each period draws by its word of each stream.
    Words(&'a Model, &'a Block),
    /// The words of a block where customers return nothing, so that no period has to ask.
    WordsWithoutReturns(&'a Model, &'a Block),
}

impl<'a> DrawSource<'a> {
    ghost use Rattle.std.specs.Prelude.{◌≡◌, ◌<◌, false};
    ghost use Rattle.crn_stock.specs.Inner.Steps.{draw_in, nth_draw, NoneReturned};

    /// Returns the draw of the period after `k` others.
    #[inline(always)]
    pub(crate) fn nth(&self, k: usize) -> Drawn
        requires { k < 4 }
        ensures { draw_in result ≡ nth_draw self.now k }
    {
        match self {
            DrawSource::Given(drawn) => *drawn,
            DrawSource::Words(model, block) => Drawn {
                demand: model.demand().pick_nth(&block.demand, k),
                lead: model.lead().pick_nth(&block.lead, k),
                returned: model.returned(block.returns[k]),
            },
            DrawSource::WordsWithoutReturns(model, block) => Drawn {
                demand: model.demand().pick_nth(&block.demand, k),
                lead: model.lead().pick_nth(&block.lead, k),
                returned: 0,
            },
        }
    }
}
