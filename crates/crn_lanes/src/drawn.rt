//! The draw of one period.

ghost use Rattle.std.specs.Prelude.{◌≤◌};
ghost use Rattle.crn_stock.specs.declared.limits.TheConstants.{ITEM_LIMIT, LEAD_LIMIT};

/// The demand of a period, the lead time of an order placed in it, and the items that customers return in it.
#[derive(Clone, Copy)]
pub(crate) struct Drawn {
    pub demand: u32,
    pub lead: u32,
    pub returned: u32,
    pub ghost demand_high: { demand ≤ ITEM_LIMIT },
    pub ghost lead_low: { 1 ≤ lead },
    pub ghost lead_high: { lead ≤ LEAD_LIMIT },
    pub ghost returned_high: { returned ≤ ITEM_LIMIT },
}
