//! Divides the rows of a checkpoint into its lists, by the counts that it has.

ghost use Rattle.std.specs.Prelude.{◌≡◌, ◌∷◌, ◌++◌, ℕ, List, [], codes, length};
ghost use Rattle.crn_stock.specs.Parts.{Parts};
ghost use Rattle.crn_stock.specs.Models.{returned_values, ScenarioParts};
ghost use Rattle.crn_checkpoint.specs.CheckpointText as spec;
ghost use Rattle.crn_checkpoint.specs.Inner.Cells.{AreRowsOf};
ghost use Rattle.crn_checkpoint.specs.declared.version.Version.TheVariants.{First};

use crate::read::cells::{after, natural_in, split};
use crate::version::Version;
use crn_rows::Row;

/// The rows of a checkpoint in a version, and those of its lists.
#[derive(Clone, Copy)]
pub(crate) struct Layout<'a> {
    pub(crate) version: Version,
    /// All rows.
    pub(crate) rows: &'a [Row],
    /// The demands.
    pub(crate) demand: &'a [Row],
    /// The lead times.
    pub(crate) lead: &'a [Row],
    /// The returned items.
    pub(crate) returned: &'a [Row],
    /// The policies with their states, and the rows after them.
    pub(crate) policies: &'a [Row],
    pub ghost is_demand: { (s : ScenarioParts) (next : ℕ) (states : List Parts) → AreRowsOf version s next states rows.now → demand.now ≡ spec.drawn_rows (codes "demand") s.model.demand },
    pub ghost is_lead: { (s : ScenarioParts) (next : ℕ) (states : List Parts) → AreRowsOf version s next states rows.now → lead.now ≡ spec.drawn_rows (codes "lead") s.model.lead },
    pub ghost is_returned: { (s : ScenarioParts) (next : ℕ) (states : List Parts) → AreRowsOf version s next states rows.now → returned.now ≡ spec.returned_rows s.model.returns },
    pub ghost none_returned: { version ≡ First → returned.now ≡ [] },
    pub ghost is_policies: { (s : ScenarioParts) (next : ℕ) (states : List Parts) → AreRowsOf version s next states rows.now → policies.now ≡ spec.all_policy_rows s.policies states ++ spec.end_row ∷ [] },
}

impl<'a> Layout<'a> {
    /// Returns the layout of the rows of a checkpoint in a version.
    pub(crate) fn of(version: Version, rows: &'a [Row]) -> Layout<'a>
        ensures version { result.version ≡ version }
        ensures rows { result.rows.now ≡ rows.now }
    {
        let (demand, rest) = split(lists(version, rows), natural_in(rows, 3, 2) as usize);
        let (lead, rest) = split(rest, natural_in(rows, 3, 3) as usize);
        let (returned, policies) = split(rest, returned_count(version, rows));
        Layout {
            version,
            rows,
            demand,
            lead,
            returned,
            policies,
        }
    }
}

// Returns how many rows the returned items have: none in the first version.
fn returned_count(version: Version, rows: &[Row]) -> usize
    ensures none { version ≡ Version.First → result ≡ 0 }
    ensures count { (s : ScenarioParts) (next : ℕ) (states : List Parts) → AreRowsOf version s next states rows.now → result ≡ length (returned_values s.model.returns) }
{
    match version {
        Version::First => 0,
        Version::Second => natural_in(rows, 4, 1) as usize,
    }
}

// Returns the rows after those that each version has just one of.
fn lists(version: Version, rows: &[Row]) -> &[Row]
    ensures { (s : ScenarioParts) (next : ℕ) (states : List Parts) → AreRowsOf version s next states rows.now
        → result.now ≡ spec.drawn_rows (codes "demand") s.model.demand ++ (spec.drawn_rows (codes "lead") s.model.lead
        ++ (spec.returned_rows s.model.returns ++ (spec.all_policy_rows s.policies states ++ spec.end_row ∷ []))) }
{
    match version {
        Version::First => after(rows, 4),
        Version::Second => after(rows, 5),
    }
}
