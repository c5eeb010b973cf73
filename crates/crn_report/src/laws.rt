//! Laws of the definitions that contracts cite. They compute nothing.

ghost use Rattle.std.specs.Prelude.{◌≡◌, ℕ, ◌≤◌, List};
ghost use Rattle.crn_stock.specs.Models.{ScenarioParts};
ghost use Rattle.crn_report.specs.Report.{IsReportText};

use crn_pair::laws::one_fraction;

/// A scenario and its policies' costs have just one report: texts of it are the same, byte for byte. So a contract
/// that says of what a text is the report leaves nothing open.
pub fn one_report()
    ensures { (s : ScenarioParts) (costs : List (List ℕ)) (text other : List ℕ) → 1 ≤ s.model.periods → 1 ≤ s.model.replications
        → IsReportText s costs text → IsReportText s costs other → text ≡ other }
{
    one_fraction();
}
