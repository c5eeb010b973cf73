//! Laws of the definitions that contracts cite. They compute nothing.

ghost use Rattle.std.specs.Prelude.{◌≡◌, ◌↔◌, ℕ, List, None};
ghost use Rattle.crn_draw.specs.Faults.{least_weights_fault, AreWeighted};

/// States that values and weights have no fault exactly if they can be drawn by: there are values, each with a weight, each
/// value is less than all after it, and the weights are 1 to `TOTAL_LIMIT` in sum.
pub fn without_fault()
    ensures { (values weights : List ℕ) → least_weights_fault values weights ≡ None ↔ AreWeighted values weights }
{}
