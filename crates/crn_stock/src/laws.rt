//! Laws of the definitions that contracts cite. They compute nothing.

ghost use Rattle.std.specs.Prelude.{◌≡◌, ℕ, ◌+◌, ◌≤◌, ◌<◌, List, ◌++◌, All, length};
ghost use Rattle.crn_stock.specs.Parts.{Parts};
ghost use Rattle.crn_stock.specs.Models.{ModelParts};
ghost use Rattle.crn_stock.specs.Stock.{terms_of, Draw, StateOf, At, Onward, OnwardAt, next_block};
ghost use Rattle.crn_stock.specs.Replications.{all_draws, IsAfterReplications, IsInSameReplication, IsInLaterReplication};
ghost use Rattle.crn_stock.specs.declared.policy.Policy.{Policy};

use crate::state::State;

/// Every state is onward from itself at its next block: a run that goes on from it begins so, whatever the
/// state's amounts are.
pub fn onward_from_itself(state: &State)
    ensures { (model : ModelParts) (policy : Policy) (key : List ℕ) → OnwardAt model policy key state.now (next_block state.now) state.now }
{
    let _ = state.period();
}

/// A state at its next block that is taken onward to a later block is at that one. What it was onward from, it is
/// onward from there too. So what moves states need only say how it takes them onward.
pub fn taken_onward()
    ensures at { (model : ModelParts) (policy : Policy) (key : List ℕ) (n : ℕ) (q v : Parts)
        → At model policy key (next_block q) q → OnwardAt model policy key q n v → At model policy key n v }
    ensures onward { (model : ModelParts) (policy : Policy) (key : List ℕ) (n : ℕ) (o q v : Parts)
        → OnwardAt model policy key o (next_block q) q → OnwardAt model policy key q n v → OnwardAt model policy key o n v }
{}

/// After the draws of whole replications and some of the next one, a state has the costs of the whole ones,
/// each by its own draws from the initial stock alone, and stands in the next one by its own draws.
pub fn replications()
    ensures { (model : ModelParts) (policy : Policy) (whole : List (List Draw)) (ds : List Draw) (v : Parts) → 1 ≤ model.periods
        → All (λ h. length h ≡ model.periods) whole → length ds < model.periods → StateOf model policy (all_draws whole ++ ds) v
        → IsAfterReplications (terms_of policy model.costs) model.initial whole ds v }
{}

/// A state that goes on from any parts stays in the replication that they had under way, or, after the draws
/// that end it, has its cost and those of whole replications, and stands in the next one by its own draws.
pub fn replications_onward()
    ensures same { (model : ModelParts) (policy : Policy) (q : Parts) (ds : List Draw) (v : Parts) → q.period + length ds < q.periods
        → Onward model policy q ds v → IsInSameReplication (terms_of policy model.costs) q ds v }
    ensures later { (model : ModelParts) (policy : Policy) (q : Parts) (first : List Draw) (whole : List (List Draw)) (ds : List Draw) (v : Parts)
        → q.period < q.periods → q.period + length first ≡ q.periods → All (λ h. length h ≡ q.periods) whole → length ds < q.periods
        → Onward model policy q (first ++ all_draws whole ++ ds) v → IsInLaterReplication (terms_of policy model.costs) q first whole ds v }
{}
