//! Laws of the definitions that contracts cite. They compute nothing.
ghost use Rattle.std.specs.Prelude.{◌≡◌, ℕ, List};
ghost use Rattle.crn_stock.specs.Parts.{Parts};
ghost use Rattle.crn_stock.specs.Models.{ModelParts, ScenarioParts};
ghost use Rattle.crn_stock.specs.Stock.{OnwardAt};
ghost use Rattle.crn_stock.specs.declared.policy.Policy.{Policy};
ghost use Rattle.crn_sequential.specs.Runs.{IsCheckpointOf, EachOnward};

/// What a state becomes by the blocks from its next one on is one state, and what all policies' states become is one list. So
/// the result of [`run_all`](crate::run_all) equals that of [`run_plain`](crate::run_plain): the contract of each says that its
/// states are what those of `start` become.
pub fn one_result()
    ensures state { (model : ModelParts) (policy : Policy) (key : List ℕ) (n : ℕ) (q v w : Parts)
        → OnwardAt model policy key q n v → OnwardAt model policy key q n w → v ≡ w }
    ensures states { (s : ScenarioParts) (first n : ℕ) (start vs ws : List Parts) → IsCheckpointOf s first start
        → IsCheckpointOf s n vs → EachOnward s start n vs → IsCheckpointOf s n ws → EachOnward s start n ws → vs ≡ ws }
{}
