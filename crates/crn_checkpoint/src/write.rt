//! Writes checkpoints.

ghost use Rattle.std.specs.Prelude.{◌≡◌, ◌≤◌, IfOk};
ghost use Rattle.crn_stock.specs.Models.{total};
ghost use Rattle.crn_sequential.specs.Runs.{IsCheckpointOf};
ghost use Rattle.crn_checkpoint.specs.CheckpointText as spec;
ghost use Rattle.crn_checkpoint.specs.Reading.{CanTell, IsTextIn, IsTextOf};

mod policy;
mod rows;
mod scenario;

use crate::version::Version;
use crate::write::policy::with_all_policy_rows;
use crate::write::rows::with_end_row;
use crate::write::scenario::with_scenario_rows;
use crn_rows::Sheet;
use crn_sequential::Checkpoint;
use crn_stock::Scenario;
use std::alloc::{AllocError, Global};

/// Returns the text of a checkpoint of a scenario in a version that has a place for all parts of the scenario.
pub(crate) fn write_in(
    alloc: Global,
    version: Version,
    scenario: &Scenario,
    checkpoint: &Checkpoint,
) -> Result<Vec<u8>, AllocError>
    requires tells { CanTell version scenario.now.model }
    requires of { IsCheckpointOf scenario.now checkpoint.now.next checkpoint.now.states.items }
    ensures text { IfOk result (λ text. text.items ≡ spec.checkpoint_text version scenario.now checkpoint.now.next checkpoint.now.states.items) }
    ensures in_range { IfOk result (λ text. checkpoint.now.next ≤ total scenario.now.model
        → IsTextIn version scenario.now checkpoint.now.next checkpoint.now.states.items text.items) }
{
    let sheet = with_scenario_rows(Sheet::new(alloc), version, scenario, checkpoint.next)?;
    let sheet = with_all_policy_rows(sheet, scenario.policies(), &checkpoint.states)?;
    let sheet = with_end_row(sheet)?;
    sheet.into_text()
}

/// Returns the text of a checkpoint of a scenario, in version 2: rows of five fields, as CSV. First come the rows of the
/// scenario, without the size of its ring. Then come, for each policy in order, its levels, the amounts of its state,
/// each amount that is due with its period, and the cost of each replication that is done. The last row ends the text.
///
/// # Asks
///
/// The checkpoint is one of the scenario.
///
/// # Errors
///
/// `AllocError` if an allocation fails.
pub fn write_checkpoint(
    alloc: Global,
    scenario: &Scenario,
    checkpoint: &Checkpoint,
) -> Result<Vec<u8>, AllocError>
    requires { IsCheckpointOf scenario.now checkpoint.now.next checkpoint.now.states.items }
    ensures text { IfOk result (λ text. text.items ≡ spec.checkpoint_text Version.Second scenario.now checkpoint.now.next checkpoint.now.states.items) }
    ensures in_range { IfOk result (λ text. checkpoint.now.next ≤ total scenario.now.model
        → IsTextOf scenario.now checkpoint.now.next checkpoint.now.states.items text.items) }
{
    write_in(alloc, Version::Second, scenario, checkpoint)
}
