//! Reads checkpoints: parses them leniently, writes them again and compares.

ghost use Rattle.std.specs.Prelude.{◌≡◌, ℕ, List, IfOk, IfErr, OnOk, MatchResult, alloc_error};
ghost use Rattle.crn_stock.specs.Parts.{Parts};
ghost use Rattle.crn_stock.specs.Models.{ScenarioParts, IsSameButRing};
ghost use Rattle.crn_limits.specs.Limits.{IsRingSize};
ghost use Rattle.crn_checkpoint.specs.Reading.{IsTextIn, IsTextOf, IsOldTextOf, IsAnyTextOf, RefusesCheckpoint};
ghost use Rattle.crn_checkpoint.specs.Inner.Judging.{IsRefusedFor};

mod cells;
mod cut;
mod layout;
mod policy;
mod scenario;

use crate::fault::{CheckpointFault, Unread};
use crate::version::Version;
use crn_rows::read_rows;
use crn_sequential::Checkpoint;
use crn_stock::Scenario;
pub(crate) use cut::Cut;
use std::alloc::Global;

/// Reads a checkpoint in either version, of any scenario, which gets this ring.
pub(crate) fn read_cut(alloc: Global, ring: u64, bytes: &[u8]) -> Result<Cut, Unread>
    requires { IsRingSize ring }
    ensures is_text { IfOk result (λ c. IsTextIn c.version c.scenario c.checkpoint.next c.checkpoint.states.items bytes.now) }
    ensures ring { IfOk result (λ c. c.scenario.ring ≡ ring) }
    ensures reads { (v : Version) (s : ScenarioParts) (next : ℕ) (states : List Parts) → IsTextIn v s next states bytes.now
        → MatchResult result (λ c. (v ≡ c.version) × IsSameButRing s c.scenario × (next ≡ c.checkpoint.next) × (states ≡ c.checkpoint.states.items)) (λ f. f ≡ Unread.Memory alloc_error) }
{
    let cut = cut_in(alloc, ring, bytes)?;
    cut.compare(alloc, bytes)?;
    Ok(cut)
}

// Reads the checkpoint that a text is leniently parsed as.
fn cut_in(alloc: Global, ring: u64, bytes: &[u8]) -> Result<Cut, Unread>
    requires { IsRingSize ring }
    ensures ring { IfOk result (λ c. c.scenario.ring ≡ ring) }
    ensures reads { (v : Version) (s : ScenarioParts) (next : ℕ) (states : List Parts) → IsTextIn v s next states bytes.now
        → MatchResult result (λ c. (v ≡ c.version) × IsSameButRing s c.scenario × (next ≡ c.checkpoint.next) × (states ≡ c.checkpoint.states.items)) (λ f. f ≡ Unread.Memory alloc_error) }
{
    let rows = read_rows(alloc, bytes)?;
    Cut::from_rows(alloc, ring, rows.as_slice())
}

/// Returns the checkpoint of a scenario that a text spells, if the text is byte for byte what
/// [`write_checkpoint`](crate::write_checkpoint) returns for it. A checkpoint has just one text, and a text just one
/// checkpoint. A text of version 1 is refused: [`migrate_checkpoint`](crate::migrate_checkpoint) takes it.
///
/// Amounts that were altered within their ranges are accepted, whether or not a run leads to them. No text has the size
/// of the ring, so a run may continue with another.
///
/// # Errors
///
/// `Memory` if an allocation fails, which says nothing about the text. Otherwise:
/// - `NoCheckpoint`, exactly if the text is no checkpoint of version 1 or 2 with all amounts within their ranges;
/// - `OtherScenario`, exactly if it is a checkpoint of another scenario;
/// - `OldVersion`, exactly if it is a checkpoint of this scenario in version 1.
pub fn read_checkpoint(
    alloc: Global,
    scenario: &Scenario,
    bytes: &[u8],
) -> Result<Checkpoint, CheckpointFault>
    ensures is_text { IfOk result (λ c. IsTextOf scenario.now c.next c.states.items bytes.now) }
    ensures only { IfOk result (λ c. (s : ScenarioParts) (next : ℕ) (states : List Parts) → IsAnyTextOf s next states bytes.now
        → IsSameButRing s scenario.now × (next ≡ c.next) × (states ≡ c.states.items)) }
    ensures not_old { IfOk result (λ c. (s : ScenarioParts) (next : ℕ) (states : List Parts) → ¬ IsOldTextOf s next states bytes.now) }
    ensures one_spelling { IfOk result (λ c. (other : List ℕ) → IsTextOf scenario.now c.next c.states.items other → other ≡ bytes.now) }
    ensures taken { (next : ℕ) (states : List Parts) → IsTextOf scenario.now next states bytes.now → IfErr result (λ f. f ≡ CheckpointFault.Memory alloc_error) }
    ensures refused { IfErr result (λ f. RefusesCheckpoint scenario.now f bytes.now) }
{
    let cut = read_cut(alloc, scenario.ring(), bytes)?;
    judge(&cut, scenario)?;
    Ok(cut.checkpoint)
}

// Refuses a checkpoint of another scenario, and one in version 1.
fn judge(cut: &Cut, scenario: &Scenario) -> Result<(), CheckpointFault>
    ensures same { OnOk result (IsSameButRing cut.now.scenario scenario.now) }
    ensures new { OnOk result (cut.now.version ≡ Version.Second) }
    ensures refused { IfErr result (λ f. IsRefusedFor f cut.now.version cut.now.scenario scenario.now) }
{
    if !cut.scenario.is_same_but_ring(scenario) {
        return Err(CheckpointFault::OtherScenario);
    }
    match cut.version {
        Version::First => Err(CheckpointFault::OldVersion),
        Version::Second => Ok(()),
    }
}
