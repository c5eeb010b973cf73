//! Migrates texts of version 1 to version 2.

ghost use Rattle.std.specs.Prelude.{◌≡◌, ◌⊎◌, ℕ, List, IfOk, IfErr, MatchResult, alloc_error};
ghost use Rattle.crn_stock.specs.Parts.{Parts};
ghost use Rattle.crn_stock.specs.Models.{ScenarioParts};
ghost use Rattle.crn_checkpoint.specs.CheckpointText.{checkpoint_text};
ghost use Rattle.crn_checkpoint.specs.Reading.{IsTextOf, IsOldTextOf};
ghost use Rattle.crn_checkpoint.specs.Migration.{IsMigrated, RefusesMigration};

use crate::fault::MigrateFault;
use crate::read::{Cut, read_cut};
use crate::version::Version;
use crate::write::write_checkpoint;
use std::alloc::Global;

// The size of the ring of a scenario that is only written. No text has it.
const ANY_RING: u64 = 1;

/// Returns the text, in version 2, of the checkpoint that a text of version 1 spells: the same scenario, block and
/// states.
///
/// # Errors
///
/// `Memory` if an allocation fails, which says nothing about the text. Otherwise:
/// - `NoCheckpoint`, exactly if the text is no checkpoint of version 1 or 2 with all amounts within their ranges;
/// - `NewVersion`, exactly if it is a checkpoint in version 2.
pub fn migrate_checkpoint(alloc: Global, bytes: &[u8]) -> Result<Vec<u8>, MigrateFault>
    ensures migrated { IfOk result (λ text. IsMigrated bytes.now text.items) }
    ensures old { (s : ScenarioParts) (next : ℕ) (states : List Parts) → IsOldTextOf s next states bytes.now
        → MatchResult result (λ text. IsTextOf s next states text.items) (λ f. f ≡ MigrateFault.Memory alloc_error) }
    ensures new { (s : ScenarioParts) (next : ℕ) (states : List Parts) → IsTextOf s next states bytes.now
        → MatchResult result (λ text. ⊥) (λ f. (f ≡ MigrateFault.NewVersion) ⊎ (f ≡ MigrateFault.Memory alloc_error)) }
    ensures refused { IfErr result (λ f. RefusesMigration f bytes.now) }
{
    let cut = read_cut(alloc, ANY_RING, bytes)?;
    migrated(alloc, &cut)
}

// Returns the text, in version 2, of a checkpoint that was read in version 1.
fn migrated(alloc: Global, cut: &Cut) -> Result<Vec<u8>, MigrateFault>
    ensures old { cut.now.version ≡ Version.First → MatchResult result (λ text. text.items ≡ checkpoint_text Version.Second cut.now.scenario cut.now.checkpoint.next cut.now.checkpoint.states.items) (λ f. f ≡ MigrateFault.Memory alloc_error) }
    ensures new { cut.now.version ≡ Version.Second → MatchResult result (λ text. ⊥) (λ f. f ≡ MigrateFault.NewVersion) }
{
    match cut.version {
        Version::First => Ok(write_checkpoint(alloc, &cut.scenario, &cut.checkpoint)?),
        Version::Second => Err(MigrateFault::NewVersion),
    }
}
