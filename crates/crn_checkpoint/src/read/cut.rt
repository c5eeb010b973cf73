//! A checkpoint with its scenario, as a text has it.

ghost use Rattle.std.specs.Prelude.{◌≡◌, ◌↔◌, ◌≤◌, ℕ, List, IfOk, OnOk, IsTrue, MatchResult, Some, length, slice_get, alloc_error};
ghost use Rattle.crn_limits.specs.declared.TheConstants.{POLICY_LIMIT};
ghost use Rattle.crn_stock.specs.Models.{total, ScenarioParts, AreForScenario, IsSameButRing};
ghost use Rattle.crn_stock.specs.Parts.{Parts};
ghost use Rattle.crn_limits.specs.Limits.{IsRingSize};
ghost use Rattle.crn_sequential.specs.Runs.{IsCheckpointOf, StandsBefore};
ghost use Rattle.crn_checkpoint.specs.Reading.{CanTell};
ghost use Rattle.crn_checkpoint.specs.Inner.Cells.{AreRowsOf};

use crate::fault::Unread;
use crate::read::cells::natural_in;
use crate::read::layout::Layout;
use crate::read::policy::{Policies, policies_of};
use crate::read::scenario::{key_of, model_of, policy_count, version_of};
use crate::version::Version;
use crate::write::write_in;
use crn_limits::POLICY_LIMIT;
use crn_rows::Row;
use crn_sequential::Checkpoint;
use crn_stock::{Model, Scenario};
use std::alloc::Global;

/// A checkpoint and its scenario, and the version of their text.
#[derive(Drop)]
pub(crate) struct Cut {
    pub(crate) version: Version,
    pub(crate) scenario: Scenario,
    pub(crate) checkpoint: Checkpoint,
    pub ghost next: { checkpoint.next ≤ total scenario.model },
    pub ghost of: { IsCheckpointOf scenario checkpoint.next checkpoint.states.items },
    pub ghost tells: { CanTell version scenario.model },
}

impl Cut {
    ghost use Rattle.std.specs.Prelude.{◌≡◌, ◌≢◌, OnOk, IfErr};
    ghost use Rattle.crn_checkpoint.specs.CheckpointText.{checkpoint_text};
    ghost use Rattle.crn_checkpoint.specs.Reading.{IsTextIn};

    /// Reads the checkpoint that the rows are leniently parsed as, and its scenario with this ring, which must be within
    /// their ranges.
    pub(crate) fn from_rows(alloc: Global, ring: u64, rows: &[Row]) -> Result<Cut, Unread>
        requires { IsRingSize ring }
        ensures reads { (v : Version) (s : ScenarioParts) (next : ℕ) (states : List Parts) → AreRowsOf v s next states rows.now
            → MatchResult result (λ c. (v ≡ c.version) × IsSameButRing s c.scenario × (next ≡ c.checkpoint.next) × (states ≡ c.checkpoint.states.items)) (λ f. f ≡ Unread.Memory alloc_error) }
        ensures ring { IfOk result (λ c. c.scenario.ring ≡ ring) }
    {
        let Some(version) = version_of(rows) else {
            return Err(Unread::NoCheckpoint);
        };
        let layout = Layout::of(version, rows);
        let model = model_of(alloc, &layout)?;
        let next = natural_in(rows, 0, 2);
        let Policies { policies, states } = policies_in(alloc, &layout, &model, ring, next)?;
        Ok(Cut {
            version,
            scenario: Scenario::new(key_of(rows), ring, model, policies),
            checkpoint: Checkpoint { next, states },
        })
    }

    /// Refuses all bytes but the text of this checkpoint in its version.
    pub(crate) fn compare(&self, alloc: Global, bytes: &[u8]) -> Result<(), Unread>
        ensures is_text { OnOk result (IsTextIn self.now.version self.now.scenario self.now.checkpoint.next self.now.checkpoint.states.items bytes.now) }
        ensures differs { IfErr result (λ f. f ≡ Unread.NoCheckpoint → bytes.now ≢ checkpoint_text self.now.version self.now.scenario self.now.checkpoint.next self.now.checkpoint.states.items) }
    {
        let text = write_in(alloc, self.version, &self.scenario, &self.checkpoint)?;
        if text.as_slice() == bytes {
            Ok(())
        } else {
            Err(Unread::NoCheckpoint)
        }
    }
}

// Returns whether a checkpoint of the model can be at block `next` and have so many policies, before as many are read.
fn can_be(model: &Model, next: u64, count: usize) -> bool
    ensures { IsTrue result ↔ ((next ≤ total model.now) × (count ≤ POLICY_LIMIT)) }
{
    next <= model.total() && count <= POLICY_LIMIT as usize
}

// Reads the policies, each with its state before block `next` of the model.
fn policies_in(
    alloc: Global,
    layout: &Layout,
    model: &Model,
    ring: u64,
    next: u64,
) -> Result<Policies, Unread>
    requires { IsRingSize ring }
    ensures reads { (s : ScenarioParts) (n : ℕ) (states : List Parts) → AreRowsOf layout.now.version s n states layout.now.rows.now → model.now ≡ s.model → next ≡ n
        → MatchResult result (λ r. (r.policies.items ≡ s.policies) × (r.states.items ≡ states)) (λ f. f ≡ Unread.Memory alloc_error) }
    ensures count { IfOk result (λ r. length r.states.items ≡ length r.policies.items) }
    ensures stand { IfOk result (λ r. (i : ℕ) (v : Parts) → slice_get r.states.items i ≡ Some v → StandsBefore model.now next v) }
    ensures next { OnOk result (next ≤ total model.now) }
    ensures ranges { IfOk result (λ r. AreForScenario ring r.policies.items) }
{
    let count = policy_count(layout.rows);
    if !can_be(model, next, count) {
        return Err(Unread::NoCheckpoint);
    }
    let found = policies_of(alloc, model, next, layout.policies, count)?;
    if Scenario::can_have(ring, &found.policies) {
        Ok(found)
    } else {
        Err(Unread::NoCheckpoint)
    }
}
