//! The limits that the inventory model and the ring share: how long a run is, how many policies a scenario has and how many
//! readers a ring, and how many slots.
//!
//! A limit that concerns one crate alone stands in that crate.
#![tactic(auto)]

ghost use Rattle.std.specs.Prelude.{◌↔◌, IsTrue};
ghost use Rattle.crn_limits.specs.Limits.{IsRingSize};

use crn_cipher::STREAM_WORDS;

/// The most periods of a replication.
pub const PERIOD_LIMIT: u32 = 1_024;

/// The most replications of a run.
pub const REPLICATION_LIMIT: u32 = 256;

/// The most blocks of a run: one for each four periods of each replication.
pub const BLOCK_LIMIT: u64 = REPLICATION_LIMIT as u64 * (PERIOD_LIMIT / STREAM_WORDS) as u64;

/// The most policies of a scenario. Each policy has one reader, so this is also the most readers of a ring.
pub const POLICY_LIMIT: u32 = 16;

/// The most slots of a ring. Each slot holds one block.
pub const SLOT_LIMIT: u64 = 1_024;

/// Returns whether a ring can have so many slots: a power of two from 1 to [`SLOT_LIMIT`].
pub fn is_ring_size(slots: u64) -> bool
    ensures { IsTrue result ↔ IsRingSize slots }
{
    slots.is_power_of_two() && slots <= SLOT_LIMIT
}
