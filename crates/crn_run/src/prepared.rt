//! All memory of the policies' runs, allocated before the first thread starts.
ghost use Rattle.std.specs.Prelude.{◌≡◌, ◌≤◌, false, [], IfOk, vec_len, vec_capacity};
ghost use Rattle.crn_stock.specs.Models.{total};
ghost use Rattle.crn_ring.specs.Calls.{IsProducerOf, producer_part, spec_of};
ghost use Rattle.crn_sequential.specs.Runs.{IsCheckpointOf};
ghost use Rattle.crn_run.specs.Jobs.{ring_spec};
ghost use Rattle.crn_run.specs.Inner.Jobs.{AreJobs};

use crate::jobs::{Job, jobs_of, open_ring};
use crate::worker::PolicyEnd;
use crn_ring::{Producer, Reader, Ring};
use crn_sequential::Checkpoint;
use crn_stock::{Scenario, State};
use std::alloc::{AllocError, Global};

/// A ring with its producer, a job for each policy, and empty vectors with the capacity for what the runs return. Every thread
/// is started from it, and what is done with it allocates nothing.
#[derive(Drop)]
pub(crate) struct Prepared {
    pub(crate) ring: Ring,
    pub(crate) producer: Producer,
    pub(crate) jobs: Vec<Job>,
    pub(crate) ends: Vec<PolicyEnd>,
    pub(crate) states: Vec<State>,
    pub(crate) readers: Vec<Reader>,
    pub ghost feeds: { IsProducerOf ring producer × ((producer_part producer).ended ≡ false) },
    pub ghost unused: { (producer_part producer).published ≡ (spec_of ring).id.first },
    pub ghost ends_room: { (vec_len ends ≡ 0) × (vec_len jobs ≤ vec_capacity ends) },
    pub ghost states_room: { (states.items ≡ []) × (vec_len jobs ≤ vec_capacity states) },
    pub ghost readers_room: { (readers.items ≡ []) × (vec_len jobs ≤ vec_capacity readers) },
}

/// Allocates all memory for the policies' runs from `start` up to block `upto`.
pub(crate) fn prepare(
    alloc: Global,
    scenario: &Scenario,
    start: &Checkpoint,
    upto: u64,
) -> Result<Prepared, AllocError>
    requires of { IsCheckpointOf scenario.now start.now.next start.now.states.items }
    requires from { start.now.next ≤ upto }
    requires below { upto ≤ total scenario.now.model }
    ensures ring { IfOk result (λ p. spec_of p.ring ≡ ring_spec scenario.now start.now.next upto) }
    ensures jobs { IfOk result (λ p. AreJobs scenario.now p.ring start.now.states.items p.jobs.items) }
{
    let count = scenario.policies().len();
    let (ring, producer, readers) = open_ring(alloc, scenario, start.next, upto)?;
    let jobs = jobs_of(alloc, &ring, scenario, start, readers)?;
    Ok(Prepared {
        ring,
        producer,
        jobs,
        ends: Vec::with_capacity(alloc, count)?,
        states: Vec::with_capacity(alloc, count)?,
        readers: Vec::with_capacity(alloc, count)?,
    })
}
