//! Jobs: the policies' runs that are still to start.
ghost use Rattle.std.specs.Prelude.{◌≡◌, ◌<◌, ◌≤◌, false, length, slice_get, Some, IfOk, IfErr};
ghost use Rattle.crn_stock.specs.Stock.{next_block};
ghost use Rattle.crn_stock.specs.Models.{total};
ghost use Rattle.crn_ring.specs.Calls.{AllFresh, IsOpened, reader_number, reader_part, spec_of};
ghost use Rattle.crn_sequential.specs.Runs.{IsCheckpointOf};
ghost use Rattle.crn_run.specs.Ends.{EndsAs, is_held};
ghost use Rattle.crn_run.specs.Gates.{WasAsked};
ghost use Rattle.crn_run.specs.Jobs.{ring_spec};
ghost use Rattle.crn_run.specs.Turns.{RunsByTurns};
ghost use Rattle.crn_run.specs.Inner.Jobs.{AreJobs, CarriesFor, IsReady};

use crate::gate::Gate;
use crate::worker::{PolicyEnd, run_policy};
use crn_cipher::StreamId;
use crn_limits::BLOCK_LIMIT;
use crn_proto::{RingFault, RingSpec};
use crn_ring::{Producer, Reader, Ring};
use crn_sequential::Checkpoint;
use crn_stock::{Scenario, State};
use std::alloc::{AllocError, Global};
use std::sync::Wait;

/// A policy's run that is still to start.
#[derive(Drop)]
pub(crate) struct Job {
    pub(crate) policy: u32,
    pub(crate) reader: Reader,
    pub(crate) state: State,
}

impl Job {
    /// Runs the policy on the calling thread.
    pub(crate) fn run<R: Wait, G: Gate>(
        self,
        rt: &R,
        ring: &Ring,
        scenario: &Scenario,
        gate: &mut G,
    ) -> PolicyEnd
        requires ready { IsReady scenario.now ring.now self }
        requires ring { CarriesFor scenario.now ring.now }
        requires gate { G.refused gate.old ≡ false }
        ensures end { EndsAs scenario.now self.policy self.state ring.now self.policy result }
        ensures held { G.refused gate.new ≡ is_held result }
        ensures asked { WasAsked G.asked self.policy (next_block self.state) result gate.old gate.new }
        ensures turns { RunsByTurns (spec_of ring.now) (reader_part self.reader) result }
    {
        let Job {
            policy,
            reader,
            state,
        } = self;
        run_policy(rt, ring, reader, scenario, policy, state, gate)
    }
}

/// Opens a ring of the scenario for the blocks from `first` to `upto - 1`, with a reader for each policy. A scenario's ring
/// meets every limit, so it fails only if an allocation fails.
pub(crate) fn open_ring(
    alloc: Global,
    scenario: &Scenario,
    first: u64,
    upto: u64,
) -> Result<(Ring, Producer, Vec<Reader>), AllocError>
    requires { (first ≤ upto) × (upto ≤ total scenario.now.model) }
    ensures { IfOk result (λ r. IsOpened (ring_spec scenario.now first upto) r.0 r.1 r.2.items) }
{
    prove!(scenario.model().total() <= BLOCK_LIMIT);
    let spec = RingSpec {
        size: scenario.ring(),
        readers: scenario.policies().len() as u32,
        id: StreamId {
            key: scenario.key(),
            first,
            total: upto,
        },
    };
    match Ring::open(alloc, spec) {
        Ok(opened) => Ok(opened),
        Err(RingFault::Memory(refused)) => Err(refused),
        Err(_) => unreachable!(),
    }
}

/// Returns a job for each policy, from a copy of its state in `start`, as a stack: the first policy's job is the last.
pub(crate) fn jobs_of(
    alloc: Global,
    ring: &Ring,
    scenario: &Scenario,
    start: &Checkpoint,
    mut readers: Vec<Reader>,
) -> Result<Vec<Job>, AllocError>
    requires start { IsCheckpointOf scenario.now start.now.next start.now.states.items }
    requires first { (spec_of ring.now).id.first ≡ start.now.next }
    requires readers { (length readers.items ≡ length scenario.now.policies) × AllFresh ring.now readers.items }
    ensures { IfOk result (λ jobs. AreJobs scenario.now ring.now start.now.states.items jobs.items) }
{
    let mut jobs = Vec::with_capacity(alloc, readers.len())?;
    while let Some(reader) = readers.pop() {
        let job = job_of(alloc, start, reader)?;
        jobs.push(job)?;
    }
    Ok(jobs)
}

// Returns the job of a reader's policy, from a copy of its state in `start`.
fn job_of(alloc: Global, start: &Checkpoint, reader: Reader) -> Result<Job, AllocError>
    requires { reader_number reader < length start.now.states.items }
    ensures policy { IfOk result (λ j. j.policy ≡ reader_number reader) }
    ensures reader { IfOk result (λ j. j.reader ≡ reader) }
    ensures state { IfOk result (λ j. slice_get start.now.states.items j.policy ≡ Some j.state) }
{
    let policy = reader.number();
    let state = start.states[policy as usize].copy(alloc)?;
    Ok(Job {
        policy,
        reader,
        state,
    })
}
