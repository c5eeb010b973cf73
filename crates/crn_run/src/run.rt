//! The runs of all policies, with one thread for each policy.
ghost use Rattle.std.specs.Prelude.{◌≡◌, ℕ, ◌≤◌, false, length, All, List, IfOk, IfErr, IfNone, IfSome, OnOk, MatchResult, vec_len, vec_capacity, []};
ghost use Rattle.std.specs.List.{list_any};
ghost use Rattle.crn_stock.specs.Parts.{Parts};
ghost use Rattle.crn_stock.specs.Models.{total};
ghost use Rattle.crn_sequential.specs.Runs.{IsCheckpointOf, EachAt, EachOnward};
ghost use Rattle.crn_ring.specs.Calls.{spec_of};
ghost use Rattle.crn_run.specs.Ends.{is_held};
ghost use Rattle.crn_run.specs.Faults.{IsEnded, found_end};
ghost use Rattle.crn_run.specs.Gates.{AllPassed, AllPassedOrHeld, SomeHeld};
ghost use Rattle.crn_run.specs.Jobs.{AreReaders, ring_spec};
ghost use Rattle.crn_run.specs.Threads.{FromOneRing};
ghost use Rattle.crn_run.specs.declared.fault.ThreadFault.{ThreadFault};
ghost use Rattle.crn_run.specs.Inner.Ends.{AllReached, HasEarly, is_short};
ghost use Rattle.crn_run.specs.Inner.Jobs.{AllReady, AreJobs, CarriesFor, Gathers, HasRun};
ghost use Rattle.crn_run.specs.Inner.Refusals.{RefusesEnds, RefusesRun};

use crate::fault::{RunFault, ThreadFault};
use crate::gate::Gate;
use crate::prepared::{Prepared, prepare};
use crate::threads::run_jobs;
use crate::worker::PolicyEnd;
use crn_ring::Reader;
use crn_sequential::Checkpoint;
use crn_stock::{Scenario, State};
use std::alloc::Global;
use std::sync::Wait;
use std::thread::Threads;

/// What the policies' runs return.
#[derive(Drop)]
pub struct Finished {
    /// Each policy's state at the block where the runs end.
    pub checkpoint: Checkpoint,
    /// The readers of the ring, in order of their numbers and one for each policy, as their threads returned them.
    pub readers: Vec<Reader>,
}

/// Runs all policies from `start` up to block `upto`, with one thread for each policy, while the calling thread feeds
/// the scenario's ring. `start` stays as it is. The states equal those of [`run_plain`](crate::run_plain), by
/// [`one_result`](crate::laws::one_result).
///
/// Before each block the policy's gate is asked, with the numbers of the policy and of the block. All memory is allocated
/// before the first thread starts, and every thread that was started is joined. It returns only if every policy's run
/// does.
///
/// # Asks
///
/// - `start` is a checkpoint of the scenario.
/// - `upto` is from `start.next` to the scenario's total.
/// - There is one gate for each policy, and none has answered false.
///
/// # Errors
///
/// - [`RunFault::Thread`]: a thread failed to start, and the ring was ended with nothing published. Or a policy's reader found
///   the end before `upto`, whether or not a gate answered false. [`ThreadFault::ended`] says which. The contract says so of a
///   ring of the scenario for these blocks, over which the threads that were started have come to their ends.
/// - [`RunFault::Gate`]: a policy's gate was asked, as it was for each block before, and answered false. Each policy's gate has
///   passed all blocks or answered false so, since no reader found an early end.
/// - [`RunFault::Memory`]: an allocation failed, and no thread was started.
pub fn run_all<R: Threads + Wait + Sync, G: Gate + Send>(
    rt: &R,
    alloc: Global,
    scenario: &Scenario,
    start: &Checkpoint,
    upto: u64,
    gates: &mut [G],
) -> Result<Finished, RunFault>
    requires of { IsCheckpointOf scenario.now start.now.next start.now.states.items }
    requires from { start.now.next ≤ upto }
    requires below { upto ≤ total scenario.now.model }
    requires count { length gates.old ≡ length scenario.now.policies }
    requires gates { All (λ g. G.refused g ≡ false) gates.old }
    ensures next { IfOk result (λ f. f.checkpoint.next ≡ upto) }
    ensures of { IfOk result (λ f. IsCheckpointOf scenario.now upto f.checkpoint.states.items) }
    ensures at { IfOk result (λ f. EachAt scenario.now start.now.next start.now.states.items → EachAt scenario.now upto f.checkpoint.states.items) }
    ensures onward { IfOk result (λ f. EachOnward scenario.now start.now.states.items upto f.checkpoint.states.items) }
    ensures readers { IfOk result (λ f. AreReaders scenario.now start.now.next upto f.readers.items) }
    ensures passed { OnOk result (AllPassed G.refused G.asked start.now.next upto gates.old) }
    ensures one_ring { IfOk result (λ f. FromOneRing G.refused G.asked scenario.now start.now.next upto start.now.states.items gates.old f.checkpoint.states.items f.readers.items) }
    ensures thread { (f : ThreadFault) → result ≡ Err (RunFault.Thread f) → IsEnded G.refused G.asked scenario.now start.now.next upto start.now.states.items gates.old (found_end f.cause) }
    ensures held { IfErr result (λ e. e ≡ RunFault.Gate → SomeHeld G.refused G.asked start.now.next upto gates.old) }
    ensures no_early_end { IfErr result (λ e. e ≡ RunFault.Gate → AllPassedOrHeld G.refused G.asked start.now.next upto gates.old) }
{
    let prepared = prepare(alloc, scenario, start, upto)?;
    run_prepared(rt, scenario, prepared, gates)
}

// Runs the policies with what was prepared. It has no allocator.
fn run_prepared<R: Threads + Wait + Sync, G: Gate + Send>(
    rt: &R,
    scenario: &Scenario,
    prepared: Prepared,
    gates: &mut [G],
) -> Result<Finished, RunFault>
    requires ring { CarriesFor scenario.now prepared.ring }
    requires jobs { AllReady scenario.now prepared.ring prepared.jobs.items }
    requires count { length gates.old ≡ vec_len prepared.jobs }
    requires gates { All (λ g. G.refused g ≡ false) gates.old }
    ensures run { (first upto : ℕ) (start : List Parts) → spec_of prepared.ring ≡ ring_spec scenario.now first upto → IsCheckpointOf scenario.now first start → AreJobs scenario.now prepared.ring start prepared.jobs.items
        → IfOk result (λ f. HasRun scenario.now first start upto f.checkpoint.next f.checkpoint.states.items f.readers.items) }
    ensures told { (first upto : ℕ) (start : List Parts) → spec_of prepared.ring ≡ ring_spec scenario.now first upto → IsCheckpointOf scenario.now first start → AreJobs scenario.now prepared.ring start prepared.jobs.items
        → MatchResult result (λ _. AllPassed G.refused G.asked first upto gates.old) (λ e. RefusesRun G.refused G.asked scenario.now prepared.ring first upto start gates.old e) }
    ensures one_ring { (first upto : ℕ) (start : List Parts) → spec_of prepared.ring ≡ ring_spec scenario.now first upto → IsCheckpointOf scenario.now first start → AreJobs scenario.now prepared.ring start prepared.jobs.items
        → IfOk result (λ f. FromOneRing G.refused G.asked scenario.now first upto start gates.old f.checkpoint.states.items f.readers.items) }
{
    let Prepared {
        ring,
        producer,
        jobs,
        ends,
        states,
        readers,
    } = prepared;
    let ends = run_jobs(rt, &ring, scenario, producer, jobs, gates, ends)?;
    check(ends.as_slice())?;
    let next = ring.spec().id.total;
    let (states, readers) = gather(ends, states, readers);
    Ok(Finished {
        checkpoint: Checkpoint { next, states },
        readers,
    })
}

// Fails unless all runs have reached the ring's total. If one found an early end and another was held, the early end is
// reported: `RunFault::Thread` has the least number. A thread that failed to start is reported before it comes to this.
fn check(ends: &[PolicyEnd]) -> Result<(), RunFault>
    ensures whole { OnOk result (AllReached ends.now) }
    ensures refused { IfErr result (λ e. RefusesEnds ends.now e) }
{
    if let Some(fault) = early_end(ends) {
        return Err(RunFault::Thread(fault));
    }
    if has_held(ends) {
        return Err(RunFault::Gate);
    }
    Ok(())
}

// Returns the fault of the first run that found an early end.
fn early_end(ends: &[PolicyEnd]) -> Option<ThreadFault>
    ensures early { IfSome result (λ f. HasEarly f ends.now) }
    ensures none { IfNone result (list_any is_short ends.now ≡ false) }
{
    for i in 0..ends.len() {
        let end = &ends[i];
        if let Some(fault) = ThreadFault::of_end(end) {
            return Some(fault);
        }
    }
    None
}

// Returns whether a gate has held one of the policies.
fn has_held(ends: &[PolicyEnd]) -> bool
    ensures { result ≡ list_any is_held ends.now }
{
    ends.iter().any(|end| matches!(end, PolicyEnd::Held(..)))
}

// Returns the states and the readers of the ends, those of the last end first. `check` has found no fault, so all runs have
// reached the ring's total.
fn gather(
    mut ends: Vec<PolicyEnd>,
    mut states: Vec<State>,
    mut readers: Vec<Reader>,
) -> (Vec<State>, Vec<Reader>)
    requires reached { AllReached ends.items }
    requires states { (states.items ≡ []) × (vec_len ends ≤ vec_capacity states) }
    requires readers { (readers.items ≡ []) × (vec_len ends ≤ vec_capacity readers) }
    ensures { Gathers ends.items result.0.items result.1.items }
{
    while let Some(end) = ends.pop() {
        match end {
            PolicyEnd::Reached { state, reader } => {
                states.push_reserved(state);
                readers.push_reserved(reader);
            }
            _ => unreachable!(),
        }
    }
    (states, readers)
}
