//! One thread for each policy.
ghost use Rattle.std.specs.Prelude.{◌≡◌, ◌+◌, ◌≤◌, true, false, None, length, OnOk, OnErr, IfOk, All, vec_len, vec_capacity, IfErr};
ghost use Rattle.std.specs.Slice.Iter.{iter_mut_rest};
ghost use Rattle.crn_ring.specs.Calls.{IsProducerOf, producer_part, spec_of};
ghost use Rattle.crn_run.specs.Faults.{EndedUnused, found_end};
ghost use Rattle.crn_run.specs.Inner.Jobs.{AllReady, AreEnds, AreStarted, CarriesFor, HaveStarted, IsDone, IsReady};

use crate::fault::ThreadFault;
use crate::feeding::feed;
use crate::gate::Gate;
use crate::jobs::Job;
use crate::worker::PolicyEnd;
use crn_ring::{Producer, Ring};
use crn_stock::Scenario;
use std::slice::IterMut;
use std::snapshot::Snapshot;
use std::sync::Wait;
use std::thread;
use std::thread::{Promise, PromisedHandle, Scope, Threads};

// What a thread promises: the end of its job, under the gate that it was given.
#[derive(Drop)]
struct EndsJob<G> {
    ring: Snapshot<Ring>,
    scenario: Snapshot<Scenario>,
    job: Snapshot<Job>,
    gate: Snapshot<G>,
}

impl<G: Gate> Promise<PolicyEnd> for EndsJob<G> {
    ghost use Rattle.crn_run.specs.Inner.Jobs.{IsDone};

    ghost kept_by = { λ p e. IsDone G.refused G.asked p.scenario.value p.ring.value p.job.value p.gate.value e };
}

// Starts a thread for a job.
fn start<'s, 'e: 's, 'g: 's, R: Wait + Sync, G: Gate + Send>(
    rt: &'e R,
    scope: &'s Scope<'s, &'e ()>,
    ring: &'e Ring,
    scenario: &'e Scenario,
    job: Job,
    gate: &'g mut G,
) -> Result<PromisedHandle<PolicyEnd, EndsJob<G>>, ThreadFault>
    requires job { IsReady scenario.now ring.now job }
    requires ring { CarriesFor scenario.now ring.now }
    requires gate { G.refused gate.now ≡ false }
    ensures promise { IfOk result (λ h. (h.promise.ring.value ≡ ring.now) × (h.promise.scenario.value ≡ scenario.now) × (h.promise.job.value ≡ job) × (h.promise.gate.value ≡ gate.old)) }
    ensures thread { IfErr result (λ f. found_end f.cause ≡ None) }
{
    let promise = EndsJob {
        ring: Snapshot::of(ring),
        scenario: Snapshot::of(scenario),
        job: Snapshot::of(&job),
        gate: Snapshot::of(&*gate),
    };
    let work = move || -> PolicyEnd
        requires ready { IsReady scenario.now ring.now job }
        requires ring { CarriesFor scenario.now ring.now }
        requires gate { G.refused gate.now ≡ false }
        ensures { IsDone G.refused G.asked scenario.entry.now ring.entry.now job gate.entry.now result }
    { job.run(rt, ring, scenario, gate) };
    Ok(scope.spawn_with(promise, work)?)
}

// Starts a thread for the last job, does the same for the jobs before it, and then joins that thread. If no job is left it
// feeds the ring. If a thread fails to start it ends the ring with nothing published, so each started thread ends too.
fn start_from<'s, 'e: 's, 'g: 's, R: Threads + Wait + Sync, G: Gate + Send>(
    rt: &'e R,
    scope: &'s Scope<'s, &'e ()>,
    ring: &'e Ring,
    scenario: &'e Scenario,
    producer: &mut Producer,
    jobs: &mut Vec<Job>,
    mut gates: IterMut<'g, G>,
    ends: &mut Vec<PolicyEnd>,
) -> Result<(), ThreadFault>
    requires count { length (iter_mut_rest gates) ≡ vec_len jobs.old }
    requires gates { All (λ g. G.refused g ≡ false) (iter_mut_rest gates) }
    requires producer { IsProducerOf ring.now producer.old × ((producer_part producer.old).ended ≡ false) }
    requires ring { CarriesFor scenario.now ring.now }
    requires jobs { AllReady scenario.now ring.now jobs.old.items }
    requires room { (vec_len ends.old ≡ 0) × (vec_len jobs.old ≤ vec_capacity ends.old) }
    ensures ends { OnOk result (AreEnds G.refused G.asked scenario.now ring.now jobs.old.items (iter_mut_rest gates.entry) ends.new.items) }
    ensures thread { IfErr result (λ f. found_end f.cause ≡ None) }
    ensures started { OnErr result (AreStarted G.refused G.asked scenario.now ring.now jobs.old.items (iter_mut_rest gates.entry) ends.new.items) }
    ensures capacity { vec_capacity ends.old ≤ vec_capacity ends.new }
    ensures of { IsProducerOf ring.now producer.new }
    ensures ended { (producer_part producer.new).ended ≡ true }
    ensures refused { OnErr result ((producer_part producer.new).published ≡ (producer_part producer.old).published) }
    ensures joined { OnErr result (vec_len ends.new + vec_len jobs.new + 1 ≡ vec_len jobs.old) }
{
    let Some(job) = jobs.pop() else {
        feed(rt, ring, producer);
        return Ok(());
    };
    let Some(gate) = gates.next() else {
        unreachable!()
    };
    match start(rt, scope, ring, scenario, job, gate) {
        Err(refused) => {
            producer.finish(ring);
            Err(refused)
        }
        Ok(child) => {
            let others = start_from(rt, scope, ring, scenario, producer, jobs, gates, ends);
            ends.push_reserved(child.join(rt));
            others
        }
    }
}

/// Runs each job on its own thread, under the gate of its policy, and feeds the ring on the calling thread. The jobs
/// are a stack, the first policy's last, and so are the ends that it returns. `ends` has the capacity for them. If a
/// thread fails to start it fails, and the ring was ended with nothing published.
pub(crate) fn run_jobs<'r, R: Threads + Wait + Sync, G: Gate + Send>(
    rt: &'r R,
    ring: &'r Ring,
    scenario: &'r Scenario,
    producer: Producer,
    jobs: Vec<Job>,
    gates: &mut [G],
    ends: Vec<PolicyEnd>,
) -> Result<Vec<PolicyEnd>, ThreadFault>
    requires count { length gates.old ≡ vec_len jobs }
    requires gates { All (λ g. G.refused g ≡ false) gates.old }
    requires producer { IsProducerOf ring.now producer × ((producer_part producer).ended ≡ false) }
    requires unused { (producer_part producer).published ≡ (spec_of ring.now).id.first }
    requires ring { CarriesFor scenario.now ring.now }
    requires jobs { AllReady scenario.now ring.now jobs.items }
    requires room { (vec_len ends ≡ 0) × (vec_len jobs ≤ vec_capacity ends) }
    ensures ends { IfOk result (λ es. AreEnds G.refused G.asked scenario.now ring.now jobs.items gates.old es.items) }
    ensures thread { IfErr result (λ f. (found_end f.cause ≡ None) × EndedUnused ring.now) }
    ensures started { OnErr result (HaveStarted G.refused G.asked scenario.now ring.now jobs.items gates.old) }
{
    let turns = gates.iter_mut();
    thread::scope(
        thread::scope_env(),
        rt,
        |scope| -> Result<Vec<PolicyEnd>, ThreadFault>
            requires count { length (iter_mut_rest turns) ≡ vec_len jobs }
            requires gates { All (λ g. G.refused g ≡ false) (iter_mut_rest turns) }
            requires producer { IsProducerOf ring.now producer × ((producer_part producer).ended ≡ false) }
            requires unused { (producer_part producer).published ≡ (spec_of ring.now).id.first }
            requires ring { CarriesFor scenario.now ring.now }
            requires jobs { AllReady scenario.now ring.now jobs.items }
            requires room { (vec_len ends ≡ 0) × (vec_len jobs ≤ vec_capacity ends) }
            ensures ends { IfOk result (λ es. AreEnds G.refused G.asked scenario.entry.now ring.entry.now jobs.items (iter_mut_rest turns.entry) es.items) }
            ensures thread { IfErr result (λ f. (found_end f.cause ≡ None) × EndedUnused ring.entry.now) }
            ensures started { OnErr result (HaveStarted G.refused G.asked scenario.entry.now ring.entry.now jobs.items (iter_mut_rest turns.entry)) }
        {
            let (mut producer, mut jobs, mut ends) = (producer, jobs, ends);
            start_from(
                rt,
                scope,
                ring,
                scenario,
                &mut producer,
                &mut jobs,
                turns,
                &mut ends,
            )?;
            Ok(ends)
        },
    )
}
