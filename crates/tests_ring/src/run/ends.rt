//! Runs of one policy on a ring that is filled beforehand.

ghost use Rattle.std.specs.Prelude.{◌≡◌, ◌≤◌, ◌<◌, ◌∷◌, ⊤, [], false, length, IfSome};
ghost use Rattle.crn_proto.specs.Ring.{open_reader};
ghost use Rattle.crn_stock.specs.Models.{total};
ghost use Rattle.crn_ring.specs.Calls.{AllFresh, IsProducerOf, IsReaderOf, reader_part, spec_of};
ghost use Rattle.crn_sequential.specs.Runs.{StandsBefore};

use super::gates::HoldsAt;
use super::scenarios::steady;
use crate::rings::{finish, last_of, open, publish_next};
use crn_ring::{Producer, Reader, Ring};
use crn_run::{Gate, PolicyEnd, feed, run_policy};
use crn_stock::{Scenario, State};
use std::alloc::{AllocError, Global};
use std::sync::Wait;
use std::test::Fail;
use tests_model::scenarios::Slots;

// The run of one policy from its start, under a gate that answers false for one block of policy 1.
fn run_one<R: Wait>(
    rt: &R,
    alloc: Global,
    ring: &Ring,
    reader: Reader,
    scenario: &Scenario,
    policy: u32,
    refused: u64,
) -> Result<PolicyEnd, AllocError>
    requires policy { policy < length scenario.now.policies }
    requires reader { IsReaderOf ring.now reader × (reader_part reader ≡ open_reader (spec_of ring.now)) }
    requires key { (spec_of ring.now).id.key ≡ scenario.now.key }
    requires blocks { ((spec_of ring.now).id.total ≤ total scenario.now.model) × ((spec_of ring.now).id.first ≡ 0) }
{
    let state = State::start(alloc, scenario.model())?;
    let mut gate = HoldsAt {
        policy: 1,
        block: refused,
        has_refused: false,
    };
    Ok(run_policy(rt, ring, reader, scenario, policy, state, &mut gate))
}

// Publishes the first two blocks and then the end.
fn publish_two(ring: &Ring, producer: &mut Producer)
    requires ring { IsProducerOf ring.now producer.old }
{
    publish_next(ring, producer);
    publish_next(ring, producer);
    finish(ring, producer);
}

// Whether the end was marked at block n, the state stands there, and reader 0 has seen the end.
fn is_short_at(end: &PolicyEnd, n: u64) -> bool {
    match end {
        PolicyEnd::Short {
            published,
            state,
            reader,
        } => {
            (*published, state.next_block()) == (n, n)
                && (reader.number(), reader.taken(), reader.ended()) == (0, n, true)
        }
        _ => false,
    }
}

// A ring of five blocks, of which two are published, and the end, and its reader.
fn two_of_five(alloc: Global) -> Option<(Ring, Reader)>
    ensures ring { IfSome result (λ r. ((spec_of r.0).id.key ≡ 0 ∷ 0 ∷ 0 ∷ 0 ∷ []) × ((spec_of r.0).id.total ≡ 5) × ((spec_of r.0).id.first ≡ 0)) }
    ensures reader { IfSome result (λ r. IsReaderOf r.0 r.1 × (reader_part r.1 ≡ open_reader (spec_of r.0))) }
{
    let Some((ring, mut producer, mut readers)) = open(alloc, 2, 1, 5) else {
        return None;
    };
    publish_two(&ring, &mut producer);
    match last_of(&ring, &mut readers) {
        None => None,
        Some(reader) => Some((ring, reader)),
    }
}

// Whether the run of policy 0 ends after two of five blocks if only these were published.
fn ends_early<R: Wait>(rt: &R, alloc: Global, scenario: &Scenario) -> Result<bool, AllocError>
    requires scenario { (scenario.now.model.periods ≡ 20) × (scenario.now.model.replications ≡ 1) }
    requires key { scenario.now.key ≡ 0 ∷ 0 ∷ 0 ∷ 0 ∷ [] }
    requires two { length scenario.now.policies ≡ 2 }
{
    let Some((ring, reader)) = two_of_five(alloc) else {
        return Ok(false);
    };
    let end = run_one(rt, alloc, &ring, reader, scenario, 0, 9)?;
    Ok(is_short_at(&end, 2))
}

// The same of twenty periods of the steady model.
fn twenty_periods_end_early<R: Wait>(rt: &R, alloc: Global) -> Result<bool, AllocError> {
    let scenario = steady(alloc, Slots::Two, 20, 1)?;
    ends_early(rt, alloc, &scenario)
}

#[test]
fn an_early_end(rt: HostRuntime) -> Result<(), Fail> {
    assert!(rt; twenty_periods_end_early(&rt, rt.alloc())?);
    Ok(())
}

fn is_held_before(end: &PolicyEnd, k: u64) -> bool {
    match end {
        PolicyEnd::Held(state, _) => state.next_block() == k,
        _ => false,
    }
}

fn has_reached(end: &PolicyEnd, total: u64, costs: &[u64]) -> bool {
    match end {
        PolicyEnd::Reached { state, reader } => {
            state.costs() == costs && reader.taken() == total && reader.ended()
        }
        _ => false,
    }
}

// A ring of two readers, of which all four blocks are published.
fn all_of_four<R: Wait>(rt: &R, alloc: Global) -> Option<(Ring, Vec<Reader>)>
    ensures ring { IfSome result (λ r. ((spec_of r.0).id.key ≡ 0 ∷ 0 ∷ 0 ∷ 0 ∷ []) × ((spec_of r.0).id.total ≡ 4) × ((spec_of r.0).id.first ≡ 0)) }
    ensures readers { IfSome result (λ r. AllFresh r.0 r.1.items) }
{
    let Some((ring, mut producer, readers)) = open(alloc, 4, 2, 4) else {
        return None;
    };
    feed(rt, &ring, &mut producer);
    Some((ring, readers))
}

// Whether policy 1 is held before block k.
fn holds_second<R: Wait>(
    rt: &R,
    alloc: Global,
    ring: &Ring,
    reader: Reader,
    scenario: &Scenario,
    k: u64,
) -> Result<bool, AllocError>
    requires two { length scenario.now.policies ≡ 2 }
    requires reader { IsReaderOf ring.now reader × (reader_part reader ≡ open_reader (spec_of ring.now)) }
    requires key { (spec_of ring.now).id.key ≡ scenario.now.key }
    requires blocks { ((spec_of ring.now).id.total ≤ total scenario.now.model) × ((spec_of ring.now).id.first ≡ 0) }
{
    let held = run_one(rt, alloc, ring, reader, scenario, 1, k)?;
    Ok(is_held_before(&held, k))
}

// Whether policy 0 reaches the end with its costs.
fn passes_first<R: Wait>(
    rt: &R,
    alloc: Global,
    ring: &Ring,
    reader: Reader,
    scenario: &Scenario,
    k: u64,
) -> Result<bool, AllocError>
    requires two { length scenario.now.policies ≡ 2 }
    requires reader { IsReaderOf ring.now reader × (reader_part reader ≡ open_reader (spec_of ring.now)) }
    requires key { (spec_of ring.now).id.key ≡ scenario.now.key }
    requires blocks { ((spec_of ring.now).id.total ≤ total scenario.now.model) × ((spec_of ring.now).id.first ≡ 0) }
{
    let reached = run_one(rt, alloc, ring, reader, scenario, 0, k)?;
    Ok(has_reached(&reached, 4, &[55, 55]))
}

// Whether policy 1 is held before block k, and policy 0 reaches the end with its costs, if all blocks were published.
fn holds_before<R: Wait>(
    rt: &R,
    alloc: Global,
    scenario: &Scenario,
    k: u64,
) -> Result<bool, AllocError>
    requires scenario { (scenario.now.model.periods ≡ 5) × (scenario.now.model.replications ≡ 2) }
    requires key { scenario.now.key ≡ 0 ∷ 0 ∷ 0 ∷ 0 ∷ [] }
    requires two { length scenario.now.policies ≡ 2 }
{
    let Some((ring, mut readers)) = all_of_four(rt, alloc) else {
        return Ok(false);
    };
    let Some(second) = last_of(&ring, &mut readers) else {
        return Ok(false);
    };
    if !holds_second(rt, alloc, &ring, second, scenario, k)? {
        return Ok(false);
    }
    match last_of(&ring, &mut readers) {
        None => Ok(false),
        Some(first) => passes_first(rt, alloc, &ring, first, scenario, k),
    }
}

// The same of two replications of five periods.
fn five_periods_hold_before<R: Wait>(rt: &R, alloc: Global, k: u64) -> Result<bool, AllocError> {
    let scenario = steady(alloc, Slots::Two, 5, 2)?;
    holds_before(rt, alloc, &scenario, k)
}

#[test]
fn a_held_policy(rt: HostRuntime) -> Result<(), Fail> {
    for k in 0..4 {
        assert!(rt; five_periods_hold_before(&rt, rt.alloc(), k)?, "block {k}");
    }
    Ok(())
}

// Asked for block 0 it publishes as many blocks as the ring has room for; asked for block 1 it answers false.
#[derive(Drop)]
struct Filling<'a> {
    ring: &'a Ring,
    producer: Producer,
    published: u64,
    has_refused: bool,
    ghost of: { IsProducerOf ring.now producer },
}

impl<'a> Gate for Filling<'a> {
    ghost refused = { λ g. g.has_refused };

    ghost asked = { λ _ _ _ _ _. ⊤ };

    fn pass(&mut self, _policy: u32, block: u64) -> bool {
        if block > 0 {
            self.has_refused = true;
            return false;
        }
        publish_all(self.ring, &mut self.producer);
        self.published = self.producer.published();
        !self.has_refused
    }
}

// Publishes at most 64 blocks, as long as there is room.
fn publish_all(ring: &Ring, producer: &mut Producer)
    requires ring { IsProducerOf ring.now producer.old }
    ensures ring { IsProducerOf ring.now producer.new }
{
    for _turn in 0..64u32 {
        publish_next(ring, producer);
    }
}

// A ring of 32 slots, which are full, with its producer and its reader.
fn full_ring(alloc: Global) -> Option<(Ring, Producer, Reader)>
    ensures ring { IfSome result (λ r. ((spec_of r.0).id.key ≡ 0 ∷ 0 ∷ 0 ∷ 0 ∷ []) × ((spec_of r.0).id.total ≡ 100) × ((spec_of r.0).id.first ≡ 0)) }
    ensures producer { IfSome result (λ r. IsProducerOf r.0 r.1) }
    ensures reader { IfSome result (λ r. IsReaderOf r.0 r.2 × (reader_part r.2 ≡ open_reader (spec_of r.0))) }
{
    let Some((ring, mut producer, mut readers)) = open(alloc, 32, 1, 100) else {
        return None;
    };
    publish_all(&ring, &mut producer);
    match last_of(&ring, &mut readers) {
        None => None,
        Some(reader) => Some((ring, producer, reader)),
    }
}

// The number of blocks that are published when a policy asks for its first block.
fn run_filling<R: Wait>(
    rt: &R,
    ring: &Ring,
    producer: Producer,
    reader: Reader,
    scenario: &Scenario,
    state: State,
) -> u64
    requires two { length scenario.now.policies ≡ 2 }
    requires producer { IsProducerOf ring.now producer }
    requires reader { IsReaderOf ring.now reader × ((reader_part reader).seen_end ≡ false) }
    requires stands { StandsBefore scenario.now.model (reader_part reader).taken state }
    requires key { (spec_of ring.now).id.key ≡ scenario.now.key }
    requires blocks { (spec_of ring.now).id.total ≤ total scenario.now.model }
{
    let mut gate = Filling {
        ring,
        producer,
        published: 0,
        has_refused: false,
    };
    drop(run_policy(rt, ring, reader, scenario, 0, state, &mut gate));
    gate.published
}

// The same of a policy that starts on a ring of 32 slots that are full.
fn published_at_first<R: Wait>(
    rt: &R,
    alloc: Global,
    scenario: &Scenario,
    state: State,
) -> Option<u64>
    requires two { length scenario.now.policies ≡ 2 }
    requires key { scenario.now.key ≡ 0 ∷ 0 ∷ 0 ∷ 0 ∷ [] }
    requires stands { StandsBefore scenario.now.model 0 state }
    requires blocks { 100 ≤ total scenario.now.model }
{
    match full_ring(alloc) {
        None => None,
        Some((ring, producer, reader)) => Some(run_filling(
            rt, &ring, producer, reader, scenario, state,
        )),
    }
}

// The same of 1,024 periods of the steady model.
fn published_of_many<R: Wait>(rt: &R, alloc: Global) -> Result<Option<u64>, AllocError> {
    let scenario = steady(alloc, Slots::Two, 1_024, 1)?;
    let state = State::start(alloc, scenario.model())?;
    Ok(published_at_first(rt, alloc, &scenario, state))
}

// The first batch has freed 16 of the slots.
#[test]
fn batches_of_sixteen(rt: HostRuntime) -> Result<(), Fail> {
    assert_eq!(rt; published_of_many(&rt, rt.alloc())?, Some(48));
    Ok(())
}
