//! The run of one policy, on the calling thread.
ghost use Rattle.std.specs.Prelude.{◌≡◌, ◌≢◌, ◌+◌, ◌<◌, ◌≤◌, true, false, not, length};
ghost use Rattle.crn_cipher.specs.Following.{FollowOn};
ghost use Rattle.crn_stock.specs.Models.{IsPolicy, total};
ghost use Rattle.crn_stock.specs.Stock.{next_block, terms_in, CanTake, HasTaken};
ghost use Rattle.crn_ring.specs.Calls.{AfterBatch, IsReaderOf, reader_number, reader_part, spec_of};
ghost use Rattle.crn_sequential.specs.Runs.{StandsBefore};
ghost use Rattle.crn_run.specs.declared.worker.PolicyEnd.TheVariants.{Reached, Short};
ghost use Rattle.crn_run.specs.Ends.{EndsAs, is_held};
ghost use Rattle.crn_run.specs.Gates.{HeldAt, PassedUpTo, WasAsked};
ghost use Rattle.crn_run.specs.Turns.{AfterTurn, RunsByTurns, WaitsAfter};
ghost use Rattle.crn_run.specs.Inner.Ends.{Advances};
ghost use Rattle.crn_run.specs.Inner.Taken.{taken_in};

use crate::gate::{Gate, Permit, ask};
use crate::taken::{Places, Taken};
use crate::waiting::Waiting;
use crn_ring::{Batch, LeftReader, Reader, Ring};
use crn_stock::laws::onward_from_itself;
use crn_stock::{Policy, Scenario, State, Terms};
use std::sync::Wait;

/// How the run of one policy has ended.
#[derive(Drop)]
pub enum PolicyEnd {
    /// At the ring's total: the end was marked there, and every block below it was applied.
    Reached {
        /// The state at the total.
        state: State,
        /// The reader, which has seen the end.
        reader: Reader,
    },
    /// Before the ring's total: the end was marked early, and every block below it was applied.
    Short {
        /// Where the end was marked.
        published: u64,
        /// The state there.
        state: State,
        /// The reader, which has seen the end.
        reader: Reader,
    },
    /// The gate answered false: the state before the block that it was asked for, and the reader, which has left the ring.
    Held(State, LeftReader),
}

/// Runs one policy: takes the ring's blocks in batches of at most 16, and applies each to the policy's state, up to the end
/// of the ring. `policy` is the policy's number, from 0 in the scenario's order.
///
/// Before each block the gate is asked. If it answers false the state stands before that block, even if later blocks were
/// taken. If the ring is empty it waits and tries again. It returns only if the end is marked or the gate answers false.
/// Allocates nothing, unless the gate does.
///
/// # Asks
///
/// - The scenario has the policy.
/// - The reader is one of the ring's, has not seen the end, and has taken the blocks below the state's next one.
/// - The state is of the scenario's model and stands between two blocks.
/// - The ring has the scenario's key and a total of at most the scenario's.
/// - The gate has not answered false.
#[tactic(auto, using(crate::proofs::Turning::next_turn))]
pub fn run_policy<R: Wait, G: Gate>(
    rt: &R,
    ring: &Ring,
    mut reader: Reader,
    scenario: &Scenario,
    policy: u32,
    mut state: State,
    gate: &mut G,
) -> PolicyEnd
    requires policy { policy < length scenario.now.policies }
    requires reader { IsReaderOf ring.now reader × ((reader_part reader).seen_end ≡ false) }
    requires stands { StandsBefore scenario.now.model (reader_part reader).taken state }
    requires ring { ((spec_of ring.now).id.key ≡ scenario.now.key) × ((spec_of ring.now).id.total ≤ total scenario.now.model) }
    requires gate { G.refused gate.old ≡ false }
    ensures end { EndsAs scenario.now policy state ring.now (reader_number reader) result }
    ensures held { G.refused gate.new ≡ is_held result }
    ensures asked { WasAsked G.asked policy (next_block state) result gate.old gate.new }
    ensures turns { RunsByTurns (spec_of ring.now) (reader_part reader) result }
{
    let rules = &scenario.policies()[policy as usize];
    onward_from_itself(&state);
    let mut places = Places::new();
    let mut waiting = Waiting::new(&reader);
    for _ in rt.forever() {
        match take_or_wait(rt, ring, &mut reader, &mut places, &mut waiting) {
            Batch::Got { count: _ } => {
                if !apply_all(scenario, rules, policy, &places, &mut state, gate) {
                    return PolicyEnd::Held(state, reader.into_left(ring));
                }
            }
            Batch::Empty { published: _ } => {}
            Batch::Ended { published } => return ended(ring, published, state, reader),
        }
    }
    unreachable!()
}

// Takes all blocks that fit into `places` of those that the last look at the ring has shown, and looks again only if none is
// left.
#[inline(always)]
fn take_or_wait<R: Wait>(
    rt: &R,
    ring: &Ring,
    reader: &mut Reader,
    places: &mut Places,
    waiting: &mut Waiting<Reader>,
) -> Batch
    requires reader { IsReaderOf ring.now reader.old × ((reader_part reader.old).seen_end ≡ false) }
    ensures reader { IsReaderOf ring.now reader.new × (reader_number reader.new ≡ reader_number reader.old) }
    ensures count { places.new.count ≡ taken_in result }
    ensures answer { AfterTurn (spec_of ring.now) (reader_part reader.old) (reader_part reader.new) places.old.blocks places.new.blocks result }
    ensures waits { WaitsAfter (spec_of ring.now) (reader_part reader.new) waiting.old.counted waiting.new.counted result }
    ensures within { (reader_part reader.new).taken ≤ (spec_of ring.now).id.total }
{
    let count = places.take_shown(ring, reader);
    if count > 0 {
        return Batch::Got { count };
    }
    look_or_wait(rt, ring, reader, places, waiting)
}

// Looks at the ring and takes all published blocks that fit into `places`. If its look shows none, and no end, it waits before
// it returns.
fn look_or_wait<R: Wait>(
    rt: &R,
    ring: &Ring,
    reader: &mut Reader,
    places: &mut Places,
    waiting: &mut Waiting<Reader>,
) -> Batch
    requires reader { IsReaderOf ring.now reader.old × ((reader_part reader.old).seen_end ≡ false) }
    ensures reader { IsReaderOf ring.now reader.new × (reader_number reader.new ≡ reader_number reader.old) }
    ensures count { places.new.count ≡ taken_in result }
    ensures answer { AfterBatch (spec_of ring.now) (reader_part reader.old) (reader_part reader.new) places.old.blocks places.new.blocks result }
    ensures waits { WaitsAfter (spec_of ring.now) (reader_part reader.new) waiting.old.counted waiting.new.counted result }
    ensures within { (reader_part reader.new).taken ≤ (spec_of ring.now).id.total }
{
    waiting.before_look(&*reader);
    let batch = places.take_batch(ring, reader);
    if let Batch::Empty { published: _ } = batch {
        waiting.wait_for_block(rt, ring, reader);
    }
    batch
}

// Returns the end of a run whose reader has seen the end of the ring before block `published`.
fn ended(ring: &Ring, published: u64, state: State, reader: Reader) -> PolicyEnd
    ensures total { published ≡ (spec_of ring.now).id.total → result ≡ Reached state reader }
    ensures not_held { is_held result ≡ false }
    ensures early { published ≢ (spec_of ring.now).id.total → result ≡ Short published state reader }
{
    if published == ring.spec().id.total {
        PolicyEnd::Reached { state, reader }
    } else {
        PolicyEnd::Short {
            published,
            state,
            reader,
        }
    }
}

// Applies the blocks that the reader's last call has taken, which are the state's next ones, each after the gate has passed it.
// Returns whether the gate has passed them all. If not, the state stands before the first that it has not passed.
fn apply_all<G: Gate>(
    scenario: &Scenario,
    rules: &Policy,
    policy: u32,
    places: &Places,
    state: &mut State,
    gate: &mut G,
) -> bool
    requires rules { IsPolicy rules.now }
    requires stands { StandsBefore scenario.now.model (next_block state.old) state.old }
    requires blocks { FollowOn scenario.now.key (next_block state.old) places.now.count places.now.blocks }
    requires below { next_block state.old + places.now.count ≤ total scenario.now.model }
    requires gate { G.refused gate.old ≡ false }
    ensures advances { Advances scenario.now.model rules.now scenario.now.key state.old state.new }
    ensures all { result ≡ true → next_block state.new ≡ next_block state.old + places.now.count }
    ensures gate { G.refused gate.new ≡ not result }
    ensures passed { result ≡ true → PassedUpTo G.asked policy (next_block state.old) (next_block state.new) gate.old gate.new }
    ensures held { result ≡ false → (next_block state.new < next_block state.old + places.now.count) × HeldAt G.asked policy (next_block state.old) (next_block state.new) gate.old gate.new }
{
    let terms = Terms::of(rules, scenario.model().costs());
    for k in 0..places.count() {
        let next = places.taken(k);
        match ask(gate, policy, next.block().number) {
            None => return false,
            Some(permit) => apply(scenario, &terms, policy, next, permit, state),
        }
    }
    true
}

// Applies the next block, which the reader has taken and for which the gate has given its leave, to the state of policy number
// `policy`.
#[inline(always)]
fn apply(
    scenario: &Scenario,
    terms: &Terms,
    policy: u32,
    next: Taken<'_>,
    permit: Permit,
    state: &mut State,
)
    requires permit { (permit.policy ≡ policy) × (permit.block ≡ next.block.now.number) }
    requires block { CanTake scenario.now.model next.block.now state.old }
    ensures { HasTaken scenario.now.model (terms_in terms.now) next.entry.block.now state.old state.new }
{
    drop(permit);
    state.take_block_by(terms, scenario.model(), next.block());
}
