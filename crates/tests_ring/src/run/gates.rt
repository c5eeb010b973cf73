//! Gates that wait for each other, that hold a policy, and that count the blocks that they are asked for.

ghost use Rattle.std.specs.Prelude.{◌≡◌, ◌≤◌, ⊤, false, length, All, IfOk};
ghost use Rattle.crn_stock.specs.Models.{total};
ghost use Rattle.crn_sequential.specs.Runs.{IsCheckpointOf};

use super::runs::has_reached;
use super::scenarios::steady;
use crn_run::{Checkpoint, Finished, Gate, RunFault, ThreadFault, run_all, run_plain};
use crn_stock::Scenario;
use std::alloc::{AllocError, Global};
use std::sync::Wait;
use std::sync::atomic::{AtomicBool, Ordering};
use std::test::Fail;
use std::thread;
use std::thread::{SpawnError, Threads};
use tests_model::scenarios::{Slots, base, prints};

// Waits until a flag is set, for so many turns of 1,000 yields each.
fn is_set_within(flag: &AtomicBool, turns: u32) -> bool {
    for _ in 0..turns {
        if flag.load(Ordering::SeqCst) {
            return true;
        }
        for _ in 0..1_000 {
            thread::yield_now();
        }
    }
    false
}

// Runs all policies of a scenario under these gates, from their start to their end.
fn run_under<R: Threads + Wait + Sync, G: Gate + Send>(
    rt: &R,
    alloc: Global,
    scenario: &Scenario,
    gates: &mut [G],
) -> Result<Finished, RunFault>
    requires count { length gates.old ≡ length scenario.now.policies }
    requires gates { All (λ g. G.refused g ≡ false) gates.old }
{
    let start = Checkpoint::start(alloc, scenario)?;
    run_all(rt, alloc, scenario, &start, scenario.model().total(), gates)
}

// Whether a run under these gates reaches block `upto` with these costs.
fn reaches_under<R: Threads + Wait + Sync, G: Gate + Send>(
    rt: &R,
    alloc: Global,
    scenario: &Scenario,
    gates: &mut [G],
    upto: u64,
    a: &[u64],
    b: &[u64],
) -> bool
    requires count { length gates.old ≡ length scenario.now.policies }
    requires gates { All (λ g. G.refused g ≡ false) gates.old }
{
    let answer = run_under(rt, alloc, scenario, gates);
    has_reached(&answer, upto, a, b)
}

// Sets its own flag, and waits for the other gate's.
#[derive(Drop)]
struct Meeting<'a> {
    own: &'a AtomicBool,
    other: &'a AtomicBool,
    has_refused: bool,
}

impl<'a> Gate for Meeting<'a> {
    ghost refused = { λ g. g.has_refused };

    ghost asked = { λ _ _ _ _ _. ⊤ };

    fn pass(&mut self, _policy: u32, _block: u64) -> bool {
        self.own.store(true, Ordering::SeqCst);
        let passes = is_set_within(self.other, 5_000);
        self.has_refused = self.has_refused || !passes;
        passes
    }
}

// Whether a run of one block ends with the costs of the base scenario if each policy waits for the other.
fn meet<R: Threads + Wait + Sync>(rt: &R, alloc: Global, scenario: &Scenario) -> bool
    requires two { length scenario.now.policies ≡ 2 }
{
    let first = AtomicBool::new(false);
    let second = AtomicBool::new(false);
    let mut gates = [
        Meeting {
            own: &first,
            other: &second,
            has_refused: false,
        },
        Meeting {
            own: &second,
            other: &first,
            has_refused: false,
        },
    ];
    reaches_under(rt, alloc, scenario, &mut gates, 1, &[222], &[359])
}

// The same of the base scenario.
fn base_policies_meet<R: Threads + Wait + Sync>(rt: &R, alloc: Global) -> Result<bool, AllocError> {
    let scenario = base(alloc, 1)?;
    Ok(meet(rt, alloc, &scenario))
}

#[test]
fn policies_run_side_by_side(rt: HostRuntime) -> Result<(), Fail> {
    assert!(rt; base_policies_meet(&rt, rt.alloc())?);
    Ok(())
}

// Lets policy 1 begin late, and answers false if policy 0 is two blocks ahead by then.
#[derive(Drop)]
struct Late<'a> {
    is_ahead: &'a AtomicBool,
    has_refused: bool,
}

impl<'a> Gate for Late<'a> {
    ghost refused = { λ g. g.has_refused };

    ghost asked = { λ _ _ _ _ _. ⊤ };

    fn pass(&mut self, policy: u32, block: u64) -> bool {
        if policy == 0 && block >= 2 {
            self.is_ahead.store(true, Ordering::SeqCst);
        }
        let passes = policy != 1 || block != 0 || !is_set_within(self.is_ahead, 200);
        self.has_refused = self.has_refused || !passes;
        passes
    }
}

// Whether a run of the steady model ends with its costs if policy 1 begins late.
fn waits_for_late<R: Threads + Wait + Sync>(rt: &R, alloc: Global, scenario: &Scenario) -> bool
    requires two { length scenario.now.policies ≡ 2 }
{
    let is_ahead = AtomicBool::new(false);
    let mut gates = [
        Late {
            is_ahead: &is_ahead,
            has_refused: false,
        },
        Late {
            is_ahead: &is_ahead,
            has_refused: false,
        },
    ];
    reaches_under(rt, alloc, scenario, &mut gates, 4, &[55, 55], &[49, 49])
}

// The same on a ring of one slot.
fn one_slot_waits_for_late<R: Threads + Wait + Sync>(
    rt: &R,
    alloc: Global,
) -> Result<bool, AllocError> {
    let scenario = steady(alloc, Slots::One, 5, 2)?;
    Ok(waits_for_late(rt, alloc, &scenario))
}

#[test]
fn a_late_reader_holds_the_ring(rt: HostRuntime) -> Result<(), Fail> {
    assert!(rt; one_slot_waits_for_late(&rt, rt.alloc())?);
    Ok(())
}

// Answers false for one block of one policy.
#[derive(Clone, Copy)]
pub(crate) struct HoldsAt {
    pub(crate) policy: u32,
    pub(crate) block: u64,
    pub(crate) has_refused: bool,
}

impl Gate for HoldsAt {
    ghost refused = { λ g. g.has_refused };

    ghost asked = { λ _ _ _ _ _. ⊤ };

    fn pass(&mut self, policy: u32, block: u64) -> bool {
        let passes = policy != self.policy || block != self.block;
        self.has_refused = self.has_refused || !passes;
        passes
    }
}

// Whether a run fails if a gate answers false for policy 1 at a block.
fn fails_at<R: Threads + Wait + Sync>(
    rt: &R,
    alloc: Global,
    scenario: &Scenario,
    block: u64,
) -> bool
    requires two { length scenario.now.policies ≡ 2 }
{
    let gate = HoldsAt {
        policy: 1,
        block,
        has_refused: false,
    };
    let mut gates = [gate; 2];
    matches!(
        run_under(rt, alloc, scenario, &mut gates),
        Err(RunFault::Gate)
    )
}

// The same of the steady model on a ring of so many slots.
fn steady_fails_at<R: Threads + Wait + Sync>(
    rt: &R,
    alloc: Global,
    slots: Slots,
    block: u64,
) -> Result<bool, AllocError> {
    let scenario = steady(alloc, slots, 5, 2)?;
    Ok(fails_at(rt, alloc, &scenario, block))
}

// On one slot the producer could publish only one more block if the reader of a held policy stayed.
#[test]
fn a_gate_that_refuses(rt: HostRuntime) -> Result<(), Fail> {
    for slots in [Slots::One, Slots::Two] {
        for block in 0..4 {
            assert!(rt;
                steady_fails_at(&rt, rt.alloc(), slots, block)?,
                "at block {block}"
            );
        }
    }
    Ok(())
}

// Always passes. It counts the calls, and those for its policy and for the block after the last one.
#[derive(Clone, Copy)]
struct Counting {
    policy: u32,
    next: u64,
    calls: u64,
}

impl Gate for Counting {
    ghost refused = { λ _. false };

    ghost asked = { λ _ _ _ _ _. ⊤ };

    fn pass(&mut self, policy: u32, block: u64) -> bool {
        self.calls = self.calls.saturating_add(1);
        if policy == self.policy && block == self.next && block < 1 << 32 {
            self.next = block + 1;
        }
        true
    }
}

// The block after the last one and the number of calls, of the gates of both policies after a run.
fn counts_of<R: Threads + Wait + Sync>(
    rt: &R,
    alloc: Global,
    scenario: &Scenario,
) -> Result<[(u64, u64); 2], RunFault>
    requires two { length scenario.now.policies ≡ 2 }
{
    let first = Counting {
        policy: 0,
        next: 0,
        calls: 0,
    };
    let second = Counting { policy: 1, ..first };
    let mut gates = [first, second];
    run_under(rt, alloc, scenario, &mut gates)?;
    Ok([
        (gates[0].next, gates[0].calls),
        (gates[1].next, gates[1].calls),
    ])
}

// The same of 256 blocks.
fn counts<R: Threads + Wait + Sync>(rt: &R, alloc: Global) -> Result<[(u64, u64); 2], RunFault> {
    let scenario = steady(alloc, Slots::SixtyFour, 1_024, 1)?;
    counts_of(rt, alloc, &scenario)
}

#[test]
fn each_block_is_asked_for_once(rt: HostRuntime) {
    assert_eq!(rt; counts(&rt, rt.alloc()), Ok([(256, 256), (256, 256)]));
}

// The first line whose fault has another number or is printed in another way.
fn first_other_line<'a>(
    alloc: Global,
    faults: &[(RunFault, u8, &'a str)],
) -> Result<Option<&'a str>, AllocError> {
    for (fault, number, line) in faults {
        if fault.number() != *number || !prints(alloc, fault, line)? {
            return Ok(Some(line));
        }
    }
    Ok(None)
}

#[test]
fn numbers_and_lines_of_faults(rt: HostRuntime) -> Result<(), Fail> {
    let refused = ThreadFault::from(SpawnError { value: () });
    let faults = [
        (RunFault::Thread(refused), 1, "a thread was refused"),
        (RunFault::Gate, 2, "a gate has held a policy"),
        (RunFault::Memory(AllocError), 90, "out of memory"),
    ];
    assert_eq!(rt; first_other_line(rt.alloc(), &faults)?, None);
    Ok(())
}

#[test]
fn a_refused_thread_has_no_end(rt: HostRuntime) {
    assert_eq!(rt; ThreadFault::from(SpawnError { value: () }).ended(), None);
}

// Whether a run from block 2 on fails if the gate answers false for policy 1 at its first block.
fn fails_onward<R: Threads + Wait + Sync>(
    rt: &R,
    alloc: Global,
    scenario: &Scenario,
) -> Result<bool, AllocError>
    requires two { length scenario.now.policies ≡ 2 }
    requires blocks { 2 ≤ total scenario.now.model }
{
    let gate = HoldsAt {
        policy: 1,
        block: 2,
        has_refused: false,
    };
    let mut gates = [gate; 2];
    let start = Checkpoint::start(alloc, scenario)?;
    let second = run_plain(alloc, scenario, &start, 2)?;
    let all = scenario.model().total();
    let answer = run_all(rt, alloc, scenario, &second, all, &mut gates);
    Ok(matches!(answer, Err(RunFault::Gate)))
}

// The same of the steady model on a ring of one slot.
fn steady_fails_onward<R: Threads + Wait + Sync>(
    rt: &R,
    alloc: Global,
) -> Result<bool, AllocError> {
    let scenario = steady(alloc, Slots::One, 5, 2)?;
    fails_onward(rt, alloc, &scenario)
}

// The producer would wait for ever for a reader that stayed.
#[test]
fn a_second_leg_held_at_its_first_block(rt: HostRuntime) -> Result<(), Fail> {
    assert!(rt; steady_fails_onward(&rt, rt.alloc())?);
    Ok(())
}
