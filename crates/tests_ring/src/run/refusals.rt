//! Allocations that fail and threads that do not start. `tests/hostile` runs these tests with a library that makes one
//! allocation or one thread start fail.
ghost use Rattle.std.specs.Prelude.{◌≡◌, ◌≤◌, length};
ghost use Rattle.crn_stock.specs.Models.{total};
ghost use Rattle.crn_sequential.specs.Runs.{IsCheckpointOf};

use super::runs::{has_reached, run_two, run_whole};
use super::scenarios::steady;
use crn_run::{Checkpoint, Finished, RunFault};
use crn_stock::{Scenario, State};
use std::alloc::{AllocError, Global};
use std::sync::Wait;
use std::test::Fail;
use std::thread::Threads;
use tests_model::scenarios::{Slots, base};

fn is_right(answer: &Result<Finished, RunFault>) -> bool {
    has_reached(answer, 4, &[55, 55], &[49, 49])
}

// Whether a state stands before its first period.
fn is_at_start(state: &State) -> bool {
    state.next_block() == 0 && state.costs().is_empty() && state.stock() == 10
}

// Whether two runs from the same start may return these. If an allocation of the first run failed, the second is right.
fn are_allowed(first: &Result<Finished, RunFault>, second: &Result<Finished, RunFault>) -> bool {
    match first {
        Err(RunFault::Memory(_)) => is_right(second),
        Err(RunFault::Thread(_)) => is_right(second) || matches!(second, Err(RunFault::Thread(_))),
        Err(RunFault::Gate) => false,
        Ok(_) => is_right(first),
    }
}

// Whether two runs from this start return what they may.
fn run_twice<R: Threads + Wait + Sync>(
    rt: &R,
    alloc: Global,
    scenario: &Scenario,
    start: &Checkpoint,
) -> bool
    requires two { length scenario.now.policies ≡ 2 }
    requires of { IsCheckpointOf scenario.now start.now.next start.now.states.items }
    requires upto { (start.now.next ≤ 4) × (4 ≤ total scenario.now.model) }
{
    let first = run_two(rt, alloc, scenario, start, 4);
    let second = run_two(rt, alloc, scenario, start, 4);
    are_allowed(&first, &second)
}

// Whether a start is as `Checkpoint::start` made it.
fn is_kept(start: &Checkpoint) -> bool {
    let states = start.states.as_slice();
    start.next == 0 && states.len() == 2 && is_at_start(&states[0]) && is_at_start(&states[1])
}

// Whether two runs return what they may and leave their start as it was.
fn leaves_start<R: Threads + Wait + Sync>(
    rt: &R,
    alloc: Global,
    scenario: &Scenario,
) -> Result<bool, AllocError>
    requires two { length scenario.now.policies ≡ 2 }
    requires upto { 4 ≤ total scenario.now.model }
{
    let start = Checkpoint::start(alloc, scenario)?;
    Ok(run_twice(rt, alloc, scenario, &start) && is_kept(&start))
}

// The same of the steady model.
fn steady_leaves_start<R: Threads + Wait + Sync>(
    rt: &R,
    alloc: Global,
) -> Result<bool, AllocError> {
    let scenario = steady(alloc, Slots::Two, 5, 2)?;
    leaves_start(rt, alloc, &scenario)
}

#[test]
fn a_refusal_leaves_the_start(rt: HostRuntime) -> Result<(), Fail> {
    assert!(rt; steady_leaves_start(&rt, rt.alloc())?);
    Ok(())
}

// The number of the fault that a run of the base scenario returns: 0 if it reaches its end with its costs, and None for any
// other result.
fn base_fault<R: Threads + Wait + Sync>(rt: &R, alloc: Global) -> Result<Option<u8>, AllocError> {
    let scenario = base(alloc, 1)?;
    let answer = run_whole(rt, alloc, &scenario);
    match &answer {
        Err(fault) => Ok(Some(fault.number())),
        Ok(_) if has_reached(&answer, 1, &[222], &[359]) => Ok(Some(0)),
        Ok(_) => Ok(None),
    }
}

// It passes whether a request of the run is refused or not, and prints which fault the run returns.
#[test]
fn a_run_prints_its_fault(rt: HostRuntime) -> Result<(), Fail> {
    let Some(number) = base_fault(&rt, rt.alloc())? else {
        panic!(rt; "another result")
    };
    let _ = println!(rt; "fault {number}");
    Ok(())
}
