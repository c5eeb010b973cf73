//! Runs of all policies under open gates.

ghost use Rattle.std.specs.Prelude.{◌≡◌, ◌≤◌, length, IfOk};
ghost use Rattle.crn_stock.specs.Models.{total};
ghost use Rattle.crn_sequential.specs.Runs.{IsCheckpointOf};

use crn_ring::Reader;
use crn_run::{Checkpoint, Finished, OpenGate, RunFault, run_all};
use crn_stock::Scenario;
use std::alloc::{AllocError, Global};
use std::sync::Wait;
use std::test::Fail;
use std::thread::Threads;
use tests_model::scenarios::{base, have_costs};

// A run of two policies up to a block.
pub(crate) fn run_two<R: Threads + Wait + Sync>(
    rt: &R,
    alloc: Global,
    scenario: &Scenario,
    start: &Checkpoint,
    upto: u64,
) -> Result<Finished, RunFault>
    requires two { length scenario.now.policies ≡ 2 }
    requires of { IsCheckpointOf scenario.now start.now.next start.now.states.items }
    requires from { start.now.next ≤ upto }
    requires below { upto ≤ total scenario.now.model }
    ensures next { IfOk result (λ f. f.checkpoint.next ≡ upto) }
    ensures of { IfOk result (λ f. IsCheckpointOf scenario.now upto f.checkpoint.states.items) }
{
    let mut gates = [OpenGate; 2];
    run_all(rt, alloc, scenario, start, upto, &mut gates)
}

// A run of two policies from their start to their end.
pub(crate) fn run_whole<R: Threads + Wait + Sync>(
    rt: &R,
    alloc: Global,
    scenario: &Scenario,
) -> Result<Finished, RunFault>
    requires two { length scenario.now.policies ≡ 2 }
{
    let start = Checkpoint::start(alloc, scenario)?;
    run_two(rt, alloc, scenario, &start, scenario.model().total())
}

// Whether the readers are 0 and 1, have taken the blocks below `upto` and have seen the end.
pub(crate) fn have_read(readers: &[Reader], upto: u64) -> bool {
    readers.len() == 2
        && (readers[0].number(), readers[0].taken(), readers[0].ended()) == (0, upto, true)
        && (readers[1].number(), readers[1].taken(), readers[1].ended()) == (1, upto, true)
}

// Whether a run has reached block `upto` with these costs.
pub(crate) fn has_reached(
    answer: &Result<Finished, RunFault>,
    upto: u64,
    a: &[u64],
    b: &[u64],
) -> bool {
    match answer {
        Err(_) => false,
        Ok(finished) => {
            finished.checkpoint.next == upto
                && have_costs(&finished.checkpoint, a, b)
                && have_read(finished.readers.as_slice(), upto)
        }
    }
}

// Whether a whole run reaches block `upto` with these costs.
pub(crate) fn run_reaches<R: Threads + Wait + Sync>(
    rt: &R,
    alloc: Global,
    scenario: &Scenario,
    upto: u64,
    a: &[u64],
    b: &[u64],
) -> bool
    requires two { length scenario.now.policies ≡ 2 }
{
    let answer = run_whole(rt, alloc, scenario);
    has_reached(&answer, upto, a, b)
}

// Whether a whole run of the base scenario has its costs.
fn base_reaches<R: Threads + Wait + Sync>(rt: &R, alloc: Global) -> Result<bool, AllocError> {
    let scenario = base(alloc, 1)?;
    Ok(run_reaches(rt, alloc, &scenario, 1, &[222], &[359]))
}

#[test]
fn base_scenario(rt: HostRuntime) -> Result<(), Fail> {
    assert!(rt; base_reaches(&rt, rt.alloc())?);
    Ok(())
}
