//! Runs on one thread, with costs worked out by hand from the model's rules: one policy after another, and side by side.

ghost use Rattle.std.specs.Prelude.{◌≡◌, ◌≤◌, IfOk};
ghost use Rattle.crn_stock.specs.Models.{total};
ghost use Rattle.crn_sequential.specs.Runs.{IsCheckpointOf};

use crate::scenarios::base;
use crn_lanes::run_lanes;
use crn_sequential::{Checkpoint, run_plain};
use crn_stock::{Scenario, State};
use std::alloc::{AllocError, Global};
use std::test::Fail;

// The block at which a checkpoint stands, and the costs of its two states, None for each that is not there.
type Shown = (u64, [[Option<u64>; 2]; 2]);

// The costs of a state; None if they are more than two.
fn costs_of(state: &State) -> Option<[Option<u64>; 2]> {
    let costs = state.costs();
    if costs.len() > 2 {
        return None;
    }
    Some([costs.first().copied(), costs.get(1).copied()])
}

// What a checkpoint shows, if it has two states of two costs at most.
fn shown(checkpoint: &Checkpoint) -> Option<Shown> {
    let states = checkpoint.states.as_slice();
    if states.len() != 2 {
        return None;
    }
    Some((
        checkpoint.next,
        [costs_of(&states[0])?, costs_of(&states[1])?],
    ))
}

// The way in which the policies of a scenario run on one thread.
#[derive(Clone, Copy)]
enum Way {
    InTurn,
    SideBySide,
}

// Runs all policies up to a block in one of the two ways.
fn run(
    alloc: Global,
    scenario: &Scenario,
    start: &Checkpoint,
    upto: u64,
    way: Way,
) -> Result<Checkpoint, AllocError>
    requires of { IsCheckpointOf scenario.now start.now.next start.now.states.items }
    requires from { start.now.next ≤ upto }
    requires below { upto ≤ total scenario.now.model }
    ensures next { IfOk result (λ c. c.next ≡ upto) }
    ensures of { IfOk result (λ c. IsCheckpointOf scenario.now upto c.states.items) }
{
    match way {
        Way::InTurn => run_plain(alloc, scenario, start, upto),
        Way::SideBySide => run_lanes(alloc, scenario, start, upto),
    }
}

// What is shown after legs from the start to each of these blocks in turn; None also if a block is out of range.
fn shown_by_way_of(
    alloc: Global,
    scenario: &Scenario,
    blocks: &[u64],
    way: Way,
) -> Result<Option<Shown>, AllocError> {
    let mut end = Checkpoint::start(alloc, scenario)?;
    for block in blocks {
        if *block < end.next || *block > scenario.model().total() {
            return Ok(None);
        }
        end = run(alloc, scenario, &end, *block, way)?;
    }
    Ok(shown(&end))
}

// The same of the base scenario.
fn base_shown(
    alloc: Global,
    replications: u32,
    blocks: &[u64],
    way: Way,
) -> Result<Option<Shown>, AllocError>
    requires { (1 ≤ replications) × (replications ≤ 256) }
{
    let scenario = base(alloc, replications)?;
    shown_by_way_of(alloc, &scenario, blocks, way)
}

#[test]
fn start_of_the_base_scenario(rt: HostRuntime) -> Result<(), Fail> {
    let start = base_shown(rt.alloc(), 1, &[], Way::InTurn)?;
    assert_eq!(rt; start, Some((0, [[None, None], [None, None]])));
    Ok(())
}

#[test]
fn base_scenario(rt: HostRuntime) -> Result<(), Fail> {
    let end = base_shown(rt.alloc(), 1, &[1], Way::InTurn)?;
    assert_eq!(rt; end, Some((1, [[Some(222), None], [Some(359), None]])));
    Ok(())
}

#[test]
fn a_leg_of_no_blocks(rt: HostRuntime) -> Result<(), Fail> {
    let stays = base_shown(rt.alloc(), 2, &[1, 1, 1], Way::InTurn)?;
    assert_eq!(rt; stays, Some((1, [[Some(222), None], [Some(359), None]])));
    Ok(())
}

// Whether there is a second cost of each state.
fn are_whole(costs: [[Option<u64>; 2]; 2]) -> bool {
    let [[_, a], [_, b]] = costs;
    a.is_some() && b.is_some()
}

#[test]
fn two_legs(rt: HostRuntime) -> Result<(), Fail> {
    let whole = base_shown(rt.alloc(), 2, &[2], Way::InTurn)?;
    let (block, costs) = whole.unwrap_or((0, [[None; 2]; 2]));
    assert!(rt; block == 2 && are_whole(costs));
    assert_eq!(rt; base_shown(rt.alloc(), 2, &[1, 1, 2], Way::InTurn)?, whole);
    Ok(())
}

#[test]
fn legs_side_by_side(rt: HostRuntime) -> Result<(), Fail> {
    let whole = base_shown(rt.alloc(), 2, &[2], Way::InTurn)?;
    let (block, costs) = whole.unwrap_or((0, [[None; 2]; 2]));
    assert!(rt; block == 2 && are_whole(costs));
    assert_eq!(rt; base_shown(rt.alloc(), 2, &[2], Way::SideBySide)?, whole);
    assert_eq!(rt;
        base_shown(rt.alloc(), 2, &[1, 1, 2], Way::SideBySide)?,
        whole
    );
    Ok(())
}
