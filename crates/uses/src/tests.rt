//! Each caller once, on values that were computed elsewhere.
ghost use Rattle.std.specs.Prelude.{◌≤◌};

use crate::blocks::block_with;
use crate::checkpoint::run_for;
use crate::report::report_of;
use crate::ring::{BlocksFault, first_blocks};
use crate::taken::Taken;
use crn_cipher::block;
use crn_scenario::read_scenario;
use std::alloc::Global;
use std::sync::Wait;
use std::test::Fail;
use std::thread::Threads;

#[test]
fn a_block_by_its_words(rt: HostRuntime) {
    // Random123's words at the counter 0 of the zero key.
    let words = [
        0x0921_8ebd_e6c8_5537,
        0x5594_1f52_66d8_6105,
        0x4bd2_5e16_2824_34dc,
        0xee29_ec84_6bd2_e40b,
    ];
    assert_eq!(rt; block_with([0; 4], words), Some(block([0; 4], 0)));
    assert_eq!(rt; block_with([0; 4], [0; 4]), None);
}

// How many blocks come through the ring, and the number of the last.
fn passed<R: Threads + Wait + Sync>(
    rt: &R,
    alloc: Global,
    total: u64,
    most: usize,
) -> Option<(usize, u64)>
    requires { total ≤ 65536 }
{
    match first_blocks(rt, alloc, [0; 4], total, most) {
        Ok((taken, _)) => Some((taken.blocks.len(), last_of(&taken))),
        Err(_) => None,
    }
}

// The number of the last block.
fn last_of(taken: &Taken) -> u64 {
    match taken.blocks.last() {
        Some(last) => last.number,
        None => 0,
    }
}

#[test]
fn a_reader_takes_some_blocks_or_all(rt: HostRuntime) {
    assert_eq!(rt; passed(&rt, rt.alloc(), 1_000, 10), Some((10, 9)));
    assert_eq!(rt; passed(&rt, rt.alloc(), 100, 1_000), Some((100, 99)));
}

// Whether ten blocks come through the ring, or the thread that takes them failed to start.
fn ten_or_no_thread<R: Threads + Wait + Sync>(rt: &R, alloc: Global) -> bool {
    match first_blocks(rt, alloc, [0; 4], 100, 10) {
        Ok((taken, _)) => taken.blocks.len() == 10,
        Err(fault) => fault == BlocksFault::Thread,
    }
}

#[test]
fn a_refused_thread_is_a_fault(rt: HostRuntime) {
    // Without a thread it ends too: tests/hostile runs it so.
    assert!(rt; ten_or_no_thread(&rt, rt.alloc()));
}

// A scenario of two replications of two blocks each, always with a demand of 3 and a lead time of 1.
const TWO_REPLICATIONS: &str = "version = 1
key = [\"0000000000000000\", \"0000000000000000\", \"0000000000000000\", \"0000000000000000\"]
periods = 5
replications = 2
initial = 10
ring = 2
costs = { setup = 7, unit = 2, holding = 1, backlog = 4 }
demand = { values = [3], weights = [1] }
lead = { values = [1], weights = [1] }
policy = [{ name = \"A\", s = 5, S = 10 }, { name = \"B\", s = 4, S = 10 }]
";

// Its checkpoint at block 1, in the newest version. A has ordered 6 in period 2, which came in period 3; its costs are
// 7, 4, 20 and 4. B has ordered 9 in period 3, due in period 4; its costs are 7, 4, 1 and 33.
const FIRST_LEG: &str = "checkpoint,2,1,5,2
key,0000000000000000,0000000000000000,0000000000000000,0000000000000000
costs,7,2,1,4
sizes,10,1,1,2
returns,0,-,-,-
demand,3,1,-,-
lead,1,1,-,-
policy,A,5,10,-
state,4,35,0,0
policy,B,4,10,-
state,-2,45,1,0
due,4,9,-,-
end,-,-,-,-
";

// Whether a run of so many blocks stops at this block with this text.
fn stops_at<R: Threads + Wait + Sync>(
    rt: &R,
    alloc: Global,
    blocks: u64,
    block: u64,
    text: &str,
) -> bool {
    match read_scenario(alloc, TWO_REPLICATIONS.as_bytes()) {
        Ok(scenario) => match run_for(rt, alloc, &scenario, blocks) {
            Ok(stopped) => stopped.next == block && stopped.text.as_slice() == text.as_bytes(),
            Err(_) => false,
        },
        Err(_) => false,
    }
}

#[test]
fn a_run_stops_after_a_block(rt: HostRuntime) {
    assert!(rt; stops_at(&rt, rt.alloc(), 1, 1, FIRST_LEG));
}

// A scenario of one policy: four periods, demands of 1 to 4, lead times of 1.
const ONE_POLICY: &str = "version = 1
key = [\"0000000000000000\", \"0000000000000000\", \"0000000000000000\", \"0000000000000000\"]
periods = 4
replications = 1
initial = 60
ring = 2
costs = { setup = 32, unit = 3, holding = 1, backlog = 5 }
demand = { values = [1, 2, 3, 4], weights = [1, 2, 2, 1] }
lead = { values = [1], weights = [1] }
policy = [{ name = \"A\", s = 20, S = 40 }]
";

// Its report.
const ONE_POLICY_REPORT: &str = "policy,s,S,total,per_period,diff_total,diff_mean,diff_var,cov
A,20,40,222,111/2,0,0/1,-,-
";

#[test]
fn a_text_becomes_a_report(rt: HostRuntime) -> Result<(), Fail> {
    let Ok(report) = report_of(&rt, rt.alloc(), ONE_POLICY.as_bytes()) else {
        return Err(Fail::from("there is no report"));
    };
    assert_eq!(rt; report.as_slice(), ONE_POLICY_REPORT.as_bytes());
    Ok(())
}
