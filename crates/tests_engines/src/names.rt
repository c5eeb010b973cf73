//! Every public name stands in the crate that users import it from.

use crn_cipher::laws::distinct;
use crn_cipher::{Block, StreamId, block, threefry, unthreefry};
use crn_draw::{DrawFault, Weights};
use crn_pair::{Fraction, Pair, PairFault};
use crn_proto::laws::every_schedule;
use crn_proto::{Actor, Kind, Machine, RingFault, RingSpec, Step, replay};
use crn_ring::{Batch, Closing, Producer, Publish, PublishMany, Reader, Ring, Take};
use crn_run::{
    Checkpoint, Finished, Gate, OpenGate, PolicyEnd, RunFault, feed, run_all, run_plain, run_policy,
};
use crn_stock::{Costs, Model, Policy, RestoreFault, Scenario, State};
use crn_text::{
    CheckpointFault, MigrateFault, ScenarioFault, ScheduleFault, migrate_checkpoint,
    read_checkpoint, read_scenario, read_schedule, report, trace_text, words_text,
    write_checkpoint,
};
use std::test::Fail;

// That this file compiles is the test.
#[test]
fn faults_of_texts(rt: HostRuntime) -> Result<(), Fail> {
    assert_eq!(rt; ScenarioFault::RingSize.number(), 12);
    assert_eq!(rt; ScheduleFault::Reader.number(), 2);
    assert_eq!(rt; CheckpointFault::OldVersion.number(), 4);
    assert_eq!(rt; MigrateFault::NewVersion.number(), 5);
    Ok(())
}
