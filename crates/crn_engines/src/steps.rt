//! The steps that the engines share.
ghost use Rattle.std.specs.Prelude.{◌≡◌, ◌≤◌, IfOk, IfErr, OnOk, OnErr};
ghost use Rattle.std.specs.Io.KnownBytes.{Appends};
ghost use Rattle.crn_stock.specs.Models.{total};
ghost use Rattle.crn_sequential.specs.Runs.{IsCheckpointOf, EachAt, EachOnward};
ghost use Rattle.crn_report.specs.Report.{IsReportOf};
ghost use Rattle.crn_engines.specs.Bytes.{AppendsFront};
ghost use Rattle.crn_engines.specs.Inputs.{ReadScenario};
ghost use Rattle.crn_engines.specs.Refusals.{RefusesOutput, RefusesScenarioInput};
ghost use Rattle.crn_engines.specs.Commands.{IsReportOnward};
ghost use Rattle.crn_engines.specs.Inner.Refusals.{RefusesRun};

use crate::fault::Fault;
use crate::input::read_input;
use crate::output::write_text;
use crn_limits::POLICY_LIMIT;
use crn_report::report;
use crn_run::{Checkpoint, OpenGate, run_all};
use crn_scenario::read_scenario;
use crn_stock::Scenario;
use std::alloc::Global;
use std::io::{Read, Write};
use std::sync::Wait;
use std::thread::Threads;

/// Reads an input to its end and judges it as a scenario.
pub(crate) fn scenario_from<R: Read>(alloc: Global, reader: &mut R) -> Result<Scenario, Fault>
    ensures reads { IfOk result (λ s. ReadScenario (R.remaining reader.old) (R.remaining reader.new) s) }
    ensures refused { IfErr result (λ e. RefusesScenarioInput e (R.remaining reader.old) (R.remaining reader.new)) }
{
    let input = read_input(alloc, reader)?;
    Ok(read_scenario(alloc, input.as_slice())?)
}

/// Runs all policies from a checkpoint up to a block, with one thread for each policy.
pub(crate) fn run_to<H: Threads + Wait + Sync>(
    rt: &H,
    alloc: Global,
    scenario: &Scenario,
    start: &Checkpoint,
    upto: u64,
) -> Result<Checkpoint, Fault>
    requires of { IsCheckpointOf scenario.now start.now.next start.now.states.items }
    requires from { start.now.next ≤ upto }
    requires below { upto ≤ total scenario.now.model }
    ensures next { IfOk result (λ c. c.next ≡ upto) }
    ensures of { IfOk result (λ c. IsCheckpointOf scenario.now upto c.states.items) }
    ensures at { IfOk result (λ c. EachAt scenario.now start.now.next start.now.states.items → EachAt scenario.now upto c.states.items) }
    ensures onward { IfOk result (λ c. EachOnward scenario.now start.now.states.items upto c.states.items) }
    ensures refused { IfErr result (λ e. RefusesRun e) }
{
    let mut gates = [OpenGate; POLICY_LIMIT as usize];
    let gates = &mut gates[..scenario.policies().len()];
    let finished = run_all(rt, alloc, scenario, start, upto, gates)?;
    Ok(finished.checkpoint)
}

/// Runs all policies from a checkpoint over the remaining blocks, and makes the report.
pub(crate) fn run_and_report<H: Threads + Wait + Sync>(
    rt: &H,
    alloc: Global,
    scenario: &Scenario,
    start: &Checkpoint,
) -> Result<Vec<u8>, Fault>
    requires of { IsCheckpointOf scenario.now start.now.next start.now.states.items }
    requires within { start.now.next ≤ total scenario.now.model }
    ensures onward { IfOk result (λ text. IsReportOnward scenario.now start.now.states.items text.items) }
    ensures at { IfOk result (λ text. EachAt scenario.now start.now.next start.now.states.items → IsReportOf scenario.now text.items) }
    ensures refused { IfErr result (λ e. RefusesRun e) }
{
    let total = scenario.model().total();
    let end = run_to(rt, alloc, scenario, start, total)?;
    Ok(report(alloc, scenario, &end)?)
}

/// Writes a text that was made whole before: nothing is written before a fault of what makes it.
pub(crate) fn send_made<W: Write>(writer: &mut W, text: Vec<u8>) -> Result<(), Fault>
    ensures whole { OnOk result (Appends (W.contents writer.old) (W.contents writer.new) text.items) }
    ensures front { OnErr result (AppendsFront (W.contents writer.old) (W.contents writer.new) text.items) }
    ensures refused { IfErr result (λ e. RefusesOutput e) }
{
    send(writer, text.as_slice())
}

/// Writes a whole text, or a prefix of it if it fails.
pub(crate) fn send<W: Write>(writer: &mut W, text: &[u8]) -> Result<(), Fault>
    ensures whole { OnOk result (Appends (W.contents writer.old) (W.contents writer.new) text.now) }
    ensures front { OnErr result (AppendsFront (W.contents writer.old) (W.contents writer.new) text.now) }
    ensures refused { IfErr result (λ e. RefusesOutput e) }
{
    Ok(write_text(writer, text)?)
}
