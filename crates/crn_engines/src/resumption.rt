//! A run onward from a checkpoint, and its report.
ghost use Rattle.std.specs.Prelude.{◌≡◌, true, false, IfOk, IfErr, OnOk};
ghost use Rattle.std.specs.Io.KnownBytes.{Keeps};
ghost use Rattle.crn_engines.specs.Commands.{MadeResumed, MadeLegsReport, IsResumedReport, ReportsLegs, WroteResumed, WroteResumedFront, WroteLegsReport, RefusesResume, is_writing};
ghost use Rattle.crn_engines.specs.Inner.Onward.{MadeOnward};
ghost use Rattle.crn_engines.specs.Inner.Refusals.{RefusesOnward, RefusesOnwardRun};

use crate::fault::Fault;
use crate::input::read_input;
use crate::steps::{run_and_report, scenario_from, send_made};
use crn_checkpoint::read_checkpoint;
use crn_stock::Scenario;
use std::alloc::Global;
use std::io::{Read, Write};
use std::sync::Wait;
use std::thread::Threads;

/// Reads a scenario from `reader` to its end, then a checkpoint of it from `checkpoint`, runs all policies from there over
/// the remaining blocks, with one thread for each policy, and writes the report to `writer`.
///
/// From a checkpoint that [`leg`](crate::leg) has written of the same scenario, with a ring of any size, it writes the
/// report that [`simulate`](crate::simulate) writes. If amounts of the checkpoint were altered, it continues from these.
///
/// # Errors
///
/// - `Scenario` if the scenario is refused. Then the checkpoint is not read.
/// - `Reading`, `Checkpoint`, `Thread`, `Memory` or `Writing`: see [`Fault`].
pub fn resume<H: Threads + Wait + Sync, C: Read, R: Read, W: Write>(
    rt: &H,
    alloc: Global,
    checkpoint: &mut C,
    reader: &mut R,
    writer: &mut W,
) -> Result<(), Fault>
    ensures wrote { OnOk result (WroteResumed (C.remaining checkpoint.old) (C.remaining checkpoint.new) (R.remaining reader.old) (R.remaining reader.new) (W.contents writer.old) (W.contents writer.new)) }
    ensures legs { OnOk result (WroteLegsReport (C.remaining checkpoint.old) (C.remaining checkpoint.new) (R.remaining reader.old) (R.remaining reader.new) (W.contents writer.old) (W.contents writer.new)) }
    ensures kept { IfErr result (λ e. is_writing e ≡ false → Keeps (W.contents writer.old) (W.contents writer.new)) }
    ensures front { IfErr result (λ e. is_writing e ≡ true → WroteResumedFront (C.remaining checkpoint.old) (C.remaining checkpoint.new) (R.remaining reader.old) (R.remaining reader.new) (W.contents writer.old) (W.contents writer.new)) }
    ensures refused { IfErr result (λ e. RefusesResume e (C.remaining checkpoint.old) (C.remaining checkpoint.new) (R.remaining reader.old) (R.remaining reader.new)) }
{
    let text = report_from(rt, alloc, checkpoint, reader)?;
    send_made(writer, text)
}

// Reads a scenario and a checkpoint of it, and makes the report of the run onward.
fn report_from<H: Threads + Wait + Sync, C: Read, R: Read>(
    rt: &H,
    alloc: Global,
    checkpoint: &mut C,
    reader: &mut R,
) -> Result<Vec<u8>, Fault>
    ensures made { IfOk result (λ text. MadeResumed (C.remaining checkpoint.old) (C.remaining checkpoint.new) (R.remaining reader.old) (R.remaining reader.new) text.items) }
    ensures legs { IfOk result (λ text. MadeLegsReport (C.remaining checkpoint.old) (C.remaining checkpoint.new) (R.remaining reader.old) (R.remaining reader.new) text.items) }
    ensures refused { IfErr result (λ e. RefusesResume e (C.remaining checkpoint.old) (C.remaining checkpoint.new) (R.remaining reader.old) (R.remaining reader.new)) }
    ensures silent { IfErr result (λ e. is_writing e ≡ false) }
{
    let scenario = scenario_from(alloc, reader)?;
    report_onward(rt, alloc, &scenario, checkpoint)
}

// Reads a checkpoint of a scenario, and makes the report of the run onward.
fn report_onward<H: Threads + Wait + Sync, C: Read>(
    rt: &H,
    alloc: Global,
    scenario: &Scenario,
    checkpoint: &mut C,
) -> Result<Vec<u8>, Fault>
    ensures made { IfOk result (λ text. MadeOnward scenario.now (C.remaining checkpoint.old) (C.remaining checkpoint.new) text.items) }
    ensures refused { IfErr result (λ e. RefusesOnward scenario.now e (C.remaining checkpoint.old) (C.remaining checkpoint.new)) }
{
    let bytes = read_input(alloc, checkpoint)?;
    resumed_text(rt, alloc, scenario, bytes.as_slice())
}

// The report of a run onward from the checkpoint that a text spells.
fn resumed_text<H: Threads + Wait + Sync>(
    rt: &H,
    alloc: Global,
    scenario: &Scenario,
    bytes: &[u8],
) -> Result<Vec<u8>, Fault>
    ensures report { IfOk result (λ text. IsResumedReport scenario.now bytes.now text.items) }
    ensures legs { IfOk result (λ text. ReportsLegs scenario.now bytes.now text.items) }
    ensures refused { IfErr result (λ e. RefusesOnwardRun scenario.now e bytes.now) }
{
    let start = read_checkpoint(alloc, scenario, bytes)?;
    run_and_report(rt, alloc, scenario, &start)
}
