//! A whole run, and its report.
ghost use Rattle.std.specs.Prelude.{◌≡◌, true, false, IfOk, IfErr, OnOk};
ghost use Rattle.std.specs.Io.KnownBytes.{Keeps};
ghost use Rattle.crn_report.specs.Report.{IsReportOf};
ghost use Rattle.crn_engines.specs.Commands.{is_writing, MadeReport, WroteReport, WroteFront, RefusesSimulation};
ghost use Rattle.crn_engines.specs.Inner.Refusals.{RefusesRun};

use crate::fault::Fault;
use crate::steps::{run_and_report, scenario_from, send_made};
use crn_run::Checkpoint;
use crn_stock::Scenario;
use std::alloc::Global;
use std::io::{Read, Write};
use std::sync::Wait;
use std::thread::Threads;

/// Reads a scenario from `reader` to its end, runs all its policies, and writes the report to `writer`. There is one
/// thread for each policy. All of them take the same stream from one ring, which the calling thread feeds.
///
/// # Errors
///
/// `Reading`, `Scenario`, `Thread`, `Memory` or `Writing`: see [`Fault`].
pub fn simulate<H: Threads + Wait + Sync, R: Read, W: Write>(
    rt: &H,
    alloc: Global,
    reader: &mut R,
    writer: &mut W,
) -> Result<(), Fault>
    ensures wrote { OnOk result (WroteReport (R.remaining reader.old) (R.remaining reader.new) (W.contents writer.old) (W.contents writer.new)) }
    ensures kept { IfErr result (λ e. is_writing e ≡ false → Keeps (W.contents writer.old) (W.contents writer.new)) }
    ensures front { IfErr result (λ e. is_writing e ≡ true → WroteFront (R.remaining reader.old) (R.remaining reader.new) (W.contents writer.old) (W.contents writer.new)) }
    ensures refused { IfErr result (λ e. RefusesSimulation e (R.remaining reader.old) (R.remaining reader.new)) }
{
    let text = report_from(rt, alloc, reader)?;
    send_made(writer, text)
}

// Reads a scenario, and makes its report.
fn report_from<H: Threads + Wait + Sync, R: Read>(
    rt: &H,
    alloc: Global,
    reader: &mut R,
) -> Result<Vec<u8>, Fault>
    ensures made { IfOk result (λ text. MadeReport (R.remaining reader.old) (R.remaining reader.new) text.items) }
    ensures refused { IfErr result (λ e. RefusesSimulation e (R.remaining reader.old) (R.remaining reader.new)) }
    ensures silent { IfErr result (λ e. is_writing e ≡ false) }
{
    let scenario = scenario_from(alloc, reader)?;
    report_of(rt, alloc, &scenario)
}

// Runs all policies over the whole stream, and makes the report.
fn report_of<H: Threads + Wait + Sync>(
    rt: &H,
    alloc: Global,
    scenario: &Scenario,
) -> Result<Vec<u8>, Fault>
    ensures report { IfOk result (λ text. IsReportOf scenario.now text.items) }
    ensures refused { IfErr result (λ e. RefusesRun e) }
{
    let start = Checkpoint::start(alloc, scenario)?;
    run_and_report(rt, alloc, scenario, &start)
}
