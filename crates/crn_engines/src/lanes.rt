//! A whole run on one thread, and its report.
ghost use Rattle.std.specs.Prelude.{◌≡◌, true, false, IfOk, IfErr, OnOk};
ghost use Rattle.std.specs.Io.KnownBytes.{Keeps};
ghost use Rattle.crn_report.specs.Report.{IsReportOf};
ghost use Rattle.crn_engines.specs.Commands.{is_writing, MadeReport, WroteReport, WroteFront, RefusesLanes};

use crate::fault::Fault;
use crate::steps::{scenario_from, send_made};
use crn_lanes::run_lanes;
use crn_report::report;
use crn_sequential::Checkpoint;
use crn_stock::Scenario;
use std::alloc::{AllocError, Global};
use std::io::{Read, Write};

/// Reads a scenario from `reader` to its end, runs all its policies side by side on the calling thread, and writes to
/// `writer` the report that [`simulate`](crate::simulate) writes. Opens no ring.
///
/// # Errors
///
/// `Reading`, `Scenario`, `Memory` or `Writing`: see [`Fault`].
pub fn simulate_lanes<R: Read, W: Write>(
    alloc: Global,
    reader: &mut R,
    writer: &mut W,
) -> Result<(), Fault>
    ensures wrote { OnOk result (WroteReport (R.remaining reader.old) (R.remaining reader.new) (W.contents writer.old) (W.contents writer.new)) }
    ensures kept { IfErr result (λ e. is_writing e ≡ false → Keeps (W.contents writer.old) (W.contents writer.new)) }
    ensures front { IfErr result (λ e. is_writing e ≡ true → WroteFront (R.remaining reader.old) (R.remaining reader.new) (W.contents writer.old) (W.contents writer.new)) }
    ensures refused { IfErr result (λ e. RefusesLanes e (R.remaining reader.old) (R.remaining reader.new)) }
{
    let text = report_from(alloc, reader)?;
    send_made(writer, text)
}

// Reads a scenario, and makes its report.
fn report_from<R: Read>(alloc: Global, reader: &mut R) -> Result<Vec<u8>, Fault>
    ensures made { IfOk result (λ text. MadeReport (R.remaining reader.old) (R.remaining reader.new) text.items) }
    ensures refused { IfErr result (λ e. RefusesLanes e (R.remaining reader.old) (R.remaining reader.new)) }
    ensures silent { IfErr result (λ e. is_writing e ≡ false) }
{
    let scenario = scenario_from(alloc, reader)?;
    Ok(report_of(alloc, &scenario)?)
}

// Runs all policies over the whole stream, and makes the report.
fn report_of(alloc: Global, scenario: &Scenario) -> Result<Vec<u8>, AllocError>
    ensures { IfOk result (λ text. IsReportOf scenario.now text.items) }
{
    let start = Checkpoint::start(alloc, scenario)?;
    let total = scenario.model().total();
    let end = run_lanes(alloc, scenario, &start, total)?;
    report(alloc, scenario, &end)
}
