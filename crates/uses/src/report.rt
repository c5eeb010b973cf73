//! A scenario's text to its report, over a reader and a writer in memory.
ghost use Rattle.std.specs.Prelude.{IfOk};
ghost use Rattle.crn_engines.specs.Commands.{IsReportFor};

use crn_engines::{Fault, simulate};
use std::alloc::Global;
use std::sync::Wait;
use std::thread::Threads;

/// Returns the report of the scenario that is written in `text`, in TOML.
///
/// # Errors
///
/// What [`simulate`] returns: `Scenario`, `Thread` or `Memory`, and `Reading` if the text is over 1,048,576 bytes.
pub fn report_of<H: Threads + Wait + Sync>(
    rt: &H,
    alloc: Global,
    text: &[u8],
) -> Result<Vec<u8>, Fault>
    ensures { IfOk result (λ report. IsReportFor text.now report.items) }
{
    let mut reader = text;
    let mut report = Vec::new(alloc);
    simulate(rt, alloc, &mut reader, &mut report)?;
    Ok(report)
}
