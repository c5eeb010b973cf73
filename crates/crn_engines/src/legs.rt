//! A run up to a block, and its checkpoint.
ghost use Rattle.std.specs.Prelude.{◌≡◌, ◌↔◌, ◌≤◌, true, false, IsTrue, IfOk, IfErr, OnOk};
ghost use Rattle.std.specs.Io.KnownBytes.{Keeps};
ghost use Rattle.crn_stock.specs.Models.{total};
ghost use Rattle.crn_sequential.specs.Runs.{IsCheckpointOf, EachAt};
ghost use Rattle.crn_checkpoint.specs.Reading.{IsLegOf};
ghost use Rattle.crn_engines.specs.Commands.{MadeLeg, WroteLeg, WroteLegFront, RefusesLeg, is_writing};
ghost use Rattle.crn_engines.specs.Inner.Refusals.{RefusesLegRun, RefusesRun};

use crate::fault::Fault;
use crate::steps::{run_to, scenario_from, send_made};
use crn_checkpoint::write_checkpoint;
use crn_run::Checkpoint;
use crn_stock::Scenario;
use std::alloc::Global;
use std::io::{Read, Write};
use std::sync::Wait;
use std::thread::Threads;

/// Reads a scenario from `reader` to its end, runs all its policies over the blocks below `n`, with one thread for each
/// policy, and writes the checkpoint at block `n` to `writer`. [`resume`](crate::resume) continues from it.
///
/// # Errors
///
/// - `CommandLine` if the scenario has fewer than `n` blocks in all. Then nothing is run.
/// - `Reading`, `Scenario`, `Thread`, `Memory` or `Writing`: see [`Fault`].
pub fn leg<H: Threads + Wait + Sync, R: Read, W: Write>(
    rt: &H,
    alloc: Global,
    n: u64,
    reader: &mut R,
    writer: &mut W,
) -> Result<(), Fault>
    ensures wrote { OnOk result (WroteLeg n (R.remaining reader.old) (R.remaining reader.new) (W.contents writer.old) (W.contents writer.new)) }
    ensures kept { IfErr result (λ e. is_writing e ≡ false → Keeps (W.contents writer.old) (W.contents writer.new)) }
    ensures front { IfErr result (λ e. is_writing e ≡ true → WroteLegFront n (R.remaining reader.old) (R.remaining reader.new) (W.contents writer.old) (W.contents writer.new)) }
    ensures refused { IfErr result (λ e. RefusesLeg n e (R.remaining reader.old) (R.remaining reader.new)) }
{
    let text = leg_from(rt, alloc, n, reader)?;
    send_made(writer, text)
}

// Reads a scenario, and makes the text of its leg.
fn leg_from<H: Threads + Wait + Sync, R: Read>(
    rt: &H,
    alloc: Global,
    n: u64,
    reader: &mut R,
) -> Result<Vec<u8>, Fault>
    ensures made { IfOk result (λ text. MadeLeg n (R.remaining reader.old) (R.remaining reader.new) text.items) }
    ensures refused { IfErr result (λ e. RefusesLeg n e (R.remaining reader.old) (R.remaining reader.new)) }
    ensures silent { IfErr result (λ e. is_writing e ≡ false) }
{
    let scenario = scenario_from(alloc, reader)?;
    leg_text(rt, alloc, &scenario, n)
}

// Runs all policies over the blocks below `n`, and makes the text of the checkpoint there.
fn leg_text<H: Threads + Wait + Sync>(
    rt: &H,
    alloc: Global,
    scenario: &Scenario,
    n: u64,
) -> Result<Vec<u8>, Fault>
    ensures leg { IfOk result (λ text. IsLegOf scenario.now n text.items) }
    ensures refused { IfErr result (λ e. RefusesLegRun scenario.now n e) }
{
    if !has_blocks(scenario, n) {
        return Err(Fault::CommandLine);
    }
    let start = Checkpoint::start(alloc, scenario)?;
    let reached = run_to(rt, alloc, scenario, &start, n)?;
    Ok(write_checkpoint(alloc, scenario, &reached)?)
}

// Whether the scenario has `n` blocks or more.
fn has_blocks(scenario: &Scenario, n: u64) -> bool
    ensures { IsTrue result ↔ (n ≤ total scenario.now.model) }
{
    n <= scenario.model().total()
}
