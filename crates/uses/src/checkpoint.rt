//! A run that its gates stop, and the checkpoint where they stopped it.
ghost use Rattle.std.specs.Prelude.{◌≡◌, ◌≤◌, All, IfOk, false, length, min, true};
ghost use Rattle.crn_stock.specs.Models.{total};
ghost use Rattle.crn_sequential.specs.Runs.{IsCheckpointOf, EachAt};
ghost use Rattle.crn_run.specs.Gates.{AllPassed, SomeHeld};
ghost use Rattle.crn_run.specs.Jobs.{AreReaders};
ghost use Rattle.crn_checkpoint.specs.Reading.{IsLegOf};

use crn_checkpoint::write_checkpoint;
use crn_ring::Reader;
use crn_run::{Checkpoint, Gate, OpenGate, RunFault, run_all};
use crn_stock::Scenario;
use std::alloc::{AllocError, Global};
use std::sync::Wait;
use std::thread::Threads;

/// A gate that lets its policy run so many blocks, and then holds it.
#[derive(Clone, Copy)]
pub struct Budget {
    left: u64,
    has_refused: bool,
}

impl Gate for Budget {
    ghost use Rattle.uses.specs.Budgets.{Spends};

    ghost refused = { λ g. g.has_refused };

    ghost asked = { Spends };

    fn pass(&mut self, _policy: u32, _block: u64) -> bool {
        if self.left == 0 {
            self.has_refused = true;
            return false;
        }
        self.left -= 1;
        true
    }
}

/// Where a run has stopped.
#[derive(Drop)]
pub struct Stopped {
    /// The block before which its gates held it, or the scenario's total if they did not.
    pub next: u64,
    /// The text of the checkpoint there.
    pub text: Vec<u8>,
    /// The readers of the ring through which the blocks below `next` came, one for each policy.
    pub readers: Vec<Reader>,
}

/// Runs a scenario from its start under gates that hold each policy after `blocks` blocks. Returns where they held the run.
///
/// # Errors
///
/// `Thread` if a thread fails to start, `Memory` if an allocation fails.
pub fn run_for<R: Threads + Wait + Sync>(
    rt: &R,
    alloc: Global,
    scenario: &Scenario,
    blocks: u64,
) -> Result<Stopped, RunFault>
    ensures block { IfOk result (λ s. s.next ≡ min blocks (total scenario.now.model)) }
    ensures leg { IfOk result (λ s. IsLegOf scenario.now s.next s.text.items) }
    ensures through { IfOk result (λ s. AreReaders scenario.now 0 s.next s.readers.items) }
{
    let start = Checkpoint::start(alloc, scenario)?;
    let next = stop_of(rt, alloc, scenario, &start, blocks)?;
    leg_to(rt, alloc, scenario, &start, next)
}

/// Runs a scenario from `start` to its total under these gates, and returns whether one of them has held its policy. It knows
/// nothing of `G.asked` but what calls of the gates tell. So an implementation that does not run under them does not meet its
/// contract.
///
/// # Asks
///
/// - `start` is a checkpoint of the scenario, at no later block than its total.
/// - There is one gate for each policy, and none has answered false.
///
/// # Errors
///
/// `Thread` if a thread fails to start, `Memory` if an allocation fails.
pub fn is_held_by<R: Threads + Wait + Sync, G: Gate + Send>(
    rt: &R,
    alloc: Global,
    scenario: &Scenario,
    start: &Checkpoint,
    gates: &mut [G],
) -> Result<bool, RunFault>
    requires start { (start.now.next ≤ total scenario.now.model) × IsCheckpointOf scenario.now start.now.next start.now.states.items }
    requires count { length gates.old ≡ length scenario.now.policies }
    requires gates { All (λ g. G.refused g ≡ false) gates.old }
    ensures passed { IfOk result (λ held. held ≡ false → AllPassed G.refused G.asked start.now.next (total scenario.now.model) gates.old) }
    ensures held { IfOk result (λ held. held ≡ true → SomeHeld G.refused G.asked start.now.next (total scenario.now.model) gates.old) }
{
    match run_all(rt, alloc, scenario, start, scenario.model().total(), gates) {
        Ok(_) => Ok(false),
        Err(RunFault::Gate) => Ok(true),
        Err(fault) => Err(fault),
    }
}

// Returns the block where gates that pass so many blocks hold the run, or the scenario's total if they do not.
fn stop_of<R: Threads + Wait + Sync>(
    rt: &R,
    alloc: Global,
    scenario: &Scenario,
    start: &Checkpoint,
    blocks: u64,
) -> Result<u64, RunFault>
    requires start { (start.now.next ≡ 0) × IsCheckpointOf scenario.now start.now.next start.now.states.items }
    ensures { IfOk result (λ n. n ≡ min blocks (total scenario.now.model)) }
{
    let mut gates = budgets(alloc, blocks, scenario.policies().len())?;
    if is_held_by(rt, alloc, scenario, start, gates.as_mut_slice())? {
        return Ok(blocks);
    }
    Ok(scenario.model().total())
}

// Returns gates that pass so many blocks each.
fn budgets(alloc: Global, blocks: u64, count: usize) -> Result<Vec<Budget>, AllocError>
    ensures count { IfOk result (λ gates. length gates.items ≡ count) }
    ensures left { IfOk result (λ gates. All (λ g. g.left ≡ blocks) gates.items) }
    ensures fresh { IfOk result (λ gates. All (λ g. g.has_refused ≡ false) gates.items) }
{
    let budget = Budget {
        left: blocks,
        has_refused: false,
    };
    Ok(vec![in alloc; budget; count]?)
}

// Runs a scenario from its start up to block `next`, and returns the checkpoint there. A run that a gate has held returns no
// states; this one does, since its gates are open.
fn leg_to<R: Threads + Wait + Sync>(
    rt: &R,
    alloc: Global,
    scenario: &Scenario,
    start: &Checkpoint,
    next: u64,
) -> Result<Stopped, RunFault>
    requires start { (start.now.next ≡ 0) × IsCheckpointOf scenario.now start.now.next start.now.states.items }
    requires at { EachAt scenario.now 0 start.now.states.items }
    requires within { next ≤ total scenario.now.model }
    ensures next { IfOk result (λ s. s.next ≡ next) }
    ensures leg { IfOk result (λ s. IsLegOf scenario.now next s.text.items) }
    ensures through { IfOk result (λ s. AreReaders scenario.now 0 next s.readers.items) }
{
    let mut gates = vec![in alloc; OpenGate; scenario.policies().len()]?;
    let finished = run_all(rt, alloc, scenario, start, next, gates.as_mut_slice())?;
    let text = write_checkpoint(alloc, scenario, &finished.checkpoint)?;
    Ok(Stopped {
        next,
        text,
        readers: finished.readers,
    })
}
