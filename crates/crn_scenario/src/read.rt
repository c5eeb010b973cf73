//! Reads scenarios.

ghost use Rattle.std.specs.Prelude.{◌≡◌, ◌↔◌, IfOk, IfErr, IsSome, alloc_error};
ghost use Rattle.toml.specs.Errors.{IsMemory};
ghost use Rattle.crn_scenario.specs.Reading as spec;

use crate::faults::judge;
use crate::scenario::scenario_of;
use crate::scenario_fault::ScenarioFault;
use crn_stock::Scenario;
use std::alloc::{AllocError, Global};

/// Reads a scenario from a TOML document in UTF-8, in any spelling that the `toml` crate reads.
///
/// Each table has all of its keys and no other. `fields.rt` has them with their ranges, and docs/FORMATS.md says what they
/// mean. In version 2 customers return items, and the document has the table `returns` besides; version 1 has none.
///
/// # Errors
///
/// - The fault with the least number among the rules that the document breaks: see [`ScenarioFault`].
/// - `Memory` if an allocation fails.
pub fn read_scenario(alloc: Global, bytes: &[u8]) -> Result<Scenario, ScenarioFault>
    ensures reads { IfOk result (λ s. spec.Reads bytes.now s) }
    ensures refuses { IfErr result (λ f. spec.RefusesScenario f bytes.now) }
{
    let table = match toml::table_from_slice(alloc, bytes) {
        Ok(table) => table,
        Err(error) => return Err(document_fault(&error)),
    };
    judge(alloc, &table)?;
    Ok(scenario_of(alloc, &table)?)
}

// Returns what an error of `toml` means: out of memory, or that the text is no document.
fn document_fault(error: &toml::de::Error) -> ScenarioFault
    ensures memory { IsMemory error.now → result ≡ ScenarioFault.Memory alloc_error }
    ensures document { ¬ IsMemory error.now → result ≡ ScenarioFault.NoDocument }
{
    match refusal_of(error) {
        Some(refused) => ScenarioFault::Memory(refused),
        None => ScenarioFault::NoDocument,
    }
}

// Returns a failed allocation exactly if the error reports one, which `toml` does by a flag.
fn refusal_of(error: &toml::de::Error) -> Option<AllocError>
    ensures { IsSome result ↔ IsMemory error.now }
{
    if error.is_memory() {
        Some(AllocError)
    } else {
        None
    }
}
