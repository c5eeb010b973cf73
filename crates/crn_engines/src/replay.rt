//! The trace of a schedule.
ghost use Rattle.std.specs.Prelude.{◌≡◌, ◌↔◌, ◌⊎◌, true, false, IfOk, IfErr, OnOk, IsErrOf, alloc_error};
ghost use Rattle.std.specs.Io.KnownBytes.{Keeps};
ghost use Rattle.crn_proto.specs.Machine.{open_machine};
ghost use Rattle.crn_proto.specs.Opening.{CanOpen};
ghost use Rattle.crn_engines.specs.Commands.{replayed, MadeTrace, IsTraceFor, WroteTrace, WroteTraceFront, RefusesReplay, is_writing};
ghost use Rattle.crn_engines.specs.Inner.Refusals.{RefusesScheduleText, RefusesTrace};

use crate::fault::Fault;
use crate::input::read_input;
use crate::steps::send_made;
use crn_cipher::StreamId;
use crn_proto::{Machine, RingSpec};
use crn_trace::{read_schedule, trace_text};
use std::alloc::Global;
use std::io::{Read, Write};

/// Reads a schedule from `reader` to its end and writes its trace to `writer`, for a ring of so many slots and readers that
/// carries the blocks 0 to `total` - 1 of the zero key.
///
/// # Errors
///
/// - `CommandLine` if there is no such ring: see [`RingFault`](crn_proto::RingFault). Then nothing is read.
/// - `Reading`, `Schedule`, `Memory` or `Writing`: see [`Fault`].
pub fn replay_run<R: Read, W: Write>(
    alloc: Global,
    size: u64,
    readers: u32,
    total: u64,
    reader: &mut R,
    writer: &mut W,
) -> Result<(), Fault>
    ensures wrote { OnOk result (WroteTrace (replayed size readers total) (R.remaining reader.old) (R.remaining reader.new) (W.contents writer.old) (W.contents writer.new)) }
    ensures kept { IfErr result (λ e. is_writing e ≡ false → Keeps (W.contents writer.old) (W.contents writer.new)) }
    ensures front { IfErr result (λ e. is_writing e ≡ true → WroteTraceFront (replayed size readers total) (R.remaining reader.old) (R.remaining reader.new) (W.contents writer.old) (W.contents writer.new)) }
    ensures command_line { IsErrOf result Fault.CommandLine ↔ (¬ CanOpen (replayed size readers total)) }
    ensures refused { IfErr result (λ e. RefusesReplay size readers total e (R.remaining reader.old) (R.remaining reader.new)) }
{
    let machine = open_ring(alloc, size, readers, total)?;
    let text = trace_from(alloc, machine, reader)?;
    send_made(writer, text)
}

// Reads a schedule, and makes its trace.
fn trace_from<R: Read>(alloc: Global, machine: Machine, reader: &mut R) -> Result<Vec<u8>, Fault>
    requires { machine ≡ open_machine machine.spec }
    ensures made { IfOk result (λ text. MadeTrace machine.spec (R.remaining reader.old) (R.remaining reader.new) text.items) }
    ensures refused { IfErr result (λ e. RefusesTrace machine.spec.readers e (R.remaining reader.old) (R.remaining reader.new)) }
    ensures silent { IfErr result (λ e. is_writing e ≡ false) }
{
    let input = read_input(alloc, reader)?;
    trace_for(alloc, machine, input.as_slice())
}

// The ring before any step.
fn open_ring(alloc: Global, size: u64, readers: u32, total: u64) -> Result<Machine, Fault>
    ensures opened { IfOk result (λ m. m ≡ open_machine (replayed size readers total)) }
    ensures command_line { IsErrOf result Fault.CommandLine ↔ (¬ CanOpen (replayed size readers total)) }
    ensures refused { IfErr result (λ e. (e ≡ Fault.CommandLine) ⊎ (e ≡ Fault.Memory alloc_error)) }
{
    let id = StreamId {
        key: [0; 4],
        first: 0,
        total,
    };
    Ok(Machine::open(alloc, RingSpec { size, readers, id })?)
}

// The trace for an input.
fn trace_for(alloc: Global, machine: Machine, input: &[u8]) -> Result<Vec<u8>, Fault>
    requires { machine ≡ open_machine machine.spec }
    ensures trace { IfOk result (λ text. IsTraceFor machine.spec input.now text.items) }
    ensures refused { IfErr result (λ e. RefusesScheduleText machine.spec.readers e input.now) }
{
    let actors = read_schedule(alloc, machine.spec().readers, input)?;
    Ok(trace_text(alloc, machine, actors.as_slice())?)
}
