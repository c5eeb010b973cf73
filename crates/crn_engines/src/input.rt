//! Reading an input to its end.
ghost use Rattle.std.specs.Prelude.{◌≡◌, ◌+◌, ◌<◌, ◌≤◌, IfOk, IfErr};
ghost use Rattle.crn_engines.specs.Bytes.{ReadAll};
ghost use Rattle.crn_engines.specs.Refusals.{RefusesInput};
ghost use Rattle.crn_engines.specs.Inner.Bytes.{ReadMore};
ghost use Rattle.crn_engines.specs.Inner.Refusals.{RefusesRead};

use crate::fault::Fault;
use std::alloc::Global;
use std::io;
use std::io::Read;

/// The most bytes that an input may have.
pub const INPUT_LIMIT: usize = 1_048_576;

const CHUNK: usize = 4_096;

/// Why an input was not read.
#[derive(Clone, Copy, Debug, Drop)]
pub enum ReadFault {
    /// A file was not opened or a read failed, with this error.
    Failed(io::Error),
    /// The input is over [`INPUT_LIMIT`] bytes.
    TooLong,
}

// One turn: appends what a read gives, and counts the turn if the read succeeds. Returns whether the input goes on. That a turn
// makes one read and no more, no contract says of a reader that shows no bytes; `tests/calls` does.
fn read_some<R: Read>(reader: &mut R, input: &mut Vec<u8>, reads: &mut usize) -> Result<bool, Fault>
    requires { reads.old < INPUT_LIMIT + 1 }
    ensures counted { reads.new ≤ reads.old + 1 }
    ensures every { IfOk result (λ more. reads.new ≡ reads.old + 1) }
    ensures grown { IfOk result (λ more. ReadMore (R.remaining reader.old) (R.remaining reader.new) input.old.items input.new.items more) }
    ensures refused { IfErr result (λ e. RefusesRead e) }
{
    let mut chunk = [0u8; CHUNK];
    let count = match reader.read(&mut chunk) {
        Ok(count) => count,
        Err(error) => return Err(Fault::Reading(ReadFault::Failed(error))),
    };
    *reads += 1;
    if count == 0 {
        return Ok(false);
    }
    input.extend_from_slice(&chunk[..count])?;
    Ok(true)
}

/// Reads to the end, in turns of one read each, of which at most `INPUT_LIMIT + 1` succeed.
pub(crate) fn read_input<R: Read>(alloc: Global, reader: &mut R) -> Result<Vec<u8>, Fault>
    ensures all { IfOk result (λ input. ReadAll (R.remaining reader.old) (R.remaining reader.new) input.items) }
    ensures refused { IfErr result (λ e. RefusesInput e (R.remaining reader.old) (R.remaining reader.new)) }
{
    let mut reads = 0;
    read_counted(alloc, reader, &mut reads)
}

// Reads to the end, and counts the turns that succeed.
fn read_counted<R: Read>(alloc: Global, reader: &mut R, reads: &mut usize) -> Result<Vec<u8>, Fault>
    requires { reads.old ≡ 0 }
    ensures few { reads.new ≤ INPUT_LIMIT + 1 }
    ensures all { IfOk result (λ input. ReadAll (R.remaining reader.old) (R.remaining reader.new) input.items) }
    ensures refused { IfErr result (λ e. RefusesInput e (R.remaining reader.old) (R.remaining reader.new)) }
{
    let mut input = Vec::new(alloc);
    while *reads <= INPUT_LIMIT {
        if !read_some(reader, &mut input, reads)? {
            return Ok(input);
        }
        if input.len() > INPUT_LIMIT {
            return Err(Fault::Reading(ReadFault::TooLong));
        }
    }
    Err(Fault::Reading(ReadFault::TooLong))
}
