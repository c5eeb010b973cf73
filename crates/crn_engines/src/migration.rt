//! An old checkpoint in the present version.
ghost use Rattle.std.specs.Prelude.{◌≡◌, true, false, IfOk, IfErr, OnOk};
ghost use Rattle.std.specs.Io.KnownBytes.{Keeps};
ghost use Rattle.crn_checkpoint.specs.Migration.{IsMigrated};
ghost use Rattle.crn_engines.specs.Commands.{MadeMigrated, MigratesLegs, WroteMigrated, WroteMigratedFront, RefusesMigrate, is_writing};
ghost use Rattle.crn_engines.specs.Inner.Refusals.{RefusesOldText};

use crate::fault::Fault;
use crate::input::read_input;
use crate::steps::send_made;
use crn_checkpoint::migrate_checkpoint;
use std::alloc::Global;
use std::io::{Read, Write};

/// Reads a checkpoint of version 1 from `reader` to its end, and writes the text of the same checkpoint in version 2 to
/// `writer`.
///
/// From a checkpoint that was written as the leg of a scenario, the new text is that leg's: [`resume`](crate::resume)
/// writes the report that [`simulate`](crate::simulate) writes.
///
/// # Errors
///
/// `Reading`, `Migration`, `Memory` or `Writing`: see [`Fault`].
pub fn migrate<R: Read, W: Write>(
    alloc: Global,
    reader: &mut R,
    writer: &mut W,
) -> Result<(), Fault>
    ensures wrote { OnOk result (WroteMigrated (R.remaining reader.old) (R.remaining reader.new) (W.contents writer.old) (W.contents writer.new)) }
    ensures kept { IfErr result (λ e. is_writing e ≡ false → Keeps (W.contents writer.old) (W.contents writer.new)) }
    ensures front { IfErr result (λ e. is_writing e ≡ true → WroteMigratedFront (R.remaining reader.old) (R.remaining reader.new) (W.contents writer.old) (W.contents writer.new)) }
    ensures refused { IfErr result (λ e. RefusesMigrate e (R.remaining reader.old) (R.remaining reader.new)) }
{
    let text = migrated_from(alloc, reader)?;
    send_made(writer, text)
}

// Reads a checkpoint of version 1, and makes its text in version 2.
fn migrated_from<R: Read>(alloc: Global, reader: &mut R) -> Result<Vec<u8>, Fault>
    ensures made { IfOk result (λ text. MadeMigrated (R.remaining reader.old) (R.remaining reader.new) text.items) }
    ensures refused { IfErr result (λ e. RefusesMigrate e (R.remaining reader.old) (R.remaining reader.new)) }
    ensures silent { IfErr result (λ e. is_writing e ≡ false) }
{
    let bytes = read_input(alloc, reader)?;
    migrated_text(alloc, bytes.as_slice())
}

// The text in version 2 of the checkpoint that a text of version 1 spells.
fn migrated_text(alloc: Global, bytes: &[u8]) -> Result<Vec<u8>, Fault>
    ensures migrated { IfOk result (λ text. IsMigrated bytes.now text.items) }
    ensures legs { IfOk result (λ text. MigratesLegs bytes.now text.items) }
    ensures refused { IfErr result (λ e. RefusesOldText e bytes.now) }
{
    Ok(migrate_checkpoint(alloc, bytes)?)
}
