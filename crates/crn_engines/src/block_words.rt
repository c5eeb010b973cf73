//! The words of a block.
ghost use Rattle.std.specs.Prelude.{◌≡◌, true, false, IfErr, OnOk};
ghost use Rattle.std.specs.Io.KnownBytes.{Appends, Keeps};
ghost use Rattle.crn_trace.specs.BlockWords.{words_text};
ghost use Rattle.crn_engines.specs.Bytes.{AppendsFront};
ghost use Rattle.crn_engines.specs.Refusals.{RefusesWords};
ghost use Rattle.crn_engines.specs.Commands.{is_writing};

use crate::fault::Fault;
use crate::steps::send;
use crn_trace::words_text;
use std::alloc::Global;
use std::io::Write;

/// Writes the words of block `n` of the stream of `key` as three lines. Reads nothing.
///
/// # Errors
///
/// `Memory` or `Writing`: see [`Fault`].
pub fn write_words<W: Write>(
    alloc: Global,
    key: [u64; 4],
    n: u64,
    writer: &mut W,
) -> Result<(), Fault>
    ensures wrote { OnOk result (Appends (W.contents writer.old) (W.contents writer.new) (words_text key n)) }
    ensures kept { IfErr result (λ e. is_writing e ≡ false → Keeps (W.contents writer.old) (W.contents writer.new)) }
    ensures refused { IfErr result (λ e. RefusesWords e) }
    ensures front { IfErr result (λ e. is_writing e ≡ true → AppendsFront (W.contents writer.old) (W.contents writer.new) (words_text key n)) }
{
    let text = words_text(alloc, key, n)?;
    send(writer, text.as_slice())
}
