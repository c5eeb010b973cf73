//! Writing an output whole.
ghost use Rattle.std.specs.Prelude.{◌<◌, OnOk, OnErr, length};
ghost use Rattle.std.specs.Io.{WritesAtMost};
ghost use Rattle.std.specs.Io.KnownBytes.{Appends, WriteAppends};
ghost use Rattle.crn_engines.specs.Bytes.{AppendsFront};

use std::io;
use std::io::Write;

/// Why an output was not written whole.
#[derive(Clone, Copy, Debug, Drop)]
pub enum WriteFault {
    /// A write failed, with this error.
    Failed(io::Error),
    /// A write took no byte.
    NoByte,
}

// One turn: writes some of a text that is not empty, so that a write which takes no byte is a fault. That a turn makes one write
// and no more, of all that it is given, no contract says of a writer that shows no bytes; `tests/calls` does.
#[inline(always)]
fn write_some<W: Write>(writer: &mut W, text: &[u8]) -> io::Result<usize>
    requires some { 0 < length text.now }
    ensures bound { WritesAtMost result text.now }
    ensures bytes { WriteAppends (W.contents writer.old) (W.contents writer.new) result text.now }
{
    writer.write(text)
}

/// Writes the whole text, or a prefix of it.
pub(crate) fn write_text<W: Write>(writer: &mut W, text: &[u8]) -> Result<(), WriteFault>
    ensures whole { OnOk result (Appends (W.contents writer.old) (W.contents writer.new) text.now) }
    ensures front { OnErr result (AppendsFront (W.contents writer.old) (W.contents writer.new) text.now) }
{
    let mut sent = 0;
    while sent < text.len() {
        match write_some(writer, &text[sent..]) {
            Ok(0) => return Err(WriteFault::NoByte),
            Ok(count) => sent += count,
            Err(error) => return Err(WriteFault::Failed(error)),
        }
    }
    Ok(())
}
