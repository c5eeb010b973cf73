//! The commands of the program.
ghost use Rattle.std.specs.Prelude.{◌≡◌, ◌⊎◌, true, false, IfOk, IfErr, OnOk, alloc_error, map, string_bytes};
ghost use Rattle.std.specs.Io.KnownBytes.{Keeps};
ghost use Rattle.crn_command_line.specs.Parsing.{AreRead};
ghost use Rattle.crn_engines.specs.Commands.{Streams, Answered, AnsweredFront, Refuses, RefusesCommandLine, is_writing};

use crate::block_words::write_words;
use crate::fault::Fault;
use crate::lanes::simulate_lanes;
use crate::legs::leg;
use crate::migration::migrate;
use crate::replay::replay_run;
use crate::resumption::resume;
use crate::simulation::simulate;
use crate::steps::send;
use crn_command_line::Command;
use std::alloc::Global;
use std::io::{Read, Write};
use std::sync::Wait;
use std::thread::Threads;

/// Writes what a command asks for to `writer`, from the input of `reader`. `Resume` and `Migrate` read their checkpoint from
/// `saved`, and not from the file that they name; no other command reads `saved`.
///
/// # Errors
///
/// Those of the command's engine: [`simulate`], [`simulate_lanes`], [`write_words`], [`replay_run`], [`leg`], [`resume`] or
/// [`migrate`]. For `Help` it is `Writing` alone.
pub fn answer_command<H: Threads + Wait + Sync, C: Read, R: Read, W: Write>(
    rt: &H,
    alloc: Global,
    command: &Command,
    saved: &mut C,
    reader: &mut R,
    writer: &mut W,
) -> Result<(), Fault>
    ensures wrote { OnOk result (Answered command.now (record { saved = C.remaining saved.old; reading = R.remaining reader.old; held = W.contents writer.old }) (record { saved = C.remaining saved.new; reading = R.remaining reader.new; held = W.contents writer.new })) }
    ensures kept { IfErr result (λ e. is_writing e ≡ false → Keeps (W.contents writer.old) (W.contents writer.new)) }
    ensures front { IfErr result (λ e. is_writing e ≡ true → AnsweredFront command.now (record { saved = C.remaining saved.old; reading = R.remaining reader.old; held = W.contents writer.old }) (record { saved = C.remaining saved.new; reading = R.remaining reader.new; held = W.contents writer.new })) }
    ensures refused { IfErr result (λ e. Refuses command.now e (record { saved = C.remaining saved.old; reading = R.remaining reader.old; held = W.contents writer.old }) (record { saved = C.remaining saved.new; reading = R.remaining reader.new; held = W.contents writer.new })) }
{
    match command {
        Command::Run => simulate(rt, alloc, reader, writer),
        Command::Lanes => simulate_lanes(alloc, reader, writer),
        Command::Words { key, n } => write_words(alloc, *key, *n, writer),
        Command::Replay {
            size,
            readers,
            total,
        } => replay_run(alloc, *size, *readers, *total, reader, writer),
        Command::Leg { n } => leg(rt, alloc, *n, reader, writer),
        Command::Resume { .. } => resume(rt, alloc, saved, reader, writer),
        Command::Migrate { .. } => migrate(alloc, saved, writer),
        Command::Help { text } => send(writer, text.as_bytes()),
    }
}

/// Reads the words that follow the program's name, as [`crn_command_line::read_words`] does.
///
/// # Errors
///
/// `CommandLine` or `Memory`: see [`Fault`].
pub fn read_words(alloc: Global, words: &[String]) -> Result<Command, Fault>
    ensures read { IfOk result (λ c. AreRead (map string_bytes words.entry.now) c) }
    ensures refused { IfErr result (λ e. RefusesCommandLine (map string_bytes words.entry.now) e) }
    ensures only { IfErr result (λ e. (e ≡ Fault.CommandLine) ⊎ (e ≡ Fault.Memory alloc_error)) }
{
    Ok(crn_command_line::read_words(alloc, words)?)
}
