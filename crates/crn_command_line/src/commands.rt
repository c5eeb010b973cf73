//! The commands of the program: what each requires, its help, and how it is read from its arguments.

ghost use Rattle.std.specs.Prelude.{◌≡◌, ℕ, List, Some, IfSome, IfNone, IfOk, IfErr, codes, map, option_map, string_bytes};
ghost use Rattle.crn_command_line.specs.CommandLine as spec;
ghost use Rattle.crn_command_line.specs.CommandLine.{Names, RefusesNamed, IsNumber, key_word_of};
ghost use Rattle.crn_command_line.specs.Inner.CommandLine.{texts_of, RefusesText, RefusesFile, RefusesNumber, RefusesBlock, RefusesRing};

use crate::fault::CommandLineFault;
use clap::ArgMatches;
use crn_spelling::decimal::number_of_text;
use crn_spelling::hex::{is_hex_word, word_of};
use std::alloc::Global;

/// What the program is asked for.
#[derive(Debug, Drop, PartialEq, Eq)]
pub enum Command {
    /// The report of the scenario on standard input.
    Run,
    /// The same report, made on one thread.
    Lanes,
    /// The words of block `n` of the stream of `key`.
    Words { key: [u64; 4], n: u64 },
    /// The trace of the schedule on standard input, for a ring of so many slots and readers that carries the blocks
    /// 0 to `total` - 1 of the zero key.
    Replay { size: u64, readers: u32, total: u64 },
    /// The checkpoint at block `n` of the scenario on standard input.
    Leg { n: u64 },
    /// The report of the scenario on standard input, continued from the checkpoint in the file of this name.
    Resume { file: String },
    /// The checkpoint of version 1 in the file of this name, in version 2.
    Migrate { file: String },
    /// The program's help.
    Help { text: String },
}

// The names of the arguments.
const N: &str = "N";

const FILE: &str = "FILE";

const SIZE: &str = "SIZE";

const READERS: &str = "READERS";

const TOTAL: &str = "TOTAL";

const K0: &str = "K0";

const K1: &str = "K1";

const K2: &str = "K2";

const K3: &str = "K3";

const KEY_WORD_HELP: &str = "A word of the key: 16 digits of 0-9a-f";

const FILE_HELP: &str = "The name of the file that has the checkpoint";

/// The help of one command: its line in the list of commands, what stands below with an example, and its arguments with
/// their help. All lines have at most 80 characters.
pub(crate) struct CommandHelp {
    pub(crate) name: &'static str,
    pub(crate) about: &'static str,
    pub(crate) example: &'static str,
    pub(crate) args: &'static [(&'static str, &'static str)],
}

/// The commands, in the order of the help.
pub(crate) static COMMANDS: [CommandHelp; 7] = [
    CommandHelp {
        name: "run",
        about: "Writes the report of the scenario on standard input",
        example: "Example:
  crnsim run < examples/spare_part.toml > report.csv",
        args: &[],
    },
    CommandHelp {
        name: "lanes",
        about: "Writes the report that `run` writes, and starts no thread",
        example: "It makes each draw once, for all policies, and runs them side by side. The size
of the ring is judged, and not used.

Example:
  crnsim lanes < examples/spare_part.toml > report.csv",
        args: &[],
    },
    CommandHelp {
        name: "leg",
        about: "Runs a scenario's blocks 0 to N - 1 and writes a checkpoint of it",
        example: "It reads the scenario on standard input; from the checkpoint `resume` goes on.
N is at most the number of blocks of the scenario, a block for each 4 periods
of a replication or part of them.

Example, a run that is cut half way:
  crnsim leg 832 < examples/spare_part.toml > cut.csv",
        args: &[(N, "The block that comes next, in decimal")],
    },
    CommandHelp {
        name: "resume",
        about: "Goes on from the checkpoint in FILE and writes the report",
        example: "It reads the scenario on standard input. After a leg the report is the one that
`run` writes. The size of the ring may be another than that of the leg's
scenario. A checkpoint of version 1 is migrated first.

Example, from the checkpoint that `leg` has written:
  crnsim resume cut.csv < examples/spare_part.toml",
        args: &[(FILE, FILE_HELP)],
    },
    CommandHelp {
        name: "migrate",
        about: "Writes the checkpoint of version 1 in FILE in version 2",
        example: "From version 2 `resume` goes on: the same scenario, block and amounts.
Checkpoints of version 1 were written by crnsim before it knew returns.
Standard input is not read.

Example, from a checkpoint that was kept:
  crnsim migrate old_cut.csv > cut.csv",
        args: &[(FILE, FILE_HELP)],
    },
    CommandHelp {
        name: "words",
        about: "Writes the words of one block of the random stream",
        example: "They can be compared with Random123's threefry4x64: a line each of demand
words, lead time words and returns words.

Example, block 0 of the zero key:
  crnsim words 0000000000000000 0000000000000000 \\
      0000000000000000 0000000000000000 0",
        args: &[
            (K0, KEY_WORD_HELP),
            (K1, KEY_WORD_HELP),
            (K2, KEY_WORD_HELP),
            (K3, KEY_WORD_HELP),
            (N, "The number of the block, in decimal"),
        ],
    },
    CommandHelp {
        name: "replay",
        about: "Writes what each step of a schedule does to a ring",
        example: "It reads the schedule on standard input, a line for each step with the actor
that makes it: `p` is the producer, `e` the producer as it ends the stream,
`r0` reader 0 and `l0` reader 0 as it leaves. A step is one load or store. The
ring carries blocks 0 to TOTAL - 1 of the zero key.

Example, two readers that look for a block of an empty stream:
  printf 'r0\\nr1\\np\\nr0\\n' | crnsim replay 1 2 0",
        args: &[
            (SIZE, "The slots of the ring: a power of two from 1 to 1024"),
            (
                READERS,
                "The readers, from 1 to 16, which are numbered from 0",
            ),
            (TOTAL, "The blocks in all, from 0 to 65536"),
        ],
    },
];

/// Returns the command of this name, from the words after the name.
///
/// # Errors
///
/// - `Words` if there is no such command, or if one of its arguments is misspelt or outside its type.
/// - `Memory` if an allocation fails: the name of a file is copied.
pub(crate) fn command_named(
    alloc: Global,
    name: &str,
    words: &ArgMatches<'_>,
) -> Result<Command, CommandLineFault>
    ensures names { IfOk result (λ c. Names name.now (texts_of words.now) c) }
    ensures refused { IfErr result (λ e. RefusesNamed name.now (texts_of words.now) e) }
{
    match name {
        "run" => Ok(Command::Run),
        "lanes" => Ok(Command::Lanes),
        "words" => block_words(words),
        "replay" => ring(words),
        "leg" => leg(words),
        "resume" => resume(alloc, words),
        "migrate" => migrate(alloc, words),
        _ => Err(CommandLineFault::Words),
    }
}

// The leg up to the block that comes next.
fn leg(words: &ArgMatches<'_>) -> Result<Command, CommandLineFault>
    ensures names { IfOk result (λ c. Names (codes "leg") (texts_of words.now) c) }
    ensures refused { IfErr result (λ e. RefusesNumber 64 (texts_of words.now (codes "N")) e) }
{
    let n = number_at(words, N)?;
    Ok(Command::Leg { n })
}

// The run that goes on from a checkpoint.
fn resume(alloc: Global, words: &ArgMatches<'_>) -> Result<Command, CommandLineFault>
    ensures names { IfOk result (λ c. Names (codes "resume") (texts_of words.now) c) }
    ensures refused { IfErr result (λ e. RefusesFile (texts_of words.now (codes "FILE")) e) }
{
    let file = file_at(alloc, words)?;
    Ok(Command::Resume { file })
}

// The checkpoint that is written in the present version.
fn migrate(alloc: Global, words: &ArgMatches<'_>) -> Result<Command, CommandLineFault>
    ensures names { IfOk result (λ c. Names (codes "migrate") (texts_of words.now) c) }
    ensures refused { IfErr result (λ e. RefusesFile (texts_of words.now (codes "FILE")) e) }
{
    let file = file_at(alloc, words)?;
    Ok(Command::Migrate { file })
}

// The block whose words are asked for.
fn block_words(words: &ArgMatches<'_>) -> Result<Command, CommandLineFault>
    ensures names { IfOk result (λ c. Names (codes "words") (texts_of words.now) c) }
    ensures refused { IfErr result (λ e. RefusesBlock (texts_of words.now) e) }
{
    match key_at(words) {
        Some(key) => {
            let n = number_at(words, N)?;
            Ok(Command::Words { key, n })
        }
        None => Err(CommandLineFault::Words),
    }
}

// The ring whose schedule is replayed.
fn ring(words: &ArgMatches<'_>) -> Result<Command, CommandLineFault>
    ensures names { IfOk result (λ c. Names (codes "replay") (texts_of words.now) c) }
    ensures refused { IfErr result (λ e. RefusesRing (texts_of words.now) e) }
{
    let size = number_at(words, SIZE)?;
    let readers = readers_at(words)?;
    let total = number_at(words, TOTAL)?;
    Ok(Command::Replay {
        size,
        readers,
        total,
    })
}

// The number of the ring's readers.
fn readers_at(words: &ArgMatches<'_>) -> Result<u32, CommandLineFault>
    ensures spelt { IfOk result (λ n. IsNumber 32 (texts_of words.now (codes "READERS")) n) }
    ensures refused { IfErr result (λ e. RefusesNumber 32 (texts_of words.now (codes "READERS")) e) }
{
    match u32::try_from(number_at(words, READERS)?) {
        Ok(readers) => Ok(readers),
        Err(_) => Err(CommandLineFault::Words),
    }
}

// The name of the file that has the checkpoint.
fn file_at(alloc: Global, words: &ArgMatches<'_>) -> Result<String, CommandLineFault>
    ensures copied { IfOk result (λ file. texts_of words.now (codes "FILE") ≡ Some (string_bytes file)) }
    ensures refused { IfErr result (λ e. RefusesFile (texts_of words.now (codes "FILE")) e) }
{
    let text = text_at(words, FILE)?;
    Ok(text.to_string(alloc)?)
}

// The number that the argument of this name spells.
fn number_at(words: &ArgMatches<'_>, name: &str) -> Result<u64, CommandLineFault>
    ensures spelt { IfOk result (λ n. IsNumber 64 (texts_of words.now name.now) n) }
    ensures refused { IfErr result (λ e. RefusesNumber 64 (texts_of words.now name.now) e) }
{
    match number_of_text(text_at(words, name)?) {
        Some(number) => Ok(number),
        None => Err(CommandLineFault::Words),
    }
}

// The key that four arguments spell, a word each.
fn key_at(words: &ArgMatches<'_>) -> Option<[u64; 4]>
    ensures spelt { IfSome result (λ key. spec.key_at (texts_of words.now) ≡ map Some key) }
    ensures none { IfNone result ((key : List ℕ) → spec.key_at (texts_of words.now) ≡ map Some key → ⊥) }
{
    Some([
        key_word_at(words, K0)?,
        key_word_at(words, K1)?,
        key_word_at(words, K2)?,
        key_word_at(words, K3)?,
    ])
}

// The word of the key that the argument of this name spells.
fn key_word_at(words: &ArgMatches<'_>, name: &str) -> Option<u64>
    ensures { result ≡ spec.key_word_at (texts_of words.now) name.now }
{
    key_word(value_at(words, name)?)
}

// The text of the argument of this name.
fn text_at<'m>(words: &'m ArgMatches<'_>, name: &str) -> Result<&'m str, CommandLineFault>
    ensures found { IfOk result (λ text. texts_of words.now name.now ≡ Some text.now) }
    ensures refused { IfErr result (λ e. RefusesText (texts_of words.now name.now) e) }
{
    match value_at(words, name) {
        Some(text) => Ok(text),
        None => Err(CommandLineFault::Words),
    }
}

// The text of the argument of this name, where `clap` found one.
fn value_at<'m>(words: &'m ArgMatches<'_>, name: &str) -> Option<&'m str>
    ensures { option_map (λ text. text.now) result ≡ texts_of words.now name.now }
{
    words.get_str(name)
}

// A word of the key from its 16 digits.
fn key_word(text: &str) -> Option<u64>
    ensures { result ≡ key_word_of text.now }
{
    if is_hex_word(text) {
        Some(word_of(text))
    } else {
        None
    }
}
