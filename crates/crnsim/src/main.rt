//! Compares (s,S) inventory policies by common random numbers: a scenario on standard input, its report on
//! standard output. A run can be cut at any block and resumed, also from a checkpoint that an older crnsim has written,
//! once it is migrated. It also writes the words of blocks, and replays schedules of the ring that carries them.
#![tactic(auto)]

ghost use Rattle.std.specs.Prelude.{◌≡◌, ◌≢◌, ◌↔◌, IsSome, alloc_error};
ghost use Rattle.std.specs.IoError.{error_kind};
ghost use Rattle.crn_engines.specs.declared.input.ReadFault.TheVariants.{Failed};

pub use crn_command_line::Command;
pub use crn_engines::{
    Fault, ReadFault, WriteFault, answer_command, leg, migrate, read_words, replay_run, resume,
    simulate, simulate_lanes, write_words,
};
use std::alloc::AllocError;
use std::fs::File;
use std::io::{ErrorKind, Read, Stdin};
use std::process::ExitCode;
use std::sync::Wait;
use std::thread::Threads;
use std::{env, io};

fn main(rt: HostRuntime) -> ExitCode {
    match run(&rt, &rt) {
        Ok(()) => ExitCode::from(0),
        Err(fault) => {
            // Where this line can't be written the status still tells.
            let _ = eprintln!(rt; "{fault}");
            ExitCode::from(fault.status())
        }
    }
}

// Answers the words of the command line, a run of policies on threads of `threads`: only `main` may start threads from the
// runtime itself.
fn run<H: Threads + Wait + Sync>(rt: &HostRuntime, threads: &H) -> Result<(), Fault> {
    let command = command_of(rt)?;
    answer(rt, threads, &command)
}

// The command that the words of the command line are.
fn command_of(rt: &HostRuntime) -> Result<Command, Fault> {
    let words = words_of(rt)?;
    read_words(rt.alloc(), words.as_slice())
}

// Answers a command. The file of a checkpoint is opened before a byte of any input is read.
fn answer<H: Threads + Wait + Sync>(
    rt: &HostRuntime,
    threads: &H,
    command: &Command,
) -> Result<(), Fault> {
    match command {
        Command::Resume { file } => {
            check_open(&mut rt.stdin())?;
            answer_from_file(rt, threads, command, file.as_str())
        }
        Command::Migrate { file } => answer_from_file(rt, threads, command, file.as_str()),
        _ => {
            let mut none: &[u8] = &[];
            answer_from(rt, threads, command, &mut none)
        }
    }
}

// Answers a command with the checkpoint in the file of this name.
fn answer_from_file<H: Threads + Wait + Sync>(
    rt: &HostRuntime,
    threads: &H,
    command: &Command,
    name: &str,
) -> Result<(), Fault> {
    let mut saved = opened(rt, name)?;
    answer_from(rt, threads, command, &mut saved)
}

// Answers a command with the checkpoint that is read from `saved`.
fn answer_from<H: Threads + Wait + Sync, C: Read>(
    rt: &HostRuntime,
    threads: &H,
    command: &Command,
    saved: &mut C,
) -> Result<(), Fault> {
    let (mut input, mut output) = (rt.stdin(), rt.stdout());
    answer_command(threads, rt.alloc(), command, saved, &mut input, &mut output)
}

// Refuses a standard input that is closed: the system would put the next file that is opened in its place, and the
// checkpoint would be read as the scenario.
fn check_open(input: &mut Stdin) -> Result<(), Fault> {
    match input.read(&mut []) {
        Ok(_) => Ok(()),
        Err(error) => Err(Fault::Reading(ReadFault::Failed(error))),
    }
}

// The words after the program's name. A word that is no text is refused.
fn words_of(rt: &HostRuntime) -> Result<Vec<String>, Fault> {
    match env::args(rt) {
        Ok(words) => Ok(words.skip(1).collect(rt.alloc())?),
        Err(error) => Err(words_fault(&error)),
    }
}

// Why there are no words: out of memory, or a word that is not UTF-8.
fn words_fault(error: &io::Error) -> Fault
    ensures memory { error_kind error.now ≡ ErrorKind.OutOfMemory → result ≡ Fault.Memory alloc_error }
    ensures words { error_kind error.now ≢ ErrorKind.OutOfMemory → result ≡ Fault.CommandLine }
{
    match refusal_of(error) {
        Some(refused) => Fault::Memory(refused),
        None => Fault::CommandLine,
    }
}

// The file of this name, to be read.
fn opened(rt: &HostRuntime, name: &str) -> Result<File, Fault> {
    match File::open(rt, name) {
        Ok(file) => Ok(file),
        Err(error) => Err(opening_fault(error)),
    }
}

// Why a file was not opened: out of memory, or any other error.
fn opening_fault(error: io::Error) -> Fault
    ensures memory { error_kind error ≡ ErrorKind.OutOfMemory → result ≡ Fault.Memory alloc_error }
    ensures reading { error_kind error ≢ ErrorKind.OutOfMemory → result ≡ Fault.Reading (Failed error) }
{
    match refusal_of(&error) {
        Some(refused) => Fault::Memory(refused),
        None => Fault::Reading(ReadFault::Failed(error)),
    }
}

// The failed allocation that an error of the system reports by its kind.
fn refusal_of(error: &io::Error) -> Option<AllocError>
    ensures { IsSome result ↔ (error_kind error.now ≡ ErrorKind.OutOfMemory) }
{
    match error.kind() {
        ErrorKind::OutOfMemory => Some(AllocError),
        _ => None,
    }
}
