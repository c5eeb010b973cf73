//! The lines, statuses and numbers of faults, and the errors that they carry.

use crn_checkpoint::{CheckpointFault, MigrateFault};
use crn_engines::{Fault, ReadFault, WriteFault, replay_run, write_words};
use crn_run::ThreadFault;
use crn_scenario::ScenarioFault;
use crn_trace::ScheduleFault;
use std::alloc::AllocError;
use std::io;
use std::io::{ErrorKind, Read, Write};
use std::test::Fail;
use std::thread::SpawnError;

#[test]
fn lines_and_statuses(rt: HostRuntime) -> Result<(), Fail> {
    let refused = ThreadFault::from(SpawnError { value: () });
    let table = [
        (Fault::CommandLine, "crnsim: command line", 2u8),
        (
            Fault::Scenario(ScenarioFault::NoDocument),
            "crnsim: scenario 1",
            3,
        ),
        (
            Fault::Scenario(ScenarioFault::PolicyCount),
            "crnsim: scenario 13",
            3,
        ),
        (
            Fault::Checkpoint(CheckpointFault::NoCheckpoint),
            "crnsim: checkpoint 1",
            4,
        ),
        (
            Fault::Migration(MigrateFault::NewVersion),
            "crnsim: checkpoint 5",
            4,
        ),
        (
            Fault::Schedule(ScheduleFault::Line),
            "crnsim: schedule 1",
            4,
        ),
        (Fault::Reading(ReadFault::TooLong), "crnsim: reading", 5),
        (Fault::Writing(WriteFault::NoByte), "crnsim: writing", 5),
        (Fault::Thread(refused), "crnsim: thread", 6),
        (Fault::Gate, "crnsim: gate", 6),
        (Fault::Memory(AllocError), "crnsim: memory", 7),
    ];
    for (fault, line, status) in table {
        let text = fault.to_string(rt.alloc())?;
        assert_eq!(rt; text.as_str(), line);
        assert_eq!(rt; fault.status(), status, "{line}");
    }
    Ok(())
}

// The program shows the other numbers of these faults.
#[test]
fn numbers_of_refused_memory(rt: HostRuntime) {
    let numbers = [
        ScenarioFault::Memory(AllocError).number(),
        CheckpointFault::Memory(AllocError).number(),
        MigrateFault::Memory(AllocError).number(),
        ScheduleFault::Memory(AllocError).number(),
    ];
    assert_eq!(rt; numbers, [90; 4]);
}

// Is interrupted at each call.
#[derive(Drop)]
struct Interrupted;

impl Read for Interrupted {
    fn read(&mut self, _buf: &mut [u8]) -> io::Result<usize> {
        Err(io::Error::from(ErrorKind::Interrupted))
    }
}

impl Write for Interrupted {
    fn write(&mut self, _buf: &[u8]) -> io::Result<usize> {
        Err(io::Error::from(ErrorKind::Interrupted))
    }

    fn flush(&mut self) -> io::Result<()> {
        Ok(())
    }
}

// The error of a read or a write that a fault carries.
fn error_of(answer: Result<(), Fault>) -> Option<ErrorKind> {
    match answer {
        Err(Fault::Reading(ReadFault::Failed(error))) => Some(error.kind()),
        Err(Fault::Writing(WriteFault::Failed(error))) => Some(error.kind()),
        _ => None,
    }
}

#[test]
fn errors_of_reads_and_writes(rt: HostRuntime) {
    let mut stream = Interrupted;
    let mut out = Vec::new(rt.alloc());
    let reading = replay_run(rt.alloc(), 1, 2, 0, &mut stream, &mut out);
    assert_eq!(rt; error_of(reading), Some(ErrorKind::Interrupted));
    assert!(rt; out.is_empty());
    let writing = write_words(rt.alloc(), [0; 4], 0, &mut stream);
    assert_eq!(rt; error_of(writing), Some(ErrorKind::Interrupted));
}
